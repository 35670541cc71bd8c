// `step` does the work on a port by value and answers a struct, so that `read` is one thin function behind `&mut`, as F2 and F14 ask.
ghost use Rattle.std.specs.Prelude.{◌≡◌};
ghost use Rattle.sound_port.specs.Lent.{step_of, byte_of, after_read, port_of};

use sound::audio::Audio;

// The three fields of `Audio` that a read of 4800..4FFF looks at.
#[derive(Clone, Copy)]
pub struct Port {
    pub ram: [u8; Audio::RAM_SIZE],
    pub addr: usize,
    pub auto_increment: bool,
}

// A read's answer: the byte, and the port after it.
#[derive(Clone, Copy)]
pub struct PortRead {
    pub byte: u8,
    pub port: Port,
}

impl Port {
    // The port of a sound chip.
    pub fn of(audio: Audio) -> Port
        ensures { result ≡ port_of audio }
    {
        let Audio {
            ram,
            addr,
            auto_increment,
            ..
        } = audio;
        Port {
            ram,
            addr,
            auto_increment,
        }
    }

    // The address register has seven bits, so an address of 128 or more counts by its remainder.
    pub fn step(mut self) -> PortRead
        ensures { result ≡ step_of self }
    {
        let at = self.addr % Audio::RAM_SIZE;
        let byte = self.ram[at];
        if self.auto_increment {
            self.addr = (at + 1) % Audio::RAM_SIZE;
        }
        PortRead { byte, port: self }
    }

    pub fn read(&mut self) -> u8
        ensures { (result ≡ byte_of self.old) × (self.new ≡ after_read self.old) }
    {
        let PortRead { byte, port } = self.step();
        *self = port;
        byte
    }
}
