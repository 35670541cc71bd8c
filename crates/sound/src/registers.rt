// The sound port: a byte of sound RAM behind an address that can move on by itself.

ghost use Rattle.std.specs.Prelude.{◌≡◌, slice_set};
ghost use Rattle.sound.specs.Audio.{with_ram};
ghost use Rattle.sound.specs.Registers.{advanced, peeked, read_of, written};

use crate::audio::Audio;

impl Audio {
    // The byte at the sound address, and 0 for an address behind the sound RAM.
    #[tactic(auto, unfolding(crate::specs::Registers::peeked))]
    pub fn peek_register(&self, addr: u16) -> u8
        ensures { result ≡ peeked self.now addr }
    {
        match addr {
            0x4800..=0x4FFF => self.ram.get(self.addr).copied().unwrap_or(0),
            _ => 0,
        }
    }

    // Stores a byte at the sound address; behind the sound RAM there is none.
    fn store(&mut self, val: u8)
        ensures { self.new ≡ with_ram self.old (slice_set self.old.ram self.old.addr val) }
    {
        if self.addr < Audio::RAM_SIZE {
            self.ram[self.addr] = val;
        }
    }

    // Moves the address on after an access.
    #[tactic(auto, unfolding(crate::specs::Registers::advanced))]
    fn advance(&mut self)
        ensures { self.new ≡ advanced self.old }
    {
        if self.auto_increment {
            self.addr = self.addr.wrapping_add(1) % Audio::RAM_SIZE;
        }
    }

    #[tactic(auto, unfolding(crate::specs::Registers::read_of))]
    pub fn read_register(&mut self, addr: u16) -> u8
        ensures { (result ≡ (read_of self.old addr).byte) × (self.new ≡ (read_of self.old addr).audio) }
    {
        let byte = self.peek_register(addr);
        self.advance();
        byte
    }

    #[tactic(auto, unfolding(crate::specs::Registers::written))]
    pub fn write_register(&mut self, addr: u16, val: u8)
        ensures { self.new ≡ written self.old addr val }
    {
        match addr {
            0x4800..=0x4FFF => {
                self.store(val);
                self.advance();
            }
            0xE000..=0xE7FF => self.disabled = val / 64 % 2 == 1,
            0xF800..=0xFFFF => {
                self.addr = usize::from(val % 128);
                self.auto_increment = val / 128 == 1;
            }
            _ => {}
        }
    }
}
