// Reads the sound RAM through the lent port, prints it, and compares each byte with `read_register` of a sound chip that holds the same.
#![tactic(auto)]

ghost use Rattle.std.specs.Prelude.{◌≡◌, ◌<◌, length};
ghost use Rattle.sound_port_run.specs.Agree.{agree};

use sound::audio::Audio;
use sound_port::Port;
use std::io;

// How many of the bytes are those that as many calls of `read_register` give. Counted by hand: each turn steps the chip, which a closure
// that a `filter` calls would do out of sight.
fn agreeing(mut audio: Audio, bytes: &[u8]) -> usize
    requires { audio.addr < 128 }
    ensures { result ≡ agree bytes.now audio }
{
    let mut same: usize = 0;
    for &byte in bytes {
        if audio.read_register(0x4800) == byte {
            same += 1;
        }
    }
    same
}

fn print_row<P: Print>(rt: &P, row: &[u8]) -> io::Result<()> {
    for (i, byte) in row.iter().enumerate() {
        if i != 0 {
            print!(rt; " ")?;
        }
        print!(rt; "{byte:02x}")?;
    }
    println!(rt; "")
}

// Rows of sixteen bytes.
fn print_rows<P: Print>(rt: &P, bytes: &[u8]) -> io::Result<()> {
    for row in bytes.chunks(16) {
        print_row(rt, row)?;
    }
    Ok(())
}

// Reads through the port; answers how many bytes agree, which are all.
fn show(audio: Audio, bytes: &mut [u8]) -> usize
    requires { audio.addr < 128 }
    ensures { result ≡ length bytes.old }
{
    Port::of(audio).read_block(bytes);
    agreeing(audio, bytes)
}

// A fresh sound chip whose sound RAM holds at each place the place's number.
fn numbered() -> Audio
    ensures { result.addr ≡ 0 }
{
    Audio {
        ram: std::array::from_fn(|i| i as u8),
        ..Audio::new()
    }
}

fn main(rt: HostRuntime) -> io::Result<()> {
    let mut a = numbered();
    let mut all = [0u8; 128];
    let mut row = [0u8; 16];
    println!(rt; "Byte k of the sound RAM holds k.")?;
    println!(rt; "128 reads from 00, auto-increment set:")?;
    a.auto_increment = true;
    let first = show(a, &mut all);
    print_rows(&rt, &all)?;
    println!(rt; "16 reads from 78, auto-increment set:")?;
    a.addr = 0x78;
    let second = show(a, &mut row);
    print_rows(&rt, &row)?;
    println!(rt; "16 reads from 78, auto-increment clear:")?;
    a.auto_increment = false;
    let third = show(a, &mut row);
    print_rows(&rt, &row)?;
    let same = first + second + third;
    prove!(same == 160);
    println!(rt; "{same} of 160 bytes are those of read_register.")
}
