// Words back to the fields that they hold.
ghost use Rattle.std.specs.Prelude.{◌≡◌, ◌++◌, map, ◌/◌, ◌%◌, ◌<◌, replicate};
ghost use Rattle.bits.specs.Fields.{unpack};
ghost use Rattle.image_write.specs.Image.{part, chip_widths};
ghost use Rattle.image_read.specs.Reading.{is_set, options_from, high_from, options_of, output_from, regs_from};
ghost use Rattle.image_read.specs.Reading.{board_numbered, mirroring_numbered};

use bits::words::store;
use board_chip::namco163::{Board, Regs};
use board_state::Options;
use memory::mirroring::Mirroring;

pub fn regs_of(w: u64) -> Regs
    ensures { result ≡ regs_from (unpack (part chip_widths 0) w) }
{
    Regs {
        irq_counter: (w / 0x20_0000_0000 % 65536) as u16,
        irq_pending: w / 0x10_0000_0000 % 2 == 1,
        nt_select_lo: w / 0x08_0000_0000 % 2 == 1,
        nt_select_hi: w / 0x04_0000_0000 % 2 == 1,
        prg_ram_protect: (w / 0x0400_0000 % 256) as u8,
    }
}

// H9, H11: the options of their byte.
pub fn options_numbered(byte: u8) -> Options
    ensures { result ≡ options_from (options_of byte) }
{
    Options {
        f800_protects: byte / 128 % 2 == 1,
        signed_levels: byte / 64 % 2 == 1,
        plain_sum: byte / 32 % 2 == 1,
    }
}

// H12: the high bit of the count of PRG-RAM pages.
pub fn high_of(byte: u8) -> u8
    ensures { result ≡ high_from (options_of byte) }
{
    byte / 16 % 2
}

// H11: the channel output of its 12 bits.
pub fn output_numbered(n: u32, signed: bool) -> f32
    requires { n < 4096 }
    ensures { result ≡ output_from signed n }
{
    if signed && 2048 <= n {
        return ((n as i32) - 4096) as f32;
    }
    n as f32
}

// This and the next are total, as their definitions are: what they give of a number that none has is read by nobody, since `read_body`
// refuses a mirroring above 4 and two bits hold the boards. One function for both would take the type, the last number and the last value.
pub fn board_numbered(n: u64) -> Board
    ensures { result ≡ board_numbered n }
{
    Board::try_from(n.min(3) as u8).unwrap_or(Board::Namco340)
}

pub fn mirroring_numbered(n: u64) -> Mirroring
    ensures { result ≡ mirroring_numbered n }
{
    Mirroring::try_from(n.min(4) as u8).unwrap_or(Mirroring::FourScreen)
}

// The twelve CIRAM flags of their word.
pub fn flags_of(w: u64) -> [bool; 12]
    ensures { result ≡ map is_set (unpack (replicate 12 1) w) }
{
    std::array::from_fn(|i| (w >> (11 - i)) % 2 == 1)
}

// The twelve CHR banks of two words, six in each.
pub fn chr_banks_of(a: u64, b: u64) -> [u8; 12]
    ensures { result ≡ unpack (replicate 6 8) a ++ unpack (replicate 6 8) b }
{
    let mut banks = [0; 12];
    store(&mut banks, 0, 6, a);
    store(&mut banks, 6, 6, b);
    banks
}

pub fn prg_banks_of(w: u64) -> [u8; 3]
    ensures { result ≡ unpack (replicate 3 6) w }
{
    [(w / 4096 % 64) as u8, (w / 64 % 64) as u8, (w % 64) as u8]
}
