// Register writes to E000..FFFF: PRG banks, and what their high bits and F800 say to each board.
ghost use Rattle.std.specs.Prelude.{◌≡◌};
ghost use Rattle.board_prg.specs.Banks.{mirroring_e000, detect_e000, high_bits_e000, write_e000, write_e800, write_f000, write_f800};

use board_chip::namco163::{Board, Namco163};
use memory::mirroring::Mirroring;

// Bit 7, or bit 6 on a board that is not a 163, shows a 340.
#[tactic(auto, unfolding(crate::specs::Banks::detect_e000))]
fn detect_e000(chip: Namco163, val: u8) -> Namco163
    ensures { result ≡ detect_e000 chip val }
{
    if val / 128 % 2 == 1 || (val / 64 % 2 == 1 && !chip.board.is_163()) {
        chip.maybe_set_board(Board::Namco340)
    } else {
        chip
    }
}

// The mirroring that a 340 takes from the two high bits.
#[tactic(auto, unfolding(crate::specs::Banks::mirroring_e000))]
fn mirroring_e000(val: u8) -> Mirroring
    ensures { result ≡ mirroring_e000 val }
{
    match val {
        0..=63 => Mirroring::SingleScreenA,
        64..=127 => Mirroring::Vertical,
        128..=191 => Mirroring::Horizontal,
        192..=255 => Mirroring::SingleScreenB,
    }
}

#[tactic(auto, unfolding(crate::specs::Banks::high_bits_e000))]
fn high_bits_e000(mut chip: Namco163, addr: u16, val: u8) -> Namco163
    ensures { result ≡ high_bits_e000 chip addr val }
{
    match chip.board {
        Board::Namco340 => chip.with_mirroring(mirroring_e000(val)),
        Board::Namco163 => {
            chip.audio.write_register(addr, val);
            chip
        }
        Board::Unknown | Board::Namco175 => chip,
    }
}

// E000..E7FF.
#[tactic(auto, unfolding(crate::specs::Banks::write_e000))]
pub fn write_e000(chip: Namco163, addr: u16, val: u8) -> Namco163
    ensures { result ≡ write_e000 chip addr val }
{
    let mut chip = detect_e000(chip, val);
    chip.prg_banks[0] = val % 64;
    high_bits_e000(chip, addr, val)
}

// E800..EFFF: the select bits are a 163's.
#[tactic(auto, unfolding(crate::specs::Banks::write_e800))]
pub fn write_e800(mut chip: Namco163, val: u8) -> Namco163
    ensures { result ≡ write_e800 chip val }
{
    chip.prg_banks[1] = val % 64;
    if chip.board.is_163() {
        chip.regs.nt_select_lo = val / 64 % 2 == 1;
        chip.regs.nt_select_hi = val / 128 % 2 == 1;
    }
    chip
}

// F000..F7FF.
#[tactic(auto, unfolding(crate::specs::Banks::write_f000))]
pub fn write_f000(mut chip: Namco163, val: u8) -> Namco163
    ensures { result ≡ write_f000 chip val }
{
    chip.prg_banks[2] = val % 64;
    chip
}

// F800..FFFF: the sound port's address. The protect byte is only looked at on a 175, so it changes no page here.
#[tactic(auto, unfolding(crate::specs::Banks::write_f800))]
pub fn write_f800(chip: Namco163, addr: u16, val: u8) -> Namco163
    ensures { result ≡ write_f800 chip addr val }
{
    let mut chip = chip.maybe_set_board(Board::Namco163);
    if chip.board.is_163() {
        chip.regs.prg_ram_protect = val;
        chip.audio.write_register(addr, val);
    }
    chip
}
