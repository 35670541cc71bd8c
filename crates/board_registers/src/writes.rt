// Register writes by their address: 4800..7FFF, and which functions have the rest.
ghost use Rattle.std.specs.Prelude.{◌≡◌};
ghost use Rattle.board_registers.specs.Writes.{write_sound_data, write_counter_low, write_counter_high, write_work_ram, write_chip, remaps};

use board_chip::namco163::{Board, Namco163};
use board_chr::slots;
use board_prg::banks;

// 4800..4FFF: the sound port's data.
#[tactic(auto, unfolding(crate::specs::Writes::write_sound_data))]
fn write_sound_data(chip: Namco163, addr: u16, val: u8) -> Namco163
    ensures { result ≡ write_sound_data chip addr val }
{
    let mut chip = chip.maybe_set_board(Board::Namco163);
    chip.audio.write_register(addr, val);
    chip
}

// 5000..57FF: the counter's low byte.
#[tactic(auto, unfolding(crate::specs::Writes::write_counter_low))]
fn write_counter_low(chip: Namco163, val: u8) -> Namco163
    ensures { result ≡ write_counter_low chip val }
{
    let mut chip = chip.maybe_set_board(Board::Namco163);
    chip.regs.irq_counter = chip.regs.irq_counter / 256 * 256 + u16::from(val);
    chip.regs.irq_pending = false;
    chip
}

// 5800..5FFF: the counter's high byte, with the enable in bit 7.
#[tactic(auto, unfolding(crate::specs::Writes::write_counter_high))]
fn write_counter_high(chip: Namco163, val: u8) -> Namco163
    ensures { result ≡ write_counter_high chip val }
{
    let mut chip = chip.maybe_set_board(Board::Namco163);
    chip.regs.irq_counter = chip.regs.irq_counter % 256 + u16::from(val) * 256;
    chip.regs.irq_pending = false;
    chip
}

// 6000..7FFF: only the flag. The Rust asks for a step from a 340 to Unknown, which the flag, set before it, refuses (L10).
fn write_work_ram(mut chip: Namco163) -> Namco163
    ensures { result ≡ write_work_ram chip }
{
    chip.prg_ram_written_to = true;
    chip
}

// The registers after a write. The tables are mapped anew where `remaps` says so.
#[tactic(auto, unfolding(crate::specs::Writes::write_chip))]
pub fn write_register(chip: Namco163, addr: u16, val: u8) -> Namco163
    ensures { result ≡ write_chip chip addr val }
{
    match addr {
        0x4800..=0x4FFF => write_sound_data(chip, addr, val),
        0x5000..=0x57FF => write_counter_low(chip, val),
        0x5800..=0x5FFF => write_counter_high(chip, val),
        0x6000..=0x7FFF => write_work_ram(chip),
        0x8000..=0xBFFF => slots::write_slot(chip, addr, val),
        0xC000..=0xC7FF => slots::write_c000(chip, addr, val),
        0xC800..=0xDFFF => slots::write_c800(chip, addr, val),
        0xE000..=0xE7FF => banks::write_e000(chip, addr, val),
        0xE800..=0xEFFF => banks::write_e800(chip, val),
        0xF000..=0xF7FF => banks::write_f000(chip, val),
        0xF800..=0xFFFF => banks::write_f800(chip, addr, val),
        _ => chip,
    }
}

// L14: whether a write maps the tables anew: one to 8000..F7FF, whether or not a register changed, or one that changed the board. What is
// left, the sound port, the counter, work RAM and the port's address, is written far more often than banks are.
#[tactic(auto, unfolding(crate::specs::Writes::remaps))]
pub fn remaps(old: Board, new: Board, addr: u16) -> bool
    ensures { result ≡ remaps old new addr }
{
    matches!(addr, 0x8000..=0xF7FF) || old != new
}
