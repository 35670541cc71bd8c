// Register writes to 8000..DFFF: CHR and nametable slots, and a 175's protect byte.
ghost use Rattle.std.specs.Prelude.{◌≡◌};
ghost use Rattle.board_chr.specs.Slots.{sets_ciram, write_slot, write_nametable, write_c000, write_c800};

use board_chip::namco163::{Board, Namco163};

// Whether a slot's write selects CIRAM: the select bits act here and not when the slot is shown.
#[tactic(auto, unfolding(crate::specs::Slots::sets_ciram))]
fn sets_ciram(chip: Namco163, addr: u16, val: u8) -> bool
    ensures { result ≡ sets_ciram chip addr val }
{
    let selected = match addr {
        0x0000..=0x9FFF => !chip.regs.nt_select_lo,
        0xA000..=0xBFFF => !chip.regs.nt_select_hi,
        _ => true,
    };
    val >= 0xE0 && chip.board.is_163() && selected
}

// 8000..BFFF on every board, and C000..DFFF on a 163: the flag and the bank of a slot. An address below 8000 counts
// as 8000, and from E000 on there is no slot; the callers have neither.
#[tactic(auto, unfolding(crate::specs::Slots::write_slot))]
pub fn write_slot(mut chip: Namco163, addr: u16, val: u8) -> Namco163
    ensures { result ≡ write_slot chip addr val }
{
    let slot = usize::from(addr.saturating_sub(0x8000) / 2048);
    if slot < 12 {
        let ciram = sets_ciram(chip, addr, val);
        chip.nt_bank_enable[slot] = ciram;
        chip.chr_banks[slot] = if ciram { val % 2 } else { val };
    }
    chip
}

// L11: C000..DFFF after detection: a 163's slot, a 175's protect byte, and nothing on the other boards. Only a 163 has registers for its
// nametables; a 175's mirroring is wired, and a 340's comes from E000.
#[tactic(auto, unfolding(crate::specs::Slots::write_nametable))]
fn write_nametable(mut chip: Namco163, addr: u16, val: u8) -> Namco163
    ensures { result ≡ write_nametable chip addr val }
{
    match chip.board {
        Board::Namco175 => {
            chip.regs.prg_ram_protect = val;
            chip
        }
        Board::Namco163 => write_slot(chip, addr, val),
        Board::Unknown | Board::Namco340 => chip,
    }
}

// C000..C7FF.
#[tactic(auto, unfolding(crate::specs::Slots::write_c000))]
pub fn write_c000(chip: Namco163, addr: u16, val: u8) -> Namco163
    ensures { result ≡ write_c000 chip addr val }
{
    if chip.board.is_163() {
        write_nametable(chip, addr, val)
    } else {
        write_nametable(chip.maybe_set_board(Board::Namco175), addr, val)
    }
}

// C800..DFFF.
#[tactic(auto, unfolding(crate::specs::Slots::write_c800))]
pub fn write_c800(chip: Namco163, addr: u16, val: u8) -> Namco163
    ensures { result ≡ write_c800 chip addr val }
{
    write_nametable(chip.maybe_set_board(Board::Namco163), addr, val)
}
