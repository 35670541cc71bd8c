// Write protection of the 163 (L19 to L21): a layer over the page tables and the registers of the Rust, which know no edition.
#![tactic(auto)]

ghost use Rattle.std.specs.Prelude.{◌/◌, ◌<◌, ◌≡◌};
ghost use Rattle.memory.specs.Range.{Sized};
ghost use Rattle.memory_map.specs.Windows.{with_flag};
ghost use Rattle.board_protection.specs.Protection.{unprotected, protect_parts, remap_banks, remaps_in};

use board_banking::update_banks;
use board_chip::namco163::{Board, Namco163};
use board_registers::writes::remaps;
use memory::Memory;
use memory::page::Page;
use memory_map::table::each_page;
use memory_map::windows::with_flag;

// Whether a part of 2,048 bytes takes stores, by the byte of F800.
fn unprotected(protect: u8, part: u8) -> bool
    requires { part < 4 }
    ensures { result ≡ unprotected protect part }
{
    (protect / 16 == 4) & ((protect >> part) % 2 != 1)
}

// The eight entries of 6000..7FFF, two to a part.
fn protect_parts(m: &mut Memory, protect: u8)
    ensures { m.new ≡ protect_parts protect m.old }
{
    let flagged = |i: usize, page: Page|
        requires { i < 8 }
        ensures { result ≡ with_flag (unprotected protect (i / 2)) page }
    { with_flag(page, unprotected(protect, (i / 2) as u8)) };
    each_page(&mut m.prg_pages, 24, 8, flagged);
}

// The page tables by the registers, in either edition. The flags are set after the Rust's own mapping, which opens all of a 163. `Sized` is
// asked as in memory/src/lib.rt.
pub fn remap_banks(protects: bool, chip: Namco163, mut m: Memory) -> Memory
    requires { Sized m }
    ensures { result ≡ remap_banks protects chip m }
{
    update_banks(&chip, &mut m);
    if !(protects & chip.board.is_163()) {
        return m;
    }
    protect_parts(&mut m, chip.regs.prg_ram_protect);
    m
}

// Whether a write makes the tables anew.
#[tactic(auto, unfolding(crate::specs::Protection::remaps_in))]
pub fn remaps_in(protects: bool, old: Board, new: Board, addr: u16) -> bool
    ensures { result ≡ remaps_in protects old new addr }
{
    remaps(old, new, addr) | (protects & ((0xF800 <= addr) & new.is_163()))
}
