// The page tables by the registers. `Sized` is asked as in memory/src/lib.rt.
#![tactic(auto)]

ghost use Rattle.std.specs.Prelude.{◌≡◌, cond, ◌+◌, ◌≤◌, ◌<◌};
ghost use Rattle.limits.specs.Limits.{arena_most};
ghost use Rattle.memory.specs.Range.{Sized};
ghost use Rattle.board_banking.specs.Banking.{slot_pages, map_slots, map_chr_table, map_bank, map_rom, map_work_ram, update_banks};

use board_chip::namco163::Namco163;
use memory::Memory;
use memory::layout::{Region, Src};
use memory::page::Page;
use memory_map::mirroring::set_mirroring;
use memory_map::windows::{map_pages, map_prg, set_prg_writable, unmap_prg};

// A slot of the PPU's table shows a bank of a region, a nametable at $3000 too.
fn slot_pages(pages: &mut [Page; 16], region: Region, slot: u16, bank: u8)
    requires { (region.start + region.len ≤ arena_most) × (slot < 12) }
    ensures { pages.new ≡ slot_pages region slot bank pages.old }
{
    let size = Namco163::CHR_WINDOW;
    let addr = slot * size as u16;
    map_pages(pages, addr, size, i32::from(bank), region);
    if slot < 8 {
        return;
    }
    map_pages(pages, addr + 0x1000, size, i32::from(bank), region);
}

// The region that a CHR slot shows.
fn slot_region(ciram: bool, chr: Region, nametables: Region) -> Region
    requires { (chr.start + chr.len ≤ arena_most) × (nametables.start + nametables.len ≤ arena_most) }
    ensures { (result ≡ cond ciram nametables chr) × (result.start + result.len ≤ arena_most) }
{
    if ciram { nametables } else { chr }
}

// The first n slots, by number: it is a slot's place in three arrays and its address.
fn map_slots(chip: &Namco163, m: &mut Memory, n: u16)
    requires { (Sized m.old) × (n ≤ 12) }
    ensures { (m.new ≡ map_slots chip.now n m.old) × (Sized m.new) }
{
    let chr = m.region(Src::Chr);
    let nametables = m.region(Src::CiRam);
    let pages = &mut m.chr_pages;
    for slot in 0..n {
        let i = usize::from(slot);
        let region = slot_region(chip.nt_bank_enable[i], chr, nametables);
        slot_pages(pages, region, slot, chip.chr_banks[i]);
    }
}

// On a 163 the nametables are slots like the others, each CHR or CIRAM, so that the board says patterns and nametables in one way. A 210
// has no registers for them: they are wired on a 175 and come from E000 on a 340.
fn map_chr_table(chip: &Namco163, m: &mut Memory)
    requires { Sized m.old }
    ensures { (m.new ≡ map_chr_table chip.now m.old) × (Sized m.new) }
{
    if chip.board.is_163() {
        return map_slots(chip, m, 12);
    }
    map_slots(chip, m, 8);
    set_mirroring(m, chip.mirroring);
}

// A PRG-ROM bank in a window.
fn map_bank(m: &mut Memory, addr: u16, bank: u8)
    requires { Sized m.old }
    ensures { (m.new ≡ map_bank m.old addr bank) × (Sized m.new) }
{
    map_prg(m, addr, Namco163::PRG_WINDOW, i32::from(bank), Src::PrgRom);
}

fn map_rom(chip: &Namco163, m: &mut Memory)
    requires { Sized m.old }
    ensures { (m.new ≡ map_rom chip.now m.old) × (Sized m.new) }
{
    map_bank(m, 0x8000, chip.prg_banks[0]);
    map_bank(m, 0xA000, chip.prg_banks[1]);
    map_bank(m, 0xC000, chip.prg_banks[2]);
    map_prg(m, 0xE000, Namco163::PRG_WINDOW, -1, Src::PrgRom);
}

fn map_work_ram(chip: &Namco163, m: &mut Memory)
    requires { Sized m.old }
    ensures { m.new ≡ map_work_ram chip.now m.old }
{
    let board = chip.board; // asked twice
    if board.prg_ram_readable() {
        let writable = board.prg_ram_writable(chip.regs.prg_ram_protect);
        map_prg(m, 0x6000, Namco163::PRG_WINDOW, 0, Src::PrgRam);
        return set_prg_writable(m, 0x6000, Namco163::PRG_WINDOW, writable);
    }
    unmap_prg(m, 0x6000, Namco163::PRG_WINDOW);
}

// Detection changes how many slots there are and whether work RAM is mapped, so every table is made anew from the registers.
#[tactic(auto, unfolding(crate::specs::Banking::update_banks))]
pub fn update_banks(chip: &Namco163, m: &mut Memory)
    requires { Sized m.old }
    ensures { m.new ≡ update_banks chip.now m.old }
{
    map_chr_table(chip, m);
    map_rom(chip, m);
    map_work_ram(chip, m);
}
