// Nametable mirroring: which CIRAM page each nametable shows.
ghost use Rattle.std.specs.Prelude.{◌+◌, ◌%◌, ◌^◌, ◌≤◌, ◌<◌, ◌≡◌, get_or};
ghost use Rattle.memory.specs.Range.{Sized};
ghost use Rattle.memory_map.specs.Mirroring.{ciram_banks, nametable_page, set_mirroring};

use crate::table::each_page;
use memory::Memory;
use memory::layout::{Region, Src};
use memory::mirroring::Mirroring;
use memory::page::Page;

// The CIRAM bank of each of the four nametables.
fn ciram_banks(mirroring: Mirroring) -> [usize; 4]
    ensures { result ≡ ciram_banks mirroring }
{
    match mirroring {
        Mirroring::Vertical => [0, 1, 0, 1],
        Mirroring::Horizontal => [0, 0, 1, 1],
        Mirroring::SingleScreenA => [0, 0, 0, 0],
        Mirroring::SingleScreenB => [1, 1, 1, 1],
        Mirroring::FourScreen => [0, 1, 2, 3],
    }
}

// The CIRAM page of a nametable.
#[tactic(auto, unfolding(crate::specs::Mirroring::nametable_page))]
fn nametable_page(ciram: Region, bank: usize) -> Page
    requires { (ciram.start + ciram.len < 2 ^ 30) × (1024 ≤ ciram.len) }
    ensures { result ≡ nametable_page ciram bank }
{
    Page::new(ciram.start + 1024 * (bank % (ciram.len / 1024)), true)
}

// Points the nametables at CIRAM: all eight entries, $3000 as $2000. `Sized` is asked as in memory/src/lib.rt.
pub fn set_mirroring(m: &mut Memory, mirroring: Mirroring)
    requires { Sized m.old }
    ensures { (m.new ≡ set_mirroring m.old mirroring) × (Sized m.new) }
{
    let ciram = m.region(Src::CiRam);
    let banks = ciram_banks(mirroring);
    let shown = |i: usize, _: Page|
        requires { (ciram.start + ciram.len < 2 ^ 30) × (1024 ≤ ciram.len) }
        ensures { result ≡ nametable_page ciram (get_or banks (i % 4) 0) }
    { nametable_page(ciram, banks[i % 4]) };
    each_page(&mut m.chr_pages, 8, 8, shown);
}
