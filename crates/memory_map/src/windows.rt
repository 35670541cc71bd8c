// Windows of the two address spaces: banks of a region mapped into a page table.
// `Sized` is asked as in memory/src/lib.rt, and where a region ends as in memory/src/layout.rt. An address and a size stand side by side
// for a window, and `0 < size` is asked where a size divides: a type of the two with that fact would be made at each call from two numbers
// and taken apart at once, by `unmap_prg` and `set_prg_writable` too, which do not need the fact.
ghost use Rattle.std.specs.Prelude.{◌+◌, ◌*◌, ◌/◌, ◌^◌, ◌≤◌, ◌<◌, ◌≡◌};
ghost use Rattle.memory_map.specs.Windows.{banks_of, window_base, region_page, with_flag};
ghost use Rattle.memory_map.specs.Windows.{map_pages, map_prg, unmap_prg, set_prg_writable};
ghost use Rattle.limits.specs.Limits.{arena_most};
ghost use Rattle.memory.specs.Range.{Sized};

use crate::table::each_page;
use memory::Memory;
use memory::layout::{Region, Src};
use memory::page::Page;

// How many windows a region has, at least one.
fn banks(len: usize, size: usize) -> usize
    requires { 0 < size }
    ensures { (result ≡ banks_of len size) × (0 < result) }
{
    (len / size).max(1)
}

// Where a bank begins in its region. Numbers below 0 count from the last bank down.
fn window_base(len: usize, size: usize, bank: i32) -> usize
    requires { (0 < size) × (len ≤ arena_most) }
    ensures { (result ≡ window_base len size bank) × (result ≤ len) }
{
    bank.rem_euclid(banks(len, size) as i32) as usize * size
}

// The page at an offset of a region, which wraps.
#[tactic(auto, unfolding(crate::specs::Windows::region_page))]
fn region_page(region: Region, offset: usize) -> Page
    requires { region.start + region.len < 2 ^ 30 }
    ensures { result ≡ region_page region offset }
{
    if region.len == 0 {
        return Page::UNMAPPED;
    }
    Page::new(region.start + offset % region.len, region.writable)
}

// The offset kept, the flag set; an unmapped entry stays unmapped.
pub fn with_flag(page: Page, writable: bool) -> Page
    ensures { result ≡ with_flag writable page }
{
    if page == Page::UNMAPPED {
        return page;
    }
    Page::new(page.offset(), writable)
}

// A window of a table shows a bank of a region; −1 is the last bank.
pub fn map_pages<const N: usize>(
    pages: &mut [Page; N],
    addr: u16,
    size: usize,
    bank: i32,
    region: Region,
)
    requires { (0 < N) × (N ≤ 64) × (region.start + region.len ≤ arena_most) × (0 < size) }
    ensures { pages.new ≡ map_pages N region size bank (addr / 1024) pages.old }
{
    let base = window_base(region.len, size, bank);
    let shown = |i: usize, _: Page|
        requires { (region.start + region.len < 2 ^ 30) × (base + 1024 * i < 2 ^ 64) }
        ensures { result ≡ region_page region (base + 1024 * i) }
    { region_page(region, base + 1024 * i) };
    each_page(pages, usize::from(addr / 1024), size / 1024, shown);
}

// Maps a window of the CPU's address space to a bank of a region.
pub fn map_prg(m: &mut Memory, addr: u16, size: usize, bank: i32, src: Src)
    requires { (Sized m.old) × (0 < size) }
    ensures { (m.new ≡ map_prg m.old addr size bank src) × (Sized m.new) }
{
    let region = m.region(src);
    map_pages(&mut m.prg_pages, addr, size, bank, region);
}

// A window of the CPU's address space shows the zero page and drops writes.
pub fn unmap_prg(m: &mut Memory, addr: u16, size: usize)
    requires { Sized m.old }
    ensures { (m.new ≡ unmap_prg m.old addr size) × (Sized m.new) }
{
    each_page(
        &mut m.prg_pages,
        usize::from(addr / 1024),
        size / 1024,
        |_, _| Page::UNMAPPED,
    );
}

// Whether a window takes writes, for boards that protect PRG-RAM.
pub fn set_prg_writable(m: &mut Memory, addr: u16, size: usize, writable: bool)
    requires { Sized m.old }
    ensures { (m.new ≡ set_prg_writable m.old addr size writable) × (Sized m.new) }
{
    each_page(
        &mut m.prg_pages,
        usize::from(addr / 1024),
        size / 1024,
        |_, page| with_flag(page, writable),
    );
}
