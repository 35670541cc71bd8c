// Whether the page counts, the used reserve and the entries are in range: R9.
ghost use Rattle.std.specs.Prelude.{◌≤◌, ◌≡◌};
ghost use Rattle.limits.specs.Every.{every};
ghost use Rattle.limits.specs.Limits.{arena_most};
ghost use Rattle.memory.specs.Range.{layout_ok, used_ok, entry_ok, entry_test, memory_ok};

use crate::Memory;
use crate::layout::Layout;
use crate::page::Page;
use limits::{BATTERY_PAGES, CHR_PAGES, CIRAM_PAGES, PRG_RAM_PAGES, PRG_ROM_PAGES, USED_MOST};

#[tactic(auto, unfolding(crate::specs::Range::layout_ok))]
fn layout_ok(l: Layout) -> bool
    ensures { result ≡ layout_ok l }
{
    (l.prg_rom <= PRG_ROM_PAGES)
        & ((l.prg_ram <= PRG_RAM_PAGES)
            & ((l.battery_ext <= BATTERY_PAGES)
                & ((l.chr <= CHR_PAGES) & ((l.ciram <= CIRAM_PAGES) & (1 <= l.ciram)))))
}

#[tactic(auto, unfolding(crate::specs::Range::used_ok))]
fn used_ok(used: usize, l: Layout) -> bool
    ensures { result ≡ used_ok used l }
{
    (used == 0) | ((used == USED_MOST) & (1 <= l.battery_ext))
}

// An entry of an arena of so many bytes. No test is skipped, so that many entries are tested at a time.
#[tactic(auto, unfolding(crate::specs::Range::entry_ok))]
fn entry_ok(bytes: u32, p: Page) -> bool
    requires { bytes ≤ arena_most }
    ensures { result ≡ entry_ok bytes p }
{
    let offset = p.0 % 0x4000_0000;
    (offset % 1024 == 0) & ((offset < bytes) & (p.0 / 0x4000_0000 % 2 != 1))
}

// Whether each entry of a table passes.
fn table_ok<const N: usize>(bytes: u32, pages: &[Page; N]) -> bool
    requires { bytes ≤ arena_most }
    ensures { result ≡ every N (entry_test bytes pages.now) }
{
    let mut ok = true;
    for p in pages {
        ok &= entry_ok(bytes, *p);
    }
    ok
}

pub fn memory_ok(m: &Memory) -> bool
    ensures { result ≡ memory_ok m.now }
{
    if !layout_ok(m.layout) {
        return false;
    }
    let bytes = m.layout.arena_len() as u32;
    used_ok(m.battery_ext_len, m.layout)
        & (table_ok(bytes, &m.prg_pages) & table_ok(bytes, &m.chr_pages))
}
