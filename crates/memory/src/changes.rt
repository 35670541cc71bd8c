// Which entries of a page table changed: as a mask, how many, and the first.
ghost use Rattle.std.specs.Prelude.{◌<◌, ◌≤◌, ◌≡◌, not, get_or};
ghost use Rattle.memory.specs.Page.{unmapped};
ghost use Rattle.memory.specs.Changes.{same, changed, table_changes, prg_changes, chr_changes, changes};

use crate::Memory;
use crate::mask::mask_of;
use crate::page::Page;

// The mask is as wide as the table has entries.
#[derive(Clone, Copy)]
pub struct Changes<M> {
    pub mask: M,
    pub count: u32,
    // L15: the lowest changed entry, or the table's length: that number is in the log's answers too, so it is no Option.
    pub lowest: u32,
}

// Which entries of the two page tables a write changed.
#[derive(Clone, Copy)]
pub struct Changed {
    pub prg: Changes<u64>,
    pub chr: Changes<u16>,
}

// An entry differs in its flag too. `N ≤ 64` here, below and in memory_map: a mask has 64 bits, and no type of a const parameter says so.
fn changed_mask<const N: usize>(old: &[Page; N], new: &[Page; N]) -> u64
    requires { N ≤ 64 }
    ensures { result ≡ changed old.now new.now }
{
    let differs = |i: usize| -> bool
        requires { i < N }
        ensures { result ≡ not (same (get_or old.entry.now i unmapped) (get_or new.entry.now i unmapped)) }
    { old[i] != new[i] };
    mask_of(N, differs)
}

// What changed between two tables.
fn table_changes<const N: usize>(old: &[Page; N], new: &[Page; N]) -> Changes<u64>
    requires { N ≤ 64 }
    ensures { result ≡ table_changes old.now new.now }
{
    let mask = changed_mask(old, new);
    Changes {
        mask,
        count: mask.count_ones(),
        lowest: mask.trailing_zeros().min(N as u32),
    }
}

// What changed between two PRG tables. The masks of the two tables are of two types, and a conversion that serves both
// may fail, so one function of the type would answer an option.
#[tactic(auto, unfolding(crate::specs::Changes::prg_changes))]
pub fn prg_changes(old: &[Page; 64], new: &[Page; 64]) -> Changes<u64>
    ensures { result ≡ prg_changes old.now new.now }
{
    table_changes(old, new)
}

// What changed between two CHR tables.
pub fn chr_changes(old: &[Page; 16], new: &[Page; 16]) -> Changes<u16>
    ensures { result ≡ chr_changes old.now new.now }
{
    let Changes {
        mask,
        count,
        lowest,
    } = table_changes(old, new);
    Changes {
        mask: mask as u16,
        count,
        lowest,
    }
}

// What changed between two memories.
#[tactic(auto, unfolding(crate::specs::Changes::changes))]
pub fn changes_between(old: &Memory, new: &Memory) -> Changed
    ensures { result ≡ changes old.now new.now }
{
    Changed {
        prg: prg_changes(&old.prg_pages, &new.prg_pages),
        chr: chr_changes(&old.chr_pages, &new.chr_pages),
    }
}
