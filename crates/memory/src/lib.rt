// The board's memory: page entries, the layout of the arena, the two page tables, their range and which entries of them change.
#![tactic(auto)]

ghost use Rattle.std.specs.Prelude.{◌+◌, ◌≤◌, ◌≡◌};
ghost use Rattle.limits.specs.Limits.{arena_most};
ghost use Rattle.memory.specs.Memory.{region_in};
ghost use Rattle.memory.specs.Range.{Sized};

use layout::{Layout, Region, Src};
use page::Page;

pub mod changes; // changes.rt: which entries changed
pub mod layout; // layout.rt: sizes, page counts and regions
pub mod mask; // mask.rt: a bit for each entry that passes a test
pub mod mirroring; // mirroring.rt: the kinds of nametable mirroring
pub mod page; // page.rt: a page entry
pub mod range; // range.rt: whether a memory is in range

// The memory without its bytes, which lie in an arena that the caller lends.
#[derive(Clone, Copy)]
pub struct Memory {
    pub layout: Layout,
    // How much of the battery reserve is used, as R8 names it. A length without its bytes, since no crate of the archive allocates.
    pub battery_ext_len: usize,
    pub prg_pages: [Page; 64],
    pub chr_pages: [Page; 16],
}

impl Memory {
    // A region, by how much of the battery reserve is used. `Sized` is asked here and by what maps pages, and is in no type: a
    // host may lend any memory, and a type for a sized one would be taken apart and made again at each mapping.
    pub fn region(&self, src: Src) -> Region
        requires { Sized self.now }
        ensures { (result ≡ region_in self.now src) × (result.start + result.len ≤ arena_most) }
    {
        self.layout.region(self.battery_ext_len, src)
    }
}
