// The memory of a cart.
ghost use Rattle.std.specs.Prelude.{◌≡◌, true};
ghost use Rattle.memory.specs.Layout.{within_limits};
ghost use Rattle.memory.specs.Range.{Sized};
ghost use Rattle.memory_map.specs.New.{new_memory};

use crate::mirroring::set_mirroring;
use memory::Memory;
use memory::layout::{Layout, MemoryLayout};
use memory::mirroring::Mirroring;
use memory::page::Page;

// The memory of a cart with these sizes: no entry is mapped but the nametables.
pub fn new_memory(sizes: MemoryLayout) -> Memory
    requires { within_limits sizes ≡ true }
    ensures { (result ≡ new_memory sizes) × (Sized result) }
{
    let mut memory = Memory {
        layout: Layout::new(sizes),
        battery_ext_len: 0,
        prg_pages: [Page::UNMAPPED; 64],
        chr_pages: [Page::UNMAPPED; 16],
    };
    set_mirroring(&mut memory, Mirroring::Horizontal);
    memory
}
