// Which CPU pages a call touches (K5): bit k of a mask is CPU page k. What a write changes in the table is the mask that it answers; here
// is which pages show the byte that a call stores.
#![tactic(auto)]

ghost use Rattle.std.specs.Prelude.{◌≡◌};
ghost use Rattle.memory.specs.Memory.{region_in};
ghost use Rattle.memory.specs.Range.{Sized};
ghost use Rattle.memory_bytes.specs.Bytes.{prg_entry, chr_entry, place, stored_at, wrapped_at};
ghost use Rattle.directory_touched.specs.Touched.{shows_byte, shown_mask, shown_by};

use memory::Memory;
use memory::layout::Src;
use memory::mask::mask_of;
use memory::page::Page;
use memory_bytes::bytes::{chr_entry, prg_entry, stored_at, wrapped_at};

// Whether an entry shows the arena page of a byte.
fn shows(page: Page, byte: usize) -> bool
    ensures { result ≡ shows_byte page byte }
{
    page.offset() / 1024 == byte / 1024
}

// The pages that show the arena page of a byte.
pub fn shown_mask(pages: [Page; 64], byte: usize) -> u64
    ensures { result ≡ shown_mask pages byte }
{
    mask_of(64, |i| shows(pages[i], byte))
}

// The pages that show the byte at a place, if there is one.
fn shown_by(pages: [Page; 64], at: Option<usize>) -> u64
    ensures { result ≡ shown_by pages (place at) }
{
    match at {
        Some(byte) => shown_mask(pages, byte),
        None => 0,
    }
}

// Of a CPU write. This and the next are a line each over the one function, which would gain a parameter for the entry.
pub fn stored_prg(m: Memory, addr: u16) -> u64
    ensures { result ≡ shown_by m.prg_pages (stored_at (prg_entry m addr) addr) }
{
    shown_by(m.prg_pages, stored_at(prg_entry(&m, addr), addr))
}

// Of a CHR write.
pub fn stored_chr(m: Memory, addr: u16) -> u64
    ensures { result ≡ shown_by m.prg_pages (stored_at (chr_entry m addr) addr) }
{
    shown_by(m.prg_pages, stored_at(chr_entry(&m, addr), addr))
}

// Of a region write, at an offset that wraps. `Sized` is asked as in memory/src/lib.rt.
pub fn stored_region(m: Memory, src: Src, offset: u64) -> u64
    requires { Sized m }
    ensures { result ≡ shown_by m.prg_pages (wrapped_at (region_in m src) offset) }
{
    shown_by(m.prg_pages, wrapped_at(m.region(src), offset))
}
