// The bytes behind the page entries and in the regions. The arena is lent: a read borrows it and a write changes it, so it stands beside
// the memory in each call, and one struct of both would have to come in a shared and an exclusive form. So `Backed` is asked of the two.
// The Rust's calls of the two tables, and what gives an entry of either, are a line each. One function of an entry would ask of it where it
// lies in the arena, which each caller would have to show.
ghost use Rattle.std.specs.Prelude.{◌+◌, ◌^◌, ◌≤◌, ◌<◌, ◌≡◌, length, IfSome};
ghost use Rattle.memory.specs.Memory.{region_in};
ghost use Rattle.memory.specs.Range.{Sized};
ghost use Rattle.memory.specs.Page.{offset_of};
ghost use Rattle.memory_bytes.specs.Bytes.{Backed, prg_entry, chr_entry, place, shown_at, stored_at, wrapped_at, fetch, store};
ghost use Rattle.memory_bytes.specs.Bytes.{prg_peek, prg_write, chr_peek, chr_write, region_peek, region_write};
ghost use Rattle.memory_bytes.specs.Bytes.{overlay, fill_region, sram_of};

use memory::Memory;
use memory::layout::{Region, Src};
use memory::page::Page;

// A stretch of the arena.
#[derive(Clone, Copy)]
pub struct Span {
    pub start: usize,
    pub len: usize,
}

// The entry of a CPU address.
pub fn prg_entry(m: &Memory, addr: u16) -> Page
    ensures { result ≡ prg_entry m.now addr }
{
    m.prg_pages[usize::from(addr / 1024)]
}

// The entry of a PPU address, which counts by its remainder.
pub fn chr_entry(m: &Memory, addr: u16) -> Page
    ensures { result ≡ chr_entry m.now addr }
{
    m.chr_pages[usize::from(addr / 1024 % 16)]
}

// Where in the arena an address of a page lies.
fn shown_at(page: Page, addr: u16) -> usize
    ensures { (result ≡ shown_at page addr) × (result < offset_of page + 1024) }
{
    page.offset() + (addr % 1024) as usize
}

// Where a store through an entry goes, if it takes writes.
pub fn stored_at(page: Page, addr: u16) -> Option<usize>
    ensures { place result ≡ stored_at page addr }
{
    if !page.is_writable() {
        return None;
    }
    Some(shown_at(page, addr))
}

// Where in the arena an offset of a region lies, which wraps, if the region has a byte.
pub fn wrapped_at(region: Region, offset: u64) -> Option<usize>
    requires { region.start + region.len < 2 ^ 63 }
    ensures { place result ≡ wrapped_at region offset }
{
    if region.len == 0 {
        return None;
    }
    Some(region.start + (offset % region.len as u64) as usize)
}

// The byte at a place, 0 where there is none.
fn fetch(arena: &[u8], at: Option<usize>) -> u8
    requires { IfSome at (λ i. i < length arena.now) }
    ensures { result ≡ fetch arena.now (place at) }
{
    match at {
        Some(i) => arena[i],
        None => 0,
    }
}

// Stores a byte at a place, if there is one.
fn store(arena: &mut [u8], at: Option<usize>, val: u8)
    requires { IfSome at (λ i. i < length arena.old) }
    ensures { arena.new ≡ store arena.old (place at) val }
{
    if let Some(i) = at {
        arena[i] = val;
    }
}

// Reads a byte of the CPU's address space.
pub fn prg_peek(m: Memory, arena: &[u8], addr: u16) -> u8
    requires { Backed m arena.now }
    ensures { result ≡ prg_peek arena.now m addr }
{
    arena[shown_at(prg_entry(&m, addr), addr)]
}

// Writes a byte of the CPU's address space; pages without the flag drop it.
pub fn prg_write(m: Memory, arena: &mut [u8], addr: u16, val: u8)
    requires { Backed m arena.old }
    ensures { arena.new ≡ prg_write arena.old m addr val }
{
    store(arena, stored_at(prg_entry(&m, addr), addr), val);
}

// Reads a byte of the PPU's address space, the nametables too.
pub fn chr_peek(m: Memory, arena: &[u8], addr: u16) -> u8
    requires { Backed m arena.now }
    ensures { result ≡ chr_peek arena.now m addr }
{
    arena[shown_at(chr_entry(&m, addr), addr)]
}

// Writes a byte of the PPU's address space; pages without the flag drop it.
pub fn chr_write(m: Memory, arena: &mut [u8], addr: u16, val: u8)
    requires { Backed m arena.old }
    ensures { arena.new ≡ chr_write arena.old m addr val }
{
    store(arena, stored_at(chr_entry(&m, addr), addr), val);
}

// Copies bytes over a part of the arena: one call of std's, which `copy_to` of bits and `put_battery` of call_battery make too.
fn overlay(arena: &mut [u8], at: usize, bytes: &[u8])
    requires { at + length bytes.now ≤ length arena.old }
    ensures { arena.new ≡ overlay arena.old at bytes.now }
{
    let end = at + bytes.len();
    arena[at..end].copy_from_slice(bytes);
}

// Reads a byte of a region.
pub fn region_peek(m: Memory, arena: &[u8], src: Src, offset: u64) -> u8
    requires { Backed m arena.now }
    ensures { result ≡ region_peek arena.now m src offset }
{
    fetch(arena, wrapped_at(m.region(src), offset))
}

// Writes a byte of a region, whether it takes writes or not.
pub fn region_write(m: Memory, arena: &mut [u8], src: Src, offset: u64, val: u8)
    requires { Backed m arena.old }
    ensures { arena.new ≡ region_write arena.old m src offset val }
{
    store(arena, wrapped_at(m.region(src), offset), val);
}

// Copies bytes to the start of a region that is at least as long.
pub fn fill(m: Memory, arena: &mut [u8], src: Src, bytes: &[u8])
    requires { (Backed m arena.old) × (length bytes.now ≤ (region_in m src).len) }
    ensures { arena.new ≡ fill_region arena.old m src bytes.now }
{
    overlay(arena, m.region(src).start, bytes);
}

// The battery: PRG-RAM and the used part of the reserve behind it. `Sized` is asked as in memory/src/lib.rt.
pub fn sram(m: Memory) -> Span
    requires { Sized m }
    ensures { result ≡ sram_of m }
{
    let ram = m.region(Src::PrgRam);
    Span {
        start: ram.start,
        len: ram.len + m.battery_ext_len,
    }
}
