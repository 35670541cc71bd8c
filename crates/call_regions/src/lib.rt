// The public calls of the PPU, `chr_read` and `chr_write` (M8, M9), and those on regions, `fill`, `region_peek`, `region_write` and `sram`
// (M10 to M13). None has a `requires`: what does not fit is refused, and nothing is altered (N0).
#![tactic(auto)]

ghost use Rattle.std.specs.Prelude.{◌≡◌, length};
ghost use Rattle.refusals.specs.Refusal.{refusal_of};
ghost use Rattle.call_answers.specs.Answers.{peeked};
ghost use Rattle.call_refusals.specs.Refusals.{first_of, arena_checks, fill_checks};
ghost use Rattle.call_regions.specs.Regions.{chr_read, chr_write_arena, fill_arena, region_read, region_write_arena, spanned, sram_answer};

use board_state::State;
use call_refusals::known::KnownState;
use call_refusals::{check_arena, check_fill};
use memory::layout::Src;
use memory_bytes::bytes;
use memory_bytes::bytes::Span;
use refusals::Refusal;

pub fn chr_read(s: State, arena: &[u8], addr: u16) -> Result<u8, Refusal>
    ensures { peeked result ≡ chr_read s arena.now addr }
{
    check_arena(s, arena.len())?;
    Ok(bytes::chr_peek(s.memory, arena, addr))
}

pub fn chr_write(s: State, arena: &mut [u8], addr: u16, val: u8) -> Result<(), Refusal>
    ensures { (refusal_of result ≡ first_of (arena_checks s (length arena.old)))
        × (arena.new ≡ chr_write_arena s arena.old addr val) }
{
    check_arena(s, arena.len())?;
    bytes::chr_write(s.memory, arena, addr, val);
    Ok(())
}

// M10: puts the bytes at the first ones of a region.
pub fn fill(s: State, arena: &mut [u8], src: Src, bytes: &[u8]) -> Result<(), Refusal>
    ensures { (refusal_of result ≡ first_of (fill_checks s (length arena.old) src (length bytes.now)))
        × (arena.new ≡ fill_arena s arena.old src bytes.now) }
{
    check_fill(s, arena.len(), src, bytes.len())?;
    bytes::fill(s.memory, arena, src, bytes);
    Ok(())
}

pub fn region_peek(s: State, arena: &[u8], src: Src, offset: u64) -> Result<u8, Refusal>
    ensures { peeked result ≡ region_read s arena.now src offset }
{
    check_arena(s, arena.len())?;
    Ok(bytes::region_peek(s.memory, arena, src, offset))
}

pub fn region_write(
    s: State,
    arena: &mut [u8],
    src: Src,
    offset: u64,
    val: u8,
) -> Result<(), Refusal>
    ensures { (refusal_of result ≡ first_of (arena_checks s (length arena.old)))
        × (arena.new ≡ region_write_arena s arena.old src offset val) }
{
    check_arena(s, arena.len())?;
    bytes::region_write(s.memory, arena, src, offset, val);
    Ok(())
}

// M13: where PRG-RAM begins in the arena, and its length plus the used battery bytes.
pub fn sram(s: State) -> Result<Span, Refusal>
    ensures { spanned result ≡ sram_answer s }
{
    let known = KnownState::new(s)?;
    Ok(bytes::sram(known.state.memory))
}
