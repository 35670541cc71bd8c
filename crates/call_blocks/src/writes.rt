// The writes, which drop the blocks over the CPU pages that they touch (K5), and the preview of a CPU write (L18). The places are lent
// beside state and arena, as C lends the three.
ghost use Rattle.std.specs.Prelude.{◌≡◌, length};
ghost use Rattle.refusals.specs.Refusal.{refusal_of};
ghost use Rattle.call_refusals.specs.Refusals.{first_of, arena_checks};
ghost use Rattle.call_cpu.specs.Calls.{write_answer};
ghost use Rattle.call_preview.specs.Preview.{previewed};
ghost use Rattle.call_blocks.specs.Blocks.{with_directory, cpu_write_answer, cpu_write_leaves, cpu_write_drops, preview_answer};
ghost use Rattle.call_blocks.specs.Blocks.{chr_write_leaves, chr_write_drops, region_write_leaves, region_write_drops};

use board_state::State;
use call_cpu::calls::Written;
use call_refusals::known::KnownState;
use directory::drop_touched;
use directory::fitness::check_directory;
use directory_touched::{stored_chr, stored_prg, stored_region};
use memory::changes::Changed;
use memory::layout::Src;
use refusals::Refusal;

// Of a state whose range is known, as `check_arena_known` of call_refusals; `cpu_write` takes any and tests it.
pub fn cpu_write_known(
    d: &mut [u64],
    s: KnownState,
    arena: &mut [u8],
    addr: u16,
    val: u8,
) -> Result<Written, Refusal>
    ensures value { write_answer s.state result ≡ cpu_write_answer d.old s.state arena.old addr val }
    ensures arena_after { arena.new ≡ cpu_write_leaves d.old s.state arena.old addr val }
    ensures d_after { d.new ≡ cpu_write_drops d.old s.state arena.old addr val }
{
    check_directory(d)?;
    let stored = stored_prg(s.state.memory, addr);
    let written = call_cpu::calls::cpu_write_known(s, arena, addr, val)?;
    drop_touched(d, written.changed.prg.mask | stored);
    Ok(written)
}

pub fn cpu_write(
    d: &mut [u64],
    s: State,
    arena: &mut [u8],
    addr: u16,
    val: u8,
) -> Result<Written, Refusal>
    ensures value { write_answer s result ≡ cpu_write_answer d.old s arena.old addr val }
    ensures arena_after { arena.new ≡ cpu_write_leaves d.old s arena.old addr val }
    ensures d_after { d.new ≡ cpu_write_drops d.old s arena.old addr val }
{
    cpu_write_known(d, KnownState::new(s)?, arena, addr, val)
}

// What such a write would answer, with nothing altered.
pub fn preview(d: &[u64], s: State, arena: &[u8], addr: u16, val: u8) -> Result<Changed, Refusal>
    ensures { previewed result ≡ preview_answer d.now s arena.now addr val }
{
    check_directory(d)?;
    call_preview::preview(s, arena, addr, val)
}

pub fn chr_write(
    d: &mut [u64],
    s: State,
    arena: &mut [u8],
    addr: u16,
    val: u8,
) -> Result<(), Refusal>
    ensures value { refusal_of result ≡ first_of (with_directory d.old (arena_checks s (length arena.old))) }
    ensures arena_after { arena.new ≡ chr_write_leaves d.old s arena.old addr val }
    ensures d_after { d.new ≡ chr_write_drops d.old s arena.old addr }
{
    check_directory(d)?;
    call_regions::chr_write(s, arena, addr, val)?;
    drop_touched(d, stored_chr(s.memory, addr));
    Ok(())
}

pub fn region_write(
    d: &mut [u64],
    s: State,
    arena: &mut [u8],
    src: Src,
    offset: u64,
    val: u8,
) -> Result<(), Refusal>
    ensures value { refusal_of result ≡ first_of (with_directory d.old (arena_checks s (length arena.old))) }
    ensures arena_after { arena.new ≡ region_write_leaves d.old s arena.old src offset val }
    ensures d_after { d.new ≡ region_write_drops d.old s arena.old src offset }
{
    check_directory(d)?;
    call_regions::region_write(s, arena, src, offset, val)?;
    drop_touched(d, stored_region(s.memory, src, offset));
    Ok(())
}
