// The checks of each kind of call: N0, N20.
#![tactic(auto)]

pub mod known; // known.rt: a state that is in range

ghost use Rattle.std.specs.Prelude.{◌≡◌, ◌&&◌, eqb, IfOk};
ghost use Rattle.board_chip.specs.Reset.{kind_num};
ghost use Rattle.refusals.specs.Refusal.{refusal_of};
ghost use Rattle.call_refusals.specs.Refusals.{first_of, reset_checks, arena_checks, cpu_checks, fill_checks, battery_checks, load_checks};

use board_chip::reset::ResetKind;
use board_state::{State, mapper_ok};
use known::KnownState;
use memory::layout::{Layout, MemoryLayout, Src};
use refusals::Refusal;

// A reset's checks, and its kind.
pub fn check_reset(s: State, kind: u64) -> Result<ResetKind, Refusal>
    ensures number { refusal_of result ≡ first_of (reset_checks s kind) }
    ensures kind { IfOk result (λ k. kind_num k ≡ kind) }
{
    KnownState::new(s)?;
    // Not `map_err`: what its closure gives would need a contract of its own, which is longer.
    match ResetKind::try_from(kind) {
        Ok(kind) => Ok(kind),
        Err(_) => Err(Refusal::Kind),
    }
}

// Of a state whose range is known, as a read of an image gives it, so that it is not tested twice. `check_arena` takes any state, tests it
// and goes on here; a trait over both kinds of state would be longer than its two lines.
pub fn check_arena_known(s: KnownState, len: usize) -> Result<(), Refusal>
    ensures { refusal_of result ≡ first_of (arena_checks s.state len) }
{
    if len != s.state.memory.layout.arena_len() {
        return Err(Refusal::Arena);
    }
    Ok(())
}

pub fn check_arena(s: State, len: usize) -> Result<(), Refusal>
    ensures { refusal_of result ≡ first_of (arena_checks s len) }
{
    check_arena_known(KnownState::new(s)?, len)
}

// As `check_arena_known`. The calls of call_cpu test any state before it.
pub fn check_cpu_known(s: KnownState, len: usize, addr: u16) -> Result<(), Refusal>
    ensures { refusal_of result ≡ first_of (cpu_checks s.state len addr) }
{
    check_arena_known(s, len)?;
    if addr < 0x4800 {
        return Err(Refusal::Address);
    }
    Ok(())
}

pub fn check_fill(s: State, len: usize, src: Src, n: usize) -> Result<(), Refusal>
    ensures { refusal_of result ≡ first_of (fill_checks s len src n) }
{
    check_arena(s, len)?;
    if s.memory.region(src).len < n {
        return Err(Refusal::Fill);
    }
    Ok(())
}

pub fn check_battery(s: State, len: usize) -> Result<(), Refusal>
    ensures { refusal_of result ≡ first_of (battery_checks s len) }
{
    check_arena(s, len)?;
    if s.memory.battery_ext_len == 0 {
        return Err(Refusal::Battery);
    }
    Ok(())
}

// N6: a 163 needs a reserve for its sound RAM; one byte is enough, since a reserve is whole pages.
fn lacks_reserve(mapper: u64, reserve: u64) -> bool
    ensures { result ≡ (eqb mapper 19 && eqb reserve 0) }
{
    (mapper == 19) & (reserve == 0)
}

pub fn check_load(mapper: u64, sizes: MemoryLayout, len: usize) -> Result<(), Refusal>
    ensures { refusal_of result ≡ first_of (load_checks mapper sizes len) }
{
    if !mapper_ok(mapper) {
        return Err(Refusal::Mapper);
    }
    if !sizes.within_limits() {
        return Err(Refusal::Size);
    }
    if lacks_reserve(mapper, sizes.battery_ext) {
        return Err(Refusal::Reserve);
    }
    if len != Layout::new(sizes).arena_len() {
        return Err(Refusal::Arena);
    }
    Ok(())
}
