// A look before a CPU write (L18): what the write would answer. The state is a value and the arena is only read, so nothing is altered. The
// call `preview` takes any state; `preview_known` takes one whose range is known, as `check_arena_known` of call_refusals.
#![tactic(auto)]

ghost use Rattle.std.specs.Prelude.{◌≡◌};
ghost use Rattle.call_preview.specs.Preview.{previewed, preview};

use board_state::State;
use call_cpu::calls::write_register;
use call_refusals::check_cpu_known;
use call_refusals::known::KnownState;
use memory::changes::{Changed, changes_between};
use refusals::Refusal;

// The store is left out: no entry depends on a byte.
pub fn preview_known(s: KnownState, arena: &[u8], addr: u16, val: u8) -> Result<Changed, Refusal>
    ensures { previewed result ≡ preview s.state arena.now addr val }
{
    check_cpu_known(s, arena.len(), addr)?;
    let after = write_register(s.state, addr, val);
    Ok(changes_between(&s.state.memory, &after.memory))
}

pub fn preview(s: State, arena: &[u8], addr: u16, val: u8) -> Result<Changed, Refusal>
    ensures { previewed result ≡ preview s arena.now addr val }
{
    preview_known(KnownState::new(s)?, arena, addr, val)
}
