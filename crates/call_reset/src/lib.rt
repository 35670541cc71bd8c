// Reset, soft and hard: C7, C8.
#![tactic(auto)]

ghost use Rattle.std.specs.Prelude.{◌≡◌};
ghost use Rattle.call_answers.specs.Answers.{altered};
ghost use Rattle.call_reset.specs.Reset.{reset_state};

use board_state::State;
use call_refusals::check_reset;
use refusals::Refusal;

// Kind 0 is soft, 1 is hard (N3). The page entries stay until a write maps them anew (C8).
pub fn reset(s: State, kind: u64) -> Result<State, Refusal>
    ensures { altered s result ≡ reset_state s kind }
{
    let kind = check_reset(s, kind)?;
    let chip = s.chip.reset(kind);
    Ok(State { chip, ..s })
}
