// A state that has passed the test of R9, so that what takes one makes no second test.
ghost use Rattle.std.specs.Prelude.{◌≡◌, true, false, MatchResult};
ghost use Rattle.board_state.specs.State.{in_range};
ghost use Rattle.refusals.specs.declared.Refusal.TheVariants as because;

use board_state::{State, in_range};
use refusals::Refusal;

#[derive(Clone, Copy)]
pub struct KnownState {
    pub state: State,
    ghost in_range: { in_range state ≡ true },
}

impl KnownState {
    // N2.
    pub fn new(state: State) -> Result<KnownState, Refusal>
        ensures { MatchResult result (λ k. k.state ≡ state) (λ r. (r ≡ because.State) × (in_range state ≡ false)) }
    {
        if in_range(state) {
            Ok(KnownState { state })
        } else {
            Err(Refusal::State)
        }
    }
}
