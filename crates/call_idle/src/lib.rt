// When a run may end: no clock that remains alters anything (C24, C25).
#![tactic(auto)]

ghost use Rattle.std.specs.Prelude.{◌≡◌, not};
ghost use Rattle.cut.specs.Counter.{moves};
ghost use Rattle.call_idle.specs.Idle.{stepping, left, idle as idles, ends, counted};

use board_state::State;

// On a 163 whose sound is enabled each clock moves the update counter.
#[tactic(auto, unfolding(crate::specs::Idle::stepping))]
fn steps(s: State) -> bool
    ensures { result ≡ stepping s }
{
    s.chip.board.is_163() && !s.chip.audio.disabled
}

// C1: the counter does not move.
#[tactic(auto, unfolding(cut::specs::Counter::moves))]
fn stands(c: u16) -> bool
    ensures { result ≡ not (moves c) }
{
    c < 0x8000 || c == 0xFFFF
}

// The next clock alters neither state nor samples nor rise.
#[tactic(auto, unfolding(crate::specs::Idle::idle))]
fn idle(s: State) -> bool
    ensures { result ≡ idles s }
{
    !steps(s) && stands(s.chip.regs.irq_counter)
}

// Of n clocks that remain none alters anything.
#[tactic(auto, unfolding(crate::specs::Idle::ends))]
pub fn ended(s: State, n: u32) -> bool
    ensures { result ≡ ends n s }
{
    n == 0 || idle(s)
}

// The clocks until the counter stops.
#[tactic(auto, unfolding(crate::specs::Idle::left))]
fn clocks_left(c: u16) -> u32
    ensures { result ≡ left c }
{
    if stands(c) { 0 } else { u32::from(0xFFFF - c) }
}

// As many of n clocks as can be made before one that alters nothing.
#[tactic(auto, unfolding(crate::specs::Idle::counted))]
pub fn piece(s: State, n: u32) -> u32
    ensures { result ≡ counted n s }
{
    if steps(s) {
        n
    } else {
        n.min(clocks_left(s.chip.regs.irq_counter))
    }
}
