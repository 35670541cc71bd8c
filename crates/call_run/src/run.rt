// The public run: C4 to C6.
ghost use Rattle.std.specs.Prelude.{◌≡◌, length};
ghost use Rattle.refusals.specs.Refusal.{refusal_of};
ghost use Rattle.call_refusals.specs.Refusals.{first_of};
ghost use Rattle.idle_runs.specs.Idle.{Least};
ghost use Rattle.call_run.specs.Clock.{state_clock};
ghost use Rattle.call_run.specs.Run.{made, run_checks, run_gave, ran_in, run_answer, ran_of};

use crate::clock::run_counter;
use board_state::State;
use call_idle::{ended, piece};
use call_refusals::known::KnownState;
use refusals::Refusal;

// N10: the most clocks of a run.
pub const RUN_LIMIT: u64 = 29_781;

// As many samples as a run can make: RUN_LIMIT clocks from the greatest update counter.
pub const SAMPLES_MOST: usize = 1_986;

// C5: what a run gives: the samples made, the clock of the rise, from 1, or 0, and the state. 0 is the number in C's word and in the log.
#[derive(Clone, Copy)]
pub struct Ran {
    pub made: usize,
    pub rise: u32,
    pub state: State,
}

// C6: how many samples n clocks make.
fn samples_made(s: KnownState, n: u32) -> usize
    ensures { result ≡ made n s.state }
{
    let chip = s.state.chip; // asked three times
    if !chip.board.is_163() {
        return 0;
    }
    if chip.audio.disabled {
        return 0;
    }
    ((chip.audio.update_counter as usize) + (n as usize)) / 15
}

fn check_run(s: KnownState, n: u64, room: usize) -> Result<(), Refusal>
    ensures { refusal_of result ≡ first_of (run_checks s.state n room) }
{
    if RUN_LIMIT < n {
        return Err(Refusal::Clocks);
    }
    if room < samples_made(s, n as u32) {
        return Err(Refusal::Room);
    }
    Ok(())
}

// So many clocks at once.
fn run_piece(s: State, n: u32, samples: &mut [f32]) -> Ran
    requires { first_of (run_checks s n (length samples.old)) ≡ 0 }
    ensures { (result ≡ ran_in (run_gave s n samples.old))
        × (samples.new ≡ (run_gave s n samples.old).samples) }
{
    let counted = run_counter(s.chip.regs, n);
    let mut state = s;
    state.chip.regs = counted.regs;
    if !s.chip.board.is_163() {
        return Ran {
            made: 0,
            rise: counted.rise,
            state,
        };
    }
    let made = sound_clock::run::run(&mut state.chip.audio, n, samples);
    Ran {
        made,
        rise: counted.rise,
        state,
    }
}

// A run, and how many of its clocks were made (C24); no answer has that.
#[derive(Clone, Copy)]
struct Counted {
    ran: Ran,
    clocks: u32,
}

// Makes clocks until none is left or the next one alters nothing.
fn run_counted(s: State, n: u32, samples: &mut [f32]) -> Counted
    requires { first_of (run_checks s n (length samples.old)) ≡ 0 }
    ensures ran_value { (result.ran ≡ ran_in (run_gave s n samples.old))
        × (samples.new ≡ (run_gave s n samples.old).samples) }
    ensures least { Least state_clock n result.clocks s }
{
    let mut ran = Ran {
        made: 0,
        rise: 0,
        state: s,
    };
    let mut clocks: u32 = 0;
    loop {
        if ended(ran.state, n - clocks) {
            return Counted { ran, clocks };
        }
        let more = piece(ran.state, n - clocks);
        ran = run_piece(ran.state, more, samples);
        clocks += more;
    }
}

// Of a state whose range is known, as `check_arena_known` of call_refusals; `run` takes any and tests it.
pub fn run_known(s: KnownState, n: u64, samples: &mut [f32]) -> Result<Ran, Refusal>
    ensures { (run_answer s.state result ≡ ran_of (run_gave s.state n samples.old))
        × (samples.new ≡ (run_gave s.state n samples.old).samples) }
{
    check_run(s, n, samples.len())?;
    Ok(run_counted(s.state, n as u32, samples).ran)
}

pub fn run(s: State, n: u64, samples: &mut [f32]) -> Result<Ran, Refusal>
    ensures { (run_answer s result ≡ ran_of (run_gave s n samples.old))
        × (samples.new ≡ (run_gave s n samples.old).samples) }
{
    run_known(KnownState::new(s)?, n, samples)
}
