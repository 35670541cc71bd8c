// Whether the sound's fields are in range. No test of an array's element is skipped. Each is one fold of std's or a loop as short; a
// function of the test, for these and for those of memory and board_state, would have a contract longer than they are.

ghost use Rattle.std.specs.Prelude.{◌≤◌, ◌≡◌};
ghost use Rattle.limits.specs.Every.{every};
ghost use Rattle.limits.specs.Limits.{sum_most};
ghost use Rattle.sound.specs.Range.{
  out_low,
  out_high,
  bits_ok,
  out_ok,
  level_ok,
  output_test,
  phase_test,
  audio_ok,
};

use crate::audio::Audio;
use crate::levels::whole_part;

// R11: the bits of the least `out`, without the sign, and of the greatest.
#[tactic(auto, unfolding(crate::specs::Range::out_low))]
fn out_low(signed: bool, plain: bool) -> u32
    ensures { (result ≡ out_low signed plain) × (result ≤ sum_most) }
{
    match (signed, plain) {
        (false, _) => 0,
        (true, true) => limits::SIGNED_SUM_LEAST,
        (true, false) => limits::SIGNED_OUT_LEAST,
    }
}

#[tactic(auto, unfolding(crate::specs::Range::out_high))]
fn out_high(signed: bool, plain: bool) -> u32
    ensures { (result ≡ out_high signed plain) × (result ≤ sum_most) }
{
    match (signed, plain) {
        (true, true) => limits::SIGNED_SUM_MOST,
        (true, false) => limits::SIGNED_OUT_MOST,
        (false, true) => limits::SUM_MOST,
        (false, false) => limits::OUT_MOST,
    }
}

// R11: whether these are the bits of an `out` in the range of the choice. The two choices go side by side, as the sound's two fields.
pub fn bits_ok(signed: bool, plain: bool, bits: u32) -> bool
    ensures { result ≡ bits_ok (out_low signed plain) (out_high signed plain) bits }
{
    bits <= out_high(signed, plain)
        || (limits::MINUS_ZERO < bits && bits <= limits::MINUS_ZERO + out_low(signed, plain))
}

#[tactic(auto, unfolding(crate::specs::Range::out_ok))]
fn out_ok(signed: bool, plain: bool, x: f32) -> bool
    ensures { result ≡ out_ok signed plain x }
{
    !x.is_nan() && bits_ok(signed, plain, x.to_bits())
}

// R11: a whole number in the range of the choice. A whole number's size has the bits of its whole part.
#[tactic(auto, unfolding(crate::specs::Range::level_ok))]
fn level_ok(signed: bool, x: f32) -> bool
    ensures { result ≡ level_ok signed x }
{
    if !out_ok(signed, false, x) {
        return false;
    }
    let size = x.to_bits() % limits::MINUS_ZERO;
    (whole_part(size) as f32).to_bits() == size
}

fn levels_ok(signed: bool, outs: &[f32; Audio::CHANNEL_COUNT]) -> bool
    ensures { result ≡ every 8 (output_test signed outs.now) }
{
    outs.iter()
        .copied()
        .fold(true, |ok, x| ok & level_ok(signed, x))
}

fn phases_ok(phases: &[u32; Audio::CHANNEL_COUNT]) -> bool
    ensures { result ≡ every 8 (phase_test phases.now) }
{
    phases
        .iter()
        .copied()
        .fold(true, |ok, x| ok & (x < limits::PHASE_LIMIT))
}

#[tactic(auto, unfolding(crate::specs::Range::audio_ok))]
pub fn audio_ok(a: &Audio) -> bool
    ensures { result ≡ audio_ok a.now }
{
    (a.update_counter <= limits::UPDATE_MOST)
        & ((a.current_channel <= limits::CHANNEL_MOST)
            & ((a.addr <= limits::ADDRESS_MOST)
                & (phases_ok(&a.phase_ext)
                    & (levels_ok(a.signed_levels, &a.channel_out)
                        & out_ok(a.signed_levels, a.plain_sum, a.out)))))
}
