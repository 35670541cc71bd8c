// From channel outputs to one sample. `c` is one less than the number of channels in use.

ghost use Rattle.std.specs.Prelude.{◌≡◌, ◌+◌, nat_le};
ghost use Rattle.sound_wave.specs.Mix.{mean_of, mix_of, mixed_of, output_of, resum_of, sum_of};

use sound::audio::Audio;

// S7: the f32 sum of the outputs of channels 7 - c up to 7.
#[tactic(auto, unfolding(crate::specs::Mix::sum_of))]
pub fn sum(outs: &[f32; Audio::CHANNEL_COUNT], c: u8) -> f32
    ensures { result ≡ sum_of outs.now c }
{
    let first = 7usize.saturating_sub(usize::from(c));
    outs[first..]
        .iter()
        .copied()
        .fold(0.0, |total, x| total + x)
}

// A sum divided by the number of channels in it.
fn mean(sum: f32, c: u8) -> f32
    ensures { result ≡ mean_of sum c }
{
    sum / ((u16::from(c) + 1) as f32)
}

// S13: `out` of a sum: the sum itself (S15), or the mean of the channels in use (S7). The chip puts them out one after the other (W21).
pub fn mixed(sum: f32, c: u8, plain: bool) -> f32
    ensures { result ≡ mixed_of sum c plain }
{
    if plain { sum } else { mean(sum, c) }
}

// S7, S15: `out` of the channel outputs.
#[tactic(auto, unfolding(crate::specs::Mix::mix_of))]
pub fn mix(outs: &[f32; Audio::CHANNEL_COUNT], c: u8, plain: bool) -> f32
    ensures { result ≡ mix_of outs.now c plain }
{
    mixed(sum(outs, c), c, plain)
}

// The sum after channel `k` changes: outputs are whole numbers, so one difference gives the bits that adding all of them would.
pub fn resum(sum: f32, old: f32, new: f32, k: u8, c: u8) -> f32
    ensures { result ≡ resum_of sum old new (nat_le 7 (k + c)) }
{
    if 7 <= u16::from(k) + u16::from(c) {
        sum - old + new
    } else {
        sum
    }
}

// S8: a sample of `out`.
#[tactic(auto, unfolding(crate::specs::Mix::output_of))]
pub fn output(out: f32) -> f32
    ensures { result ≡ output_of out }
{
    0.0001 * out
}
