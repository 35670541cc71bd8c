// A run of sound clocks, update by update.

ghost use Rattle.std.specs.Prelude.{◌≡◌, ◌++◌, ◌≤◌, drop, length};
ghost use Rattle.sound.specs.Range.{InRange};
ghost use Rattle.sound_clock.specs.Run.{samples_of, sound_run};

use crate::clock;
use sound::audio::Audio;
use sound_wave::channel::{Channel, base_addr, channel_count};
use sound_wave::mix;

// C6: how many updates `n` clocks make follows from the update counter. The loop steps from update to update, in place. Answers how many
// samples were made. `InRange` is asked as in clock.rt. The loop hands the sum of the outputs on from update to update, where
// `update_channel` of clock.rt adds them anew, as the Rust does: so the two steps are two functions.
pub fn run(a: &mut Audio, n: u32, samples: &mut [f32]) -> usize
    requires in_range { InRange a.old }
    requires a_in_bounds { length (samples_of n a.old) ≤ length samples.old }
    ensures audio_value { (a.new ≡ sound_run n a.old) × ((result ≡ length (samples_of n a.old)) × InRange a.new) }
    ensures samples_after { samples.new ≡ samples_of n a.old ++ drop (length (samples_of n a.old)) samples.old }
{
    if a.disabled {
        return 0;
    }
    let total = usize::from(a.update_counter) + (n as usize);
    let made = total / 15;
    let signed = a.signed_levels; // asked once and not at each update
    let plain = a.plain_sum;
    let c = channel_count(&a.ram);
    let mut sum = mix::sum(&a.channel_out, c);
    for sample in &mut samples[..made] {
        let ch = a.current_channel;
        let k = usize::from(ch);
        let channel = Channel {
            ram: &a.ram,
            base: base_addr(k),
        };
        let phase = channel.next_phase(a.phase_ext[k]);
        let output = channel.output_at(phase, signed);
        sum = mix::resum(sum, a.channel_out[k], output, ch, c);
        a.channel_out[k] = output;
        a.out = mix::mixed(sum, c, plain);
        a.phase_ext[k] = phase;
        a.current_channel = clock::next_channel(ch, c);
        *sample = mix::output(a.out);
    }
    a.update_counter = (total % 15) as u8;
    made
}
