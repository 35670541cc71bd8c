// The sound clock, as the Rust steps it. A host may lend any state, so `InRange` is asked here and is no invariant of `Audio`.

ghost use Rattle.std.specs.Prelude.{◌<◌, ◌≡◌};
ghost use Rattle.sound.specs.Range.{InRange};
ghost use Rattle.sound_clock.specs.Clock.{next_channel, sound_clock, update_channel};

use sound::audio::Audio;
use sound_wave::channel::{Channel, base_addr, channel_count};
use sound_wave::mix;

// S2: the channel after `k`.
#[tactic(auto, unfolding(crate::specs::Clock::next_channel))]
pub fn next_channel(k: u8, c: u8) -> u8
    requires { (k < 8) × (c < 8) }
    ensures { (result ≡ next_channel k c) × (result < 8) }
{
    if k + c < 8 { 7 } else { k - 1 }
}

// The current channel's update.
pub fn update_channel(a: &mut Audio)
    requires { InRange a.old }
    ensures { (a.new ≡ update_channel a.old) × InRange a.new }
{
    let k = usize::from(a.current_channel);
    let channel = Channel {
        ram: &a.ram,
        base: base_addr(k),
    };
    let phase = channel.next_phase(a.phase_ext[k]);
    let output = channel.output_at(phase, a.signed_levels);
    a.channel_out[k] = output;
    a.out = mix::mix(&a.channel_out, channel_count(&a.ram), a.plain_sum);
    a.phase_ext[k] = phase;
}

// One sound clock.
pub fn clock(a: &mut Audio)
    requires { InRange a.old }
    ensures { (a.new ≡ sound_clock a.old) × InRange a.new }
{
    if a.disabled {
        return;
    }
    a.update_counter += 1;
    if a.update_counter == 15 {
        a.update_counter = 0;
        update_channel(a);
        a.current_channel = next_channel(a.current_channel, channel_count(&a.ram));
    }
}
