// A channel's registers in the sound RAM, its phase and its output.

ghost use Rattle.std.specs.Prelude.{◌≡◌, ◌%◌, ◌<◌, ◌≤◌};
ghost use Rattle.limits.specs.Limits.{level_most, phase_limit};
ghost use Rattle.sound.specs.Levels.{whole_z};
ghost use Rattle.sound.specs.Range.{Level};
ghost use Rattle.sound_wave.specs.Channel.{
  base_addr,
  channel_count,
  frequency_at,
  level_by,
  level_of,
  next_phase,
  nibble_at,
  output_at,
  signed_of,
  volume_at,
  wave_address_at,
  wave_length_at,
};

use sound::audio::Audio;

// S2: c, one less than the number of channels in use.
pub fn channel_count(ram: &[u8; Audio::RAM_SIZE]) -> u8
    ensures { (result ≡ channel_count ram.now) × (result < 8) }
{
    ram[0x7F] / 16 % 8
}

// Where the registers of channel `k` start.
pub fn base_addr(k: usize) -> usize
    requires { k < 8 }
    ensures { (result ≡ base_addr k) × (result ≤ 120) }
{
    0x40 + 8 * k
}

// S5: the nibble at a nibble address, in the high half of its byte for an odd one.
#[tactic(auto, unfolding(crate::specs::Channel::nibble_at))]
pub fn nibble(ram: &[u8; Audio::RAM_SIZE], at: u8) -> u8
    ensures { (result ≡ nibble_at ram.now at) × (result < 16) }
{
    let byte = ram[usize::from(at / 2)];
    if at % 2 == 1 { byte / 16 } else { byte % 16 }
}

// S6: a nibble less 8, as a byte that wraps, times a volume.
fn level(nibble: u8, volume: u8) -> u16
    requires { volume < 16 }
    ensures { (result ≡ level_of nibble volume) × (result ≤ level_most) }
{
    u16::from(nibble.wrapping_sub(8)) * u16::from(volume)
}

// S14: a nibble less 8, times a volume.
#[tactic(auto, unfolding(crate::specs::Channel::signed_of))]
fn signed_level(nibble: u8, volume: u8) -> i16
    requires { volume < 16 }
    ensures { result ≡ signed_of nibble volume }
{
    (i16::from(nibble) - 8) * i16::from(volume)
}

// S13: the output of a nibble and a volume by the choice: the level, a whole number, and only then a float, so that a level of 0 is never
// negative zero (S16).
fn output_by(nibble: u8, volume: u8, signed: bool) -> f32
    requires { volume < 16 }
    ensures { result ≡ whole_z (level_by signed nibble volume) }
{
    if signed {
        f32::from(signed_level(nibble, volume))
    } else {
        f32::from(level(nibble, volume))
    }
}

// `x` modulo `end`. A step is at most the shortest wave, so one subtraction does unless the wave was shortened; a division is slow.
fn reduce(x: u32, end: u32) -> u32
    requires { 0 < end }
    ensures { (result ≡ x % end) × (result < end) }
{
    if x < end {
        return x;
    }
    let rest = x - end;
    if rest < end {
        return rest;
    }
    rest % end
}

// A channel: the sound RAM, and where the channel's registers start there.
#[derive(Clone, Copy)]
pub struct Channel<'a> {
    pub ram: &'a [u8; Audio::RAM_SIZE],
    pub base: usize,
    ghost within: { base ≤ 120 },
}

impl<'a> Channel<'a> {
    pub fn frequency(self) -> u32
        ensures { (result ≡ frequency_at self.entry.ram.now self.entry.base) × (result < 262144) }
    {
        let high = u32::from(self.ram[self.base + Audio::REG_FREQ_HIGH]) % 4 * 65536;
        let mid = u32::from(self.ram[self.base + Audio::REG_FREQ_MID]) * 256;
        let low = u32::from(self.ram[self.base + Audio::REG_FREQ_LOW]);
        high + mid + low
    }

    pub fn wave_length(self) -> u32
        ensures { (result ≡ wave_length_at self.entry.ram.now self.entry.base) × ((4 ≤ result) × (result ≤ 256)) }
    {
        256 - u32::from(self.ram[self.base + Audio::REG_WAVE_LEN]) / 4 * 4
    }

    pub fn wave_address(self) -> u32
        ensures { (result ≡ wave_address_at self.entry.ram.now self.entry.base) × (result < 256) }
    {
        u32::from(self.ram[self.base + Audio::REG_WAVE_ADDR])
    }

    pub fn volume(self) -> u8
        ensures { (result ≡ volume_at self.entry.ram.now self.entry.base) × (result < 16) }
    {
        self.ram[self.base + Audio::REG_VOLUME] % 16
    }

    // S4: the phase after one step of the frequency. Where the wave got shorter than the phase, the remainder brings it back.
    #[tactic(auto, unfolding(crate::specs::Channel::next_phase))]
    pub fn next_phase(self, phase: u32) -> u32
        requires { phase < phase_limit }
        ensures { (result ≡ next_phase self.entry.ram.now self.entry.base phase) × (result < phase_limit) }
    {
        reduce(phase + self.frequency(), self.wave_length() * 65536)
    }

    // The output of a channel at a phase.
    pub fn output_at(self, phase: u32, signed: bool) -> f32
        requires { phase < phase_limit }
        ensures { (result ≡ output_at self.entry.ram.now self.entry.base phase signed) × Level signed result }
    {
        let at = (phase / 65536 + self.wave_address()) % 256;
        output_by(nibble(self.ram, at as u8), self.volume(), signed)
    }
}
