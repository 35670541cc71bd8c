// The sound chip's state.

ghost use Rattle.std.specs.Prelude.{◌≡◌};
ghost use Rattle.sound.specs.Audio.{fresh};

// The outputs and the phases of the channels are side by side, as the Rust has them and R8 names them.
#[derive(Clone, Copy)]
pub struct Audio {
    pub ram: [u8; Audio::RAM_SIZE],
    pub addr: usize,
    pub auto_increment: bool,
    pub disabled: bool,
    pub update_counter: u8,
    pub current_channel: u8,
    pub channel_out: [f32; Audio::CHANNEL_COUNT],
    pub out: f32,
    pub phase_ext: [u32; Audio::CHANNEL_COUNT],
    // S13: what a load chose, and every call keeps: levels with a sign, and channels summed and not averaged. The Rust has neither.
    pub signed_levels: bool,
    pub plain_sum: bool,
}

impl Audio {
    // Internal sound RAM, which doubles as the channel registers and is battery-backed.
    pub const RAM_SIZE: usize = 0x80;

    pub const CHANNEL_COUNT: usize = 8;

    pub const REG_FREQ_LOW: usize = 0x00;

    pub const REG_FREQ_MID: usize = 0x02;

    pub const REG_FREQ_HIGH: usize = 0x04;

    pub const REG_WAVE_LEN: usize = 0x04;

    pub const REG_WAVE_ADDR: usize = 0x06;

    pub const REG_VOLUME: usize = 0x07;

    pub fn new() -> Self
        ensures { result ≡ fresh }
    {
        Self {
            ram: [0; Audio::RAM_SIZE],
            addr: 0,
            auto_increment: false,
            disabled: false,
            update_counter: 0,
            current_channel: 7,
            channel_out: [0.0; Audio::CHANNEL_COUNT],
            out: 0.0,
            phase_ext: [0; Audio::CHANNEL_COUNT],
            signed_levels: false,
            plain_sum: false,
        }
    }
}
