// The board's fields as the words that hold them.
ghost use Rattle.std.specs.Prelude.{◌^◌, ◌<◌};

// No word holds more than its bits.
#[derive(Clone, Copy)]
pub struct Head {
    pub regs: u64,
    pub detection: u64,
    pub flags: u64,
    pub chr_first: u64,
    pub chr_last: u64,
    pub prg: u64,
    ghost fits: { (regs < 2 ^ 53) × (detection < 2 ^ 5) × (flags < 2 ^ 12) × (chr_first < 2 ^ 48) × (chr_last < 2 ^ 48) × (prg < 2 ^ 18) },
}
