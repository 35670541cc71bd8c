// The state, and whether it is in range.
#![tactic(auto)]

ghost use Rattle.std.specs.Prelude.{◌≡◌};
ghost use Rattle.limits.specs.Every.{every};
ghost use Rattle.board_state.specs.State.{any_option, options_in, bank_test, mapper_ok, chip_ok, in_range};

use board_chip::namco163::Namco163;
use limits::BANK_MOST;
use memory::Memory;
use memory::range::memory_ok;
use sound::range::audio_ok;

pub mod none; // none.rt: a state that no call accepts

// What a load may choose. L19: in the edition where F800 protects, work RAM of a 163 takes stores as F800 says. S13: levels with a sign,
// and a plain sum of the channels; the sound keeps these two.
#[derive(Clone, Copy)]
pub struct Options {
    pub f800_protects: bool,
    pub signed_levels: bool,
    pub plain_sum: bool,
}

// The board's state. Its bytes lie in an arena that the caller lends.
#[derive(Clone, Copy)]
pub struct State {
    pub chip: Namco163,
    pub memory: Memory,
    pub f800_protects: bool,
}

impl Options {
    // H10: whether an option is set.
    pub fn any(self) -> bool
        ensures { result ≡ any_option self }
    {
        self.f800_protects | (self.signed_levels | self.plain_sum)
    }
}

impl State {
    // S17: what a state holds of its load's options.
    pub fn options(&self) -> Options
        ensures { result ≡ options_in self.now }
    {
        Options {
            f800_protects: self.f800_protects,
            signed_levels: self.chip.audio.signed_levels,
            plain_sum: self.chip.audio.plain_sum,
        }
    }
}

// No test is skipped.
fn banks_ok(banks: &[u8; 3]) -> bool
    ensures { result ≡ every 3 (bank_test banks.now) }
{
    banks
        .iter()
        .copied()
        .fold(true, |ok, bank| ok & (bank <= BANK_MOST))
}

// R8, N4: the mapper stays a number, as the Rust's field and C's argument are. An enum would be turned back into it at once.
pub fn mapper_ok(mapper: u64) -> bool
    ensures { result ≡ mapper_ok mapper }
{
    matches!(mapper, 19 | 210)
}

#[tactic(auto, unfolding(crate::specs::State::chip_ok))]
fn chip_ok(chip: &Namco163) -> bool
    ensures { result ≡ chip_ok chip.now }
{
    mapper_ok(u64::from(chip.mapper_num)) & (banks_ok(&chip.prg_banks) & audio_ok(&chip.audio))
}

// Whether each field is in range, floats and entries too.
#[tactic(auto, unfolding(crate::specs::State::in_range))]
pub fn in_range(s: State) -> bool
    ensures { result ≡ in_range s }
{
    chip_ok(&s.chip) & memory_ok(&s.memory)
}
