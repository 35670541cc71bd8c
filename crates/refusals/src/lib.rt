// Why a call is refused (N0).
#![tactic(auto)]

pub mod word; // word.rt: what a C host's call gives

ghost use Rattle.std.specs.Prelude.{◌≡◌, ◌<◌};
ghost use Rattle.refusals.specs.Refusal.{number_of, refusal_of, word_of};

use crate::word::Word;

#[derive(Clone, Copy, Debug, PartialEq, Eq)]
pub enum Refusal {
    // N1: the image has another length than one that holds the state.
    Image,
    // N2: the state is out of range, or the directory is unfit.
    State,
    // N3: the kind of a reset.
    Kind,
    // N4: another mapper than 19 and 210.
    Mapper,
    // N5: a size above its limit.
    Size,
    // N6: mapper 19 without a reserve.
    Reserve,
    // N7: the arena's length.
    Arena,
    // N8: an address below 4800.
    Address,
    // N9: a fill of more bytes than the region has.
    Fill,
    // N10: a run of too many clocks.
    Clocks,
    // N11: fewer places than a run makes samples.
    Room,
    // N12: no byte of the reserve is used.
    Battery,
    // K3: a block that cannot be registered.
    Block,
    // K3: no place is free.
    Full,
}

// The number of a refusal, as C and the log have it.
impl From<Refusal> for u8 {
    ghost from_gives = { λ refusal n. (n ≡ number_of refusal) × (n < 15) };

    fn from(refusal: Refusal) -> u8 {
        match refusal {
            Refusal::Image => 1,
            Refusal::State => 2,
            Refusal::Kind => 3,
            Refusal::Mapper => 4,
            Refusal::Size => 5,
            Refusal::Reserve => 6,
            Refusal::Arena => 7,
            Refusal::Address => 8,
            Refusal::Fill => 9,
            Refusal::Clocks => 10,
            Refusal::Room => 11,
            Refusal::Battery => 12,
            Refusal::Block => 13,
            Refusal::Full => 14,
        }
    }
}

// The number of an answer: 0 where the call is accepted.
pub fn refusal_of<T>(answer: &Result<T, Refusal>) -> u8
    ensures { result ≡ refusal_of answer.now }
{
    match answer {
        Ok(_) => 0,
        Err(r) => u8::from(*r),
    }
}

// H6: the word of a call: of an accepted one what it gives, of a refused one the number.
pub fn word_of(answer: Result<Word, Refusal>) -> u64
    ensures { result ≡ word_of answer }
{
    match answer {
        Ok(given) => given.bits,
        Err(r) => u64::from(u8::from(r)),
    }
}
