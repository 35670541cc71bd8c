// The kinds of nametable mirroring, and the number of each in an image.
ghost use Rattle.std.specs.Prelude.{◌≡◌, ◌<◌, MatchResult};
ghost use Rattle.memory.specs.Mirroring.{mirroring_num};

#[derive(Clone, Copy, Debug, PartialEq, Eq)]
pub enum Mirroring {
    Vertical,
    Horizontal,
    SingleScreenA,
    SingleScreenB,
    FourScreen,
}

// A number that no mirroring has.
#[derive(Clone, Copy, Debug, PartialEq, Eq)]
pub struct UnknownMirroring(pub u8);

// No derive gives an enum's numbers, so each enum that C or an image numbers has its own conversions.
impl From<Mirroring> for u8 {
    ghost from_gives = { λ m n. n ≡ mirroring_num m };

    fn from(m: Mirroring) -> u8 {
        match m {
            Mirroring::Vertical => 0,
            Mirroring::Horizontal => 1,
            Mirroring::SingleScreenA => 2,
            Mirroring::SingleScreenB => 3,
            Mirroring::FourScreen => 4,
        }
    }
}

impl TryFrom<u8> for Mirroring {
    type Error = UnknownMirroring;

    ghost try_from_gives = { λ n r. MatchResult r (λ m. mirroring_num m ≡ n) (λ e. (e.0 ≡ n) × (4 < n)) };

    fn try_from(n: u8) -> Result<Mirroring, UnknownMirroring> {
        match n {
            0 => Ok(Mirroring::Vertical),
            1 => Ok(Mirroring::Horizontal),
            2 => Ok(Mirroring::SingleScreenA),
            3 => Ok(Mirroring::SingleScreenB),
            4 => Ok(Mirroring::FourScreen),
            _ => Err(UnknownMirroring(n)),
        }
    }
}
