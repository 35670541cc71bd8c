// A word as a number of a width, or a region.
use memory::layout::Src;
use replay_text::number::parse_number;

// An address, a byte or another number that has to fit its type.
pub fn parse<T: TryFrom<u64>>(word: &[u8]) -> Option<T>
where
    T::Error: Drop,
{
    T::try_from(parse_number(word)?).ok()
}

pub fn parse_region(word: &[u8]) -> Option<Src> {
    match word {
        b"prg-rom" => Some(Src::PrgRom),
        b"prg-ram" => Some(Src::PrgRam),
        b"battery" => Some(Src::BatteryExt),
        b"chr" => Some(Src::Chr),
        b"ciram" => Some(Src::CiRam),
        _ => None,
    }
}
