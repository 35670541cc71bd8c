// A line as a call.
use crate::arguments::{parse, parse_region};
use crate::name::Name;
use board_chip::reset::ResetKind;
use board_state::Options;
use call_load::Cartridge;
use memory::layout::{MemoryLayout, Src};
use replay_text::hex::decode;
use replay_text::number::parse_number;
use replay_text::words::{spaces, word};

#[derive(Clone, Copy)]
pub enum Call<'a> {
    Load(Cartridge),
    Read(u16),
    Peek(u16),
    Write(u16, u8),
    Preview(u16, u8),
    ChrRead(u16),
    ChrWrite(u16, u8),
    Fill(Src, &'a [u8]),
    RegionPeek(Src, u64),
    RegionWrite(Src, u64, u8),
    Sram,
    Run(u64, usize),
    Reset(ResetKind),
    SyncBattery,
    RestoreBattery,
    // The image in so many bytes, or at its shorter length.
    Image(Option<usize>),
    Arena,
    // A block's start, length and number.
    Register(u16, u64, u32),
    Lookup(u16),
    Directory,
}

// The numbers behind the first ten spaces. By number, since each is a word's number too and ends the rest where it is none.
fn ten_numbers(line: &[u8]) -> Option<[u64; 10]> {
    let mut n = [0u64; 10];
    for i in 0..10 {
        n[i] = parse_number(word(line, i + 1))?;
    }
    Some(n)
}

// The options of an image's byte by an eleventh number, if there is one; its other five bits are no options, bit 4 neither (H12).
fn parse_options(line: &[u8]) -> Option<Options> {
    let byte = if spaces(line) == 10 {
        0
    } else {
        parse_number(word(line, 11))?
    };
    if 0xFF < byte || byte % 32 != 0 {
        return None;
    }
    Some(Options {
        f800_protects: byte / 128 == 1,
        signed_levels: byte / 64 % 2 == 1,
        plain_sum: byte / 32 % 2 == 1,
    })
}

fn load(line: &[u8]) -> Option<Cartridge> {
    let options = parse_options(line)?;
    let [
        mapper,
        submapper,
        flags,
        known,
        prg_rom,
        prg_ram,
        battery_ext,
        chr,
        chr_writable,
        ciram,
    ] = ten_numbers(line)?;
    Some(Cartridge {
        mapper,
        submapper: u8::try_from(submapper).ok()?,
        flags: u8::try_from(flags).ok()?,
        known: known != 0,
        sizes: MemoryLayout {
            prg_rom,
            prg_ram,
            battery_ext,
            chr,
            chr_writable: chr_writable != 0,
            ciram,
        },
        options,
    })
}

// The bytes may be left out, with their space or without it.
fn fill<'a>(line: &[u8], bytes: &'a mut [u8]) -> Option<Call<'a>> {
    let src = parse_region(word(line, 1))?;
    let n = decode(word(line, 2), bytes)?;
    Some(Call::Fill(src, &bytes[..n]))
}

// A number up to a limit.
fn up_to(most: usize, word: &[u8]) -> Option<usize> {
    let n: usize = parse(word)?;
    if n <= most { Some(n) } else { None }
}

fn parse_kind(word: &[u8]) -> Option<ResetKind> {
    match word {
        b"soft" => Some(ResetKind::Soft),
        b"hard" => Some(ResetKind::Hard),
        _ => None,
    }
}

// The most samples that a run may make, and the most bytes that an image is lent.
pub const SAMPLES_ROOM: usize = 8192;

pub const IMAGE_ROOM: usize = 1024;

fn image<'a>(line: &[u8]) -> Option<Call<'a>> {
    if spaces(line) == 0 {
        return Some(Call::Image(None));
    }
    let len = up_to(IMAGE_ROOM, word(line, 1))?;
    Some(Call::Image(Some(len)))
}

// A `fill` puts the bytes that it names at the start of `bytes`.
pub fn parse_call<'a>(name: Name, line: &[u8], bytes: &'a mut [u8]) -> Option<Call<'a>> {
    if !name.takes(spaces(line)) {
        return None;
    }
    let first = word(line, 1);
    let second = word(line, 2);
    let call = match name {
        Name::Load => Call::Load(load(line)?),
        Name::Read => Call::Read(parse(first)?),
        Name::Peek => Call::Peek(parse(first)?),
        Name::Write => Call::Write(parse(first)?, parse(second)?),
        Name::Preview => Call::Preview(parse(first)?, parse(second)?),
        Name::ChrRead => Call::ChrRead(parse(first)?),
        Name::ChrWrite => Call::ChrWrite(parse(first)?, parse(second)?),
        Name::Fill => fill(line, bytes)?,
        Name::RegionPeek => Call::RegionPeek(parse_region(first)?, parse(second)?),
        Name::RegionWrite => Call::RegionWrite(
            parse_region(first)?,
            parse(second)?,
            parse(word(line, 3))?,
        ),
        Name::Sram => Call::Sram,
        Name::Run => Call::Run(parse(first)?, up_to(SAMPLES_ROOM, second)?),
        Name::Reset => Call::Reset(parse_kind(first)?),
        Name::SyncBattery => Call::SyncBattery,
        Name::RestoreBattery => Call::RestoreBattery,
        Name::Image => image(line)?,
        Name::Arena => Call::Arena,
        Name::Register => Call::Register(parse(first)?, parse(second)?, parse(word(line, 3))?),
        Name::Lookup => Call::Lookup(parse(first)?),
        Name::Directory => Call::Directory,
    };
    Some(call)
}
