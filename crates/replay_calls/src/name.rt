// The calls' names, and the words that each has.
#[derive(Clone, Copy, Debug, PartialEq, Eq)]
pub enum Name {
    Load,
    Read,
    Peek,
    Write,
    Preview,
    ChrRead,
    ChrWrite,
    Fill,
    RegionPeek,
    RegionWrite,
    Sram,
    Run,
    Reset,
    SyncBattery,
    RestoreBattery,
    Image,
    Arena,
    Register,
    Lookup,
    Directory,
}

// An `Option`, here and for the other words of a line: a `TryFrom` would need an error type that nothing reads.
pub fn name_of(word: &[u8]) -> Option<Name> {
    let name = match word {
        b"load" => Name::Load,
        b"read" => Name::Read,
        b"peek" => Name::Peek,
        b"write" => Name::Write,
        b"preview" => Name::Preview,
        b"chr-read" => Name::ChrRead,
        b"chr-write" => Name::ChrWrite,
        b"fill" => Name::Fill,
        b"region-peek" => Name::RegionPeek,
        b"region-write" => Name::RegionWrite,
        b"sram" => Name::Sram,
        b"run" => Name::Run,
        b"reset" => Name::Reset,
        b"sync-battery" => Name::SyncBattery,
        b"restore-battery" => Name::RestoreBattery,
        b"image" => Name::Image,
        b"arena" => Name::Arena,
        b"register" => Name::Register,
        b"lookup" => Name::Lookup,
        b"directory" => Name::Directory,
        _ => return None,
    };
    Some(name)
}

impl Name {
    // What a line with this name has to be.
    pub fn usage(self) -> &'static str {
        match self {
            Name::Load => {
                "load and ten numbers, the second and third up to $FF, or eleven with OPTIONS, a sum of $80, $40 and $20, or 0"
            }
            Name::Read => "read ADDR, up to $FFFF",
            Name::Peek => "peek ADDR, up to $FFFF",
            Name::Write => "write ADDR VAL, up to $FFFF and $FF",
            Name::Preview => "preview ADDR VAL, up to $FFFF and $FF",
            Name::ChrRead => "chr-read ADDR, up to $FFFF",
            Name::ChrWrite => "chr-write ADDR VAL, up to $FFFF and $FF",
            Name::Fill => "fill REGION HEX, two digits a byte",
            Name::RegionPeek => "region-peek REGION OFFSET",
            Name::RegionWrite => "region-write REGION OFFSET VAL, VAL up to $FF",
            Name::Sram => "sram alone",
            Name::Run => "run CLOCKS ROOM, ROOM up to 8192",
            Name::Reset => "reset soft or reset hard",
            Name::SyncBattery => "sync-battery alone",
            Name::RestoreBattery => "restore-battery alone",
            Name::Image => "image alone, or image LENGTH, up to 1024",
            Name::Arena => "arena alone",
            Name::Register => "register ADDR LENGTH NUMBER, up to $FFFF and $FFFFFFFF",
            Name::Lookup => "lookup ADDR, up to $FFFF",
            Name::Directory => "directory alone",
        }
    }

    // Whether so many words may stand behind the name.
    pub fn takes(self, words: usize) -> bool {
        match self {
            Name::Load => words == 10 || words == 11,
            Name::Read | Name::Peek | Name::ChrRead | Name::Reset | Name::Lookup => words == 1,
            Name::Write | Name::Preview | Name::ChrWrite | Name::RegionPeek | Name::Run => words
                == 2,
            Name::RegionWrite | Name::Register => words == 3,
            Name::Fill => words == 1 || words == 2,
            Name::Image => words <= 1,
            Name::Sram | Name::SyncBattery | Name::RestoreBattery | Name::Arena | Name::Directory =>
                words == 0,
        }
    }
}
