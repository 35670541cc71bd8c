// One place: 0 is free, any other number a block of start (16 bits), length (16) and number (32).
ghost use Rattle.std.specs.Prelude.{◌≡◌};
ghost use Rattle.directory.specs.Block.{word_of, fits, holds, block_of, registrable};

#[derive(Clone, Copy, Debug, PartialEq, Eq)]
pub struct Block {
    pub start: u16,
    pub len: u16,
    pub number: u32,
}

impl Block {
    // A block that can be registered.
    #[tactic(auto, unfolding(crate::specs::Block::fits))]
    pub fn registrable(start: u16, len: u64, number: u32) -> Option<Block>
        ensures { result ≡ registrable start len number }
    {
        let len = u16::try_from(len).ok()?;
        let block = Block { start, len, number };
        block.fits().then_some(block)
    }

    // Whether it could be registered.
    #[tactic(auto, unfolding(crate::specs::Block::fits))]
    pub fn fits(self) -> bool
        ensures { result ≡ fits self.start self.len }
    {
        let (start, len) = (u64::from(self.start), u64::from(self.len));
        0x6000 <= start && 1 <= len && len <= 4096 && start + len <= 0x1_0000
    }
}

// The parts of a place's word.
impl From<u64> for Block {
    ghost from_gives = { λ w block. block ≡ block_of w };

    fn from(w: u64) -> Block {
        Block {
            start: (w >> 48) as u16,
            len: ((w >> 32) % 0x1_0000) as u16,
            number: (w % 0x1_0000_0000) as u32,
        }
    }
}

// The word of a place that holds it.
impl From<Block> for u64 {
    ghost from_gives = { λ block w. w ≡ word_of block.start block.len block.number };

    fn from(block: Block) -> u64 {
        block.start as u64 * 0x1_0000_0000_0000
            + block.len as u64 * 0x1_0000_0000
            + block.number as u64
    }
}

// Whether a place holds the block of a start.
#[tactic(auto, unfolding(crate::specs::Block::holds))]
pub fn holds(start: u16, w: u64) -> bool
    ensures { result ≡ holds start w }
{
    w != 0 && Block::from(w).start == start
}
