// The fields of the board, as the Rust has them, and the board with one of them replaced.
ghost use Rattle.std.specs.Prelude.{◌≡◌, ◌<◌};
ghost use Rattle.board_chip.specs.Namco163.{Numbered, board_num, is163, with_board, with_mirroring};

use memory::mirroring::Mirroring;
use sound::audio::Audio;

#[derive(Clone, Copy, Debug, PartialEq, Eq)]
pub enum Board {
    Unknown,
    Namco163,
    Namco175,
    Namco340,
}

// A number that no board has in an image.
#[derive(Clone, Copy, Debug, PartialEq, Eq)]
pub struct NoBoard(pub u8);

// The board's number in an image.
impl From<Board> for u8 {
    ghost from_gives = { λ b n. (n ≡ board_num b) × (n < 4) };

    fn from(board: Board) -> u8 {
        match board {
            Board::Unknown => 0,
            Board::Namco163 => 1,
            Board::Namco175 => 2,
            Board::Namco340 => 3,
        }
    }
}

impl TryFrom<u8> for Board {
    type Error = NoBoard;

    ghost try_from_gives = { Numbered };

    fn try_from(n: u8) -> Result<Self, NoBoard> {
        match n {
            0 => Ok(Board::Unknown),
            1 => Ok(Board::Namco163),
            2 => Ok(Board::Namco175),
            3 => Ok(Board::Namco340),
            _ => Err(NoBoard(n)),
        }
    }
}

impl Board {
    pub fn is_163(self) -> bool
        ensures { result ≡ is163 self }
    {
        self == Board::Namco163
    }
}

#[derive(Clone, Copy)]
pub struct Regs {
    pub irq_counter: u16,
    pub irq_pending: bool,
    pub nt_select_lo: bool,
    pub nt_select_hi: bool,
    pub prg_ram_protect: u8,
}

#[derive(Clone, Copy)]
pub struct Namco163 {
    pub regs: Regs,
    pub board: Board,
    pub mapper_num: u16,
    pub submapper_num: u8,
    pub audio: Audio,
    pub auto_detect_board: bool,
    pub mirroring: Mirroring,
    pub prg_ram_written_to: bool,
    // Whether each of the twelve 1 KiB slots of 0000..2FFF shows CIRAM instead of CHR. Two arrays, as the Rust has and R8 names them; so
    // are the sound's two of its channels.
    pub nt_bank_enable: [bool; 12],
    pub chr_banks: [u8; 12],
    // The 8 KiB banks at 8000, A000 and C000; E000 shows the last bank.
    pub prg_banks: [u8; 3],
}

impl Namco163 {
    pub const PRG_WINDOW: usize = 8 * 1024;

    pub const CHR_WINDOW: usize = 1024;

    pub fn with_board(self, board: Board) -> Namco163
        ensures { result ≡ with_board self board }
    {
        Namco163 { board, ..self }
    }

    pub fn with_mirroring(self, mirroring: Mirroring) -> Namco163
        ensures { result ≡ with_mirroring self mirroring }
    {
        Namco163 { mirroring, ..self }
    }
}
