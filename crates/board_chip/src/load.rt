// The registers of a fresh board.
ghost use Rattle.std.specs.Prelude.{◌≡◌};
ghost use Rattle.board_chip.specs.Load.{board_at_load, detecting_at_load, mirroring_at_load, chip_at_load};

use crate::namco163::{Board, Namco163, Regs};
use memory::mirroring::Mirroring;
use sound::audio::Audio;

#[tactic(auto, unfolding(crate::specs::Load::board_at_load))]
fn board_at_load(mapper: u16, submapper: u8) -> Board
    ensures { result ≡ board_at_load mapper submapper }
{
    match (mapper, submapper) {
        (19, _) => Board::Namco163,
        (210, 1) => Board::Namco175,
        (210, 2) => Board::Namco340,
        _ => Board::Unknown,
    }
}

// `known` says whether the game database has an entry.
#[tactic(auto, unfolding(crate::specs::Load::detecting_at_load))]
fn detecting_at_load(mapper: u16, submapper: u8, known: bool) -> bool
    ensures { result ≡ detecting_at_load mapper submapper known }
{
    match (mapper, submapper) {
        (19, _) => !known,
        (210, 1 | 2) => false,
        (210, _) => true,
        _ => false,
    }
}

#[tactic(auto, unfolding(crate::specs::Load::mirroring_at_load))]
fn mirroring_at_load(flags: u8) -> Mirroring
    ensures { result ≡ mirroring_at_load flags }
{
    if flags / 8 % 2 == 1 {
        Mirroring::FourScreen
    } else if flags % 2 == 1 {
        Mirroring::Vertical
    } else {
        Mirroring::Horizontal
    }
}

impl Namco163 {
    #[tactic(auto, unfolding(crate::specs::Load::chip_at_load))]
    pub fn load(mapper: u16, submapper: u8, flags: u8, known: bool) -> Namco163
        ensures { result ≡ chip_at_load mapper submapper flags known }
    {
        Namco163 {
            regs: Regs::new(),
            board: board_at_load(mapper, submapper),
            mapper_num: mapper,
            submapper_num: submapper,
            audio: Audio::new(),
            auto_detect_board: detecting_at_load(mapper, submapper, known),
            mirroring: mirroring_at_load(flags),
            prg_ram_written_to: false,
            nt_bank_enable: [false; 12],
            chr_banks: [0; 12],
            prg_banks: [0; 3],
        }
    }
}
