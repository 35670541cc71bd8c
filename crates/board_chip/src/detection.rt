// Which board it is, learned from the writes, and what that says of work RAM.
ghost use Rattle.std.specs.Prelude.{◌≡◌};
ghost use Rattle.board_chip.specs.Detection.{may_change, maybe_set_board, prg_ram_readable, prg_ram_writable};

use crate::namco163::{Board, Namco163};

impl Board {
    // Whether work RAM is mapped at 6000.
    pub fn prg_ram_readable(self) -> bool
        ensures { result ≡ prg_ram_readable self }
    {
        matches!(self, Board::Namco163 | Board::Namco175)
    }

    // Whether work RAM takes stores.
    pub fn prg_ram_writable(self, protect: u8) -> bool
        ensures { result ≡ prg_ram_writable self protect }
    {
        match self {
            Board::Namco163 => true,
            Board::Namco175 => protect % 2 == 1,
            Board::Unknown | Board::Namco340 => false,
        }
    }
}

impl Namco163 {
    // L6: whether detection acts. A 340 whose written flag is set, no matter when, stays a 340 until a reset clears the flag.
    #[tactic(auto, unfolding(crate::specs::Detection::may_change))]
    fn may_change(self) -> bool
        ensures { result ≡ may_change self }
    {
        self.auto_detect_board && (!self.prg_ram_written_to || self.board != Board::Namco340)
    }

    #[tactic(auto, unfolding(crate::specs::Detection::maybe_set_board))]
    pub fn maybe_set_board(self, board: Board) -> Namco163
        ensures { result ≡ maybe_set_board self board }
    {
        if self.may_change() {
            self.with_board(board)
        } else {
            self
        }
    }
}
