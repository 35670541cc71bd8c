// Reset, soft and hard.
ghost use Rattle.std.specs.Prelude.{◌≡◌, ◌<◌, MatchResult};
ghost use Rattle.board_chip.specs.Reset.{kind_num, no_regs, reset_regs, reset_chip};

use crate::namco163::{Namco163, Regs};
use sound::audio::Audio;

#[derive(Clone, Copy, Debug, PartialEq, Eq)]
pub enum ResetKind {
    Soft,
    Hard,
}

// A number that no kind has.
#[derive(Clone, Copy, Debug, PartialEq, Eq)]
pub struct NoKind(pub u64);

// The host's number of a kind (N3).
impl From<ResetKind> for u64 {
    ghost from_gives = { λ k n. n ≡ kind_num k };

    fn from(kind: ResetKind) -> u64 {
        match kind {
            ResetKind::Soft => 0,
            ResetKind::Hard => 1,
        }
    }
}

impl TryFrom<u64> for ResetKind {
    type Error = NoKind;

    ghost try_from_gives = { λ n r. MatchResult r (λ k. kind_num k ≡ n) (λ e. (e.0 ≡ n) × (1 < n)) };

    fn try_from(n: u64) -> Result<Self, NoKind> {
        match n {
            0 => Ok(ResetKind::Soft),
            1 => Ok(ResetKind::Hard),
            _ => Err(NoKind(n)),
        }
    }
}

impl Regs {
    pub fn new() -> Regs
        ensures { result ≡ no_regs }
    {
        Regs {
            irq_counter: 0,
            irq_pending: false,
            nt_select_lo: false,
            nt_select_hi: false,
            prg_ram_protect: 0,
        }
    }

    fn reset(self, kind: ResetKind) -> Regs
        ensures { result ≡ reset_regs kind self }
    {
        match kind {
            ResetKind::Soft => self,
            ResetKind::Hard => Regs::new(),
        }
    }
}

impl Namco163 {
    // C7: slots 8..11 are set to CIRAM bank 0; any bank would do, since a game writes them before it reads a nametable. C8: the page tables
    // show that only once a write makes them anew. S17: the new sound has the old one's choices.
    #[tactic(auto, unfolding(crate::specs::Reset::reset_chip))]
    pub fn reset(mut self, kind: ResetKind) -> Namco163
        ensures { result ≡ reset_chip self kind }
    {
        self.regs = self.regs.reset(kind);
        self.nt_bank_enable[8..].fill(true);
        self.chr_banks[8..].fill(0);
        self.prg_ram_written_to = false;
        self.audio = Audio {
            signed_levels: self.audio.signed_levels,
            plain_sum: self.audio.plain_sum,
            ..Audio::new()
        };
        self
    }
}
