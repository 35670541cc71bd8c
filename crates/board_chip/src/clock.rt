// The IRQ counter.
ghost use Rattle.std.specs.Prelude.{◌≡◌};
ghost use Rattle.board_chip.specs.Clock.{clock_counter};

use crate::namco163::Regs;

impl Regs {
    // C1: one clock of the counter: enabled, it goes up to FFFF and stops there; reaching FFFF makes the line pending.
    #[tactic(auto, unfolding(crate::specs::Clock::clock_counter, cut::specs::Counter::next_counter, cut::specs::Counter::rises_from, cut::specs::Counter::moves))]
    pub fn clock(mut self) -> Regs
        ensures { result ≡ clock_counter self }
    {
        if (0x8000..0xFFFF).contains(&self.irq_counter) {
            self.irq_counter += 1;
            if self.irq_counter == 0xFFFF {
                self.irq_pending = true;
            }
        }
        self
    }
}
