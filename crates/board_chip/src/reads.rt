// What the board itself answers to a CPU read: audio registers and the IRQ counter are not memory.
ghost use Rattle.std.specs.Prelude.{◌≡◌};
ghost use Rattle.board_chip.specs.Reads.{served, after_read};

use crate::namco163::Namco163;

impl Namco163 {
    // The board's byte, or none: then memory answers.
    #[tactic(auto, unfolding(crate::specs::Reads::served))]
    pub fn prg_peek(self, addr: u16) -> Option<u8>
        ensures { result ≡ served self addr }
    {
        match addr {
            0x4800..=0x4FFF => Some(self.audio.peek_register(addr)),
            0x5000..=0x57FF => Some((self.regs.irq_counter % 256) as u8),
            0x5800..=0x5FFF => Some((self.regs.irq_counter / 256) as u8),
            _ => None,
        }
    }

    // The board after a read; its answer is that of `prg_peek`.
    #[tactic(auto, unfolding(crate::specs::Reads::after_read))]
    pub fn after_read(mut self, addr: u16) -> Namco163
        ensures { result ≡ after_read self addr }
    {
        if let 0x4800..=0x4FFF = addr {
            self.audio.read_register(addr);
        }
        self
    }
}
