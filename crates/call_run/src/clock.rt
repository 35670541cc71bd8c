// One clock of the board (C1, C2), and n clocks of the counter in one step.
ghost use Rattle.std.specs.Prelude.{◌≡◌};
ghost use Rattle.sound.specs.Range.{InRange};
ghost use Rattle.call_run.specs.Clock.{chip_clock, counter_run, counter_rise};

use board_chip::namco163::{Namco163, Regs};

// The chip after one clock: the counter moves (C1), and on a 163 the sound follows (C2). `InRange` is asked as in sound_clock.
#[tactic(auto, unfolding(crate::specs::Clock::chip_clock))]
pub fn clock(mut chip: Namco163) -> Namco163
    requires { InRange chip.audio }
    ensures { result ≡ (chip_clock chip).state }
{
    chip.regs = chip.regs.clock();
    if chip.board.is_163() {
        sound_clock::clock::clock(&mut chip.audio);
    }
    chip
}

#[derive(Clone, Copy)]
pub struct CounterRan {
    pub regs: Regs,
    // C5: which clock, the first being 1, was a rise; 0 where none was: a number and no option, as the C interface has it.
    pub rise: u32,
}

// The counter jumps to where n clocks leave it.
pub fn run_counter(mut regs: Regs, n: u32) -> CounterRan
    ensures { (result.regs ≡ counter_run n regs) × (result.rise ≡ counter_rise n regs) }
{
    let left = u32::from(0xFFFF - regs.irq_counter);
    if regs.irq_counter < 0x8000 || left == 0 {
        CounterRan { regs, rise: 0 }
    } else if n < left {
        regs.irq_counter += n as u16;
        CounterRan { regs, rise: 0 }
    } else {
        regs.irq_counter = 0xFFFF;
        regs.irq_pending = true;
        CounterRan { regs, rise: left }
    }
}
