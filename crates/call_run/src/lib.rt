// The board's clock, and the run.
#![tactic(auto)]

pub mod clock; // clock.rt: one clock, and the counter's clocks
pub mod run; // run.rt: the public run
