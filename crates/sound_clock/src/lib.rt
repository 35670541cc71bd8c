// The sound clock, and a run of many clocks at once.
#![tactic(auto)]

pub mod clock;
pub mod run;
