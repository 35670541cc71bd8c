// The board's registers: everything of the board but its memory.
#![tactic(auto)]

pub mod clock; // clock.rt: the IRQ counter
pub mod detection; // detection.rt: which board it is, and what that says of work RAM
pub mod load; // load.rt: the registers of a fresh board
pub mod namco163; // namco163.rt: the fields, as the Rust has them
pub mod reads; // reads.rt: what the board itself answers to a CPU read
pub mod reset; // reset.rt: soft and hard
