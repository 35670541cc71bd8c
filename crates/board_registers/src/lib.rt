// The board's registers after a CPU write.
#![tactic(auto)]

pub mod writes; // writes.rt: register writes by their address
