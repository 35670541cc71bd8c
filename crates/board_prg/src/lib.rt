// The board's registers after a CPU write to E000..FFFF.
#![tactic(auto)]

pub mod banks; // banks.rt: PRG banks
