// The board's registers after a CPU write to 8000..DFFF.
#![tactic(auto)]

pub mod slots; // slots.rt: CHR and nametable slots
