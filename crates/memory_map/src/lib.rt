// The two page tables: banks in windows, nametables, and the memory of a new cart.
#![tactic(auto)]

pub mod mirroring; // mirroring.rt: the nametables
pub mod new; // new.rt: a new memory
pub mod table; // table.rt: a step at each of a run of entries
pub mod windows; // windows.rt: banks in windows
