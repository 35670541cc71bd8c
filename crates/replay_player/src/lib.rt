// Calls on a cartridge, from a line to its answer line.
#![tactic(auto)]

mod calls; // calls.rt: each call on the cartridge and its directory
pub mod player; // player.rt: what lasts from line to line, and the answer to a line
