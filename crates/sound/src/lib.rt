// The sound part of the Namco 163: its state, the port to its 128 bytes of sound RAM, and whether a state is in range.
#![tactic(auto)]

pub mod audio;
pub mod levels;
pub mod range;
pub mod registers;

pub use audio::Audio;
