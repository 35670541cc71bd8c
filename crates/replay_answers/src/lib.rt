// Answers as lines of a text.
#![tactic(auto)]

pub mod answers; // answers.rt: the pieces of an answer line
pub mod blocks; // blocks.rt: the blocks of a directory
