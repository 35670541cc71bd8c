// A line of a text as a call.
#![tactic(auto)]

pub mod arguments; // arguments.rt: a word as an address, a byte or a region
pub mod call; // call.rt: a line as a call
pub mod name; // name.rt: the calls' names, and the words that each has
