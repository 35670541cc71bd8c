// The text of a list of calls and of its answers: words, numbers, hexadecimal digits, and a sum over bytes.
#![tactic(auto)]

pub mod adler;
pub mod hex;
pub mod number;
pub mod out;
pub mod words;
