// Bit fields of any width, and a cursor that writes and reads them in a slice of bytes, most significant bit first.
#![tactic(auto)]

pub mod words; // words.rt: whole bytes: big-endian words and copies
pub mod cursor; // cursor.rt: fields of any number of bits
