// Theorems about lists of calls with a directory of blocks, in specs/ and proofs/. This crate has no code.
#![tactic(auto)]
