// What every call keeps, and when and how it is refused: theorems in proofs/ about the definitions that the public calls are contracted by.
// This crate has no code.
#![tactic(auto)]
