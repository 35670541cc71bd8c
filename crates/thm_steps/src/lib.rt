// Steps of the board keep what is known of it: theorems in proofs/ about register writes, reads, reset, the mapping and the single clock.
// This crate has no code.
#![tactic(auto)]
