// Runs that end early, over any clock: definitions in specs/, theorems in proofs/. This crate has no code.
#![tactic(auto)]
