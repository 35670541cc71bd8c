// The two editions of a load beside each other (L23): theorems in proofs/. This crate has no code.
#![tactic(auto)]
