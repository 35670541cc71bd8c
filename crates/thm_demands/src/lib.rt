// What is promised, in one file: proofs/Demands.antt. This crate has no code.
#![tactic(auto)]
