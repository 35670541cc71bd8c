// When a run ends early, as theorems and a table in specs/ and proofs/. This crate has no code.
#![tactic(auto)]
