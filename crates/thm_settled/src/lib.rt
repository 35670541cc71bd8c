// How long a board keeps its type: theorems in proofs/ about lists of calls. This crate has no code.
#![tactic(auto)]
