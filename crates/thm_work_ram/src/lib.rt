// The window of work RAM at 6000 and the zero page: theorems in proofs/ about the mapping and about lists of calls. This crate has no code.
#![tactic(auto)]
