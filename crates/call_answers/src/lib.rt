// The answers that several calls share (N0, N21), as a reader of their contracts has them: definitions in specs/. This crate has no code.
#![tactic(auto)]
