// The NESdev wiki's definition of mappers 019 and 210 (docs/WIKI.md) beside the board (D2.2): definitions in specs/, theorems in proofs/.
// This crate has no code.
#![tactic(auto)]
