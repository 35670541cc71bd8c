// Demand 3 (D3.1 to D3.3) of this board: definitions in specs/, the theorems in proofs/. This crate has no code.
#![tactic(auto)]
