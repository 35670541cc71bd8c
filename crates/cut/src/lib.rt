// Demand 3 (D3.1 to D3.3) over any board: definitions in specs/, the theorem in proofs/. This crate has no code.
#![tactic(auto)]
