// What a block that is handed out covers, over any machine with a directory: definitions in specs/, theorems in proofs/. This crate has no
// code.
#![tactic(auto)]
