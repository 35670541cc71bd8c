// The calls with a directory of blocks (K5 to K7), each beside the call without one: it tests the directory (N2), makes that call, and
// drops the blocks over what it touched.
#![tactic(auto)]

pub mod calls; // calls.rt: load, fill, battery sync
pub mod writes; // writes.rt: CPU, CHR and region writes, and the preview
