// The board's public calls from the CPU. The calls `cpu_read`, `cpu_peek` and `cpu_write` take any state: what does not fit is refused,
// and nothing is altered (N0). `cpu_peek_known` and `cpu_write_known` take one that is known to be in range.
#![tactic(auto)]

pub mod calls; // calls.rt: read, peek and write
