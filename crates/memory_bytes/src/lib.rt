// The bytes behind the memory's page entries and in its regions.
#![tactic(auto)]

pub mod bytes; // bytes.rt: reads and stores through the tables and in the regions
