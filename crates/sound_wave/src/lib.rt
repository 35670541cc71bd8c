// From the sound RAM to a sample: a channel's registers, phase and level, and the mix of the channels.
#![tactic(auto)]

pub mod channel;
pub mod mix;
