// The sound port of the Namco 163 apart from the rest of the sound chip, as a struct that is lent and changed.
#![tactic(auto)]

pub mod block;
pub mod lent;

pub use lent::Port;
