// Prices of a call, and which of two is taken.
#![tactic(auto)]

pub mod quote;
pub mod step;
