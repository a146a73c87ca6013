// The day's pile of layers over a book: set up, and run.
#![tactic(auto)]

pub mod day;
pub mod kind;
