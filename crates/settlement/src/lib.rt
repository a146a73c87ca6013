// What settle prints: a file settled between the day's pile over either book, and the members' standing after it.
#![tactic(auto)]

pub mod day;
pub mod line;
pub mod lines;
