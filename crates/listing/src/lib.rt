// What the programs day and books print: from a file's records to steps, and from answered steps to lines.
#![tactic(auto)]

pub mod day;
pub mod line;
pub mod lines;
pub mod records;
