// Venues, and lists of steps that are run through one.
#![tactic(auto)]

pub mod book;
pub mod question;
pub mod run;
pub mod step;
pub mod venue;
