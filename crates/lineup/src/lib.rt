// Both sides of a book in one list of places, each in the sequence of its rule.
#![tactic(auto)]

pub mod lineup;
pub mod mirrored;
mod moves;
mod price;
mod sides;
pub mod state;
pub mod sums;
mod sweep;
