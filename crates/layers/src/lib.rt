// Layers over any venue.
#![tactic(auto)]

pub mod caps;
pub mod collar;
pub mod layer;
