// Claims: fills put forward for an entry or a call, and their check against a venue.
#![tactic(auto)]

pub mod check;
pub mod claim;
mod ranks;
