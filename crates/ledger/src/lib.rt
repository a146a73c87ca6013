// What each member has bought and sold, and how the members stand.
#![tactic(auto)]

pub mod row;
pub mod standing;
pub mod sums;
pub mod totals;
