// Places searched for who comes first, dealt with one fill at a time, and quoted for a call.
#![tactic(auto)]

pub mod dealing;
pub mod quote;
pub mod scan;
