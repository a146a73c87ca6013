// The words of the market: requests and the rows that they are made from, orders, fills, answers and refusals.
#![tactic(auto)]

pub mod answer;
pub mod cancel;
pub mod entry;
pub mod order;
pub mod refusal;
pub mod request;
pub mod row;
