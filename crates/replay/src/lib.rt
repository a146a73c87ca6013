// Fills that are put forward for lists of orders, held against those that the orders deal.
#![tactic(auto)]

pub mod agree;
mod fills;
mod lists;
mod queue;
mod quote;
