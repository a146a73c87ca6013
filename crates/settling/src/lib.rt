// Two venues side by side: what the first deals is claimed against the second, checked and booked.
#![tactic(auto)]

pub mod booking;
pub mod claiming;
pub mod fault;
pub mod items;
pub mod reply;
pub mod request;
pub mod unbooked;
