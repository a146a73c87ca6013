use orders::order::{Order, Phase};
use orders::request::Side;

// What may be asked of a venue, which changes nothing.
#[derive(Clone, Copy)]
pub enum Question {
    Capacity,
    CurrentPhase,
    NextNumber,
    IsFresh,
    Height,
    OrderAt(Side, usize),
}

// What it tells.
#[derive(Clone, Copy)]
pub enum Told {
    Capacity(usize),
    CurrentPhase(Phase),
    NextNumber(Option<u32>),
    IsFresh(bool),
    Height(u8),
    OrderAt(Option<Order>),
}
