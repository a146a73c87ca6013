ghost use Rattle.std.specs.Prelude.{◌≡◌, ◌≤◌};

pub mod entering;
pub mod making;

use crate::request::{Life, Side};

// A new order. Its ranges hold of every value of the type, so nothing below checks them again.
#[derive(Clone, Copy)]
pub struct Entry {
    member: u8,
    side: Side,
    life: Life,
    price: u32,
    quantity: u32,
    minimum: u32,
    ghost member_high: { member ≤ 63 },
    ghost price_low: { 1 ≤ price },
    ghost price_high: { price ≤ 100000 },
    ghost quantity_low: { 1 ≤ quantity },
    ghost quantity_high: { quantity ≤ 50000 },
    ghost minimum_high: { minimum ≤ quantity },
}

impl Entry {
    pub fn member(&self) -> u8
        ensures value { result ≡ self.now.member }
        ensures range { result ≤ 63 }
    {
        self.member
    }

    pub fn side(&self) -> Side
        ensures { result ≡ self.now.side }
    {
        self.side
    }

    pub fn life(&self) -> Life
        ensures { result ≡ self.now.life }
    {
        self.life
    }

    pub fn price(&self) -> u32
        ensures value { result ≡ self.now.price }
        ensures range { (1 ≤ result) × (result ≤ 100000) }
    {
        self.price
    }

    pub fn quantity(&self) -> u32
        ensures value { result ≡ self.now.quantity }
        ensures range { (1 ≤ result) × (result ≤ 50000) }
    {
        self.quantity
    }

    pub fn minimum(&self) -> u32
        ensures value { result ≡ self.now.minimum }
        ensures range { result ≤ self.now.quantity }
    {
        self.minimum
    }
}
