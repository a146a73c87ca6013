ghost use Rattle.std.specs.Prelude.{◌≡◌};
ghost use Rattle.orders.specs.Entries.{fill_at, taken};

use crate::request::Side;

// An order, with the tonnes that it was entered for and what remains of them.
#[derive(Clone, Copy)]
pub struct Order {
    pub number: u32,
    pub member: u8,
    pub side: Side,
    pub price: u32,
    pub quantity: u32,
    pub remaining: u32,
}

// Tonnes dealt between a buy and a sell, with the numbers of both and their members.
#[derive(Clone, Copy, PartialEq, Eq)]
pub struct Fill {
    pub buy: u32,
    pub sell: u32,
    pub buyer: u8,
    pub seller: u8,
    pub price: u32,
    pub quantity: u32,
}

impl Fill {
    // What a fill list has in places that no deal wrote.
    pub const BLANK: Fill = Fill {
        buy: 0,
        sell: 0,
        buyer: 0,
        seller: 0,
        price: 0,
        quantity: 0,
    };

    // A fill of tonnes between a buy and a sell.
    pub fn between(buy: &Order, sell: &Order, price: u32, quantity: u32) -> Fill
        ensures { result ≡ fill_at price buy.now sell.now quantity }
    {
        Fill {
            buy: buy.number,
            sell: sell.number,
            buyer: buy.member,
            seller: sell.member,
            price,
            quantity,
        }
    }

    // A fill of an order that comes with one that rests, at the price of that one.
    pub fn taken(taker: &Order, resting: &Order, quantity: u32) -> Fill
        ensures { result ≡ taken taker.now.side taker.now resting.now quantity }
    {
        match taker.side {
            Side::Buy => Fill::between(taker, resting, resting.price, quantity),
            Side::Sell => Fill::between(resting, taker, resting.price, quantity),
        }
    }
}

// Orders are gathered for a call, or each is dealt as it comes.
#[derive(Clone, Copy, PartialEq, Eq)]
pub enum Phase {
    Gathering,
    Dealing,
}
