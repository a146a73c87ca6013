ghost use Rattle.std.specs.Prelude.{◌≡◌};
ghost use Rattle.matching.specs.Quotes.{quote_at, step_at, better_of, best_quote};

use crate::scan::tonnes_opposite;
use orders::order::Order;
use orders::request::Side;
use quotes::quote::Quote;
use quotes::step::step_of;
use ranking::places::{Places, each};

// What a call would deal at a price. In `replay` are its like over lists of orders: what the two share is in `quotes`, and what is left
// says only what is summed.
fn quote_at<L: Places<Record = Order>>(list: &L, price: u32) -> Quote
    ensures { result ≡ quote_at (L.contents list.now) price }
{
    let bought = tonnes_opposite(list, Side::Sell, price);
    let sold = tonnes_opposite(list, Side::Buy, price);
    Quote::new(price, bought, sold)
}

// The price from which the order in a place changes what is dealt.
fn step_at(place: Option<Order>) -> Option<u32>
    ensures { result ≡ step_at place }
{
    let o = place?;
    step_of(o.side, o.price)
}

// The better of a quote and that at a price, if any.
fn better_of<L: Places<Record = Order>>(list: &L, best: Quote, step: Option<u32>) -> Quote
    ensures { result ≡ better_of (L.contents list.now) best step }
{
    match step {
        None => best,
        Some(price) => best.better(quote_at(list, price)),
    }
}

// The best quote for a call: of price 1 and of the prices at which what is dealt changes.
pub fn best_quote<L: Places<Record = Order>>(list: &L) -> Quote
    ensures { result ≡ best_quote (L.contents list.now) }
{
    let mut best = quote_at(list, 1);
    for (_, place) in each(list) {
        best = better_of(list, best, step_at(place));
    }
    best
}
