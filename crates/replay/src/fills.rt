ghost use Rattle.std.specs.Prelude.{◌≡◌};
ghost use Rattle.plain.specs.Dealing.{fill};
ghost use Rattle.replay.specs.Fills.{pricing, is_fill, first_fill, agrees};

use crate::queue::Queue;
use orders::order::{Fill, Order};
use orders::request::Side;

// How fills are priced: at the resting order's price, where an order of the side came in, or all at one.
// An enum and no closure, since clauses name the price by it; of a closure each would have to ask what it answers.
#[derive(Clone, Copy)]
pub(crate) enum Terms {
    Resting(Side),
    Uniform(u32),
}

fn price_of(terms: Terms, buy: &Order, sell: &Order) -> u32
    ensures { result ≡ pricing terms buy.now sell.now }
{
    match terms {
        Terms::Resting(Side::Buy) => sell.price,
        Terms::Resting(Side::Sell) => buy.price,
        Terms::Uniform(price) => price,
    }
}

// The first fill of the tonnes left, if there are any and both sides have somebody.
fn next_fill(terms: Terms, left: u32, buy: Option<Order>, sell: Option<Order>) -> Option<Fill>
    ensures { result ≡ first_fill (pricing terms) left buy sell }
{
    let buy = buy?;
    let sell = sell?;
    if left == 0 {
        return None;
    }
    let quantity = left.min(buy.remaining).min(sell.remaining);
    let price = price_of(terms, &buy, &sell);
    Some(Fill::between(&buy, &sell, price, quantity))
}

fn is_next(f: &Fill, next: Option<Fill>) -> bool
    ensures { result ≡ is_fill f.now next }
{
    next == Some(*f)
}

// Whether fills are those of so many tonnes that the buyers and the sellers deal, each from the front.
pub(crate) fn is_dealt(
    terms: Terms,
    tonnes: u32,
    buyers: &[Order],
    sellers: &[Order],
    fills: &[Fill],
) -> bool
    ensures { result ≡ agrees (pricing terms) tonnes buyers.now sellers.now fills.now }
{
    let mut left = tonnes;
    let mut buys = Queue::over(buyers);
    let mut sells = Queue::over(sellers);
    for f in fills {
        if !is_next(f, next_fill(terms, left, buys.first, sells.first)) {
            return false;
        }
        left = left.saturating_sub(f.quantity);
        buys = buys.after(f.quantity);
        sells = sells.after(f.quantity);
    }
    next_fill(terms, left, buys.first, sells.first).is_none()
}
