ghost use Rattle.std.specs.Prelude.{◌≡◌};
ghost use Rattle.replay.specs.Agreeing.{entry_agrees, call_agrees};

use crate::fills::{Terms, is_dealt};
use crate::lists::{retain_within, tonnes_within};
use crate::quote::Sides;
use orders::entry::Entry;
use orders::order::{Fill, Order};
use orders::request::Side;

// Whether an entry that goes by a number has its minimum within its reach of the other side's orders, and deals these fills.
// What the list holds after it is of no use: it is lent so that those within reach can be moved to its front and counted.
pub fn entry_agrees(entry: &Entry, number: u32, resting: &mut [Order], fills: &[Fill]) -> bool
    ensures { result ≡ entry_agrees entry.now number resting.old fills.now }
{
    let side = entry.side();
    let reach = tonnes_within(resting, side, entry.price());
    if entry.minimum() > reach {
        return false;
    }
    let count = retain_within(resting, side, entry.price());
    let others = &resting[..count];
    let own = &[entry.order(number)];
    let tonnes = entry.quantity().min(reach);
    match side {
        Side::Buy => is_dealt(Terms::Resting(side), tonnes, own, others, fills),
        Side::Sell => is_dealt(Terms::Resting(side), tonnes, others, own, fills),
    }
}

// Whether a call of these buys and sells has this price and volume, and deals these fills.
// What the lists hold after it is of no use.
pub fn call_agrees(
    price: u32,
    volume: u32,
    buys: &mut [Order],
    sells: &mut [Order],
    fills: &[Fill],
) -> bool
    ensures { result ≡ call_agrees price volume buys.old sells.old fills.now }
{
    let best = Sides { buys, sells }.best_quote();
    if price != best.called_price() || volume != best.volume {
        return false;
    }
    let buyers = retain_within(buys, Side::Sell, price);
    let sellers = retain_within(sells, Side::Buy, price);
    is_dealt(
        Terms::Uniform(price),
        volume,
        &buys[..buyers],
        &sells[..sellers],
        fills,
    )
}
