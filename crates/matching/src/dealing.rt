ghost use Rattle.std.specs.Prelude.{◌≡◌};
ghost use Rattle.matching.specs.declared.dealing.Deal.TheVariants.{Entry, Call};
ghost use Rattle.matching.specs.Deals.{reduced, Turned, OneDeal, RunOut, DealtNow};

use crate::scan::first_opposite;
use orders::order::{Fill, Order, Phase};
use orders::request::Side;
use ranking::places::{Places, put};
use ranking::rank::Priority;

// What is dealt: an entry's order with those opposite, or the buys with the sells at the price of a call.
// Not a trait with a step of its own, since the contracts tell what is still to come of a deal by which of the two it is.
#[derive(Clone, Copy)]
pub enum Deal {
    Entry(Order),
    Call(u32),
}

// The place of an order that gave so many tonnes.
fn reduced_by(o: &Order, quantity: u32) -> Option<Order>
    ensures { result ≡ reduced o.now quantity }
{
    if quantity < o.remaining {
        Some(Order {
            remaining: o.remaining - quantity,
            ..*o
        })
    } else {
        None
    }
}

// Deals tonnes of an entry's order with the first-ranked order opposite, if any.
// The list and the rule stay two arguments, here and below: of one value of both, each contract would have to say that its rule stays.
fn deal_opposite<L: Places<Record = Order>, R: Priority>(
    list: &mut L,
    rule: &R,
    o: &Order,
    left: u32,
) -> Option<Fill>
    ensures { Turned (R.Ranking.ahead rule.now) (Entry o.now) left (L.Places.contents list.old) (L.Places.contents list.new) result }
{
    let (i, x) = first_opposite(list, rule, o.side, o.price)?;
    let quantity = left.min(x.remaining);
    put(list, i, reduced_by(&x, quantity));
    Some(Fill::taken(o, &x, quantity))
}

// Deals tonnes between the first-ranked buy and the first-ranked sell at a price, if any.
fn deal_pair<L: Places<Record = Order>, R: Priority>(
    list: &mut L,
    rule: &R,
    price: u32,
    left: u32,
) -> Option<Fill>
    ensures { Turned (R.Ranking.ahead rule.now) (Call price) left (L.Places.contents list.old) (L.Places.contents list.new) result }
{
    let (i, buy) = first_opposite(list, rule, Side::Sell, price)?;
    let (k, sell) = first_opposite(list, rule, Side::Buy, price)?;
    let quantity = left.min(buy.remaining).min(sell.remaining);
    put(list, i, reduced_by(&buy, quantity));
    put(list, k, reduced_by(&sell, quantity));
    Some(Fill::between(&buy, &sell, price, quantity))
}

// One fill of what is left to deal, if there is anybody to deal with.
fn deal_one<L: Places<Record = Order>, R: Priority>(
    list: &mut L,
    rule: &R,
    deal: &Deal,
    left: u32,
) -> Option<Fill>
    ensures { OneDeal (R.Ranking.ahead rule.now) deal.now left (L.Places.contents list.old) (L.Places.contents list.new) result }
{
    if left == 0 {
        return None;
    }
    match deal {
        Deal::Entry(o) => deal_opposite(list, rule, o, left),
        Deal::Call(price) => deal_pair(list, rule, *price, left),
    }
}

// How many fills a deal came to, and how many of its tonnes are left.
#[derive(Clone, Copy)]
pub struct Tally {
    pub count: usize,
    pub left: u32,
}

// Deals so many tonnes one fill after another, into a list of fills.
fn deal_out<L: Places<Record = Order>, R: Priority>(
    list: &mut L,
    rule: &R,
    deal: &Deal,
    tonnes: u32,
    fills: &mut [Fill],
) -> Tally
    ensures { RunOut (R.Ranking.ahead rule.now) deal.now tonnes (L.Places.contents list.old) fills.old (L.Places.contents list.new) fills.new result }
{
    // Counted by hand, since the count is wanted after the loop too.
    let mut count: usize = 0;
    let mut left = tonnes;
    for place in fills.iter_mut() {
        let Some(fill) = deal_one(list, rule, deal, left) else {
            break;
        };
        *place = fill;
        count += 1;
        left -= fill.quantity;
    }
    Tally { count, left }
}

// Deals an entry's order, if the book is dealing.
pub fn deal_entry<L: Places<Record = Order>, R: Priority>(
    list: &mut L,
    rule: &R,
    phase: Phase,
    o: Order,
    fills: &mut [Fill],
) -> Tally
    ensures { DealtNow (R.Ranking.ahead rule.now) phase o (L.Places.contents list.old) fills.old (L.Places.contents list.new) fills.new result }
{
    match phase {
        Phase::Gathering => Tally {
            count: 0,
            left: o.remaining,
        },
        Phase::Dealing => deal_out(list, rule, &Deal::Entry(o), o.remaining, fills),
    }
}

// Deals tonnes between buys and sells at the price of a call.
pub fn deal_call<L: Places<Record = Order>, R: Priority>(
    list: &mut L,
    rule: &R,
    price: u32,
    tonnes: u32,
    fills: &mut [Fill],
) -> Tally
    ensures { RunOut (R.Ranking.ahead rule.now) (Call price) tonnes (L.Places.contents list.old) fills.old (L.Places.contents list.new) fills.new result }
{
    deal_out(list, rule, &Deal::Call(price), tonnes, fills)
}
