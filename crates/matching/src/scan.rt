ghost use Rattle.std.specs.Prelude.{◌≡◌, ◌+◌, ◌≤◌, length};
ghost use Rattle.ranking.specs.Search.{FirstIn};
ghost use Rattle.matching.specs.Weights.{capped, place_weight, held_weight};
ghost use Rattle.matching.specs.Scans.{VacantIn, NumberedIn, opposite, tonnes_if, ahead_of, RankedIn};

use orders::order::Order;
use orders::request::Side;
use ranking::finding::{Test, first_where};
use ranking::places::{Places, each};
use ranking::rank::Priority;

// A vacant place, if there is one.
pub fn vacant<L: Places<Record = Order>>(list: &L) -> Option<usize>
    ensures { VacantIn (L.contents list.now) (length (L.contents list.now)) result }
{
    for (i, place) in each(list) {
        if place.is_none() {
            return Some(i);
        }
    }
    None
}

// The order of a number, if it is held, and its place.
pub fn numbered<L: Places<Record = Order>>(list: &L, number: u32) -> Option<(usize, Order)>
    ensures { NumberedIn number (L.contents list.now) (length (L.contents list.now)) result }
{
    for (i, place) in each(list) {
        if let Some(o) = place {
            if o.number == number {
                return Some((i, o));
            }
        }
    }
    None
}

// The orders that rest on the other side than a side, within its limit.
#[derive(Clone, Copy)]
struct Opposite {
    side: Side,
    limit: u32,
}

impl Test<Order> for Opposite {
    ghost passing = { λ s. opposite s.side s.limit };

    fn passes(&self, o: &Order) -> bool {
        // By the case of both sides, since a search asks this of each order in a list: one test of the sides for both cases, and one
        // `reaches`, took a search of many places half as long again.
        match (self.side, o.side) {
            (Side::Buy, Side::Sell) => Side::Buy.reaches(self.limit, o.price),
            (Side::Sell, Side::Buy) => Side::Sell.reaches(self.limit, o.price),
            _ => false,
        }
    }
}

// Another order's tonnes on top, if it rests opposite; a sum past the largest number stays there.
fn add_opposite(sum: u32, wanted: &Opposite, place: Option<Order>) -> u32
    ensures { result ≡ capped (sum + place_weight (tonnes_if (opposite wanted.now.side wanted.now.limit)) place) }
{
    match place {
        Some(o) if wanted.passes(&o) => sum.saturating_add(o.remaining),
        _ => sum,
    }
}

// The tonnes that rest opposite, or the largest number if they are more. `lineup` sums from a place on, where all are of one side,
// and `replay` sums a list of orders: what they share is which price is reached.
pub fn tonnes_opposite<L: Places<Record = Order>>(list: &L, side: Side, limit: u32) -> u32
    ensures { result ≡ capped (held_weight (tonnes_if (opposite side limit)) (L.contents list.now)) }
{
    let wanted = Opposite { side, limit };
    let mut sum = 0;
    for (_, place) in each(list) {
        sum = add_opposite(sum, &wanted, place);
    }
    sum
}

// The first-ranked order opposite, if any, and its place.
pub fn first_opposite<L: Places<Record = Order>, R: Priority>(
    list: &L,
    rule: &R,
    side: Side,
    limit: u32,
) -> Option<(usize, Order)>
    ensures { FirstIn (opposite side limit) (R.Ranking.ahead rule.now) (L.Places.contents list.now) (length (L.Places.contents list.now)) result }
{
    first_where(list, rule, &Opposite { side, limit })
}

// 1 for an order of the same side that is ahead, and 0 for any other place.
fn one_ahead<R: Priority>(rule: &R, o: &Order, place: Option<Order>) -> usize
    ensures weighs { result ≡ place_weight (ahead_of (R.Ranking.ahead rule.now) o.now) place }
    ensures small { result ≤ 1 }
{
    match place {
        Some(y) if o.side == y.side && rule.is_ahead(&y, o) => 1,
        _ => 0,
    }
}

// How many orders of an order's side are ahead of it.
fn count_ahead<L: Places<Record = Order>, R: Priority>(list: &L, rule: &R, o: &Order) -> usize
    ensures { result ≡ held_weight (ahead_of (R.Ranking.ahead rule.now) o.now) (L.Places.contents list.now) }
{
    let mut n: usize = 0;
    for (_, place) in each(list) {
        n += one_ahead(rule, o, place);
    }
    n
}

// The order of a side with so many ahead of it, if any.
pub fn with_ahead<L: Places<Record = Order>, R: Priority>(
    list: &L,
    rule: &R,
    side: Side,
    rank: usize,
) -> Option<Order>
    ensures { RankedIn (R.Ranking.ahead rule.now) side rank (L.Places.contents list.now) (length (L.Places.contents list.now)) result }
{
    let ahead = rank.checked_sub(1)?;
    for (_, place) in each(list) {
        if let Some(o) = place {
            if o.side == side && count_ahead(list, rule, &o) == ahead {
                return Some(o);
            }
        }
    }
    None
}
