ghost use Rattle.std.specs.Prelude.{◌≡◌, ◌-◌, ◌^◌, min, drop};
ghost use Rattle.plain.specs.Orders.{keep, total, within, other};
ghost use Rattle.plain.specs.Book.{Book, side as side_of};
ghost use Rattle.lineup.specs.Layout.{worth_of, worth};
ghost use Rattle.lineup.specs.Lying.{Lies};

use crate::lineup::Lineup;
use orders::order::Order;
use orders::request::Side;
use ranking::places::{Places, each_from};

// The tonnes in a place that lie within the limit of an order of a side.
fn tonnes_within(place: Option<Order>, side: Side, limit: u32) -> u32
    ensures { result ≡ worth_of side limit place }
{
    match place {
        Some(order) if side.reaches(limit, order.price) => order.remaining,
        _ => 0,
    }
}

// The tonnes that lie within the limit from a place on, or the most that the number holds.
pub fn sum_within<L: Places<Record = Order>>(list: &L, start: usize, side: Side, limit: u32) -> u32
    ensures { result ≡ min (worth side limit (drop start (L.Places.contents list.now))) (2 ^ 32 - 1) }
{
    let mut sum: u32 = 0;
    for (_, place) in each_from(list, start) {
        sum = sum.saturating_add(tonnes_within(place, side, limit));
    }
    sum
}

impl<L: Places<Record = Order>> Lineup<L> {
    // The tonnes that an order of a side with a limit reaches, or the most that the number holds.
    pub fn reach(&self, side: Side, limit: u32) -> u32
        ensures { (b : Book) → Lies (L.Places.contents self.now.mirrored.list) self.now.state b → result ≡ min (total (keep (within side limit) (side_of (other side) b))) (2 ^ 32 - 1) }
    {
        let seer = side.opposite();
        let start = self.state.start(seer);
        match seer {
            Side::Sell => sum_within(&self.mirrored.list, start, side, limit),
            Side::Buy => sum_within(&self.mirrored, start, side, limit),
        }
    }
}
