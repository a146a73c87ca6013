ghost use Rattle.std.specs.Prelude.{◌≡◌, ◌+◌, ◌-◌, ◌<◌, ◌≤◌, List, ◌∷◌, ◌++◌, length, drop};
ghost use Rattle.orders.specs.declared.order.Order.{Order};
ghost use Rattle.plain.specs.Rule.{with_remaining};
ghost use Rattle.plain.specs.Orders.{other};
ghost use Rattle.plain.specs.Book.{Book, put as put_in, side as side_of};
ghost use Rattle.venue.specs.Questions.{ranked};
ghost use Rattle.lineup.specs.Layout.{held, Found};
ghost use Rattle.lineup.specs.Lying.{Lies, Recounted, FoundIn, count};

use crate::lineup::Lineup;
use crate::state::Spot;
use orders::order::Order;
use orders::request::Side;
use ranking::places::{Places, each_from};
use ranking::rank::{Priority, Ranking};
use ranking::sequence::insertion_keeps_sequence;

// The order of a number that lies from a place on, and its place. `matching` has its like for places in no sequence: what each promises
// is said of what it knows of the places.
fn numbered_from<L: Places<Record = Order>>(
    list: &L,
    start: usize,
    number: u32,
) -> Option<(usize, Order)>
    ensures { (os : List Order) → start ≤ length (L.Places.contents list.now) → drop start (L.Places.contents list.now) ≡ held os → Found number start os result }
{
    for (i, place) in each_from(list, start) {
        if let Some(order) = place {
            if order.number == number {
                return Some((i, order));
            }
        }
    }
    None
}

impl<L: Places<Record = Order>> Lineup<L> {
    // The order of a rank.
    pub fn at_rank(&self, side: Side, rank: usize) -> Option<Order>
        ensures { (b : Book) → Lies (L.Places.contents self.now.mirrored.list) self.now.state b → result ≡ ranked rank (side_of side b) }
    {
        let n = self.state.count(side);
        if rank == 0 || rank > n {
            return None;
        }
        let from_end = n - (rank - 1);
        self.get(side, self.state.capacity.saturating_sub(from_end))
    }

    // Puts an order in its place among those of its side, if a place is vacant.
    pub fn rest<R: Priority>(&mut self, rule: &R, order: Order)
        ensures recounted { self.old.state.buys + self.old.state.sells < self.old.state.capacity → Recounted order.side (count order.side self.old.state + 1) self.old.state self.new.state }
        ensures lies { self.old.state.buys + self.old.state.sells < self.old.state.capacity → (b : Book) → Lies (L.Places.contents self.old.mirrored.list) self.old.state b → Lies (L.Places.contents self.new.mirrored.list) self.new.state (put_in (R.Ranking.ahead rule.now) order.side order b) }
    {
        let n = self.state.count(order.side);
        let capacity = self.state.capacity;
        if n >= capacity {
            return;
        }
        insertion_keeps_sequence(rule);
        self.insert(rule, order.side, capacity - n - 1, order);
        self.state.recount(order.side, n + 1);
    }

    // Takes the order at a place out of those of its side.
    pub fn take_out(&mut self, side: Side, i: usize)
        ensures recounted { Recounted side (count side self.old.state - 1) self.old.state self.new.state }
        ensures lies { (b c : Book) (earlier : List Order) (o : Order) (later : List Order) → Lies (L.Places.contents self.old.mirrored.list) self.old.state b → side_of side b ≡ earlier ++ o ∷ later → length earlier + (self.old.state.capacity - count side self.old.state) ≡ i → side_of side c ≡ earlier ++ later → side_of (other side) c ≡ side_of (other side) b → c.phase ≡ b.phase → c.next ≡ b.next → Lies (L.Places.contents self.new.mirrored.list) self.new.state c }
    {
        let n = self.state.count(side);
        let first = self.state.start(side);
        self.remove(side, first, i);
        self.state.recount(side, n.saturating_sub(1));
    }

    // Writes what remains of the best order of a side.
    pub fn reduce(&mut self, side: Side, order: Order, remaining: u32)
        ensures lies { (b c : Book) (later : List Order) → Lies (L.Places.contents self.old.mirrored.list) self.old.state b → side_of side b ≡ order ∷ later → side_of side c ≡ with_remaining order remaining ∷ later → side_of (other side) c ≡ side_of (other side) b → c.phase ≡ b.phase → c.next ≡ b.next → Lies (L.Places.contents self.new.mirrored.list) self.new.state c }
        ensures kept { self.new.state ≡ self.old.state }
    {
        let first = self.state.start(side);
        self.hold(side, first, Order { remaining, ..order });
    }

    // The order of a number among those of a side, and its place.
    fn find(&self, side: Side, number: u32) -> Option<(usize, Order)>
        ensures { (b : Book) → Lies (L.Places.contents self.now.mirrored.list) self.now.state b → Found number (self.now.state.capacity - count side self.now.state) (side_of side b) result }
    {
        let start = self.state.start(side);
        match side {
            Side::Sell => numbered_from(&self.mirrored.list, start, number),
            Side::Buy => numbered_from(&self.mirrored, start, number),
        }
    }

    // Where the order of a number rests.
    pub fn spot(&self, number: u32) -> Option<Spot>
        ensures { (b : Book) → Lies (L.Places.contents self.now.mirrored.list) self.now.state b → FoundIn number self.now.state b result }
    {
        if let Some((place, order)) = self.find(Side::Buy, number) {
            return Some(Spot {
                side: Side::Buy,
                place,
                order,
            });
        }
        let (place, order) = self.find(Side::Sell, number)?;
        Some(Spot {
            side: Side::Sell,
            place,
            order,
        })
    }
}
