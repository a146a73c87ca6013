ghost use Rattle.std.specs.Prelude.{◌≡◌, Option, None, Some, length, replicate, slice_index_or, slice_set};
ghost use Rattle.orders.specs.declared.order.Order.{Order};
ghost use Rattle.ranking.specs.Sequence.{inserted_at};
ghost use Rattle.lineup.specs.Layout.{seen, Removed};
ghost use Rattle.lineup.specs.Lying.{vacant};

use crate::mirrored::Mirrored;
use crate::moves::remove_at;
use crate::state::State;
use orders::order::Order;
use orders::request::Side;
use ranking::places::{Places, clear};
use ranking::rank::{Priority, Ranking};
use ranking::sequence::insert as insert_at;

// The orders of both sides in one list of places. A side sees its own orders at the end of the list,
// the best first: the sells in the list itself, the buys in the list from its end.
// Which plain book it lies as is no part of it, so each clause says so of every book that it lies as, and no invariant does.
#[derive(Drop)]
pub struct Lineup<L> {
    pub mirrored: Mirrored<L>,
    pub state: State,
}

impl<L: Places<Record = Order>> Lineup<L> {
    // A list with no orders in it, whatever lay there.
    pub fn vacant(mut list: L) -> Lineup<L>
        ensures { (L.Places.contents result.mirrored.list ≡ replicate (length (L.Places.contents list)) None) × (result.state ≡ vacant (length (L.Places.contents list))) }
    {
        let capacity = list.len();
        clear(&mut list);
        Lineup {
            mirrored: Mirrored { list },
            state: State::vacant(capacity),
        }
    }

    // What a side sees in a place. Each function from here on, `reach` and `find` pick the list or its mirror, which are of
    // two types: no closure takes either, and a trait for it has more lines than the choices.
    pub(crate) fn get(&self, side: Side, i: usize) -> Option<Order>
        ensures { result ≡ slice_index_or (seen side (L.Places.contents self.now.mirrored.list)) i None }
    {
        match side {
            Side::Sell => self.mirrored.list.get(i),
            Side::Buy => self.mirrored.get(i),
        }
    }

    // Puts an order in a place, as a side sees it. The side is told beside the order here and below: that an order is of the side
    // that it rests on is known only of a sound book.
    pub(crate) fn hold(&mut self, side: Side, i: usize, order: Order)
        ensures wrote { seen side (L.Places.contents self.new.mirrored.list) ≡ slice_set (seen side (L.Places.contents self.old.mirrored.list)) i (Some order) }
        ensures kept { self.new.state ≡ self.old.state }
    {
        match side {
            Side::Sell => self.mirrored.list.hold(i, order),
            Side::Buy => self.mirrored.hold(i, order),
        }
    }

    // Puts an order among those of its side that lie after the free place.
    pub(crate) fn insert<R: Priority>(&mut self, rule: &R, side: Side, free: usize, order: Order)
        ensures wrote { seen side (L.Places.contents self.new.mirrored.list) ≡ inserted_at (R.Ranking.ahead rule.now) free order (seen side (L.Places.contents self.old.mirrored.list)) }
        ensures kept { self.new.state ≡ self.old.state }
    {
        match side {
            Side::Sell => insert_at(&mut self.mirrored.list, rule, free, order),
            Side::Buy => insert_at(&mut self.mirrored, rule, free, order),
        }
    }

    // Takes away what a side sees in a place, by moving up what lies between it and the start.
    pub(crate) fn remove(&mut self, side: Side, start: usize, i: usize)
        ensures wrote { Removed start i (seen side (L.Places.contents self.old.mirrored.list)) (seen side (L.Places.contents self.new.mirrored.list)) }
        ensures kept { self.new.state ≡ self.old.state }
    {
        match side {
            Side::Sell => remove_at(&mut self.mirrored.list, start, i),
            Side::Buy => remove_at(&mut self.mirrored, start, i),
        }
    }
}
