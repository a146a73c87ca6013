ghost use Rattle.std.specs.Prelude.{◌≡◌, ◌+◌, ◌-◌, ◌≤◌};
ghost use Rattle.lineup.specs.Lying.{Recounted, count, vacant};

use orders::order::{Order, Phase};
use orders::request::Side;

// What a book keeps beside its places.
#[derive(Clone, Copy)]
pub struct State {
    pub phase: Phase,
    pub next: u32,
    pub buys: usize,
    pub sells: usize,
    pub capacity: usize,
    pub is_fresh: bool,
}

impl State {
    // The state of a book with no orders.
    pub(crate) fn vacant(capacity: usize) -> State
        ensures { result ≡ vacant capacity }
    {
        State {
            phase: Phase::Gathering,
            next: 1,
            buys: 0,
            sells: 0,
            capacity,
            is_fresh: true,
        }
    }

    // How many orders of a side rest.
    pub fn count(&self, side: Side) -> usize
        ensures { (result ≡ count side self.now) × (result ≤ self.now.buys + self.now.sells) }
    {
        match side {
            Side::Buy => self.buys,
            Side::Sell => self.sells,
        }
    }

    // Where the orders of a side begin, as it sees the list.
    pub fn start(&self, side: Side) -> usize
        ensures { result ≡ self.now.capacity - count side self.now }
    {
        self.capacity.saturating_sub(self.count(side))
    }

    // Keeps another count of a side.
    pub fn recount(&mut self, side: Side, n: usize)
        ensures { Recounted side n self.old self.new }
    {
        match side {
            Side::Buy => self.buys = n,
            Side::Sell => self.sells = n,
        }
    }
}

// Where an order rests: its place, as its side sees it.
#[derive(Clone, Copy)]
pub struct Spot {
    pub side: Side,
    pub place: usize,
    pub order: Order,
}
