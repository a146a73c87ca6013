ghost use Rattle.std.specs.Prelude.{◌≡◌};
ghost use Rattle.orders.specs.Entries.{order, early};

use crate::entry::Entry;
use crate::order::{Order, Phase};

// What an entry asks for, and the order that it enters.
impl Entry {
    // Whether it comes too early: it states a minimum or is to be killed, and nothing deals yet.
    pub fn is_early(&self, phase: Phase) -> bool
        ensures { result ≡ early phase self.now }
    {
        match phase {
            Phase::Gathering => self.minimum > 0 || !self.life.rests(),
            Phase::Dealing => false,
        }
    }

    // The order that it enters under a number, all of it remaining.
    pub fn order(&self, number: u32) -> Order
        ensures { result ≡ order self.now number }
    {
        Order {
            number,
            member: self.member,
            side: self.side,
            price: self.price,
            quantity: self.quantity,
            remaining: self.quantity,
        }
    }
}
