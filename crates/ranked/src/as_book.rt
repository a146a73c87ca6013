use crate::book::{Ranked, open};
use orders::order::Order;
use ranking::places::Places;
use ranking::rank::Priority;
use venue::book::{Book, Refused};

// What is run on whatever kind of book opens a ranked book by this.
impl<L: Places<Record = Order>, R: Priority> Book<L, R> for Ranked<L, R> {
    fn open(list: L, rule: R) -> Result<Ranked<L, R>, Refused<L, R>> {
        open(list, rule)
    }
}
