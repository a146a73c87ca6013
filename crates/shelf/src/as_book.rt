use crate::shelf::Shelf;
use orders::order::Order;
use ranking::places::Places;
use ranking::rank::Priority;
use venue::book::{Book, Refused};

// What is run on whatever kind of book opens a shelf by this.
impl<L: Places<Record = Order>, R: Priority> Book<L, R> for Shelf<L, R> {
    fn open(list: L, rule: R) -> Result<Shelf<L, R>, Refused<L, R>> {
        Shelf::over(list, rule)
    }
}
