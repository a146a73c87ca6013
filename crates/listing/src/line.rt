use orders::answer::{Called, Entered, Withdrawn};
use orders::order::Fill;
use orders::refusal::Refusal;
use std::fmt;

// A line of a listing; all but the last two begin with the count of the record.
#[derive(Clone, Copy)]
pub enum Line {
    Entered(usize, Entered),
    Cancelled(usize, Withdrawn),
    Called(usize, Called),
    Halted(usize),
    Refused(usize, Refusal),
    Filled(Fill),
    End(usize),
}

impl fmt::Display for Line {
    fn fmt<W: fmt::Write>(&self, f: &mut fmt::Formatter<W>) -> fmt::Result {
        match self {
            Line::Entered(count, a) => write!(
                f,
                "{} enter {} dealt {} rest {} gone {}",
                count, a.number, a.dealt, a.resting, a.withdrawn
            ),
            Line::Cancelled(count, a) => write!(
                f,
                "{} cancel {} gone {}",
                count, a.number, a.tonnes
            ),
            Line::Called(count, a) => write!(f, "{} call {} {}", count, a.price, a.volume),
            Line::Halted(count) => write!(f, "{} halt", count),
            Line::Refused(count, refusal) => write!(f, "{count} refused {refusal}"),
            Line::Filled(fill) => write!(
                f,
                "fill {} {} {} {}",
                fill.buy, fill.sell, fill.price, fill.quantity
            ),
            Line::End(admitted) => write!(f, "end {}", admitted),
        }
    }
}
