use crate::unbooked::Unbooked;
use std::fmt;

// What went wrong with a request: its claim was not booked, or the second venue answered otherwise than the first.
#[derive(Clone, Copy)]
pub enum Fault {
    Unbooked(Unbooked),
    Otherwise,
}

impl fmt::Display for Fault {
    fn fmt<W: fmt::Write>(&self, f: &mut fmt::Formatter<W>) -> fmt::Result {
        match self {
            Fault::Unbooked(unbooked) => unbooked.fmt(f),
            Fault::Otherwise => f.write_str("answered otherwise"),
        }
    }
}

// A fault, with the count of its record.
#[derive(Clone, Copy)]
pub struct Noted {
    pub count: usize,
    pub fault: Fault,
}

impl fmt::Display for Noted {
    fn fmt<W: fmt::Write>(&self, f: &mut fmt::Formatter<W>) -> fmt::Result {
        write!(f, "{} {}", self.count, self.fault)
    }
}
