use orders::refusal::Cause;
use std::fmt;

// Why a claim was not booked: its check failed, or a total of the ledger would be too large.
// No `From` makes one, since both hold a cause.
#[derive(Clone, Copy)]
pub enum Unbooked {
    Failed(Cause),
    Full(Cause),
}

impl fmt::Display for Unbooked {
    fn fmt<W: fmt::Write>(&self, f: &mut fmt::Formatter<W>) -> fmt::Result {
        match self {
            Unbooked::Failed(cause) => write!(f, "claim refused {}", cause.number()),
            Unbooked::Full(cause) => write!(f, "booking refused {}", cause.number()),
        }
    }
}
