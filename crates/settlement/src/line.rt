use ledger::row::Row;
use ledger::standing::Standing;
use settling::fault::Noted;
use std::fmt;

// A line of a settlement: what went wrong with a record, a member's totals after his rank, or the totals of all.
#[derive(Clone, Copy)]
pub enum Line {
    Wrong(Noted),
    Member(usize, Standing),
    Total(Row),
}

impl fmt::Display for Line {
    fn fmt<W: fmt::Write>(&self, f: &mut fmt::Formatter<W>) -> fmt::Result {
        match self {
            Line::Wrong(noted) => noted.fmt(f),
            Line::Member(rank, standing) => write!(
                f,
                "{} member {} {}",
                rank, standing.member, standing.row
            ),
            Line::Total(row) => write!(f, "total {}", row),
        }
    }
}
