ghost use Rattle.std.specs.Prelude.{◌≡◌};
ghost use Rattle.ledger.specs.Rows.{added};

use std::fmt;
use std::ops::Add;

// The number of members.
pub const MEMBERS: usize = 64;

// A member's totals: tonnes bought and sold, and pence to pay and to receive.
#[derive(Clone, Copy)]
pub struct Row {
    pub bought: u64,
    pub sold: u64,
    pub pay: u64,
    pub receive: u64,
}

impl Row {
    pub const ZERO: Row = Row {
        bought: 0,
        sold: 0,
        pay: 0,
        receive: 0,
    };
}

// Two rows added up; a total past the largest number stays there.
impl Add for Row {
    type Output = Row;

    ghost add_gives = { λ a b sum. sum ≡ added a b };

    fn add(self, other: Row) -> Row {
        Row {
            bought: self.bought.saturating_add(other.bought),
            sold: self.sold.saturating_add(other.sold),
            pay: self.pay.saturating_add(other.pay),
            receive: self.receive.saturating_add(other.receive),
        }
    }
}

impl fmt::Display for Row {
    fn fmt<W: fmt::Write>(&self, f: &mut fmt::Formatter<W>) -> fmt::Result {
        write!(
            f,
            "bought {} sold {} pays {} receives {}",
            self.bought, self.sold, self.pay, self.receive
        )
    }
}
