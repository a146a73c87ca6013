ghost use Rattle.std.specs.Prelude.{◌≡◌, true, replicate};
ghost use Rattle.ledger.specs.Rows.{nothing, row_of, all_within, SumOfRows, Balanced};
ghost use Rattle.ledger.specs.Booking.{fills_of, Answered, Booked, AddedUp};

use crate::row::{MEMBERS, Row};
use crate::sums::{add_fills, are_within};
use claims::check::Checked;
use orders::order::Fill;
use orders::refusal::Cause;

// The totals of every member. What all pay is always what all receive, and no total is above the limit.
#[derive(Drop)]
pub struct Ledger {
    rows: [Row; MEMBERS],
    ghost balanced: { Balanced rows },
    ghost within: { all_within rows ≡ true },
}

impl Ledger {
    pub fn new() -> Ledger
        ensures { result.rows ≡ replicate 64 nothing }
    {
        Ledger {
            rows: [Row::ZERO; MEMBERS],
        }
    }

    // The totals of a member; a member above 63 has none.
    pub fn row(&self, member: u8) -> Row
        ensures { result ≡ row_of self.now.rows member }
    {
        self.rows.get(member as usize).copied().unwrap_or(Row::ZERO)
    }

    // The totals of all members together.
    pub fn sum(&self) -> Row
        ensures { SumOfRows 64 self.now.rows result }
    {
        let mut sum = Row::ZERO;
        for row in &self.rows {
            sum = sum + *row;
        }
        sum
    }

    // Whether a checked claim could be booked: says exactly what booking it would.
    pub fn would_book(&self, claim: &Checked) -> Result<(), Cause>
        ensures { Answered self.now.rows (fills_of claim.now) result }
    {
        self.rows_after(claim.fills()).map(|_| ())
    }

    // Books a checked claim and uses it up: each fill is added to the totals of its buyer and its seller, unless some total would pass the limit.
    pub fn book(&mut self, claim: Checked) -> Result<(), Cause>
        ensures answered { Answered self.old.rows (fills_of claim.entry) result }
        ensures booked { Booked self.old.rows (fills_of claim.entry) self.new.rows result }
        ensures balanced { Balanced self.new.rows }
    {
        self.rows = self.rows_after(claim.into_fills())?;
        Ok(())
    }

    // The rows with each fill added to the totals of its buyer and its seller, unless some total would pass the limit.
    fn rows_after(&self, fills: &[Fill]) -> Result<[Row; MEMBERS], Cause>
        ensures { AddedUp self.now.rows fills.now result }
    {
        let rows = add_fills(self.rows, fills);
        if !are_within(&rows) {
            return Err(Cause::LedgerFull);
        }
        Ok(rows)
    }
}
