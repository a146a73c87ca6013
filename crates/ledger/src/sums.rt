ghost use Rattle.std.specs.Prelude.{◌≡◌, length};
ghost use Rattle.ledger.specs.Rows.{raised, after_fill, after_fills, row_within, all_within};

use crate::row::{MEMBERS, Row};
use orders::order::Fill;
use orders::request::Side;

// No total may pass this.
const LIMIT: u64 = 1_000_000_000_000;

// A row with more on a side; a total past the largest number stays there.
// Not by adding two rows: of a row that is read from the list and handed to `add`, the proof doesn't know that its numbers fit.
fn raise(row: Row, side: Side, tonnes: u64, pence: u64) -> Row
    ensures { result ≡ raised side tonnes pence row }
{
    match side {
        Side::Buy => Row {
            bought: row.bought.saturating_add(tonnes),
            pay: row.pay.saturating_add(pence),
            ..row
        },
        Side::Sell => Row {
            sold: row.sold.saturating_add(tonnes),
            receive: row.receive.saturating_add(pence),
            ..row
        },
    }
}

// Adds a fill to the rows of its buyer and its seller, if both have one.
fn add_fill(rows: &mut [Row; MEMBERS], fill: &Fill)
    ensures { rows.new ≡ after_fill fill.now rows.old }
{
    let buyer = fill.buyer as usize;
    let seller = fill.seller as usize;
    if buyer < MEMBERS && seller < MEMBERS {
        let tonnes = fill.quantity as u64;
        let pence = fill.price as u64 * tonnes;
        rows[buyer] = raise(rows[buyer], Side::Buy, tonnes, pence);
        rows[seller] = raise(rows[seller], Side::Sell, tonnes, pence);
    }
}

// The rows after the fills.
pub fn add_fills(mut rows: [Row; MEMBERS], fills: &[Fill]) -> [Row; MEMBERS]
    ensures added { result ≡ after_fills fills.now rows }
    ensures long { length result ≡ 64 }
{
    for fill in fills {
        add_fill(&mut rows, fill);
    }
    rows
}

fn is_within(row: &Row) -> bool
    ensures { result ≡ row_within row.now }
{
    row.bought <= LIMIT && row.sold <= LIMIT && row.pay <= LIMIT && row.receive <= LIMIT
}

// Whether no total is above the limit.
pub fn are_within(rows: &[Row]) -> bool
    ensures { result ≡ all_within rows.now }
{
    rows.iter().all(is_within)
}
