ghost use Rattle.std.specs.Prelude.{◌≡◌};
ghost use Rattle.orders.specs.Rows.{MadeEntry, out_of_range};

use crate::entry::Entry;
use crate::refusal::Cause;
use crate::request::{Life, Side};
use crate::row::EntryRow;

// An entry is made from a row, and in no other way.
impl<'a> TryFrom<&'a EntryRow> for Entry {
    type Error = Cause;

    ghost try_from_gives = { λ row r. MadeEntry row.now r };

    fn try_from(row: &'a EntryRow) -> Result<Entry, Cause> {
        if row.member > 63 {
            return Err(Cause::UnknownMember);
        }
        let side = Side::try_from(row.side)?;
        let life = Life::try_from(row.life)?;
        if is_out_of_range(row) {
            return Err(Cause::OutOfRange);
        }
        Ok(Entry {
            member: row.member,
            side,
            life,
            price: row.price,
            quantity: row.quantity,
            minimum: row.minimum,
        })
    }
}

fn is_out_of_range(row: &EntryRow) -> bool
    ensures { result ≡ out_of_range row.now }
{
    row.price < 1
        || row.price > 100000
        || row.quantity < 1
        || row.quantity > 50000
        || row.minimum > row.quantity
}
