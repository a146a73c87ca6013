ghost use Rattle.orders.specs.Rows.{MadeCancel};

use crate::cancel::Cancel;
use crate::refusal::Cause;
use crate::row::CancelRow;

// A cancel is made from a row, and in no other way.
impl<'a> TryFrom<&'a CancelRow> for Cancel {
    type Error = Cause;

    ghost try_from_gives = { λ row r. MadeCancel row.now r };

    fn try_from(row: &'a CancelRow) -> Result<Cancel, Cause> {
        if row.member > 63 {
            return Err(Cause::UnknownMember);
        }
        Ok(Cancel {
            member: row.member,
            number: row.number,
        })
    }
}
