ghost use Rattle.orders.specs.Rows.{Made};

use crate::cancel::Cancel;
use crate::entry::Entry;
use crate::refusal::Cause;
use crate::request::Request;
use crate::row::Row;

// A request is made from a row.
impl<'a> TryFrom<&'a Row> for Request {
    type Error = Cause;

    ghost try_from_gives = { λ row r. Made row.now r };

    fn try_from(row: &'a Row) -> Result<Request, Cause> {
        match row {
            Row::Enter(entry) => Ok(Request::Enter(Entry::try_from(entry)?)),
            Row::Withdraw(cancel) => Ok(Request::Withdraw(Cancel::try_from(cancel)?)),
            Row::Call => Ok(Request::Call),
            Row::Halt => Ok(Request::Halt),
        }
    }
}
