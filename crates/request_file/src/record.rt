ghost use Rattle.std.specs.Prelude.{◌≡◌};
ghost use Rattle.request_file.specs.Records.{bytes_of, row_of, TakenApart, row_in};

use orders::row::{CancelRow, EntryRow, Row};

// A record of a file: the part of the file that it is (its kind byte and its fields), with the fields as numbers.
#[derive(Clone, Copy)]
pub enum Record<'a> {
    Entry(&'a [u8], EntryRow),
    Cancel(&'a [u8], CancelRow),
    Call(&'a [u8]),
    Halt(&'a [u8]),
}

impl<'a> Record<'a> {
    // Takes the bytes of a record apart, if its kind is known and the length is that kind's.
    pub fn taken_apart(bytes: &'a [u8]) -> Option<Record<'a>>
        ensures { TakenApart bytes.now result }
    {
        match bytes {
            [
                1,
                member,
                side,
                life,
                p3,
                p2,
                p1,
                p0,
                q3,
                q2,
                q1,
                q0,
                m3,
                m2,
                m1,
                m0,
            ] => {
                let row = EntryRow {
                    member: *member,
                    side: *side,
                    life: *life,
                    price: u32::from_be_bytes([*p3, *p2, *p1, *p0]),
                    quantity: u32::from_be_bytes([*q3, *q2, *q1, *q0]),
                    minimum: u32::from_be_bytes([*m3, *m2, *m1, *m0]),
                };
                Some(Record::Entry(bytes, row))
            }
            [2, member, n3, n2, n1, n0] => {
                let row = CancelRow {
                    member: *member,
                    number: u32::from_be_bytes([*n3, *n2, *n1, *n0]),
                };
                Some(Record::Cancel(bytes, row))
            }
            [3] => Some(Record::Call(bytes)),
            [4] => Some(Record::Halt(bytes)),
            _ => None,
        }
    }

    // The part of the file.
    pub fn bytes(&self) -> &'a [u8]
        ensures { result.now ≡ bytes_of self.now }
    {
        match self {
            Record::Entry(bytes, _) => bytes,
            Record::Cancel(bytes, _) => bytes,
            Record::Call(bytes) => bytes,
            Record::Halt(bytes) => bytes,
        }
    }

    pub fn row(&self) -> Row
        ensures { result ≡ row_of self.now }
    {
        match self {
            Record::Entry(_, row) => Row::Enter(*row),
            Record::Cancel(_, row) => Row::Withdraw(*row),
            Record::Call(_) => Row::Call,
            Record::Halt(_) => Row::Halt,
        }
    }
}
