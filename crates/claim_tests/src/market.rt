use claims::claim::{Claim, Subject};
use ledger::totals::Ledger;
use orders::order::{Fill, Order};
use orders::request::Request;
use orders::row::{EntryRow, Row};
use ranking::places::Places;
use ranking::rules::Time;
use settling::booking::check_and_book;
use settling::unbooked::Unbooked;
use std::alloc::Global;
use std::process::Abort;
use std::test::Fail;
use venue::book::Book;
use venue::venue::Venue;

// An order that is to rest; side 1 buys, and 2 sells.
pub fn entry(member: u8, side: u8, price: u32, quantity: u32) -> Row {
    Row::Enter(EntryRow {
        member,
        side,
        life: 1,
        price,
        quantity,
        minimum: 0,
    })
}

// An empty book of a kind, under the rule by time.
pub fn opened<L: Places<Record = Order> + Drop, B: Book<L, Time>>(list: L) -> Result<B, Fail> {
    Ok(B::open(list, Time).map_err(|refused| refused.cause)?)
}

// Sends rows that must be admitted.
pub fn send_all<V: Venue>(rt: &impl Abort, venue: &mut V, rows: &[Row]) -> Result<(), Fail> {
    for row in rows {
        assert!(rt;
            venue
                .serve(Request::try_from(row)?, &mut [Fill::BLANK; 8])
                .is_ok()
        );
    }
    Ok(())
}

// The number of the refusal that a claim gets of its check or of a ledger, as the formats have it, if it is not booked.
pub fn booked<V: Venue>(
    heap: Global,
    venue: &V,
    ledger: &mut Ledger,
    subject: Subject,
    fills: &[Fill],
) -> Result<Option<u8>, Fail> {
    let claim = Claim::new(subject, fills.to_vec(heap)?);
    match check_and_book(venue, ledger, &claim) {
        Ok(()) => Ok(None),
        Err(Unbooked::Failed(cause)) => Ok(Some(cause.number())),
        Err(Unbooked::Full(cause)) => Ok(Some(cause.number())),
    }
}
