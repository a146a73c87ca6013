use layers::layer::{Layer, Part, stack};
use orders::answer::Answer;
use orders::order::{Fill, Order};
use orders::refusal::Refusal;
use orders::request::Request;
use orders::row::{CancelRow, EntryRow, Row};
use ranking::places::Places;
use ranking::rank::Priority;
use std::process::Abort;
use std::test::*;
use venue::book::Book;
use venue::venue::Venue;

// Member 1 buys and member 2 sells, to rest. Price and quantity are two numbers, as a row has them.
pub fn buy(price: u32, quantity: u32) -> Row {
    entry(1, 1, price, quantity, 0)
}

pub fn sell(price: u32, quantity: u32) -> Row {
    entry(2, 2, price, quantity, 0)
}

pub fn entry(member: u8, side: u8, price: u32, quantity: u32, minimum: u32) -> Row {
    Row::Enter(EntryRow {
        member,
        side,
        life: 1,
        price,
        quantity,
        minimum,
    })
}

pub fn cancel(member: u8, number: u32) -> Row {
    Row::Withdraw(CancelRow { member, number })
}

// An empty book of a kind. Helpers that `claim_tests` has too are a few lines each, and the two crates differ in what else they test.
pub fn opened<L: Places<Record = Order> + Drop, R: Priority + Drop, B: Book<L, R>>(
    list: L,
    rule: R,
) -> Result<B, Fail> {
    Ok(B::open(list, rule).map_err(|refused| refused.cause)?)
}

// A layer over a venue.
pub fn laid<P: Part + Drop, V: Venue + Drop>(part: P, below: V) -> Result<Layer<P, V>, Fail> {
    Ok(stack(part, below).map_err(|refused| refused.cause)?)
}

// Sends a row as a request; a row that is none fails the test.
pub fn send<V: Venue>(
    venue: &mut V,
    row: &Row,
    fills: &mut [Fill],
) -> Result<Result<Answer, Refusal>, Fail> {
    Ok(venue.serve(Request::try_from(row)?, fills))
}

// The number of the refusal that a row gets, as the formats have it, and the height that gave it, if the row is refused.
pub fn refusal<V: Venue>(venue: &mut V, row: &Row) -> Result<Option<(u8, Option<u8>)>, Fail> {
    let mut fills = [Fill::BLANK; 8];
    match send(venue, row, &mut fills)? {
        Ok(_) => Ok(None),
        Err(refusal) => Ok(Some((refusal.cause.number(), refusal.height))),
    }
}

// Sends rows that must be admitted.
pub fn send_all<V: Venue>(rt: &impl Abort, venue: &mut V, rows: &[Row]) -> Result<(), Fail> {
    for row in rows {
        assert_eq!(rt; refusal(venue, row)?, None);
    }
    Ok(())
}

// The price and volume of a call.
pub fn call<V: Venue>(venue: &mut V) -> Result<(u32, u32), Fail> {
    let mut fills = [Fill::BLANK; 8];
    match send(venue, &Row::Call, &mut fills)? {
        Ok(Answer::Called(called)) => Ok((called.price, called.volume)),
        _ => Err(Fail::new("a call that was not answered as one")),
    }
}
