use crate::market::*;
use claims::claim::Subject;
use ledger::totals::Ledger;
use orders::order::Fill;
use orders::request::Request;
use orders::row::Row;
use ranked::book::Ranked;
use ranking::places::Lent;
use std::alloc::Global;
use std::process::Abort;
use std::test::Fail;
use venue::venue::Venue;

// A fill at 180 of the buys 1 and 2, of members 1 and 3, with the sells 3 and 4, of members 2 and 4.
fn fill(buy: u32, sell: u32, quantity: u32) -> Fill {
    Fill {
        buy,
        sell,
        buyer: if buy == 1 { 1 } else { 3 },
        seller: if sell == 3 { 2 } else { 4 },
        price: 180,
        quantity,
    }
}

fn called(price: u32, volume: u32) -> Subject {
    Subject::Call { price, volume }
}

// Puts fills forward for a subject: they must be refused by a number, or else booked.
fn put<V: Venue>(
    rt: &impl Abort,
    heap: Global,
    venue: &V,
    subject: Subject,
    fills: &[Fill],
    expected: Option<u8>,
    what: &str,
) -> Result<(), Fail> {
    assert_eq!(rt;
        booked(heap, venue, &mut Ledger::new(), subject, fills)?,
        expected,
        "{what}"
    );
    Ok(())
}

// Of an empty book.
fn tried_empty<V: Venue>(rt: &impl Abort, heap: Global, venue: &V) -> Result<(), Fail> {
    put(
        rt,
        heap,
        venue,
        called(5, 0),
        &[],
        Some(16),
        "price 5 of an empty call",
    )?;
    put(rt, heap, venue, called(0, 0), &[], None, "an empty call")
}

// Of a book that a call deals at 180 for 160 tonnes.
fn tried_fills<V: Venue>(rt: &impl Abort, heap: Global, venue: &V) -> Result<(), Fail> {
    let subject = called(180, 160);
    let (a, b, c) = (fill(1, 3, 80), fill(1, 4, 20), fill(2, 4, 60));
    put(rt, heap, venue, subject, &[a, b, c], None, "as dealt")?;
    put(rt, heap, venue, subject, &[c, b, a], Some(16), "reversed")?;
    let half = fill(1, 4, 10);
    put(
        rt,
        heap,
        venue,
        subject,
        &[a, half, half, c],
        Some(16),
        "a pair's fill split in two",
    )?;
    let large = [fill(1, 3, 4294967295), fill(1, 4, 81), fill(2, 4, 80)];
    put(
        rt,
        heap,
        venue,
        subject,
        &large,
        Some(16),
        "a sum past 32 bits, which is 160 in them",
    )?;
    let other = Fill { buyer: 9, ..a };
    put(
        rt,
        heap,
        venue,
        subject,
        &[other, b, c],
        Some(16),
        "a wrong member",
    )
}

#[test]
fn claims_of_a_call(rt: HostRuntime) -> Result<(), Fail> {
    let mut places = [None; 8];
    let mut book: Ranked<_, _> = opened(Lent::over(&mut places))?;
    tried_empty(&rt, rt.alloc(), &book)?;
    send_all(
        &rt,
        &mut book,
        &[
            entry(1, 1, 200, 100),
            entry(3, 1, 200, 60),
            entry(2, 2, 180, 80),
            entry(4, 2, 180, 80),
        ],
    )?;
    tried_fills(&rt, rt.alloc(), &book)
}

// Of a book that deals a buy of 100 with sells of 50 and 80.
fn tried_dealing<V: Venue>(rt: &impl Abort, heap: Global, venue: &V) -> Result<(), Fail> {
    let Request::Enter(entry) = Request::try_from(&entry(1, 1, 180, 100))? else {
        return Err(Fail::new("no entry"));
    };
    let subject = Subject::Entry(entry);
    let (a, b) = (sold(1, 2, 50), sold(2, 4, 50));
    put(rt, heap, venue, subject, &[a, b], None, "as dealt")?;
    put(rt, heap, venue, subject, &[b, a], Some(16), "reversed")?;
    put(
        rt,
        heap,
        venue,
        called(0, 0),
        &[],
        Some(11),
        "a call while dealing",
    )
}

// A fill of the buy 3 of member 1.
fn sold(sell: u32, seller: u8, quantity: u32) -> Fill {
    Fill {
        buy: 3,
        sell,
        buyer: 1,
        seller,
        price: 180,
        quantity,
    }
}

#[test]
fn claims_of_an_entry(rt: HostRuntime) -> Result<(), Fail> {
    let mut places = [None; 8];
    let mut book: Ranked<_, _> = opened(Lent::over(&mut places))?;
    send_all(
        &rt,
        &mut book,
        &[Row::Call, entry(2, 2, 180, 50), entry(4, 2, 180, 80)],
    )?;
    tried_dealing(&rt, rt.alloc(), &book)
}
