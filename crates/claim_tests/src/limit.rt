use crate::market::*;
use claims::check::check as check_claim;
use claims::claim::{Claim, Subject};
use ledger::totals::Ledger;
use orders::order::Fill;
use orders::refusal::Cause;
use ranking::places::Lent;
use shelf::shelf::Shelf;
use std::alloc::Global;
use std::process::Abort;
use std::test::Fail;
use venue::venue::Venue;

// The fill of a buy and a sell that are all of a book.
pub fn fill(buyer: u8, seller: u8, price: u32, quantity: u32) -> Fill {
    Fill {
        buy: 1,
        sell: 2,
        buyer,
        seller,
        price,
        quantity,
    }
}

// The last booking is asked for first, and is answered the same.
fn asked_and_booked<V: Venue>(
    rt: &impl Abort,
    heap: Global,
    venue: &V,
    ledger: &mut Ledger,
    subject: Subject,
    deal: Fill,
) -> Result<Option<u8>, Fail> {
    let claim = Claim::new(subject, [deal].to_vec(heap)?);
    let Ok(checked) = check_claim(venue, &claim) else {
        return Err(Fail::new("a claim that fails"));
    };
    let asked = ledger.would_book(&checked);
    let answered = ledger.book(checked);
    assert!(rt; asked == answered);
    Ok(answered.err().map(Cause::number))
}

// Books a deal of two members in a ledger some times, each time by a claim against a book that is about to call it:
// the number of the refusal that the last booking gets, if it is refused.
pub fn dealt(
    rt: &impl Abort,
    heap: Global,
    ledger: &mut Ledger,
    deal: Fill,
    times: u32,
) -> Result<Option<u8>, Fail> {
    let mut places = [None; 2];
    let mut book: Shelf<_, _> = opened(Lent::over(&mut places))?;
    let Fill {
        price,
        quantity,
        ..
    } = deal;
    send_all(
        rt,
        &mut book,
        &[
            entry(deal.buyer, 1, price, quantity),
            entry(deal.seller, 2, price, quantity),
        ],
    )?;
    let subject = Subject::Call {
        price,
        volume: quantity,
    };
    for _ in 1..times {
        assert_eq!(rt; booked(heap, &book, ledger, subject, &[deal])?, None);
    }
    asked_and_booked(rt, heap, &book, ledger, subject, deal)
}

#[test]
fn to_the_limit_and_no_further(rt: HostRuntime) -> Result<(), Fail> {
    let heap = rt.alloc();
    let mut ledger = Ledger::new();
    let large = fill(1, 2, 100000, 50000);
    assert_eq!(rt;
        dealt(&rt, heap, &mut ledger, large, 200)?,
        None,
        "1,000,000,000,000 pence"
    );
    assert_eq!(rt; ledger.row(1).pay, 1000000000000);
    assert_eq!(rt;
        dealt(&rt, heap, &mut ledger, fill(1, 3, 1, 1), 1)?,
        Some(17),
        "a penny more to pay"
    );
    assert_eq!(rt;
        dealt(&rt, heap, &mut ledger, fill(3, 2, 1, 1), 1)?,
        Some(17),
        "a penny more to receive"
    );
    assert_eq!(rt;
        dealt(&rt, heap, &mut ledger, fill(3, 1, 1, 1), 1)?,
        None,
        "a penny of others"
    );
    assert_eq!(rt; ledger.sum().pay, 1000000000001);
    Ok(())
}
