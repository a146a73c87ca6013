use crate::market::*;
use ledger::totals::Ledger;
use orders::order::Order;
use orders::request::Request;
use orders::row::Row;
use ranked::book::open;
use ranking::places::{Lent, Places};
use ranking::rules::{Size, Time};
use settling::fault::{Fault, Noted};
use settling::items::settle_items;
use settling::unbooked::Unbooked;
use shelf::shelf::Shelf;
use std::alloc::Global;
use std::test::Fail;

// A fault as numbers: the count of its item, and the refusal of the claim, if that is what went wrong.
fn numbers(noted: &Noted) -> (usize, Option<u8>) {
    match noted.fault {
        Fault::Unbooked(Unbooked::Failed(cause)) => (noted.count, Some(cause.number())),
        Fault::Unbooked(Unbooked::Full(cause)) => (noted.count, Some(cause.number())),
        Fault::Otherwise => (noted.count, None),
    }
}

// What goes wrong first with two sells and a buy between a book by time and one by size, and what the buyer was booked.
fn settled<L: Places<Record = Order> + Drop, M: Places<Record = Order> + Drop>(
    heap: Global,
    list: L,
    other: M,
) -> Result<((usize, Option<u8>), u64), Fail> {
    let mut first: Shelf<L, Time> = opened(list)?;
    let Ok(mut second) = open(other, Size) else {
        return Err(Fail::new("no other book"));
    };
    let items = [
        Request::try_from(&Row::Call),
        Request::try_from(&entry(2, 2, 180, 50)),
        Request::try_from(&entry(4, 2, 180, 80)),
        Request::try_from(&entry(1, 1, 180, 60)),
    ];
    let mut ledger = Ledger::new();
    let notes = settle_items(heap, &mut first, &mut second, &mut ledger, &items)?;
    match notes.as_slice().first() {
        Some(noted) => Ok((numbers(noted), ledger.row(1).bought)),
        None => Err(Fail::new("no fault")),
    }
}

#[test]
fn two_rules(rt: HostRuntime) -> Result<(), Fail> {
    let mut places = [None; 8];
    let mut others = [None; 8];
    let found = settled(rt.alloc(), Lent::over(&mut places), Lent::over(&mut others))?;
    assert_eq!(rt;
        found,
        ((4, Some(16)), 0),
        "fills that are not those of the other rule are not booked"
    );
    Ok(())
}

#[test]
fn two_capacities(rt: HostRuntime) -> Result<(), Fail> {
    let mut places = [None; 8];
    let mut others = [None; 1];
    let found = settled(rt.alloc(), Lent::over(&mut places), Lent::over(&mut others))?;
    assert_eq!(rt;
        found.0,
        (3, None),
        "a book of one place refuses the second sell"
    );
    Ok(())
}
