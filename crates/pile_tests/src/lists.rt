use crate::rows::*;
use layers::caps::Caps;
use orders::order::{Fill, Order};
use orders::row::Row;
use ranked::book::{Ranked, open};
use ranking::places::{Lent, Places};
use ranking::rules::Time;
use std::test::*;

// A call with a fill list that is too short, and with one that is far too long.
#[test]
fn fill_lists(rt: HostRuntime) -> Result<(), Fail> {
    let mut places = [None; 2];
    let mut book: Ranked<_, _> = opened(Lent::over(&mut places), Time)?;
    match send(&mut book, &Row::Call, &mut [])? {
        Ok(_) => return Err(Fail::new("a fill list of no places")),
        Err(refusal) => assert_eq!(rt; refusal.cause.number(), 10),
    }
    match send(&mut book, &Row::Call, &mut [Fill::BLANK; 3000])? {
        Ok(_) => Ok(()),
        Err(_) => Err(Fail::new("a long fill list")),
    }
}

// What a buy comes to under a cap.
fn buy_under<L: Places<Record = Order> + Drop>(
    list: L,
    cap: u32,
    quantity: u32,
) -> Result<Option<(u8, Option<u8>)>, Fail> {
    let book: Ranked<L, Time> = opened(list, Time)?;
    refusal(&mut laid(Caps::new([cap; 64]), book)?, &buy(10, quantity))
}

#[test]
fn caps(rt: HostRuntime) -> Result<(), Fail> {
    assert_eq!(rt;
        buy_under(Lent::over(&mut [None; 8]), 0, 1)?,
        Some((8, Some(1))),
        "a cap of 0"
    );
    assert_eq!(rt;
        buy_under(Lent::over(&mut [None; 8]), 4294967295, 50000)?,
        None,
        "the largest cap"
    );
    Ok(())
}

// The number of the refusal that a list of places gets, if no book opens over it.
fn refused_places<L: Places<Record = Order> + Drop>(list: L) -> Option<u8> {
    match open(list, Time) {
        Ok(_) => None,
        Err(refused) => Some(refused.cause.number()),
    }
}

#[test]
fn order_lists(rt: HostRuntime) -> Result<(), Fail> {
    assert_eq!(rt; refused_places(Lent::over(&mut [])), Some(1), "no places");
    assert_eq!(rt;
        refused_places(Lent::over(&mut [None; 1024])),
        None,
        "1,024 places"
    );
    assert_eq!(rt;
        refused_places(Lent::over(&mut [None; 1025])),
        Some(1),
        "1,025 places"
    );
    Ok(())
}
