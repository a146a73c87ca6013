use crate::rows::*;
use orders::order::Order;
use orders::request::Side;
use ranked::book::Ranked;
use ranking::finding::first_of;
use ranking::places::Lent;
use ranking::rank::Priority;
use ranking::rules::{Size, Time};
use ranking::sequence::in_sequence;
use shelf::shelf::Shelf;
use std::process::Abort;
use std::test::*;
use venue::venue::Venue;

// Sends four sells, of which three have one price, and puts them into places by rank.
fn sells_by_rank<V: Venue>(
    rt: &impl Abort,
    venue: &mut V,
    places: &mut [Option<Order>],
) -> Result<(), Fail> {
    send_all(
        rt,
        venue,
        &[sell(181, 90), sell(180, 50), sell(180, 80), sell(180, 50)],
    )?;
    for (i, place) in places.iter_mut().enumerate() {
        *place = venue.order_at(Side::Sell, i + 1);
    }
    Ok(())
}

// The orders are in the sequence of the rule, and the one of a number comes first.
fn led_by<R: Priority>(
    rt: &impl Abort,
    rule: &R,
    places: &mut [Option<Order>],
    number: u32,
    what: &str,
) -> Result<(), Fail> {
    let list = Lent::over(places);
    assert!(rt; in_sequence(&list, rule), "in sequence: {what}");
    match first_of(&list, rule) {
        Some((place, order)) => {
            assert_eq!(rt; (place, order.number), (0, number), "the first: {what}");
            Ok(())
        }
        None => Err(Fail::new("no order")),
    }
}

#[test]
fn sequences(rt: HostRuntime) -> Result<(), Fail> {
    let mut places = [None; 8];
    let mut lists = ([None; 8], [None; 8]);
    let mut ranked: Ranked<_, _> = opened(Lent::over(&mut lists.0), Time)?;
    sells_by_rank(&rt, &mut ranked, &mut places)?;
    led_by(&rt, &Time, &mut places, 2, "ranked, time")?;
    assert!(rt;
        !in_sequence(&Lent::over(&mut places), &Size),
        "time is not size"
    );
    let mut shelf: Shelf<_, _> = opened(Lent::over(&mut lists.1), Size)?;
    sells_by_rank(&rt, &mut shelf, &mut places)?;
    led_by(&rt, &Size, &mut places, 3, "shelf, size")
}
