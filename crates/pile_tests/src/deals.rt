use crate::rows::*;
use layers::caps::Caps;
use layers::collar::Collar;
use layers::layer::Layer;
use orders::answer::Answer;
use orders::order::{Fill, Order};
use orders::row::Row;
use ranked::book::Ranked;
use ranking::places::{Lent, Places};
use ranking::rank::Priority;
use ranking::rules::{Size, Time};
use shelf::shelf::Shelf;
use std::process::Abort;
use std::test::*;
use venue::venue::Venue;

// Usual caps, and a collar that lets every price pass, over a venue.
fn pile<V: Venue + Drop>(book: V) -> Result<Layer<Collar, Layer<Caps, V>>, Fail> {
    laid(Collar::new(1, 100000), laid(Caps::usual(), book)?)
}

fn calls<V: Venue>(rt: &impl Abort, venue: &mut V) -> Result<(), Fail> {
    assert_eq!(rt; call(venue)?, (0, 0), "an empty call");
    send_all(rt, venue, &[Row::Halt, buy(50, 10), sell(51, 10)])?;
    assert_eq!(rt; call(venue)?, (0, 0), "prices apart");
    send_all(rt, venue, &[Row::Halt, cancel(2, 2), sell(40, 10)])?;
    assert_eq!(rt; call(venue)?, (40, 10), "the lowest price");
    send_all(
        rt,
        venue,
        &[Row::Halt, buy(50, 10), buy(45, 10), sell(40, 10)],
    )?;
    assert_eq!(rt; call(venue)?, (46, 10), "the smallest imbalance");
    Ok(())
}

fn minimums<V: Venue>(rt: &impl Abort, venue: &mut V) -> Result<(), Fail> {
    send_all(
        rt,
        venue,
        &[Row::Call, sell(180, 60), sell(181, 50), sell(179, 40)],
    )?;
    assert_eq!(rt;
        refusal(venue, &entry(1, 1, 180, 150, 101))?,
        Some((15, Some(0))),
        "reach 100, minimum 101"
    );
    assert_eq!(rt;
        refusal(venue, &entry(1, 1, 180, 150, 100))?,
        None,
        "reach 100, minimum 100"
    );
    Ok(())
}

fn refusals<V: Venue>(rt: &impl Abort, venue: &mut V) -> Result<(), Fail> {
    send_all(rt, venue, &[buy(200, 300)])?;
    assert_eq!(rt;
        refusal(venue, &buy(200, 701))?,
        Some((8, Some(1))),
        "held 300 of 1,000, and 701 more"
    );
    assert_eq!(rt;
        refusal(venue, &buy(200, 700))?,
        None,
        "held 300 of 1,000, and 700 more"
    );
    assert_eq!(rt; refusal(venue, &cancel(1, 1))?, None);
    assert_eq!(rt;
        refusal(venue, &cancel(1, 1))?,
        Some((12, Some(0))),
        "a cancel twice"
    );
    assert_eq!(rt; refusal(venue, &buy(1, 1))?, None, "price 1");
    assert_eq!(rt; refusal(venue, &sell(100000, 1))?, None, "price 100,000");
    Ok(())
}

// What is tried on a fresh pile.
#[derive(Clone, Copy)]
enum Scenario {
    Calls,
    Minimums,
    Refusals,
}

impl Scenario {
    const ALL: [Scenario; 3] = [Scenario::Calls, Scenario::Minimums, Scenario::Refusals];

    // A switch, since what is tried is a function of every kind of venue, and no closure is.
    fn play<V: Venue>(self, rt: &impl Abort, venue: &mut V) -> Result<(), Fail> {
        match self {
            Scenario::Calls => calls(rt, venue),
            Scenario::Minimums => minimums(rt, venue),
            Scenario::Refusals => refusals(rt, venue),
        }
    }
}

#[test]
fn tried_on_the_ranked_book(rt: HostRuntime) -> Result<(), Fail> {
    for scenario in Scenario::ALL {
        let mut places = [None; 8];
        let book: Ranked<_, _> = opened(Lent::over(&mut places), Time)?;
        scenario.play(&rt, &mut pile(book)?)?;
    }
    Ok(())
}

#[test]
fn tried_on_the_shelf_book(rt: HostRuntime) -> Result<(), Fail> {
    for scenario in Scenario::ALL {
        let mut places = [None; 8];
        let book: Shelf<_, _> = opened(Lent::over(&mut places), Time)?;
        scenario.play(&rt, &mut pile(book)?)?;
    }
    Ok(())
}

// The quantities of the fills that a buy of 60 gets from sells of 50 and then 80 at one price.
fn taken<V: Venue>(rt: &impl Abort, venue: &mut V) -> Result<(u32, u32), Fail> {
    send_all(rt, venue, &[Row::Call, sell(180, 50), sell(180, 80)])?;
    let mut fills = [Fill::BLANK; 8];
    match send(venue, &buy(180, 60), &mut fills)? {
        Ok(Answer::Entered(_)) => Ok((fills[0].quantity, fills[1].quantity)),
        _ => Err(Fail::new("an entry that was not answered as one")),
    }
}

fn taken_by<L: Places<Record = Order> + Drop, R: Priority + Drop>(
    rt: &impl Abort,
    list: L,
    rule: R,
) -> Result<(u32, u32), Fail> {
    let book: Ranked<L, R> = opened(list, rule)?;
    taken(rt, &mut pile(book)?)
}

#[test]
fn rules(rt: HostRuntime) -> Result<(), Fail> {
    assert_eq!(rt;
        taken_by(&rt, Lent::over(&mut [None; 8]), Time)?,
        (50, 10),
        "by time"
    );
    assert_eq!(rt;
        taken_by(&rt, Lent::over(&mut [None; 8]), Size)?,
        (60, 0),
        "by size"
    );
    Ok(())
}

#[test]
fn full_book(rt: HostRuntime) -> Result<(), Fail> {
    let mut places = [None; 1];
    let book: Ranked<_, _> = opened(Lent::over(&mut places), Time)?;
    let mut pile = pile(book)?;
    send_all(&rt, &mut pile, &[sell(180, 10)])?;
    assert_eq!(rt;
        refusal(&mut pile, &buy(180, 10))?,
        Some((13, Some(0))),
        "capacity 1, one sell resting"
    );
    Ok(())
}
