use crate::rows::*;
use foreign::counting::Counting;
use foreign::picky::Picky;
use foreign::relay::Relay;
use layers::caps::Caps;
use layers::collar::Collar;
use layers::layer::stack;
use orders::row::Row;
use ranking::places::Lent;
use ranking::rules::Time;
use shelf::shelf::Shelf;
use std::process::Abort;
use std::test::*;
use venue::question::{Question, Told};
use venue::run::run;
use venue::step::{Asking, Step};
use venue::venue::Venue;

// Somebody else's layers under ours and over ours.
fn mixed<V: Venue + Drop>(rt: &impl Abort, book: V) -> Result<(), Fail> {
    let Ok(counted) = Counting::over(book) else {
        return Err(Fail::new("no count"));
    };
    let mut pile = laid(Picky, laid(Caps::usual(), counted)?)?;
    assert_eq!(rt;
        refusal(&mut pile, &sell(100, 3))?,
        Some((17, Some(3))),
        "its own number, at its height"
    );
    assert_eq!(rt;
        refusal(&mut pile, &buy(100, 1001))?,
        Some((8, Some(2))),
        "our cap below it"
    );
    assert_eq!(rt; refusal(&mut pile, &sell(100, 4))?, None);
    assert_eq!(rt;
        refusal(&mut pile, &Row::Halt)?,
        Some((11, Some(0))),
        "the book's own refusal"
    );
    assert_eq!(rt; told_next(&mut pile), Some(2), "a run over the whole pile");
    Ok(())
}

// The next number, asked in a run, if one was told.
fn told_next<V: Venue>(venue: &mut V) -> Option<u32> {
    let mut steps = [Step::Ask(Asking {
        question: Question::NextNumber,
        told: None,
    })];
    run(venue, &mut steps);
    match &steps[0] {
        Step::Ask(
            Asking {
                question: _,
                told: Some(Told::NextNumber(number)),
            },
        ) => *number,
        _ => None,
    }
}

#[test]
fn other_peoples_layers(rt: HostRuntime) -> Result<(), Fail> {
    let mut places = [None; 8];
    let book: Shelf<_, _> = opened(Lent::over(&mut places), Time)?;
    mixed(&rt, book)
}

// The number of the refusal that a collar over a venue gets, if it is refused.
fn set_up<V: Venue + Drop>(low: u32, high: u32, below: V) -> Option<u8> {
    match stack(Collar::new(low, high), below) {
        Ok(_) => None,
        Err(refused) => Some(refused.cause.number()),
    }
}

#[test]
fn refused_layers(rt: HostRuntime) -> Result<(), Fail> {
    let mut places = [None; 8];
    let book: Shelf<_, _> = opened(Lent::over(&mut places), Time)?;
    assert_eq!(rt; set_up(2, 1, book), Some(1), "a low above its high");
    let mut others = [None; 8];
    let mut used: Shelf<_, _> = opened(Lent::over(&mut others), Time)?;
    send_all(&rt, &mut used, &[Row::Call, Row::Halt])?;
    assert_eq!(rt;
        set_up(1, 2, used),
        Some(1),
        "a book that is empty, but not fresh"
    );
    Ok(())
}

// Five relays over a venue.
type Five<V> = Relay<Relay<Relay<Relay<Relay<V>>>>>;

fn relay<V: Venue + Drop>(below: V) -> Result<Relay<V>, Fail> {
    Relay::over(below).map_err(|_| Fail::new("no relay"))
}

fn five<V: Venue + Drop>(below: V) -> Result<Five<V>, Fail> {
    relay(relay(relay(relay(relay(below)?)?)?)?)
}

// What is done with a venue once it is there.
trait Then {
    fn then<V: Venue + Drop, A: Abort>(self, rt: &A, venue: V) -> Result<(), Fail>;
}

// Five more layers first.
#[derive(Drop)]
struct Raised<K>(K);

impl<K: Then + Drop> Then for Raised<K> {
    fn then<V: Venue + Drop, A: Abort>(self, rt: &A, venue: V) -> Result<(), Fail> {
        let Raised(next) = self;
        next.then(rt, five(venue)?)
    }
}

// The highest pile answers, and gets no layer more.
#[derive(Drop)]
struct Highest;

impl Then for Highest {
    fn then<V: Venue + Drop, A: Abort>(self, rt: &A, venue: V) -> Result<(), Fail> {
        let Highest = self;
        let mut pile = venue;
        assert_eq!(rt; pile.height(), 15);
        assert_eq!(rt;
            refusal(&mut pile, &Row::Halt)?,
            Some((11, Some(0))),
            "the book's own refusal"
        );
        assert_eq!(rt; set_up(1, 2, pile), Some(1), "a sixteenth layer");
        Ok(())
    }
}

#[test]
fn fifteen_and_no_more(rt: HostRuntime) -> Result<(), Fail> {
    let mut places = [None; 8];
    let book: Shelf<_, _> = opened(Lent::over(&mut places), Time)?;
    Raised(Raised(Raised(Highest))).then(&rt, book)
}
