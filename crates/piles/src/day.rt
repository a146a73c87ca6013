ghost use Rattle.std.specs.Prelude.{◌≡◌, [], length, MatchResult};
ghost use Rattle.piles.specs.Day.{PiledOver, PiledOverVenue, NotPiled, over_book, day_setup, DayRun, NotRun};

use layers::caps::{Caps, binds_its_caps};
use layers::collar::Collar;
use layers::layer::{Layer, binds_as_below, stack};
use orders::order::Order;
use orders::refusal::Cause;
use ranking::places::Places;
use ranking::rank::Priority;
use venue::book::Book;
use venue::run::run;
use venue::step::Step;
use venue::venue::Venue;

// A collar over caps over a venue.
pub type Pile<V> = Layer<Collar, Layer<Caps, V>>;

// The day's pile over a fresh venue with room for two layers: caps of 1,000, and a collar from 100 to 300 over them.
pub fn pile_over<V: Venue + Drop>(book: V) -> Result<Pile<V>, Cause>
    ensures book { (V.Venue.setup book).height ≡ 0 → V.Venue.stands book [] → MatchResult result (λ p. PiledOver V.Venue.setup V.Venue.stands book p) (λ _. ⊥) }
    ensures venue { MatchResult result (λ p. PiledOverVenue V.Venue.setup V.Venue.stands book p) (λ c. NotPiled V.Venue.setup V.Venue.stands book c) }
{
    let capped = stack(Caps::usual(), book)?;
    binds_its_caps(&capped);
    let pile = stack(Collar::new(100, 300), capped)?;
    binds_as_below(&pile);
    Ok(pile)
}

// Runs steps through the day's pile over a fresh book.
fn run_over<V: Venue + Drop>(book: V, steps: &mut [Step]) -> Result<(), Cause>
    ensures { (V.Venue.setup book).height ≡ 0 → V.Venue.stands book [] → MatchResult result (λ _. DayRun (over_book (V.Venue.setup book)) steps.old steps.new) (λ _. ⊥) }
{
    let mut pile = pile_over(book)?;
    run(&mut pile, steps);
    Ok(())
}

// Runs steps through the day's pile over a fresh book of whatever kind.
pub fn run_day<L: Places<Record = Order> + Drop, R: Priority + Drop, B: Book<L, R> + Drop>(
    list: L,
    rule: R,
    steps: &mut [Step],
) -> Result<(), Cause>
    ensures { MatchResult result (λ _. DayRun (day_setup (R.Ranking.ahead rule) (length (L.Places.contents list))) steps.old steps.new) (λ c. NotRun (length (L.Places.contents list)) c steps.old steps.new) }
{
    run_over(B::open(list, rule)?, steps)
}
