ghost use Rattle.std.specs.Prelude.{length, MatchResult};
ghost use Rattle.piles.specs.Day.{day_setup, DayRun, NotRun};

use crate::day::run_day;
use orders::order::Order;
use orders::refusal::Cause;
use ranked::book::Ranked;
use ranking::places::Places;
use ranking::rank::Priority;
use shelf::shelf::Shelf;
use venue::step::Step;

// A kind of book, whatever list of places it is over: what a day's pile can be run on.
pub trait Kind {
    // Runs steps through the day's pile over a fresh book of the kind. The list and the rule go into the book, and the steps are lent.
    fn run<L: Places<Record = Order> + Drop, R: Priority + Drop>(
        &self,
        list: L,
        rule: R,
        steps: &mut [Step],
    ) -> Result<(), Cause>
        ensures { MatchResult result (λ _. DayRun (day_setup (R.Ranking.ahead rule) (length (L.Places.contents list))) steps.old steps.new) (λ c. NotRun (length (L.Places.contents list)) c steps.old steps.new) };
}

// Books whose orders lie in any places.
#[derive(Clone, Copy)]
pub struct OnShelf;

// Books that keep each side in the sequence of the rule.
#[derive(Clone, Copy)]
pub struct OnRanked;

// Two impls that differ in a type: one for both would need a kind to be a type that takes types.
impl Kind for OnShelf {
    fn run<L: Places<Record = Order> + Drop, R: Priority + Drop>(
        &self,
        list: L,
        rule: R,
        steps: &mut [Step],
    ) -> Result<(), Cause> {
        run_day::<L, R, Shelf<L, R>>(list, rule, steps)
    }
}

impl Kind for OnRanked {
    fn run<L: Places<Record = Order> + Drop, R: Priority + Drop>(
        &self,
        list: L,
        rule: R,
        steps: &mut [Step],
    ) -> Result<(), Cause> {
        run_day::<L, R, Ranked<L, R>>(list, rule, steps)
    }
}
