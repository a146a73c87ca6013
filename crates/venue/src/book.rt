ghost use Rattle.std.specs.Prelude.{◌≡◌, length, MatchResult};
ghost use Rattle.venue.specs.Books.{Opened, HandedBack};

use crate::venue::Venue;
use orders::order::Order;
use orders::refusal::Cause;
use ranking::places::Places;
use ranking::rank::Priority;

// A list and a rule that were refused a book, and why.
#[derive(Drop)]
pub struct Refused<L, R> {
    pub cause: Cause,
    pub list: L,
    pub rule: R,
}

impl<L: Drop, R: Drop> From<Refused<L, R>> for Cause {
    ghost from_gives = { λ u c. c ≡ u.cause };

    fn from(refused: Refused<L, R>) -> Cause {
        refused.cause
    }
}

// A venue that keeps orders in a list of places, under a priority rule.
pub trait Book<L: Places<Record = Order>, R: Priority>: Venue {
    // An empty book over places of which there are 1 to 1,024, or hands them back.
    fn open(list: L, rule: R) -> Result<Self, Refused<L, R>>
        ensures { MatchResult result (λ b. Opened (R.Ranking.ahead rule) (length (L.Places.contents list)) (Self.Venue.setup b) (Self.Venue.stands b)) (λ u. HandedBack (length (L.Places.contents list)) list rule u) };
}
