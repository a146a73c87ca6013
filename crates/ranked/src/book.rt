ghost use Rattle.std.specs.Prelude.{length, MatchResult};
ghost use Rattle.venue.specs.Meaning.{book_setup};
ghost use Rattle.venue.specs.Books.{Opened, HandedBack};
ghost use Rattle.ranked.specs.Standing.{Stands};

use lineup::lineup::Lineup;
use orders::order::Order;
use orders::refusal::Cause;
use ranking::places::Places;
use ranking::rank::{Priority, Ranking};
use venue::book::Refused;

// A book over a list of places.
#[derive(Drop)]
pub struct Ranked<L, R> {
    pub(crate) lineup: Lineup<L>,
    pub(crate) rule: R,
}

// A book with no orders, unless the list has no place or more than 1024.
pub fn open<L: Places<Record = Order>, R: Priority>(
    list: L,
    rule: R,
) -> Result<Ranked<L, R>, Refused<L, R>>
    ensures { MatchResult result (λ b. Opened (R.Ranking.ahead rule) (length (L.Places.contents list)) (book_setup (R.Ranking.ahead b.rule) b.lineup.state.capacity) (Stands (R.Ranking.ahead b.rule) (L.Places.contents b.lineup.mirrored.list) b.lineup.state)) (λ u. HandedBack (length (L.Places.contents list)) list rule u) }
{
    let capacity = list.len();
    if capacity == 0 || capacity > 1024 {
        return Err(Refused {
            cause: Cause::BadSetup,
            list,
            rule,
        });
    }
    rule.is_lawful();
    Ok(Ranked {
        lineup: Lineup::vacant(list),
        rule,
    })
}
