ghost use Rattle.std.specs.Prelude.{IfOk};
ghost use Rattle.piles.specs.Day.{day_setup, DayRun};
ghost use Rattle.listing.specs.Day.{DayListing};

use crate::line::Line;
use crate::lines::listing;
use crate::records::{read_records, steps_for};
use piles::kind::Kind;
use ranking::places::Lent;
use ranking::rank::Priority;
use std::alloc::{AllocError, Global};
use venue::step::Step;

// The places of the day's book, and of the fill list of each request.
pub const PLACES: usize = 8;

// Runs steps through the day's pile over a fresh book.
fn deal<K: Kind, R: Priority + Drop>(kind: &K, rule: R, steps: &mut [Step])
    ensures { DayRun (day_setup (R.Ranking.ahead rule) 8) steps.old steps.new }
{
    let mut places = [None; PLACES];
    let list = Lent::over(&mut places);
    kind.run(list, rule, steps).unwrap();
}

// The lines of a file that is dealt on the day's pile.
pub fn day_lines<K: Kind, R: Priority + Drop>(
    heap: Global,
    file: &[u8],
    kind: &K,
    rule: R,
) -> Result<Vec<Line>, AllocError>
    ensures { IfOk result (λ v. DayListing (R.Ranking.ahead rule) file.now v.items) }
{
    let records = read_records(heap, file)?;
    let mut steps = steps_for(heap, records.as_slice(), PLACES)?;
    deal(kind, rule, steps.as_mut_slice());
    listing(heap, records.as_slice(), steps.as_slice())
}
