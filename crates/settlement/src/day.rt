ghost use Rattle.std.specs.Prelude.{◌≡◌, [], length, replicate, IfOk, MatchResult};
ghost use Rattle.ranking.specs.Rules.{time};
ghost use Rattle.venue.specs.Meaning.{book_setup};
ghost use Rattle.piles.specs.Day.{day_setup};
ghost use Rattle.ledger.specs.Rows.{nothing};
ghost use Rattle.settlement.specs.Totals.{Clear};
ghost use Rattle.settlement.specs.Day.{DaySettled};

use crate::line::Line;
use crate::lines::listing;
use ledger::totals::Ledger;
use listing::day::PLACES;
use listing::records::read_records;
use orders::order::Order;
use orders::refusal::Cause;
use orders::request::Request;
use piles::day::pile_over;
use ranked::book::open;
use ranking::places::{Lent, Places};
use ranking::rules::Time;
use settling::fault::Noted;
use settling::items::settle_items;
use shelf::shelf::Shelf;
use std::alloc::{AllocError, Global};
use venue::venue::Venue;

// Settles records between the day's pile over one fresh book and over another. The ledger is written, and the records are read.
fn settle_between<V: Venue + Drop, W: Venue + Drop>(
    heap: Global,
    one: V,
    other: W,
    ledger: &mut Ledger,
    records: &[Result<Request, Cause>],
) -> Result<Vec<Noted>, AllocError>
    requires one { (V.Venue.setup one ≡ book_setup time 8) × V.Venue.stands one [] }
    requires other { (W.Venue.setup other ≡ book_setup time 8) × W.Venue.stands other [] }
    requires empty { ledger.old.rows ≡ replicate 64 nothing }
    ensures { IfOk result (λ notes. Clear (day_setup time 8) records.now ledger.new.rows notes.items) }
{
    let mut first = pile_over(one).unwrap();
    let mut second = pile_over(other).unwrap();
    settle_items(heap, &mut first, &mut second, ledger, records)
}

// Settles records between the day's pile over a shelf book and over a ranked book.
fn settle_over<L: Places<Record = Order> + Drop, M: Places<Record = Order> + Drop>(
    heap: Global,
    list: L,
    other: M,
    ledger: &mut Ledger,
    records: &[Result<Request, Cause>],
) -> Result<Result<Vec<Noted>, AllocError>, Cause>
    requires list { length (L.Places.contents list) ≡ 8 }
    requires other { length (M.Places.contents other) ≡ 8 }
    requires empty { ledger.old.rows ≡ replicate 64 nothing }
    ensures { MatchResult result (λ settled. IfOk settled (λ notes. Clear (day_setup time 8) records.now ledger.new.rows notes.items)) (λ _. ⊥) }
{
    let shelf = Shelf::over(list, Time)?;
    let ranked = open(other, Time)?;
    Ok(settle_between(heap, shelf, ranked, ledger, records))
}

// The same over books of the day's places.
fn settle_day(
    heap: Global,
    ledger: &mut Ledger,
    records: &[Result<Request, Cause>],
) -> Result<Vec<Noted>, AllocError>
    requires { ledger.old.rows ≡ replicate 64 nothing }
    ensures { IfOk result (λ notes. Clear (day_setup time 8) records.now ledger.new.rows notes.items) }
{
    let mut shelf_places = [None; PLACES];
    let mut ranked_places = [None; PLACES];
    let list = Lent::over(&mut shelf_places);
    let other = Lent::over(&mut ranked_places);
    settle_over(heap, list, other, ledger, records).unwrap()
}

// The lines of a file that is settled between the day's piles.
pub fn settlement_lines(heap: Global, file: &[u8]) -> Result<Vec<Line>, AllocError>
    ensures { IfOk result (λ v. DaySettled file.now v.items) }
{
    let records = read_records(heap, file)?;
    let mut ledger = Ledger::new();
    let notes = settle_day(heap, &mut ledger, records.as_slice())?;
    listing(heap, notes.as_slice(), &ledger)
}
