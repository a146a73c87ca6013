ghost use Rattle.plain.specs.Book.{Tape};
ghost use Rattle.std.specs.Prelude.{OnOk};
ghost use Rattle.claims.specs.Judged.{JudgedAt};
ghost use Rattle.ledger.specs.Booking.{Fits};
ghost use Rattle.settling.specs.Bookings.{verdict, BookedOrNot};

use crate::unbooked::Unbooked;
use claims::check::check;
use claims::claim::Claim;
use ledger::totals::Ledger;
use venue::venue::Venue;

// Checks a claim against a venue, and books it.
pub fn check_and_book<V: Venue>(
    venue: &V,
    ledger: &mut Ledger,
    claim: &Claim,
) -> Result<(), Unbooked>
    ensures judged { (t : Tape) → V.stands venue.now t → JudgedAt (V.setup venue.now) t claim.now.subject claim.now.fills.items (verdict result) }
    ensures booked { BookedOrNot ledger.old.rows claim.now.fills.items ledger.new.rows result }
    ensures fits { OnOk result (Fits ledger.old.rows claim.now.fills.items) }
{
    let checked = check(venue, claim).map_err(Unbooked::Failed)?;
    ledger.book(checked).map_err(Unbooked::Full)
}
