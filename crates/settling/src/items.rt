ghost use Rattle.std.specs.Prelude.{◌≡◌, ◌++◌, IfOk, OnOk};
ghost use Rattle.plain.specs.Book.{Tape};
ghost use Rattle.settling.specs.Settled.{Moved};
ghost use Rattle.settling.specs.Items.{tape_of, tape_from, ItemSettled, noted, AllSettled};

use crate::fault::{Fault, Noted};
use crate::request::settle_request;
use ledger::totals::Ledger;
use orders::refusal::Cause;
use orders::request::Request;
use std::alloc::{AllocError, Global};
use venue::venue::Venue;

// Settles the request of an item, if it has one.
// The venues and the ledger are parameters here and in `settle_request`: each has a clause of its own, which a struct would only repeat by field.
fn settle_item<V: Venue, W: Venue>(
    heap: Global,
    first: &mut V,
    second: &mut W,
    ledger: &mut Ledger,
    item: &Result<Request, Cause>,
) -> Result<Option<Fault>, AllocError>
    ensures first { OnOk result (Moved V.Venue.setup V.Venue.stands (tape_of item.now) first.old first.new) }
    ensures second { OnOk result (Moved W.Venue.setup W.Venue.stands (tape_of item.now) second.old second.new) }
    ensures settled { IfOk result (λ fault. (t u : Tape) → V.Venue.stands first.old t → W.Venue.stands second.old u → ItemSettled item.now (V.Venue.setup first.old) (W.Venue.setup second.old) t u ledger.old.rows ledger.new.rows fault) }
{
    match item {
        Ok(request) => settle_request(heap, first, second, ledger, *request),
        Err(_) => Ok(None),
    }
}

// Adds a fault to a list, if there is one.
fn note(notes: &mut Vec<Noted>, count: usize, fault: Option<Fault>) -> Result<(), AllocError>
    ensures { OnOk result (notes.new.items ≡ notes.old.items ++ noted count fault) }
{
    if let Some(fault) = fault {
        notes.push(Noted { count, fault })?;
    }
    Ok(())
}

// Settles items one after the other between two venues, and tells what went wrong.
pub fn settle_items<V: Venue, W: Venue>(
    heap: Global,
    first: &mut V,
    second: &mut W,
    ledger: &mut Ledger,
    items: &[Result<Request, Cause>],
) -> Result<Vec<Noted>, AllocError>
    ensures first { OnOk result (Moved V.Venue.setup V.Venue.stands (tape_from items.now) first.old first.new) }
    ensures second { OnOk result (Moved W.Venue.setup W.Venue.stands (tape_from items.now) second.old second.new) }
    ensures settled { IfOk result (λ notes. (t u : Tape) → V.Venue.stands first.old t → W.Venue.stands second.old u → AllSettled (V.Venue.setup first.old) (W.Venue.setup second.old) t u ledger.old.rows items.now ledger.new.rows notes.items) }
{
    let mut notes = Vec::new(heap);
    for (i, item) in items.iter().enumerate() {
        let fault = settle_item(heap, first, second, ledger, item)?;
        note(&mut notes, i + 1, fault)?;
    }
    Ok(notes)
}
