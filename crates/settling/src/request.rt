ghost use Rattle.std.specs.Prelude.{◌≡◌, IfOk, OnOk};
ghost use Rattle.plain.specs.Book.{Tape};
ghost use Rattle.settling.specs.Replies.{dealt_in, tape_after};
ghost use Rattle.settling.specs.Settled.{claimed_for, Claimed, fault_of, Settled, SettledAlike, Moved};

use crate::booking::check_and_book;
use crate::claiming::claim_of;
use crate::fault::Fault;
use crate::reply::{Reply, is_same, reply_of};
use crate::unbooked::Unbooked;
use ledger::totals::Ledger;
use orders::order::Phase;
use orders::request::Request;
use std::alloc::{AllocError, Global};
use venue::venue::Venue;

// Claims what a reply puts forward against a venue: it is checked, and booked.
fn claim_reply<W: Venue>(
    heap: Global,
    venue: &W,
    ledger: &mut Ledger,
    phase: Phase,
    request: &Request,
    reply: &Reply,
) -> Result<Result<(), Unbooked>, AllocError>
    ensures { IfOk result (λ b. (u : Tape) → W.stands venue.now u → Claimed (W.setup venue.now) u (claimed_for phase request.now reply.now.outcome) (dealt_in reply.now) ledger.old.rows ledger.new.rows b) }
{
    let Ok(answer) = &reply.outcome else {
        return Ok(Ok(()));
    };
    let Some(claim) = claim_of(heap, phase, request, answer, reply.fills.as_slice())? else {
        return Ok(Ok(()));
    };
    Ok(check_and_book(venue, ledger, &claim))
}

// What went wrong, if anything: first with the booking.
fn fault_of(booked: Result<(), Unbooked>, same: bool) -> Option<Fault>
    ensures { result ≡ fault_of booked same }
{
    match booked {
        Err(unbooked) => Some(Fault::Unbooked(unbooked)),
        Ok(()) if same => None,
        Ok(()) => Some(Fault::Otherwise),
    }
}

// Settles a request between two venues: the first serves it, the fills that it gives are claimed against the second, checked and booked, and then
// the second serves it too and must reply the same.
pub fn settle_request<V: Venue, W: Venue>(
    heap: Global,
    first: &mut V,
    second: &mut W,
    ledger: &mut Ledger,
    request: Request,
) -> Result<Option<Fault>, AllocError>
    ensures first { OnOk result (Moved V.Venue.setup V.Venue.stands (λ v t. tape_after v t request) first.old first.new) }
    ensures second { OnOk result (Moved W.Venue.setup W.Venue.stands (λ w u. tape_after w u request) second.old second.new) }
    ensures settled { IfOk result (λ fault. (t u : Tape) → V.Venue.stands first.old t → W.Venue.stands second.old u → Settled (V.Venue.setup first.old) (W.Venue.setup second.old) t u request ledger.old.rows ledger.new.rows fault) }
    ensures alike { IfOk result (λ fault. (t : Tape) → V.Venue.stands first.old t → W.Venue.stands second.old t → V.Venue.setup first.old ≡ W.Venue.setup second.old → SettledAlike (V.Venue.setup first.old) t request ledger.old.rows ledger.new.rows fault) }
{
    let phase = first.phase();
    let reply = reply_of(heap, first, request)?;
    let booked = claim_reply(heap, second, ledger, phase, &request, &reply)?;
    let again = reply_of(heap, second, request)?;
    Ok(fault_of(booked, is_same(&reply, &again)))
}
