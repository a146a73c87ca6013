ghost use Rattle.std.specs.Prelude.{◌≡◌, IfOk, Decides};
ghost use Rattle.plain.specs.Book.{Tape};
ghost use Rattle.plain.specs.Matched.{EntryMatches};
ghost use Rattle.venue.specs.Meaning.{book_at};
ghost use Rattle.claims.specs.Judged.{CallHolds, JudgedAt};

use crate::claim::{Claim, Subject};
use crate::ranks::copy_ranks;
use orders::entry::Entry;
use orders::order::{Fill, Order, Phase};
use orders::refusal::Cause;
use orders::request::Side;
use replay::agree::{call_agrees, entry_agrees};
use venue::venue::Venue;

// A claim that passed its check. Only the check makes one, and it has no `Drop`: whoever has it spends it.
pub struct Checked<'a> {
    claim: &'a Claim,
}

impl<'a> Checked<'a> {
    pub fn fills(&self) -> &[Fill]
        ensures { result.now ≡ self.now.claim.now.fills.items }
    {
        self.claim.fills()
    }

    // Spends it for its fills.
    pub fn into_fills(self) -> &'a [Fill]
        ensures { result.now ≡ self.entry.claim.now.fills.items }
    {
        let Checked { claim: spent } = self;
        spent.fills()
    }
}

// What a list has in places that no order was copied to.
const NO_ORDER: Order = Order {
    number: 0,
    member: 0,
    side: Side::Buy,
    price: 0,
    quantity: 0,
    remaining: 0,
};

// The most orders that rest in any venue. A check asks for no memory, so each side is copied to an array of so many places,
// and the orders in it are counted beside it.
const MOST: usize = 1024;

// Here and below the venue and the fills are two arguments: the one is asked, and the other held against what it answers.
fn entry_holds<V: Venue>(venue: &V, entry: &Entry, number: u32, fills: &[Fill]) -> bool
    ensures { (t : Tape) → V.stands venue.now t → (book_at (V.setup venue.now) t).next ≡ number → Decides result (EntryMatches (V.setup venue.now).rule (book_at (V.setup venue.now) t) entry.now fills.now) }
{
    venue.keeps();
    let mut resting = [NO_ORDER; MOST];
    let count = copy_ranks(venue, entry.side().opposite(), &mut resting);
    entry_agrees(entry, number, &mut resting[..count], fills)
}

fn call_holds<V: Venue>(venue: &V, price: u32, volume: u32, fills: &[Fill]) -> bool
    ensures { (t : Tape) → V.stands venue.now t → Decides result (CallHolds (V.setup venue.now).rule (book_at (V.setup venue.now) t) price volume fills.now) }
{
    venue.keeps();
    let mut buys = [NO_ORDER; MOST];
    let mut sells = [NO_ORDER; MOST];
    let bought = copy_ranks(venue, Side::Buy, &mut buys);
    let sold = copy_ranks(venue, Side::Sell, &mut sells);
    call_agrees(
        price,
        volume,
        &mut buys[..bought],
        &mut sells[..sold],
        fills,
    )
}

fn check_entry<V: Venue>(venue: &V, entry: &Entry, fills: &[Fill]) -> Result<(), Cause>
    ensures { (t : Tape) → V.stands venue.now t → JudgedAt (V.setup venue.now) t (Subject.Entry entry.now) fills.now result }
{
    if venue.phase() == Phase::Gathering {
        return Err(Cause::WrongPhase);
    }
    let Some(number) = venue.next_number() else {
        return Err(Cause::NumbersSpent);
    };
    if entry_holds(venue, entry, number, fills) {
        Ok(())
    } else {
        Err(Cause::ClaimFails)
    }
}

fn check_call<V: Venue>(venue: &V, price: u32, volume: u32, fills: &[Fill]) -> Result<(), Cause>
    ensures { (t : Tape) → V.stands venue.now t → JudgedAt (V.setup venue.now) t (Subject.Call price volume) fills.now result }
{
    if venue.phase() == Phase::Dealing {
        return Err(Cause::WrongPhase);
    }
    if call_holds(venue, price, volume, fills) {
        Ok(())
    } else {
        Err(Cause::ClaimFails)
    }
}

fn judge<V: Venue>(venue: &V, claim: &Claim) -> Result<(), Cause>
    ensures { (t : Tape) → V.stands venue.now t → JudgedAt (V.setup venue.now) t claim.now.subject claim.now.fills.items result }
{
    match claim.subject() {
        Subject::Entry(entry) => check_entry(venue, &entry, claim.fills()),
        Subject::Call { price, volume } => check_call(venue, price, volume, claim.fills()),
    }
}

// Checks a claim against a venue, which it only asks: the phase, then the numbers, then the match laws.
pub fn check<'a, V: Venue>(venue: &V, claim: &'a Claim) -> Result<Checked<'a>, Cause>
    ensures judged { (t : Tape) → V.stands venue.now t → JudgedAt (V.setup venue.now) t claim.now.subject claim.now.fills.items result }
    ensures carries { IfOk result (λ c. c.claim.now ≡ claim.now) }
{
    judge(venue, claim)?;
    Ok(Checked { claim })
}
