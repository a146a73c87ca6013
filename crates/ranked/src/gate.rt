ghost use Rattle.std.specs.Prelude.{◌≡◌, ◌+◌, ◌-◌, ◌^◌, ◌<◌, ◌≤◌, min, IfOk, MatchResult, None, Some};
ghost use Rattle.orders.specs.declared.request.Request.TheVariants.{Enter};
ghost use Rattle.plain.specs.Book.{Book, reach as reachOf};
ghost use Rattle.plain.specs.Gate.{unreached as isUnreached, refused_by};
ghost use Rattle.lineup.specs.Lying.{Lies};

use lineup::lineup::Lineup;
use orders::entry::Entry;
use orders::order::{Order, Phase};
use orders::refusal::Cause;
use ranking::places::Places;

// The tonnes in an entry's reach, or the most that the number holds.
// Here and below the entry is an argument beside the lineup: each request brings another one.
pub(crate) fn reach<L: Places<Record = Order>>(lineup: &Lineup<L>, entry: &Entry) -> u32
    ensures { (b : Book) → Lies (L.Places.contents lineup.now.mirrored.list) lineup.now.state b → result ≡ min (reachOf entry.now b) (2 ^ 32 - 1) }
{
    lineup.reach(entry.side(), entry.price())
}

fn unreached<L: Places<Record = Order>>(lineup: &Lineup<L>, entry: &Entry) -> bool
    ensures { (b : Book) → Lies (L.Places.contents lineup.now.mirrored.list) lineup.now.state b → result ≡ isUnreached b.phase entry.now b }
{
    match lineup.state.phase {
        Phase::Gathering => false,
        Phase::Dealing => reach(lineup, entry) < entry.minimum(),
    }
}

// Admits an entry with a fill list of a length, or says why every book refuses it.
pub(crate) fn admit<L: Places<Record = Order>>(
    lineup: &Lineup<L>,
    entry: &Entry,
    room: usize,
) -> Result<(), Cause>
    ensures safe { IfOk result (λ _. (lineup.now.state.buys + lineup.now.state.sells < lineup.now.state.capacity) × (lineup.now.state.next ≤ 999999) × (lineup.now.state.capacity ≤ room)) }
    ensures refused { (b : Book) → Lies (L.Places.contents lineup.now.mirrored.list) lineup.now.state b → MatchResult result (λ _. refused_by lineup.now.state.capacity b (Enter entry.now) room ≡ None) (λ cause. refused_by lineup.now.state.capacity b (Enter entry.now) room ≡ Some cause) }
{
    let state = lineup.state;
    if room < state.capacity {
        return Err(Cause::FillListShort);
    }
    if entry.is_early(state.phase) {
        return Err(Cause::WrongPhase);
    }
    if state.capacity.saturating_sub(state.buys) <= state.sells {
        return Err(Cause::BookFull);
    }
    if state.next > 999999 {
        return Err(Cause::NumbersSpent);
    }
    if unreached(lineup, entry) {
        return Err(Cause::BelowMinimum);
    }
    Ok(())
}
