ghost use Rattle.std.specs.Prelude.{◌≡◌, MatchResult, Some, None};
ghost use Rattle.shelf.specs.HeldGate.{is_full, falls_short, entry_refusal, call_refusal};

use crate::shelf::Shelf;
use matching::scan::{tonnes_opposite, vacant};
use orders::entry::Entry;
use orders::order::{Order, Phase};
use orders::refusal::Cause;
use ranking::places::Places;
use ranking::rank::Priority;

// What a shelf admits: the tests of `plain`'s gate, which the ranked book makes of what it keeps.
impl<L: Places<Record = Order>, R: Priority> Shelf<L, R> {
    fn is_full(&self) -> bool
        ensures { result ≡ is_full (L.Places.contents self.now.list) }
    {
        vacant(&self.list).is_none()
    }

    // Whether an entry finds less than its minimum: one with none never does, and nothing is summed for it.
    fn falls_short(&self, e: &Entry) -> bool
        ensures { result ≡ falls_short self.now.phase e.now (L.Places.contents self.now.list) }
    {
        self.phase == Phase::Dealing
            && e.minimum() > 0
            && tonnes_opposite(&self.list, e.side(), e.price()) < e.minimum()
    }

    // Admits an entry with a fill list of a length, or says why not.
    pub(super) fn admit_entry(&self, e: &Entry, room: usize) -> Result<(), Cause>
        ensures { MatchResult result (λ _. None ≡ entry_refusal (L.Places.contents self.now.list) self.now.phase self.now.next e.now room) (λ cause. Some cause ≡ entry_refusal (L.Places.contents self.now.list) self.now.phase self.now.next e.now room) }
    {
        if room < self.list.len() {
            Err(Cause::FillListShort)
        } else if e.is_early(self.phase) {
            Err(Cause::WrongPhase)
        } else if self.is_full() {
            Err(Cause::BookFull)
        } else if self.next > 999999 {
            Err(Cause::NumbersSpent)
        } else if self.falls_short(e) {
            Err(Cause::BelowMinimum)
        } else {
            Ok(())
        }
    }

    // Admits a call with a fill list of a length, or says why not.
    pub(super) fn admit_call(&self, room: usize) -> Result<(), Cause>
        ensures { MatchResult result (λ _. None ≡ call_refusal (L.Places.contents self.now.list) self.now.phase room) (λ cause. Some cause ≡ call_refusal (L.Places.contents self.now.list) self.now.phase room) }
    {
        if room < self.list.len() {
            Err(Cause::FillListShort)
        } else if self.phase == Phase::Dealing {
            Err(Cause::WrongPhase)
        } else {
            Ok(())
        }
    }
}
