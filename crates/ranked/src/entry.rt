ghost use Rattle.std.specs.Prelude.{◌≡◌, ◌+◌, ◌<◌, ◌≤◌, min, List, length};
ghost use Rattle.orders.specs.declared.order.Fill.{Fill};
ghost use Rattle.plain.specs.Dealing.{tonnes};
ghost use Rattle.orders.specs.declared.request.Request.TheVariants.{Enter};
ghost use Rattle.plain.specs.Book.{Book, dealt_with, entered, reach as reachOf};
ghost use Rattle.plain.specs.Sound.{Sound};
ghost use Rattle.ranked.specs.Handling.{Handled};
ghost use Rattle.lineup.specs.Lying.{Lies};

use crate::book::Ranked;
use crate::deal::deal;
use crate::gate::{admit, reach};
use lineup::lineup::Lineup;
use orders::answer::{Answer, Entered};
use orders::entry::Entry;
use orders::order::{Fill, Order, Phase};
use orders::refusal::Cause;
use ranking::places::Places;
use ranking::rank::{Priority, Ranking};

// The tonnes that an entry deals.
fn dealable<L: Places<Record = Order>>(lineup: &Lineup<L>, entry: &Entry) -> u32
    ensures fits { result ≤ entry.now.quantity }
    ensures deals { (b : Book) → Lies (L.Places.contents lineup.now.mirrored.list) lineup.now.state b → result ≡ min entry.now.quantity (reachOf entry.now b) }
{
    entry.quantity().min(reach(lineup, entry))
}

impl<L: Places<Record = Order>, R: Priority> Ranked<L, R> {
    // What is left of an entry after its fills rests, unless it is to be killed.
    fn conclude(&mut self, entry: &Entry, number: u32, dealt: u32, fills: u32) -> Answer
        requires { (self.old.lineup.state.buys + self.old.lineup.state.sells < self.old.lineup.state.capacity) × (dealt ≤ entry.now.quantity) }
        ensures same { (self.new.rule ≡ self.old.rule) × (self.new.lineup.state.capacity ≡ self.old.lineup.state.capacity) }
        ensures concluded { (b : Book) (fs : List Fill) → Lies (L.Places.contents self.old.lineup.mirrored.list) self.old.lineup.state (dealt_with b.phase (b.next + 1) fs b) → number ≡ b.next → dealt ≡ tonnes fs → fills ≡ length fs → Lies (L.Places.contents self.new.lineup.mirrored.list) self.new.lineup.state (entered (R.Ranking.ahead self.old.rule) entry.now b fs).book × (result ≡ (entered (R.Ranking.ahead self.old.rule) entry.now b fs).answer) }
    {
        let left = entry.quantity() - dealt;
        let entered = Entered::of(entry, number, fills, left);
        if entered.resting > 0 {
            let order = Order {
                remaining: left,
                ..entry.order(number)
            };
            self.lineup.rest(&self.rule, order);
        }
        Answer::Entered(entered)
    }

    // Admits an entry, or refuses it and changes nothing.
    pub(crate) fn enter(&mut self, entry: &Entry, fills: &mut [Fill]) -> Result<Answer, Cause>
        ensures same { (self.new.rule ≡ self.old.rule) × (self.new.lineup.state.capacity ≡ self.old.lineup.state.capacity) }
        ensures handled { (b : Book) → Lies (L.Places.contents self.old.lineup.mirrored.list) self.old.lineup.state b → Sound (R.Ranking.ahead self.old.rule) b → Handled (R.Ranking.ahead self.old.rule) b (Enter entry.now) self.old.lineup.state (L.Places.contents self.old.lineup.mirrored.list) self.new.lineup.state (L.Places.contents self.new.lineup.mirrored.list) fills.old fills.new result }
    {
        admit(&self.lineup, entry, fills.len())?;
        self.rule.is_lawful();
        let n = dealable(&self.lineup, entry);
        let number = self.lineup.state.next;
        self.lineup.state.next = number + 1;
        match self.lineup.state.phase {
            Phase::Gathering => Ok(self.conclude(entry, number, 0, 0)),
            Phase::Dealing => {
                let taker = entry.order(number);
                let count = deal(&mut self.lineup, &taker, n, fills);
                Ok(self.conclude(entry, number, n, count))
            }
        }
    }
}
