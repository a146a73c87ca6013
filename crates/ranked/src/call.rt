ghost use Rattle.std.specs.Prelude.{◌≡◌};
ghost use Rattle.orders.specs.declared.request.Request.TheVariants.{Call};
ghost use Rattle.plain.specs.Book.{Book};
ghost use Rattle.plain.specs.Sound.{Sound};
ghost use Rattle.lineup.specs.Lying.{Lies};
ghost use Rattle.ranked.specs.Handling.{Handled};

use crate::book::Ranked;
use crate::cross::crossed;
use orders::answer::{Answer, Called};
use orders::order::{Fill, Order, Phase};
use orders::refusal::Cause;
use ranking::places::Places;
use ranking::rank::{Priority, Ranking};

impl<L: Places<Record = Order>, R: Priority> Ranked<L, R> {
    // Makes a call, or refuses it and changes nothing.
    pub(crate) fn call(&mut self, fills: &mut [Fill]) -> Result<Answer, Cause>
        ensures same { (self.new.rule ≡ self.old.rule) × (self.new.lineup.state.capacity ≡ self.old.lineup.state.capacity) }
        ensures handled { (b : Book) → Lies (L.Places.contents self.old.lineup.mirrored.list) self.old.lineup.state b → Sound (R.Ranking.ahead self.old.rule) b → Handled (R.Ranking.ahead self.old.rule) b Call self.old.lineup.state (L.Places.contents self.old.lineup.mirrored.list) self.new.lineup.state (L.Places.contents self.new.lineup.mirrored.list) fills.old fills.new result }
    {
        if fills.len() < self.lineup.state.capacity {
            return Err(Cause::FillListShort);
        }
        // A match and no `==`, since what a call comes to is said by the case of the phase.
        match self.lineup.state.phase {
            Phase::Dealing => return Err(Cause::WrongPhase),
            Phase::Gathering => {}
        }
        self.rule.is_lawful();
        let quote = self.lineup.quote();
        self.lineup.state.phase = Phase::Dealing;
        let count = crossed(&mut self.lineup, quote.price, quote.volume, fills);
        Ok(Answer::Called(Called {
            price: quote.price,
            volume: quote.volume,
            fills: count,
        }))
    }
}
