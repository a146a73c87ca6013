ghost use Rattle.std.specs.Prelude.{◌≡◌, List};
ghost use Rattle.orders.specs.declared.request.Request.TheVariants.{Withdraw, Halt};
ghost use Rattle.orders.specs.declared.order.Fill.{Fill};
ghost use Rattle.plain.specs.Rule.{Rule};
ghost use Rattle.plain.specs.Book.{Book};
ghost use Rattle.plain.specs.Sound.{Sound};
ghost use Rattle.lineup.specs.Lying.{Lies};
ghost use Rattle.ranked.specs.Handling.{Handled};

use crate::book::Ranked;
use orders::answer::{Answer, Withdrawn};
use orders::cancel::Cancel;
use orders::order::{Fill, Order, Phase};
use orders::refusal::Cause;
use orders::request::Request;
use ranking::places::Places;
use ranking::rank::{Priority, Ranking};

impl<L: Places<Record = Order>, R: Priority> Ranked<L, R> {
    fn withdraw(&mut self, cancel: &Cancel) -> Result<Answer, Cause>
        ensures same { (self.new.rule ≡ self.old.rule) × (self.new.lineup.state.capacity ≡ self.old.lineup.state.capacity) }
        ensures handled { (rule : Rule) (b : Book) (lent : List Fill) → Lies (L.Places.contents self.old.lineup.mirrored.list) self.old.lineup.state b → Sound rule b → Handled rule b (Withdraw cancel.now) self.old.lineup.state (L.Places.contents self.old.lineup.mirrored.list) self.new.lineup.state (L.Places.contents self.new.lineup.mirrored.list) lent lent result }
    {
        let number = cancel.number();
        let Some(found) = self.lineup.spot(number) else {
            return Err(Cause::NoSuchOrder)
        };
        let order = found.order;
        if order.member != cancel.member() {
            return Err(Cause::NoSuchOrder);
        }
        self.lineup.take_out(found.side, found.place);
        Ok(Answer::Withdrawn(Withdrawn {
            number,
            side: order.side,
            tonnes: order.remaining,
        }))
    }

    fn halt(&mut self) -> Result<Answer, Cause>
        ensures same { (self.new.rule ≡ self.old.rule) × (self.new.lineup.state.capacity ≡ self.old.lineup.state.capacity) }
        ensures handled { (rule : Rule) (b : Book) (lent : List Fill) → Lies (L.Places.contents self.old.lineup.mirrored.list) self.old.lineup.state b → Handled rule b Halt self.old.lineup.state (L.Places.contents self.old.lineup.mirrored.list) self.new.lineup.state (L.Places.contents self.new.lineup.mirrored.list) lent lent result }
    {
        match self.lineup.state.phase {
            Phase::Gathering => Err(Cause::WrongPhase),
            Phase::Dealing => {
                self.lineup.state.phase = Phase::Gathering;
                Ok(Answer::Halted)
            }
        }
    }

    // Answers a request, or refuses it and changes nothing.
    pub(crate) fn handle(&mut self, request: Request, fills: &mut [Fill]) -> Result<Answer, Cause>
        ensures same { (self.new.rule ≡ self.old.rule) × (self.new.lineup.state.capacity ≡ self.old.lineup.state.capacity) }
        ensures handled { (b : Book) → Lies (L.Places.contents self.old.lineup.mirrored.list) self.old.lineup.state b → Sound (R.Ranking.ahead self.old.rule) b → Handled (R.Ranking.ahead self.old.rule) b request self.old.lineup.state (L.Places.contents self.old.lineup.mirrored.list) self.new.lineup.state (L.Places.contents self.new.lineup.mirrored.list) fills.old fills.new result }
    {
        match request {
            Request::Enter(entry) => self.enter(&entry, fills),
            Request::Withdraw(cancel) => self.withdraw(&cancel),
            Request::Call => self.call(fills),
            Request::Halt => self.halt(),
        }
    }
}
