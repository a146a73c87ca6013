ghost use Rattle.std.specs.Prelude.{◌≡◌, List, Option};
ghost use Rattle.orders.specs.declared.request.Request.{Request};
ghost use Rattle.orders.specs.declared.order.Order.{Order};
ghost use Rattle.orders.specs.declared.order.Fill.{Fill};
ghost use Rattle.plain.specs.Rule.{Rule};
ghost use Rattle.plain.specs.Book.{Tape, after};
ghost use Rattle.venue.specs.Meaning.{Served, book_setup};
ghost use Rattle.lineup.specs.declared.state.State.{State};
ghost use Rattle.ranked.specs.Standing.{Stands};
ghost use Rattle.ranked.specs.Handling.{Handled};

use crate::book::Ranked;
use lineup::state::State;
use orders::answer::Answer;
use orders::order::{Fill, Order, Phase};
use orders::refusal::{Cause, Refusal};
use orders::request::{Request, Side};
use ranking::places::Places;
use ranking::rank::{Priority, Ranking};
use venue::venue::Venue;

// The height of a book in a pile.
const BOTTOM: u8 = 0;

// Keeps what a request came to, and answers it.
fn close(state: &mut State, outcome: Result<Answer, Cause>) -> Result<Answer, Refusal>
    ensures capacity { state.new.capacity ≡ state.old.capacity }
    ensures served { (rule : Rule) (t : Tape) (q : Request) (s : State) (places left-places : List (Option Order)) (lent left : List Fill) → Stands rule places s t → Handled rule (after rule t) q s places state.old left-places lent left outcome → Served (book_setup rule s.capacity) (Stands rule left-places state.new) t q lent left result }
{
    match outcome {
        Ok(answer) => {
            state.is_fresh = false;
            Ok(answer)
        }
        Err(cause) => Err(cause.at(BOTTOM)),
    }
}

// A book is a venue at the bottom of a pile, and refuses exactly what every book refuses.
impl<L: Places<Record = Order>, R: Priority> Venue for Ranked<L, R> {
    ghost setup = { λ s. book_setup (R.Ranking.ahead s.rule) s.lineup.state.capacity };

    ghost stands = { λ s. Stands (R.Ranking.ahead s.rule) (L.Places.contents s.lineup.mirrored.list) s.lineup.state };

    fn serve(&mut self, request: Request, fills: &mut [Fill]) -> Result<Answer, Refusal> {
        let outcome = self.handle(request, fills);
        close(&mut self.lineup.state, outcome)
    }

    fn keeps(&self) {}

    fn capacity(&self) -> usize {
        self.lineup.state.capacity
    }

    fn phase(&self) -> Phase {
        self.lineup.state.phase
    }

    fn next_number(&self) -> Option<u32> {
        (self.lineup.state.next <= 999999).then_some(self.lineup.state.next)
    }

    fn is_fresh(&self) -> bool {
        self.lineup.state.is_fresh
    }

    fn height(&self) -> u8 {
        BOTTOM
    }

    fn order_at(&self, side: Side, rank: usize) -> Option<Order> {
        self.lineup.at_rank(side, rank)
    }
}
