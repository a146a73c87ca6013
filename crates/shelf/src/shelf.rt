ghost use Rattle.std.specs.Prelude.{List, length, MatchResult};
ghost use Rattle.orders.specs.declared.order.Fill.{Fill};
ghost use Rattle.orders.specs.declared.request.Request.TheVariants.{Enter, Withdraw, Call, Halt};
ghost use Rattle.venue.specs.Books.{Opened, HandedBack};
ghost use Rattle.shelf.specs.Stands.{ShelfStands, Handles, shelf_setup};

mod gate;

use crate::entering::lay;
use matching::dealing::{deal_call, deal_entry};
use matching::quote::best_quote;
use matching::scan::{numbered, with_ahead};
use orders::answer::{Answer, Called, Entered, Withdrawn, counted};
use orders::cancel::Cancel;
use orders::entry::Entry;
use orders::order::{Fill, Order, Phase};
use orders::refusal::{Cause, Refusal};
use orders::request::{Request, Side};
use ranking::places::{Places, clear};
use ranking::rank::Priority;
use venue::book::Refused;
use venue::venue::Venue;

// Orders that lie in any places, in no sequence. What it is asked it answers as the plain book does, and as the ranked book does:
// the two share that meaning and the words of `orders`, and not how each finds an answer in what it keeps.
#[derive(Drop)]
pub struct Shelf<L, R> {
    list: L,
    rule: R,
    phase: Phase,
    next: u32,
    is_new: bool,
}

impl<L: Places<Record = Order>, R: Priority> Shelf<L, R> {
    // An empty book over places of which there are 1 to 1,024, or hands them back.
    pub fn over(mut list: L, rule: R) -> Result<Shelf<L, R>, Refused<L, R>>
        ensures { MatchResult result (λ s. Opened (R.Ranking.ahead rule) (length (L.Places.contents list)) (shelf_setup L.Places.contents R.Ranking.ahead s) (ShelfStands L.Places.contents R.Ranking.ahead s)) (λ u. HandedBack (length (L.Places.contents list)) list rule u) }
    {
        let n = list.len();
        if n == 0 || n > 1024 {
            return Err(Refused {
                cause: Cause::BadSetup,
                list,
                rule,
            });
        }
        clear(&mut list);
        rule.is_lawful();
        Ok(Shelf {
            list,
            rule,
            phase: Phase::Gathering,
            next: 1,
            is_new: true,
        })
    }

    // Takes an order of the member away.
    fn withdraw(&mut self, c: &Cancel) -> Result<Answer, Refusal>
        ensures { (lent : List Fill) → Handles L.Places.contents R.Ranking.ahead self.old self.new (Withdraw c.now) lent lent result }
    {
        let number = c.number();
        match numbered(&self.list, number) {
            Some((i, o)) if o.member == c.member() => {
                self.list.vacate(i);
                self.is_new = false;
                Ok(Answer::Withdrawn(Withdrawn {
                    number,
                    side: o.side,
                    tonnes: o.remaining,
                }))
            }
            _ => Err(Cause::NoSuchOrder.at(0)),
        }
    }

    // Goes back to gathering.
    fn halt(&mut self) -> Result<Answer, Refusal>
        ensures { (lent : List Fill) → Handles L.Places.contents R.Ranking.ahead self.old self.new Halt lent lent result }
    {
        match self.phase {
            Phase::Gathering => Err(Cause::WrongPhase.at(0)),
            Phase::Dealing => {
                self.phase = Phase::Gathering;
                self.is_new = false;
                Ok(Answer::Halted)
            }
        }
    }

    // Enters an order: deals what it can while dealing, and rests with what is left, unless it is killed.
    fn enter(&mut self, e: &Entry, fills: &mut [Fill]) -> Result<Answer, Refusal>
        ensures { Handles L.Places.contents R.Ranking.ahead self.old self.new (Enter e.now) fills.old fills.new result }
    {
        let number = self.next;
        self.admit_entry(e, fills.len())
            .map_err(|cause| cause.at(0))?;
        let order = e.order(number);
        let tally = deal_entry(&mut self.list, &self.rule, self.phase, order, fills);
        let rest = Order {
            remaining: tally.left,
            ..order
        };
        lay(&mut self.list, e.life(), rest);
        self.next = number + 1;
        self.is_new = false;
        let entered = Entered::of(e, number, counted(tally.count), tally.left);
        Ok(Answer::Entered(entered))
    }

    // Deals at the price that deals most, and goes on to dealing.
    fn call(&mut self, fills: &mut [Fill]) -> Result<Answer, Refusal>
        ensures { Handles L.Places.contents R.Ranking.ahead self.old self.new Call fills.old fills.new result }
    {
        self.admit_call(fills.len()).map_err(|cause| cause.at(0))?;
        let best = best_quote(&self.list);
        let price = best.called_price();
        let tally = deal_call(&mut self.list, &self.rule, price, best.volume, fills);
        self.phase = Phase::Dealing;
        self.is_new = false;
        Ok(Answer::Called(Called {
            price,
            volume: best.volume,
            fills: counted(tally.count),
        }))
    }

    fn handle(&mut self, request: &Request, fills: &mut [Fill]) -> Result<Answer, Refusal>
        ensures { Handles L.Places.contents R.Ranking.ahead self.old self.new request.now fills.old fills.new result }
    {
        match request {
            Request::Enter(e) => self.enter(e, fills),
            Request::Withdraw(c) => self.withdraw(c),
            Request::Call => self.call(fills),
            Request::Halt => self.halt(),
        }
    }
}

impl<L: Places<Record = Order>, R: Priority> Venue for Shelf<L, R> {
    ghost setup = { λ s. shelf_setup L.Places.contents R.Ranking.ahead s };

    ghost stands = { λ s. ShelfStands L.Places.contents R.Ranking.ahead s };

    fn serve(&mut self, request: Request, fills: &mut [Fill]) -> Result<Answer, Refusal> {
        self.handle(&request, fills)
    }

    fn keeps(&self) {}

    fn capacity(&self) -> usize {
        self.list.len()
    }

    fn phase(&self) -> Phase {
        self.phase
    }

    fn next_number(&self) -> Option<u32> {
        (self.next <= 999999).then_some(self.next)
    }

    fn is_fresh(&self) -> bool {
        self.is_new
    }

    fn height(&self) -> u8 {
        0
    }

    fn order_at(&self, side: Side, rank: usize) -> Option<Order> {
        with_ahead(&self.list, &self.rule, side, rank)
    }
}
