ghost use Rattle.std.specs.Prelude.{◌≡◌};
ghost use Rattle.plain.specs.Book.{Tape};
ghost use Rattle.venue.specs.Meaning.{Setup, Served, Kept};
ghost use Rattle.venue.specs.Questions.{Tells, capacity_of, phase_of, next_of, fresh_of, ranked_of};

use orders::answer::Answer;
use orders::order::{Fill, Order, Phase};
use orders::refusal::Refusal;
use orders::request::{Request, Side};

// A book, or a layer over a venue: what each promises, whoever wrote it.
pub trait Venue {
    // its rule, capacity, gate and height, which no request alters
    ghost setup: { Self → Setup };

    // the tapes of admitted requests that it can stand after as it is
    ghost stands: { Self → Tape → Type 0 };

    // Answers a request as the plain book does, or refuses it as the gate says and changes nothing.
    fn serve(&mut self, request: Request, fills: &mut [Fill]) -> Result<Answer, Refusal>
        ensures same { setup self.new ≡ setup self.old }
        ensures served { (t : Tape) → stands self.old t → Served (setup self.old) (stands self.new) t request fills.old fills.new result };

    // Does nothing: its promise is what every venue keeps.
    fn keeps(&self)
        ensures { (t : Tape) → stands self.now t → Kept (setup self.now) t };

    fn capacity(&self) -> usize
        ensures { Tells (setup self.now) (stands self.now) capacity_of result };

    fn phase(&self) -> Phase
        ensures { Tells (setup self.now) (stands self.now) phase_of result };

    // The number that the next entry gets: none after 999,999.
    fn next_number(&self) -> Option<u32>
        ensures { Tells (setup self.now) (stands self.now) next_of result };

    // Whether it has admitted nothing yet.
    fn is_fresh(&self) -> bool
        ensures { Tells (setup self.now) (stands self.now) fresh_of result };

    // How many layers lie below it, a book having none.
    fn height(&self) -> u8
        ensures { result ≡ (setup self.now).height };

    // The order of a rank on a side, with what remains of it: from 1, none for 0 and past the last.
    fn order_at(&self, side: Side, rank: usize) -> Option<Order>
        ensures { Tells (setup self.now) (stands self.now) (ranked_of side rank) result };
}
