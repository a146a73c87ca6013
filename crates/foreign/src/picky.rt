ghost use Rattle.foreign.specs.Picky.{picky_rule};

use layers::layer::Part;
use orders::answer::Answer;
use orders::refusal::Cause;
use orders::request::Request;

// Refuses every entry whose quantity is a multiple of three, under a number of its own choosing.
#[derive(Drop)]
pub struct Picky;

// A request that it let pass, to be admitted or put back.
pub struct Passed;

impl Part for Picky {
    type Hold = Passed;

    ghost own = { λ _. picky_rule };

    ghost good = { λ _. Unit {0} };

    ghost follows = { λ _ rule t. Unit {0} };

    ghost holds = { λ _ h rule t q. Unit {0} };

    fn begin(&mut self) -> Result<(), Cause> {
        Ok(())
    }

    fn reserve(&mut self, request: &Request, _room: usize) -> Result<Passed, Cause> {
        if let Request::Enter(entry) = request {
            if entry.quantity() % 3 == 0 {
                return Err(Cause::LedgerFull);
            }
        }
        Ok(Passed)
    }

    fn admit(&mut self, hold: Passed, _request: &Request, _answer: &Answer) {
        let Passed = hold;
    }

    fn put_back(&mut self, hold: Passed) {
        let Passed = hold;
    }
}
