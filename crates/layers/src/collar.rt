ghost use Rattle.std.specs.Prelude.{◌≡◌, ◌≤◌};
ghost use Rattle.layers.specs.Own.{collar_rule};

use crate::layer::Part;
use orders::answer::Answer;
use orders::refusal::Cause;
use orders::request::Request;

// Entries priced below low or above high are refused.
#[derive(Drop)]
pub struct Collar {
    low: u32,
    high: u32,
}

impl Collar {
    pub fn new(low: u32, high: u32) -> Self
        ensures { (result.low ≡ low) × (result.high ≡ high) }
    {
        Collar { low, high }
    }
}

// A request that lies within the collar, to be admitted or put back.
pub struct Within;

impl Part for Collar {
    type Hold = Within;

    ghost own = { λ s. collar_rule s.low s.high };

    ghost good = { λ s. s.low ≤ s.high };

    ghost follows = { λ s rule t. s.low ≤ s.high };

    ghost holds = { λ s h rule t q. s.low ≤ s.high };

    fn begin(&mut self) -> Result<(), Cause> {
        if self.low > self.high {
            return Err(Cause::BadSetup);
        }
        Ok(())
    }

    fn reserve(&mut self, request: &Request, _room: usize) -> Result<Within, Cause> {
        if let Request::Enter(entry) = request {
            let price = entry.price();
            if price < self.low || price > self.high {
                return Err(Cause::OutsideCollar);
            }
        }
        Ok(Within)
    }

    fn admit(&mut self, hold: Within, _request: &Request, _answer: &Answer) {
        let Within = hold;
    }

    fn put_back(&mut self, hold: Within) {
        let Within = hold;
    }
}
