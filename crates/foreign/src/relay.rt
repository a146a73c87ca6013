ghost use Rattle.std.specs.Prelude.{◌≡◌, ◌+◌, ◌<◌, ◌≤◌, MatchResult};
ghost use Rattle.foreign.specs.Relays.{raised, RelayStands};

use orders::answer::Answer;
use orders::order::{Fill, Order, Phase};
use orders::refusal::Refusal;
use orders::request::{Request, Side};
use venue::venue::Venue;

// Hands every request on to the venue below, and refuses nothing of its own.
#[derive(Drop)]
pub struct Relay<V> {
    below: V,
    height: u8,
    ghost height_high: { height ≤ 15 },
}

impl<V: Venue> Relay<V> {
    // Over a venue of a height below 15, or hands it back.
    pub fn over(below: V) -> Result<Relay<V>, V>
        ensures { MatchResult result (λ c. (c.below ≡ below) × (c.height ≡ (V.setup below).height + 1)) (λ v. (v ≡ below) × ((V.setup below).height < 15 → ⊥)) }
    {
        let height = below.height();
        if height >= 15 {
            return Err(below);
        }
        Ok(Relay {
            below,
            height: height + 1,
        })
    }
}

impl<V: Venue> Venue for Relay<V> {
    ghost setup = { λ s. raised s.height (V.Venue.setup s.below) };

    ghost stands = { λ s. RelayStands (V.Venue.stands s.below) s.height (V.Venue.setup s.below).height };

    fn serve(&mut self, request: Request, fills: &mut [Fill]) -> Result<Answer, Refusal> {
        self.below.serve(request, fills)
    }

    fn keeps(&self) {
        self.below.keeps();
    }

    fn capacity(&self) -> usize {
        self.below.capacity()
    }

    fn phase(&self) -> Phase {
        self.below.phase()
    }

    fn next_number(&self) -> Option<u32> {
        self.below.next_number()
    }

    fn is_fresh(&self) -> bool {
        self.below.is_fresh()
    }

    fn height(&self) -> u8 {
        self.height
    }

    fn order_at(&self, side: Side, rank: usize) -> Option<Order> {
        self.below.order_at(side, rank)
    }
}
