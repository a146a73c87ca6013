ghost use Rattle.std.specs.Prelude.{◌≡◌, ℕ, ◌-◌, ◌≤◌, List, replicate, slice_index};
ghost use Rattle.plain.specs.Held.{to_buy, unbought};
ghost use Rattle.layers.specs.Caps.{share, HasHeld, HasReserved, WithinCaps};
ghost use Rattle.venue.specs.Caps.{BindsCaps};
ghost use Rattle.layers.specs.Stack.{layered};
ghost use Rattle.layers.specs.Own.{cap_rule};

use crate::layer::{Layer, Part};
use orders::answer::Answer;
use orders::refusal::Cause;
use orders::request::{Request, Side};
use venue::venue::Venue;

// Buys that would bring a member above his cap are refused.
// Two arrays by member and not one of pairs, since a set-up starts what is held anew and leaves the caps as they were given.
#[derive(Drop)]
pub struct Caps {
    caps: [u32; 64],
    held: [u32; 64],
}

impl Caps {
    pub fn new(caps: [u32; 64]) -> Self
        ensures caps { result.caps ≡ caps }
        ensures held { result.held ≡ replicate 64 0 }
    {
        let held = [0; 64];
        Caps { caps, held }
    }

    // A cap of 1000 tonnes for each member.
    pub fn usual() -> Self
        ensures caps { result.caps ≡ replicate 64 1000 }
        ensures held { result.held ≡ replicate 64 0 }
    {
        Caps::new([1000; 64])
    }

    // Takes tonnes off what their member holds.
    fn take_off(&mut self, tonnage: Tonnage)
        ensures caps { self.new.caps ≡ self.old.caps }
        ensures held { (m : ℕ) → slice_index self.new.held m ≡ slice_index self.old.held m - share m tonnage.member tonnage.tonnes }
    {
        let member = usize::from(tonnage.member);
        self.held[member] = self.held[member].saturating_sub(tonnage.tonnes);
    }
}

// Tonnes of a member.
#[derive(Clone, Copy)]
struct Tonnage {
    member: u8,
    tonnes: u32,
    ghost member_high: { member ≤ 63 },
}

impl Tonnage {
    // No tonnes: to take them off a member changes nothing, so this stands for nobody's.
    const NONE: Tonnage = Tonnage {
        member: 0,
        tonnes: 0,
    };
}

// Tonnes that a member has reserved, to be admitted or put back.
pub struct Reservation {
    tonnage: Tonnage,
}

// What the answer withdraws from the buys of a member.
fn withdrawn(request: &Request, answer: &Answer) -> Tonnage
    ensures { (m : ℕ) → share m result.member result.tonnes ≡ unbought m request.now answer.now }
{
    match (request, answer) {
        (Request::Enter(entry), Answer::Entered(entered)) if entry.side() == Side::Buy => Tonnage {
            member: entry.member(),
            tonnes: entered.withdrawn,
        },
        (Request::Withdraw(cancel), Answer::Withdrawn(order)) if order.side == Side::Buy =>
            Tonnage {
                member: cancel.member(),
                tonnes: order.tonnes,
            },
        _ => Tonnage::NONE,
    }
}

impl Part for Caps {
    type Hold = Reservation;

    ghost own = { λ s. cap_rule s.caps };

    ghost good = { λ s. Unit {0} };

    ghost follows = { λ s rule t. HasHeld s.held rule t × WithinCaps s.held s.caps };

    ghost holds = { λ s h rule t q. HasReserved s.held h.tonnage.member h.tonnage.tonnes rule t × ((m : ℕ) → share m h.tonnage.member h.tonnage.tonnes ≡ to_buy m q) × WithinCaps s.held s.caps };

    fn begin(&mut self) -> Result<(), Cause> {
        self.held = [0; 64];
        Ok(())
    }

    fn reserve(&mut self, request: &Request, _room: usize) -> Result<Reservation, Cause> {
        let entry = match request {
            Request::Enter(entry) if entry.side() == Side::Buy => entry,
            _ => return Ok(Reservation {
                tonnage: Tonnage::NONE,
            }),
        };
        let tonnage = Tonnage {
            member: entry.member(),
            tonnes: entry.quantity(),
        };
        let member = usize::from(tonnage.member);
        match self.held[member].checked_add(tonnage.tonnes) {
            Some(held) if held <= self.caps[member] => self.held[member] = held,
            _ => return Err(Cause::OverCap),
        }
        Ok(Reservation { tonnage })
    }

    fn admit(&mut self, hold: Reservation, request: &Request, answer: &Answer) {
        let Reservation { tonnage: _ } = hold;
        self.take_off(withdrawn(request, answer));
    }

    fn put_back(&mut self, hold: Reservation) {
        let Reservation { tonnage } = hold;
        self.take_off(tonnage);
    }
}

// A layer that refuses by a table of caps binds that table.
pub fn binds_its_caps<P: Part, V: Venue>(layer: &Layer<P, V>)
    ensures { (caps : List ℕ) → P.Part.own layer.now.part ≡ cap_rule caps → BindsCaps (layered (P.Part.own layer.now.part) layer.now.height (V.Venue.setup layer.now.below)) (λ m. slice_index caps m) }
{}
