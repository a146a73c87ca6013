ghost use Rattle.std.specs.Prelude.{◌≡◌, ◌+◌, ◌<◌, ◌≤◌, true, [], ◌∷◌, ◌++◌, IfOk, MatchResult};
ghost use Rattle.orders.specs.declared.refusal.Cause.TheVariants.{BadSetup};
ghost use Rattle.orders.specs.declared.request.Request.{Request};
ghost use Rattle.plain.specs.Book.{Tape, after, reply};
ghost use Rattle.plain.specs.Rule.{Rule};
ghost use Rattle.venue.specs.Caps.{Caps, BindsCaps};
ghost use Rattle.venue.specs.Questions.{is_empty};
ghost use Rattle.layers.specs.Stack.{OwnRule, layered, LayerStands, Reserved};

use orders::answer::Answer;
use orders::order::{Fill, Order, Phase};
use orders::refusal::{Cause, Refusal};
use orders::request::{Request, Side};
use venue::venue::Venue;

// A layer's own part: what it refuses, and what it keeps of the tape.
pub trait Part {
    // what is reserved for a request: no `Drop`, so it must be spent, by an admission or by putting it back
    type Hold;

    // what it refuses
    ghost own: { Self → OwnRule };

    // what it keeps stands for this tape, under this priority rule
    ghost follows: { Self → Rule → Tape → Type 0 };

    // the same while a request is held
    ghost holds: { Self → Self.Hold → Rule → Tape → Request → Type 0 };

    // its settings are good
    ghost good: { Self → Type 0 };

    // Starts it anew, unless its settings are no good.
    fn begin(&mut self) -> Result<(), Cause>
        ensures own { own self.new ≡ own self.old }
        ensures begun { MatchResult result (λ _. good self.old × ((rule : Rule) → follows self.new rule [])) (λ c. (good self.old → ⊥) × (c ≡ BadSetup)) };

    // Reserves what a request needs before it goes below, or refuses it.
    fn reserve(&mut self, request: &Request, room: usize) -> Result<Self::Hold, Cause>
        ensures own { own self.new ≡ own self.old }
        ensures reserved { (rule : Rule) (t : Tape) → follows self.old rule t → Reserved (own self.old rule t request.now room) (λ h. holds self.new h rule t request.now) (follows self.new rule t) result };

    // The request was admitted below, with this answer.
    fn admit(&mut self, hold: Self::Hold, request: &Request, answer: &Answer)
        ensures own { own self.new ≡ own self.old }
        ensures admitted { (rule : Rule) (t : Tape) → holds self.old hold rule t request.now → answer.now ≡ (reply rule (after rule t) request.now).answer → follows self.new rule (t ++ (request.now ∷ [])) };

    // The request was refused below.
    fn put_back(&mut self, hold: Self::Hold)
        ensures own { own self.new ≡ own self.old }
        ensures back { (rule : Rule) (t : Tape) (q : Request) → holds self.old hold rule t q → follows self.new rule t };
}

// A part over a venue, which is a venue one higher.
#[derive(Drop)]
pub struct Layer<P, V> {
    part: P,
    below: V,
    height: u8,
    ghost height_high: { height ≤ 15 },
}

impl<P: Part, V: Venue> Venue for Layer<P, V> {
    ghost setup = { λ s. layered (P.Part.own s.part) s.height (V.Venue.setup s.below) };

    ghost stands = { λ s. LayerStands (P.Part.follows s.part (V.Venue.setup s.below).rule) (V.Venue.stands s.below) s.height (V.Venue.setup s.below).height };

    fn serve(&mut self, request: Request, fills: &mut [Fill]) -> Result<Answer, Refusal> {
        let height = self.height;
        let hold = self
            .part
            .reserve(&request, fills.len())
            .map_err(|cause| cause.at(height))?;
        match self.below.serve(request, fills) {
            Ok(answer) => {
                self.part.admit(hold, &request, &answer);
                Ok(answer)
            }
            Err(refusal) => {
                self.part.put_back(hold);
                Err(refusal)
            }
        }
    }

    fn keeps(&self) {
        self.below.keeps();
    }

    fn capacity(&self) -> usize {
        self.below.capacity()
    }

    fn phase(&self) -> Phase {
        self.below.phase()
    }

    fn next_number(&self) -> Option<u32> {
        self.below.next_number()
    }

    fn is_fresh(&self) -> bool {
        self.below.is_fresh()
    }

    fn height(&self) -> u8 {
        self.height
    }

    fn order_at(&self, side: Side, rank: usize) -> Option<Order> {
        self.below.order_at(side, rank)
    }
}

impl<P, V> Layer<P, V> {
    pub fn part(&self) -> &P
        ensures { result.now ≡ self.now.part }
    {
        &self.part
    }

    pub fn below(&self) -> &V
        ensures { result.now ≡ self.now.below }
    {
        &self.below
    }
}

// A venue that was refused its layer, and why. A type of its own beside what a book hands back, since the fields name what it is.
#[derive(Drop)]
pub struct Refused<V> {
    pub cause: Cause,
    pub below: V,
}

impl<V: Drop> From<Refused<V>> for Cause {
    ghost from_gives = { λ u c. c ≡ u.cause };

    fn from(refused: Refused<V>) -> Cause {
        refused.cause
    }
}

// Lays a part over a fresh venue of a height below 15, or hands the venue back.
pub fn stack<P: Part + Drop, V: Venue>(mut part: P, below: V) -> Result<Layer<P, V>, Refused<V>>
    ensures below { MatchResult result (λ l. l.below ≡ below) (λ u. u.below ≡ below) }
    ensures laid { MatchResult result (λ l. (P.Part.own l.part ≡ P.Part.own part) × (l.height ≡ (V.Venue.setup below).height + 1)) (λ u. u.cause ≡ BadSetup) }
    ensures stands { IfOk result (λ l. V.Venue.stands below [] → LayerStands (P.Part.follows l.part (V.Venue.setup below).rule) (V.Venue.stands below) l.height (V.Venue.setup below).height []) }
    ensures refused { MatchResult result (λ _. P.Part.good part × ((V.Venue.setup below).height < 15) × ((t : Tape) → V.Venue.stands below t → is_empty t ≡ true)) (λ _. P.Part.good part → (V.Venue.setup below).height < 15 → V.Venue.stands below [] → ⊥) }
{
    if let Err(cause) = part.begin() {
        return Err(Refused { cause, below });
    }
    let height = below.height();
    if !below.is_fresh() || height >= 15 {
        return Err(Refused {
            cause: Cause::BadSetup,
            below,
        });
    }
    Ok(Layer {
        part,
        below,
        height: height + 1,
    })
}

// The caps that the venue below binds are bound by the layer too.
pub fn binds_as_below<P: Part, V: Venue>(layer: &Layer<P, V>)
    ensures { (caps : Caps) → BindsCaps (V.Venue.setup layer.now.below) caps → BindsCaps (layered (P.Part.own layer.now.part) layer.now.height (V.Venue.setup layer.now.below)) caps }
{}
