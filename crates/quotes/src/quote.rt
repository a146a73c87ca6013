ghost use Rattle.std.specs.Prelude.{◌≡◌};
ghost use Rattle.quotes.specs.Quotes.{quoted, preferred_to, better, called_price};

// What a call would deal at a price, and by how many tonnes the two sides differ there.
#[derive(Clone, Copy)]
pub struct Quote {
    pub price: u32,
    pub volume: u32,
    pub imbalance: u32,
}

impl Quote {
    // No price, and nothing dealt.
    pub const NONE: Quote = Quote {
        price: 0,
        volume: 0,
        imbalance: 0,
    };

    // A price, by the tonnes bought at it or more and sold at it or less.
    pub fn new(price: u32, bought: u32, sold: u32) -> Quote
        ensures { result ≡ quoted price bought sold }
    {
        Quote {
            price,
            volume: bought.min(sold),
            imbalance: bought.abs_diff(sold),
        }
    }

    // The better of two: more tonnes, then the smaller imbalance, then the lower price.
    pub fn better(self, other: Quote) -> Quote
        ensures { result ≡ better self other }
    {
        if other.is_preferred_to(&self) {
            other
        } else {
            self
        }
    }

    // By its tests and no `Ord`, which would say that two quotes of one rank are equal.
    fn is_preferred_to(&self, other: &Quote) -> bool
        ensures { result ≡ preferred_to self.now other.now }
    {
        let closer = self.imbalance < other.imbalance
            || (self.imbalance == other.imbalance && self.price < other.price);
        other.volume < self.volume || (other.volume == self.volume && closer)
    }

    // The price of a call that takes it: 0 where nothing deals.
    pub fn called_price(&self) -> u32
        ensures { result ≡ called_price self.now }
    {
        if self.volume == 0 { 0 } else { self.price }
    }
}
