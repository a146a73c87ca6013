ghost use Rattle.std.specs.Prelude.{◌≡◌};
ghost use Rattle.replay.specs.Quotes.{quote_at, better_of, best_over, best_quote};

use crate::lists::tonnes_within;
use orders::order::Order;
use orders::request::Side;
use quotes::quote::Quote;
use quotes::step::step_of;

// The orders that a call may deal.
#[derive(Clone, Copy)]
pub(crate) struct Sides<'a> {
    pub buys: &'a [Order],
    pub sells: &'a [Order],
}

impl<'a> Sides<'a> {
    // What a call would deal at a price.
    fn quote_at(&self, price: u32) -> Quote
        ensures { result ≡ quote_at self.now.buys.now self.now.sells.now price }
    {
        let bought = tonnes_within(self.buys, Side::Sell, price);
        let sold = tonnes_within(self.sells, Side::Buy, price);
        Quote::new(price, bought, sold)
    }

    // The better of a quote and that at a price, if any.
    fn better_of(&self, best: Quote, step: Option<u32>) -> Quote
        ensures { result ≡ better_of self.now.buys.now self.now.sells.now best step }
    {
        match step {
            None => best,
            Some(price) => best.better(self.quote_at(price)),
        }
    }

    // The best of a quote and those at the steps of a side's orders.
    fn best_over(&self, side: Side, steps: &[Order], start: Quote) -> Quote
        ensures { result ≡ best_over self.now.buys.now self.now.sells.now side start steps.now }
    {
        let mut best = start;
        for o in steps {
            best = self.better_of(best, step_of(side, o.price));
        }
        best
    }

    // The best quote for a call: of price 1 and of the prices at which what is dealt changes.
    pub(crate) fn best_quote(&self) -> Quote
        ensures { result ≡ best_quote self.now.buys.now self.now.sells.now }
    {
        let lowest = self.quote_at(1);
        let of_buys = self.best_over(Side::Buy, self.buys, lowest);
        self.best_over(Side::Sell, self.sells, of_buys)
    }
}
