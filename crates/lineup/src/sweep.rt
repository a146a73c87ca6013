ghost use Rattle.std.specs.Prelude.{◌≡◌};
ghost use Rattle.quotes.specs.Quotes.{better};
ghost use Rattle.lineup.specs.Sweeps.{quote_at, raised, buy_passed, sell_passed};

use orders::order::Order;
use quotes::quote::Quote;

// A sweep up the prices: how many buys are left, the tonnes bought at the price or more and sold at it or less, and the best price below it.
#[derive(Clone, Copy)]
pub struct Sweep {
    pub left: usize,
    pub price: u32,
    pub demand: u32,
    pub supply: u32,
    pub best: Quote,
}

impl Sweep {
    // The best of what it left and of what is dealt at its price.
    pub(crate) fn quote(&self) -> Quote
        ensures { result ≡ better self.now.best (quote_at self.now) }
    {
        let here = Quote::new(self.price, self.demand, self.supply);
        self.best.better(here)
    }

    // Sweeps up to a price, and keeps the best of what it leaves.
    fn rise(self, price: u32) -> Sweep
        ensures { result ≡ raised price self }
    {
        if self.price < price {
            Sweep {
                price,
                best: self.quote(),
                ..self
            }
        } else {
            self
        }
    }

    // Passes the lowest buy that is left: its tonnes are not bought above its price.
    pub(crate) fn pass_buy(self, buy: &Order) -> Sweep
        ensures { result ≡ buy_passed buy.now self }
    {
        let risen = self.rise(buy.price.saturating_add(1));
        Sweep {
            demand: risen.demand.saturating_sub(buy.remaining),
            left: risen.left.saturating_sub(1),
            ..risen
        }
    }

    // Passes the lowest sell that is left: its tonnes are sold from its price on.
    pub(crate) fn pass_sell(self, sell: &Order) -> Sweep
        ensures { result ≡ sell_passed sell.now self }
    {
        let risen = self.rise(sell.price);
        Sweep {
            supply: risen.supply.saturating_add(sell.remaining),
            ..risen
        }
    }
}
