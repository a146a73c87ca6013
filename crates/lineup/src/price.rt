ghost use Rattle.std.specs.Prelude.{◌≡◌, ◌<◌, ◌≤◌, List, [], ◌∷◌, ◌++◌, reverse, length, OnSome, Some};
ghost use Rattle.std.specs.List.{AllByRecursion};
ghost use Rattle.orders.specs.declared.order.Order.{Order};
ghost use Rattle.plain.specs.Rule.{Rule, Lawful};
ghost use Rattle.plain.specs.Price.{call_price, call_volume};
ghost use Rattle.plain.specs.Book.{Book};
ghost use Rattle.plain.specs.Sound.{Sound};
ghost use Rattle.lineup.specs.Lying.{Lies};
ghost use Rattle.lineup.specs.Sweeps.{SweptBy, NextBuy, PassedTo};

use crate::lineup::Lineup;
use crate::sweep::Sweep;
use orders::order::Order;
use orders::request::Side;
use quotes::quote::Quote;
use ranking::places::{Places, each_from};

impl<L: Places<Record = Order>> Lineup<L> {
    // The lowest buy that is left, if its price is below the limit.
    fn next_buy(&self, left: usize, limit: u32) -> Option<Order>
        ensures some { OnSome result (0 < left) }
        ensures next { (b : Book) (below above : List Order) → Lies (L.Places.contents self.now.mirrored.list) self.now.state b → reverse b.buys ≡ below ++ above → left ≡ length above → NextBuy limit above result }
    {
        if left == 0 {
            return None;
        }
        let place = self.state.buys.saturating_sub(left);
        let buy = self.get(Side::Sell, place)?;
        if buy.price < limit { Some(buy) } else { None }
    }

    // Passes the buys whose price is below the limit.
    fn pass_buys(&self, mut sweep: Sweep, limit: u32) -> Sweep
        ensures { (b : Book) (sold unsold : List Order) → Lies (L.Places.contents self.now.mirrored.list) self.now.state b → SweptBy b sold unsold sweep → limit ≤ 100000 → AllByRecursion (λ o. limit ≤ o.price) unsold → PassedTo limit b sold unsold result }
    {
        while let Some(buy) = self.next_buy(sweep.left, limit) {
            sweep = sweep.pass_buy(&buy);
        }
        sweep
    }

    // Passes the order in a place, after the buys below it.
    fn pass_place(&self, sweep: Sweep, place: Option<Order>) -> Sweep
        ensures { (b : Book) (sold : List Order) (y : Order) (later : List Order) → Lies (L.Places.contents self.now.mirrored.list) self.now.state b → place ≡ Some y → SweptBy b sold (y ∷ later) sweep → SweptBy b (sold ++ y ∷ []) later result }
    {
        match place {
            Some(sell) => self.pass_buys(sweep, sell.price).pass_sell(&sell),
            None => sweep,
        }
    }

    // The best price of a call, by one sweep up the prices of both sides.
    pub fn quote(&self) -> Quote
        ensures { (rule : Rule) (b : Book) → Lawful rule → Lies (L.Places.contents self.now.mirrored.list) self.now.state b → Sound rule b → (result.price ≡ call_price b.buys b.sells) × (result.volume ≡ call_volume b.buys b.sells) }
    {
        let mut sweep = Sweep {
            left: self.state.buys,
            price: 1,
            // Every buy's price is 1 or more.
            demand: self.reach(Side::Sell, 1),
            supply: 0,
            best: Quote::NONE,
        };
        for (_, place) in each_from(&self.mirrored.list, self.state.start(Side::Sell)) {
            sweep = self.pass_place(sweep, place);
        }
        self.pass_buys(sweep, 100000).quote()
    }
}
