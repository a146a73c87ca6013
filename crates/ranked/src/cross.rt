ghost use Rattle.std.specs.Prelude.{◌≡◌, ◌+◌, ◌≤◌, length, IfSome};
ghost use Rattle.plain.specs.Rule.{Rule};
ghost use Rattle.plain.specs.Orders.{total};
ghost use Rattle.plain.specs.Dealing.{dealt};
ghost use Rattle.plain.specs.Book.{Book};
ghost use Rattle.plain.specs.Sound.{Sound};
ghost use Rattle.lineup.specs.Lying.{Lies};
ghost use Rattle.ranked.specs.Crossings.{CrossTaken, Crossed};

use crate::deal::take_turn;
use lineup::lineup::Lineup;
use orders::answer::counted;
use orders::order::{Fill, Order};
use orders::request::Side;
use ranking::places::Places;

// Deals up to n tonnes between the best buy and the best sell, if there are both.
fn cross<L: Places<Record = Order>>(lineup: &mut Lineup<L>, price: u32, n: u32) -> Option<Fill>
    ensures few { (lineup.new.state.capacity ≡ lineup.old.state.capacity) × IfSome result (λ f. f.quantity ≤ n) }
    ensures taken { (b : Book) → Lies (L.Places.contents lineup.old.mirrored.list) lineup.old.state b → CrossTaken price n b (L.Places.contents lineup.new.mirrored.list) lineup.new.state result }
{
    let sell = lineup.at_rank(Side::Sell, 1)?;
    let bought = take_turn(lineup, Side::Buy, n.min(sell.remaining))?;
    let sold = take_turn(lineup, Side::Sell, bought.tonnes)?;
    Some(Fill::between(&bought.order, &sold.order, price, sold.tonnes))
}

// Deals n tonnes between the best orders of the two sides, fill by fill, at a price: how many fills it wrote.
pub(crate) fn crossed<L: Places<Record = Order>>(
    lineup: &mut Lineup<L>,
    price: u32,
    n: u32,
    fills: &mut [Fill],
) -> u32
    requires { lineup.old.state.capacity ≤ length fills.old }
    ensures capacity { lineup.new.state.capacity ≡ lineup.old.state.capacity }
    ensures dealt { (rule : Rule) (b : Book) → Lies (L.Places.contents lineup.old.mirrored.list) lineup.old.state b → Sound rule b → n ≤ total b.buys → n ≤ total b.sells → length (dealt (λ _ _. price) n b.buys b.sells) ≤ lineup.old.state.capacity → Crossed price n b (L.Places.contents lineup.new.mirrored.list) lineup.new.state result fills.old fills.new }
{
    // The loop is like that of `deal`: one for both would take the step as a closure over the lineup, with more to say of it than the loop has lines.
    let capacity = lineup.state.capacity;
    let mut left = n;
    for (count, place) in fills[..capacity].iter_mut().enumerate() {
        if left == 0 {
            return counted(count);
        }
        let Some(fill) = cross(lineup, price, left) else {
            return counted(count)
        };
        *place = fill;
        left -= fill.quantity;
    }
    counted(capacity)
}
