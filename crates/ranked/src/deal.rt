ghost use Rattle.std.specs.Prelude.{◌≡◌, ◌+◌, ◌-◌, ◌^◌, ◌≤◌, min, length, IfSome};
ghost use Rattle.plain.specs.Orders.{other};
ghost use Rattle.plain.specs.Book.{Book, side as side_of};
ghost use Rattle.lineup.specs.Lying.{Lies};
ghost use Rattle.ranked.specs.ByTurns.{TurnTaken, TurnsTaken, by_turns};

use lineup::lineup::Lineup;
use orders::answer::counted;
use orders::order::{Fill, Order};
use orders::request::Side;
use ranking::places::Places;

// A turn with the best order of a side: that order, and the tonnes dealt with it.
#[derive(Clone, Copy)]
pub struct Turn {
    pub order: Order,
    pub tonnes: u32,
}

// Deals up to n tonnes with the best order of a side, if there is one. How many they may be changes from turn to turn.
pub(crate) fn take_turn<L: Places<Record = Order>>(
    lineup: &mut Lineup<L>,
    side: Side,
    n: u32,
) -> Option<Turn>
    ensures few { (lineup.new.state.capacity ≡ lineup.old.state.capacity) × (lineup.new.state.buys + lineup.new.state.sells ≤ lineup.old.state.buys + lineup.old.state.sells) × IfSome result (λ p. p.tonnes ≤ n) }
    ensures taken { (b : Book) → Lies (L.Places.contents lineup.old.mirrored.list) lineup.old.state b → TurnTaken side n b (L.Places.contents lineup.old.mirrored.list) lineup.old.state (L.Places.contents lineup.new.mirrored.list) lineup.new.state result }
{
    let order = lineup.at_rank(side, 1)?;
    if n < order.remaining {
        lineup.reduce(side, order, order.remaining - n);
        return Some(Turn { order, tonnes: n });
    }
    let first = lineup.state.start(side);
    lineup.take_out(side, first);
    Some(Turn {
        order,
        tonnes: order.remaining,
    })
}

// Deals n tonnes of an order with the best orders of the other side, in turn: how many fills it wrote.
pub(crate) fn deal<L: Places<Record = Order>>(
    lineup: &mut Lineup<L>,
    taker: &Order,
    n: u32,
    fills: &mut [Fill],
) -> u32
    requires { lineup.old.state.capacity ≤ length fills.old }
    ensures few { (lineup.new.state.capacity ≡ lineup.old.state.capacity) × (lineup.new.state.buys + lineup.new.state.sells ≤ lineup.old.state.buys + lineup.old.state.sells) }
    ensures dealt { (b : Book) → Lies (L.Places.contents lineup.old.mirrored.list) lineup.old.state b → length (by_turns taker.now.side taker.now n (side_of (other taker.now.side) b)) ≤ lineup.old.state.capacity → TurnsTaken taker.now.side taker.now n b (L.Places.contents lineup.new.mirrored.list) lineup.new.state result fills.old fills.new }
{
    let capacity = lineup.state.capacity;
    let mut left = n;
    for (count, place) in fills[..capacity].iter_mut().enumerate() {
        if left == 0 {
            return counted(count);
        }
        let Some(turn) = take_turn(lineup, taker.side.opposite(), left) else {
            return counted(count)
        };
        *place = Fill::taken(taker, &turn.order, turn.tonnes);
        left -= turn.tonnes;
    }
    counted(capacity)
}
