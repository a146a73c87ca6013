ghost use Rattle.std.specs.Prelude.{◌≡◌, ◌≤◌, length, take};
ghost use Rattle.plain.specs.Orders.{keep, total, within};
ghost use Rattle.replay.specs.Lists.{capped};

use orders::order::Order;
use orders::request::Side;

// The tonnes within the limit, or the largest number if they are more.
pub(crate) fn tonnes_within(orders: &[Order], side: Side, limit: u32) -> u32
    ensures { result ≡ capped (total (keep (within side limit) orders.now)) }
{
    let mut sum = 0u32;
    for o in orders {
        if side.reaches(limit, o.price) {
            sum = sum.saturating_add(o.remaining);
        }
    }
    sum
}

// Moves the orders within the limit to the front, in their sequence; says how many there are.
pub(crate) fn retain_within(orders: &mut [Order], side: Side, limit: u32) -> usize
    ensures kept { take result orders.new ≡ keep (within side limit) orders.old }
    ensures few { result ≤ length orders.old }
{
    let mut n = 0;
    // By index, since one list is read and, further to the front, written.
    for i in 0..orders.len() {
        let o = orders[i];
        if side.reaches(limit, o.price) {
            orders[n] = o;
            n += 1;
        }
    }
    n
}
