ghost use Rattle.std.specs.Prelude.{◌≡◌, ◌≤◌, length, take};
ghost use Rattle.plain.specs.Book.{Tape};
ghost use Rattle.claims.specs.Ranks.{side_at};

use orders::order::Order;
use orders::request::Side;
use venue::venue::Venue;

// Copies a side's orders by rank into a list, as many as it has places; says how many.
pub(crate) fn copy_ranks<V: Venue>(venue: &V, side: Side, list: &mut [Order]) -> usize
    ensures copied { (t : Tape) → V.stands venue.now t → take result list.new ≡ take (length list.old) (side_at (V.setup venue.now) t side) }
    ensures few { result ≤ length list.old }
{
    for (i, place) in list.iter_mut().enumerate() {
        match venue.order_at(side, i + 1) {
            None => return i,
            Some(o) => *place = o,
        }
    }
    list.len()
}
