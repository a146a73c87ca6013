ghost use Rattle.std.specs.Prelude.{◌≡◌, true};
ghost use Rattle.shelf.specs.Entering.{Laid};
ghost use Rattle.shelf.specs.HeldGate.{is_full};

use matching::scan::vacant;
use orders::order::Order;
use orders::request::Life;
use ranking::places::Places;

// Puts an order in a vacant place, if it rests.
pub fn lay<L: Places<Record = Order>>(list: &mut L, life: Life, o: Order)
    ensures laid { Laid life o (L.contents list.old) (L.contents list.new) }
    ensures full { is_full (L.contents list.old) ≡ true → L.contents list.new ≡ L.contents list.old }
{
    if life.rests() && o.remaining > 0 {
        if let Some(i) = vacant(list) {
            list.hold(i, o);
        }
    }
}
