ghost use Rattle.std.specs.Prelude.{◌≡◌};
ghost use Rattle.quotes.specs.Steps.{step_of};

use orders::request::Side;

// The price from which an order of a side changes what is dealt, if there is one.
pub fn step_of(side: Side, price: u32) -> Option<u32>
    ensures { result ≡ step_of side price }
{
    match side {
        Side::Buy => {
            if price < 100000 {
                Some(price + 1)
            } else {
                None
            }
        }
        Side::Sell => Some(price),
    }
}
