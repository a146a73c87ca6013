use orders::request::Request;
use std::fmt;

// A request in words.
#[derive(Clone, Copy)]
pub struct Words {
    pub request: Request,
}

impl fmt::Display for Words {
    fn fmt<W: fmt::Write>(&self, f: &mut fmt::Formatter<W>) -> fmt::Result {
        match self.request {
            Request::Enter(e) => {
                let member = e.member();
                let side = e.side();
                let life = e.life();
                let price = e.price();
                let quantity = e.quantity();
                let minimum = e.minimum();
                write!(
                    f,
                    "enter member {member} {side} {life} price {price} quantity {quantity} minimum {minimum}"
                )
            }
            Request::Withdraw(c) => {
                let member = c.member();
                let number = c.number();
                write!(f, "cancel member {member} number {number}")
            }
            Request::Call => write!(f, "call"),
            Request::Halt => write!(f, "halt"),
        }
    }
}
