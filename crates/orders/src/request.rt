ghost use Rattle.std.specs.Prelude.{◌≡◌};
ghost use Rattle.orders.specs.Rows.{side_number, life_number, SideNumbered, LifeNumbered};
ghost use Rattle.orders.specs.Sides.{other, within_limit, rests};

pub mod making;

use crate::cancel::Cancel;
use crate::entry::Entry;
use crate::refusal::Cause;
use std::fmt;

// Buy or sell. The numbers are those of a request file.
#[derive(Clone, Copy, PartialEq, Eq)]
pub enum Side {
    Buy = 1,
    Sell = 2,
}

impl Side {
    pub fn opposite(self) -> Side
        ensures { result ≡ other self }
    {
        match self {
            Side::Buy => Side::Sell,
            Side::Sell => Side::Buy,
        }
    }

    // By a method and not by `From`, since what the number is stands in its name.
    pub fn number(self) -> u8
        ensures { result ≡ side_number self }
    {
        self as u8
    }

    // Whether an order of the side with a limit may deal at a price.
    pub fn reaches(self, limit: u32, price: u32) -> bool
        ensures { result ≡ within_limit self limit price }
    {
        match self {
            Side::Buy => price <= limit,
            Side::Sell => limit <= price,
        }
    }
}

impl TryFrom<u8> for Side {
    type Error = Cause;

    ghost try_from_gives = { SideNumbered };

    fn try_from(number: u8) -> Result<Side, Cause> {
        match number {
            1 => Ok(Side::Buy),
            2 => Ok(Side::Sell),
            _ => Err(Cause::BadSideOrLife),
        }
    }
}

impl fmt::Display for Side {
    fn fmt<W: fmt::Write>(&self, f: &mut fmt::Formatter<W>) -> fmt::Result {
        f.write_str(match self {
            Side::Buy => "buy",
            Side::Sell => "sell",
        })
    }
}

// What becomes of the tonnes that an entry does not deal at once: they rest, or are withdrawn. The numbers are those of a request file.
#[derive(Clone, Copy, PartialEq, Eq)]
pub enum Life {
    Rest = 1,
    Kill = 2,
}

impl Life {
    // By a method and not by `From`, as a side's.
    pub fn number(self) -> u8
        ensures { result ≡ life_number self }
    {
        self as u8
    }

    // Whether tonnes that are not dealt at once rest.
    pub fn rests(self) -> bool
        ensures { result ≡ rests self }
    {
        match self {
            Life::Rest => true,
            Life::Kill => false,
        }
    }
}

impl TryFrom<u8> for Life {
    type Error = Cause;

    ghost try_from_gives = { LifeNumbered };

    fn try_from(number: u8) -> Result<Life, Cause> {
        match number {
            1 => Ok(Life::Rest),
            2 => Ok(Life::Kill),
            _ => Err(Cause::BadSideOrLife),
        }
    }
}

impl fmt::Display for Life {
    fn fmt<W: fmt::Write>(&self, f: &mut fmt::Formatter<W>) -> fmt::Result {
        f.write_str(match self {
            Life::Rest => "rest",
            Life::Kill => "kill",
        })
    }
}

// What may be asked of a venue.
#[derive(Clone, Copy)]
pub enum Request {
    Enter(Entry),
    Withdraw(Cancel),
    Call,
    Halt,
}
