ghost use Rattle.std.specs.Prelude.{◌≡◌, Some};
ghost use Rattle.orders.specs.Causes.{cause_number, cause_name};

use std::error::Error;
use std::fmt;

// Why a request, a record, a set-up, a claim or a booking is refused. The numbers are part of the formats.
#[derive(Clone, Copy, Debug, PartialEq, Eq)]
pub enum Cause {
    BadSetup = 1,
    BadVersion = 2,
    CutShort = 3,
    UnknownKind = 4,
    UnknownMember = 5,
    BadSideOrLife = 6,
    OutOfRange = 7,
    OverCap = 8,
    OutsideCollar = 9,
    FillListShort = 10,
    WrongPhase = 11,
    NoSuchOrder = 12,
    BookFull = 13,
    NumbersSpent = 14,
    BelowMinimum = 15,
    ClaimFails = 16,
    LedgerFull = 17,
}

impl Cause {
    // By a method and not by `From`, since what the number is stands in its name.
    pub fn number(self) -> u8
        ensures { result ≡ cause_number self }
    {
        self as u8
    }

    // A few words for a person.
    pub fn name(self) -> &'static str
        ensures { result.now ≡ cause_name self }
    {
        match self {
            Cause::BadSetup => "bad set-up",
            Cause::BadVersion => "bad version",
            Cause::CutShort => "cut short",
            Cause::UnknownKind => "unknown kind",
            Cause::UnknownMember => "unknown member",
            Cause::BadSideOrLife => "bad side or life",
            Cause::OutOfRange => "out of range",
            Cause::OverCap => "over the cap",
            Cause::OutsideCollar => "outside the collar",
            Cause::FillListShort => "fill list too short",
            Cause::WrongPhase => "wrong phase",
            Cause::NoSuchOrder => "no such order",
            Cause::BookFull => "book full",
            Cause::NumbersSpent => "numbers spent",
            Cause::BelowMinimum => "below the minimum",
            Cause::ClaimFails => "claim fails",
            Cause::LedgerFull => "ledger full",
        }
    }

    // A refusal for this cause, by the layer or book at a height.
    pub fn at(self, height: u8) -> Refusal
        ensures { (result.cause ≡ self) × (result.height ≡ Some height) }
    {
        Refusal {
            cause: self,
            height: Some(height),
        }
    }
}

// Its number, and the height or a dash.
impl fmt::Display for Refusal {
    fn fmt<W: fmt::Write>(&self, f: &mut fmt::Formatter<W>) -> fmt::Result {
        let number = self.cause.number();
        match self.height {
            Some(height) => write!(f, "{number} at {height}"),
            None => write!(f, "{number} at -"),
        }
    }
}

impl fmt::Display for Cause {
    fn fmt<W: fmt::Write>(&self, f: &mut fmt::Formatter<W>) -> fmt::Result {
        f.write_str(self.name())
    }
}

impl Error for Cause {}

// A cause and, where a pile of layers gave it, the height of the layer or book that refused.
#[derive(Clone, Copy, PartialEq, Eq)]
pub struct Refusal {
    pub cause: Cause,
    pub height: Option<u8>,
}
