ghost use Rattle.std.specs.Prelude.{◌≡◌};
ghost use Rattle.orders.specs.Answers.{count};
ghost use Rattle.orders.specs.Entries.{counted, entered};

use crate::entry::Entry;
use crate::request::Side;

// A count as an answer has it: one past the largest number stays there.
pub fn counted(n: usize) -> u32
    ensures { result ≡ counted n }
{
    u32::try_from(n).unwrap_or(u32::MAX)
}

// What became of an entry.
#[derive(Clone, Copy, PartialEq, Eq)]
pub struct Entered {
    pub number: u32,
    pub fills: u32,
    pub dealt: u32,
    pub resting: u32,
    pub withdrawn: u32,
}

impl Entered {
    // What became of an entry of which so many tonnes are left after so many fills.
    pub fn of(entry: &Entry, number: u32, fills: u32, left: u32) -> Entered
        ensures { result ≡ entered entry.now number fills left }
    {
        let rests = entry.life().rests();
        Entered {
            number,
            fills,
            dealt: entry.quantity().saturating_sub(left),
            resting: if rests { left } else { 0 },
            withdrawn: if rests { 0 } else { left },
        }
    }
}

// What a cancel took away.
#[derive(Clone, Copy, PartialEq, Eq)]
pub struct Withdrawn {
    pub number: u32,
    pub side: Side,
    pub tonnes: u32,
}

// The price and volume of a call, and the number of its fills.
#[derive(Clone, Copy, PartialEq, Eq)]
pub struct Called {
    pub price: u32,
    pub volume: u32,
    pub fills: u32,
}

// The answer to a request that was admitted.
#[derive(Clone, Copy, PartialEq, Eq)]
pub enum Answer {
    Entered(Entered),
    Withdrawn(Withdrawn),
    Called(Called),
    Halted,
}

impl Answer {
    // How many fills it says that it has.
    pub fn fill_count(&self) -> usize
        ensures { result ≡ count self.now }
    {
        match self {
            Answer::Entered(entered) => entered.fills as usize,
            Answer::Withdrawn(_) => 0,
            Answer::Called(called) => called.fills as usize,
            Answer::Halted => 0,
        }
    }
}
