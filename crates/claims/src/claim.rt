ghost use Rattle.std.specs.Prelude.{◌≡◌};

use orders::entry::Entry;
use orders::order::Fill;

// What fills are put forward for: an entry, which goes by the next number, or a call with its price and volume.
#[derive(Clone, Copy)]
pub enum Subject {
    Entry(Entry),
    Call { price: u32, volume: u32 },
}

// A list of fills that is put forward.
#[derive(Drop)]
pub struct Claim {
    subject: Subject,
    fills: Vec<Fill>,
}

impl Claim {
    pub fn new(subject: Subject, fills: Vec<Fill>) -> Claim
        ensures { (result.subject ≡ subject) × (result.fills ≡ fills) }
    {
        Claim { subject, fills }
    }

    pub fn subject(&self) -> Subject
        ensures { result ≡ self.now.subject }
    {
        self.subject
    }

    pub fn fills(&self) -> &[Fill]
        ensures { result.now ≡ self.now.fills.items }
    {
        self.fills.as_slice()
    }
}
