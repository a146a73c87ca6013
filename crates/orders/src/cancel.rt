ghost use Rattle.std.specs.Prelude.{◌≡◌, ◌≤◌};

pub mod making;

// Takes an order of the member away. Any number may be named.
#[derive(Clone, Copy)]
pub struct Cancel {
    member: u8,
    number: u32,
    ghost member_high: { member ≤ 63 },
}

impl Cancel {
    pub fn member(&self) -> u8
        ensures value { result ≡ self.now.member }
        ensures range { result ≤ 63 }
    {
        self.member
    }

    pub fn number(&self) -> u32
        ensures { result ≡ self.now.number }
    {
        self.number
    }
}
