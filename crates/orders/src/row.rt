// An entry as plain numbers, in any range: its side and its life too, since nothing of a row is checked yet.
#[derive(Clone, Copy)]
pub struct EntryRow {
    pub member: u8,
    pub side: u8,
    pub life: u8,
    pub price: u32,
    pub quantity: u32,
    pub minimum: u32,
}

// A cancel as plain numbers, in any range.
#[derive(Clone, Copy)]
pub struct CancelRow {
    pub member: u8,
    pub number: u32,
}

// A request as plain numbers: what files and tables hold.
#[derive(Clone, Copy)]
pub enum Row {
    Enter(EntryRow),
    Withdraw(CancelRow),
    Call,
    Halt,
}
