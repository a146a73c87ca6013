// Where a reader stands: before the version byte, before a record, or at the end.
#[derive(Clone, Copy)]
pub enum Position {
    Start,
    Before(usize),
    Ended,
}
