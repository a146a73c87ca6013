use orders::refusal::Cause;

// Why a file ends early, and the offset of the record at which it does: 0 where the version byte is wrong.
#[derive(Clone, Copy)]
pub struct Fault {
    pub offset: usize,
    pub cause: Cause,
}
