ghost use Rattle.std.specs.Prelude.{◌≡◌, ℕ, None};
ghost use Rattle.request_file.specs.declared.position.Position.TheVariants.{Start, Ended};
ghost use Rattle.request_file.specs.Reading.{seen, refusal, record_at, gives, onward, position_after, CallOf, Steps, bytes_left};
ghost use Rattle.request_file.specs.Whole.{RecordsMakeUpTheFile};
ghost use Rattle.std.specs.Iterator.{at_most};

use crate::fault::Fault;
use crate::position::Position;
use crate::record::Record;
use orders::refusal::Cause;

// A record, and the offset in the file of the first of its two length bytes.
#[derive(Clone, Copy)]
pub struct Located<'a> {
    pub offset: usize,
    pub record: Record<'a>,
}

// Goes through a file, record by record.
#[derive(Clone, Copy)]
pub struct Reader<'a> {
    file: &'a [u8],
    position: Position,
}

impl<'a> Reader<'a> {
    pub fn over(file: &'a [u8]) -> Reader<'a>
        ensures file { result.file.now ≡ file.now }
        ensures start { result.position ≡ Start }
    {
        Reader {
            file,
            position: Position::Start,
        }
    }

    // The next record, or the refusal that ends the file; nothing after that, and nothing after the last record.
    pub fn next_record(&mut self) -> Option<Result<Located<'a>, Fault>>
        ensures file { self.new.file.now ≡ self.old.file.now }
        ensures gives { seen result ≡ gives self.old.file.now self.old.position }
        ensures kth { (k : ℕ) → self.old.position ≡ position_after self.old.file.now k → CallOf self.old.file.now k (seen result) self.new.position }
        ensures goes { self.new.position ≡ onward (gives self.old.file.now self.old.position) }
    {
        let turn = turn_at(self.file, self.position);
        self.position = turn.position;
        turn.found
    }
}

impl<'a> Iterator for Reader<'a> {
    type Item = Result<Located<'a>, Fault>;

    ghost next_gives = { λ s r t. Steps s.file.now s.position (seen r) t.file.now t.position };

    ghost remaining = { λ s. at_most (bytes_left s.file.now s.position) };

    fn next(&mut self) -> Option<Result<Located<'a>, Fault>> {
        self.next_record()
    }
}

// What one call gives, and where the reader stands after it: told together, since only where a record is cut from the file
// is the offset after it known to be a number.
#[derive(Clone, Copy)]
struct Turn<'a> {
    found: Option<Result<Located<'a>, Fault>>,
    position: Position,
}

// The file is at its end, with nothing wrong.
fn at_end<'a>() -> Turn<'a>
    ensures found { seen result.found ≡ None }
    ensures position { result.position ≡ Ended }
{
    Turn {
        found: None,
        position: Position::Ended,
    }
}

// The file ends by a refusal.
fn refused<'a>(offset: usize, cause: Cause) -> Turn<'a>
    ensures found { seen result.found ≡ refusal offset cause }
    ensures position { result.position ≡ Ended }
{
    Turn {
        found: Some(Err(Fault { offset, cause })),
        position: Position::Ended,
    }
}

fn turn_at<'a>(file: &'a [u8], position: Position) -> Turn<'a>
    ensures found { seen result.found ≡ gives file.now position }
    ensures position { result.position ≡ onward (gives file.now position) }
{
    match position {
        Position::Start => first_record(file),
        Position::Before(offset) => record_at(file, offset),
        Position::Ended => at_end(),
    }
}

fn first_record<'a>(file: &'a [u8]) -> Turn<'a>
    ensures found { seen result.found ≡ gives file.now Start }
    ensures position { result.position ≡ onward (gives file.now Start) }
{
    match file {
        [1, ..] => record_at(file, 1),
        _ => refused(0, Cause::BadVersion),
    }
}

// The record at an offset, if the file goes on there.
fn record_at<'a>(file: &'a [u8], offset: usize) -> Turn<'a>
    ensures found { seen result.found ≡ record_at file.now offset }
    ensures position { result.position ≡ onward (record_at file.now offset) }
{
    if offset >= file.len() {
        return at_end();
    }
    let left = file.len() - offset;
    if left < 2 {
        return refused(offset, Cause::CutShort);
    }
    let length = usize::from(u16::from_be_bytes([file[offset], file[offset + 1]]));
    if left - 2 < length {
        return refused(offset, Cause::CutShort);
    }
    let start = offset + 2;
    let end = start + length;
    match Record::taken_apart(&file[start..end]) {
        Some(record) => Turn {
            found: Some(Ok(Located { offset, record })),
            position: Position::Before(end),
        },
        None => refused(offset, Cause::UnknownKind),
    }
}

// The records that a reader hands out make up the file.
pub fn records_make_up_the_file()
    ensures { RecordsMakeUpTheFile }
{}
