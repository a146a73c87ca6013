ghost use Rattle.std.specs.Prelude.{IfOk, Some};
ghost use Rattle.request_file.specs.Reading.{seen};
ghost use Rattle.listing.specs.Records.{ItemOf, AllRead, Unsent, Prepared};

use orders::order::Fill;
use orders::refusal::Cause;
use orders::request::Request;
use request_file::fault::Fault;
use request_file::reader::{Located, Reader};
use std::alloc::{AllocError, Global};
use venue::step::{Sending, Step};

// The request of a record, or why it has none.
fn request_of(item: &Result<Located, Fault>) -> Result<Request, Cause>
    ensures { ItemOf (seen (Some item.now)) result }
{
    match item {
        Ok(located) => Request::try_from(&located.record.row()),
        Err(fault) => Err(fault.cause),
    }
}

// All records of a file in sequence, and last the refusal that ends it, if one does.
pub fn read_records(heap: Global, file: &[u8]) -> Result<Vec<Result<Request, Cause>>, AllocError>
    ensures { IfOk result (λ v. AllRead file.now v.items) }
{
    let mut records = Vec::new(heap);
    for item in Reader::over(file) {
        records.push(request_of(&item))?;
    }
    Ok(records)
}

// A step that will send a request, with a list of so many blank fills.
fn unsent(heap: Global, request: Request, places: usize) -> Result<Step, AllocError>
    ensures { IfOk result (λ s. Unsent places request s) }
{
    Ok(Step::Send(Sending {
        request,
        fills: vec![in heap; Fill::BLANK; places]?,
        outcome: None,
    }))
}

// A step for each request, in sequence.
pub fn steps_for(
    heap: Global,
    records: &[Result<Request, Cause>],
    places: usize,
) -> Result<Vec<Step>, AllocError>
    ensures { IfOk result (λ v. Prepared places records.now v.items) }
{
    let mut steps = Vec::new(heap);
    for item in records {
        if let Ok(request) = item {
            steps.push(unsent(heap, *request, places)?)?;
        }
    }
    Ok(steps)
}
