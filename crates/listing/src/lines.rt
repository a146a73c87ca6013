ghost use Rattle.std.specs.Prelude.{◌≡◌, ◌++◌, map, length, take, drop, IfOk, OnOk, ◌==◌};
ghost use Rattle.std.specs.Slice.Iter.{iter_rest};
ghost use Rattle.venue.specs.Steps.{count as count_of, deal, admitted};
ghost use Rattle.listing.specs.declared.line.Line.TheVariants.{Filled};
ghost use Rattle.listing.specs.Lines.{answer_line, admitted_lines, sending_lines, step_lines, first_lines, steps_after, listing as lines_of};

use crate::line::Line;
use orders::answer::Answer;
use orders::order::Fill;
use orders::refusal::{Cause, Refusal};
use orders::request::Request;
use std::alloc::{AllocError, Global};
use std::slice;
use venue::step::{Sending, Step};

// The line of an answer.
fn answer_line(count: usize, answer: &Answer) -> Line
    ensures { result ≡ answer_line count answer.now }
{
    match answer {
        Answer::Entered(entered) => Line::Entered(count, *entered),
        Answer::Withdrawn(withdrawn) => Line::Cancelled(count, *withdrawn),
        Answer::Called(called) => Line::Called(count, *called),
        Answer::Halted => Line::Halted(count),
    }
}

// Adds a line for each of so many fills from the front of a list.
fn push_fills(lines: &mut Vec<Line>, fills: &[Fill], count: usize) -> Result<(), AllocError>
    ensures { OnOk result (lines.new.items ≡ lines.old.items ++ map Filled (take count fills.now)) }
{
    let counted = &fills[..count.min(fills.len())];
    for fill in counted {
        lines.push(Line::Filled(*fill))?;
    }
    Ok(())
}

// Adds the lines of a request that was admitted. Here and below the count of the record is an argument beside the lines: each record
// has another.
fn push_admitted(
    lines: &mut Vec<Line>,
    count: usize,
    answer: &Answer,
    fills: &[Fill],
) -> Result<(), AllocError>
    ensures { OnOk result (lines.new.items ≡ lines.old.items ++ admitted_lines count answer.now fills.now) }
{
    lines.push(answer_line(count, answer))?;
    push_fills(lines, fills, answer.fill_count())
}

// Adds the lines of a request.
fn push_sending(lines: &mut Vec<Line>, count: usize, sending: &Sending) -> Result<(), AllocError>
    ensures { OnOk result (lines.new.items ≡ lines.old.items ++ sending_lines count sending.now) }
{
    match &sending.outcome {
        None => {}
        Some(Err(refusal)) => lines.push(Line::Refused(count, *refusal))?,
        Some(Ok(answer)) => push_admitted(lines, count, answer, sending.fills.as_slice())?,
    }
    Ok(())
}

// Adds the lines of a step.
fn push_step(lines: &mut Vec<Line>, count: usize, step: &Step) -> Result<(), AllocError>
    ensures { OnOk result (lines.new.items ≡ lines.old.items ++ step_lines count step.now) }
{
    match step {
        Step::Send(sending) => push_sending(lines, count, sending),
        Step::Ask(_) => Ok(()),
    }
}

// How many requests of the steps were admitted.
fn count_admitted(steps: &[Step]) -> usize
    ensures { result ≡ length (admitted steps.now) }
{
    // A loop, since what `filter` and `count` promise of steps was more than the proof could go through.
    let mut count = 0;
    for step in steps {
        if is_admitted(step) {
            count += 1;
        }
    }
    count
}

// Whether a step is a request that was admitted.
fn is_admitted(step: &Step) -> bool
    ensures { result ≡ (length (deal step.now) == 1) }
{
    match step {
        Step::Send(sending) => matches!(sending.outcome, Some(Ok(_))),
        Step::Ask(_) => false,
    }
}

// Adds the lines of a record; a request takes the next of the steps that are left.
fn push_record(
    lines: &mut Vec<Line>,
    count: usize,
    item: &Result<Request, Cause>,
    steps: &mut slice::Iter<Step>,
) -> Result<(), AllocError>
    ensures lines { OnOk result (lines.new.items ≡ lines.old.items ++ first_lines count item.now (iter_rest steps.old)) }
    ensures used { OnOk result (iter_rest steps.new ≡ steps_after item.now (iter_rest steps.old)) }
{
    match item {
        Err(cause) => {
            let refusal = Refusal {
                cause: *cause,
                height: None,
            };
            lines.push(Line::Refused(count, refusal))?;
        }
        Ok(_) => {
            if let Some(step) = steps.next() {
                push_step(lines, count, step)?;
            }
        }
    }
    Ok(())
}

// All lines of a listing after its first.
pub fn listing(
    heap: Global,
    records: &[Result<Request, Cause>],
    steps: &[Step],
) -> Result<Vec<Line>, AllocError>
    ensures { IfOk result (λ v. v.items ≡ lines_of records.now steps.now) }
{
    let mut lines = Vec::new(heap);
    let mut left = steps.iter();
    for (i, item) in records.iter().enumerate() {
        push_record(&mut lines, i + 1, item, &mut left)?;
    }
    lines.push(Line::End(count_admitted(steps)))?;
    Ok(lines)
}
