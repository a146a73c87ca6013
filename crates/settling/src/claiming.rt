ghost use Rattle.std.specs.Prelude.{◌≡◌, take, IfOk, Some, None, MatchOption};
ghost use Rattle.venue.specs.Steps.{count};
ghost use Rattle.settling.specs.Claimed.{subject_of};

use claims::claim::{Claim, Subject};
use orders::answer::Answer;
use orders::order::{Fill, Phase};
use orders::request::Request;
use std::alloc::{AllocError, Global};

// What a request that was answered may be claimed for: a call, or an entry while dealing.
fn subject_of(phase: Phase, request: &Request, answer: &Answer) -> Option<Subject>
    ensures { result ≡ subject_of phase request.now answer.now }
{
    match (phase, request, answer) {
        (Phase::Gathering, Request::Call, Answer::Called(called)) => Some(Subject::Call {
            price: called.price,
            volume: called.volume,
        }),
        (Phase::Dealing, Request::Enter(entry), Answer::Entered(_)) => Some(Subject::Entry(*entry)),
        _ => None,
    }
}

// The claim that an answer makes with the fills that it counts, if it may be claimed.
pub fn claim_of(
    heap: Global,
    phase: Phase,
    request: &Request,
    answer: &Answer,
    fills: &[Fill],
) -> Result<Option<Claim>, AllocError>
    ensures { IfOk result (λ o. MatchOption o (subject_of phase request.now answer.now ≡ None) (λ c. (subject_of phase request.now answer.now ≡ Some c.subject) × (c.fills.items ≡ take (count answer.now) fills.now))) }
{
    let Some(subject) = subject_of(phase, request, answer) else {
        return Ok(None);
    };
    let counted = fills.iter().take(answer.fill_count()).copied();
    Ok(Some(Claim::new(subject, counted.collect(heap)?)))
}
