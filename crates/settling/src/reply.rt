ghost use Rattle.std.specs.Prelude.{◌≡◌, IfOk, Decides};
ghost use Rattle.plain.specs.Book.{Tape};
ghost use Rattle.settling.specs.Replies.{count_of, Replied, SameReply};

use orders::answer::Answer;
use orders::order::Fill;
use orders::refusal::Refusal;
use orders::request::Request;
use std::alloc::{AllocError, Global};
use venue::venue::Venue;

// What a venue answered to a request, and the fills that it dealt.
#[derive(Drop, PartialEq, Eq)]
pub struct Reply {
    pub outcome: Result<Answer, Refusal>,
    pub fills: Vec<Fill>,
}

// How many fills were dealt: none to a request that was refused.
fn fill_count(outcome: &Result<Answer, Refusal>) -> usize
    ensures { result ≡ count_of outcome.now }
{
    match outcome {
        Ok(answer) => answer.fill_count(),
        Err(_) => 0,
    }
}

// Sends a request to a venue, with a fill list as long as its capacity.
pub(crate) fn reply_of<V: Venue>(
    heap: Global,
    venue: &mut V,
    request: Request,
) -> Result<Reply, AllocError>
    ensures same { V.setup venue.new ≡ V.setup venue.old }
    ensures replied { IfOk result (λ x. (t : Tape) → V.stands venue.old t → Replied (V.setup venue.old) (V.stands venue.new) t request x) }
{
    venue.keeps();
    let mut fills = vec![in heap; Fill::BLANK; venue.capacity()]?;
    let outcome = venue.serve(request, fills.as_mut_slice());
    fills.truncate(fill_count(&outcome));
    Ok(Reply { outcome, fills })
}

// Whether two replies have the same answer or refusal, and the same fills. A function of its own, since where more is known besides
// the proof does not find what `==` of two replies says.
pub(crate) fn is_same(a: &Reply, b: &Reply) -> bool
    ensures { Decides result (SameReply a.now.outcome a.now.fills.items b.now.outcome b.now.fills.items) }
{
    a == b
}
