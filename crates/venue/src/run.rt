ghost use Rattle.std.specs.Prelude.{◌≡◌, ◌++◌};
ghost use Rattle.plain.specs.Book.{Tape};
ghost use Rattle.venue.specs.Questions.{Tells, told};
ghost use Rattle.venue.specs.Steps.{Sent, Asked, Answered, refusal, tape_of, admitted};
ghost use Rattle.venue.specs.Meaning.{joined};
ghost use Rattle.venue.specs.Runs.{WholeRun};

use crate::question::{Question, Told};
use crate::step::{Asking, Sending, Step};
use crate::venue::Venue;

// Puts a question to a venue.
pub fn ask<V: Venue>(venue: &V, question: Question) -> Told
    ensures { Tells (V.setup venue.now) (V.stands venue.now) (told question) result }
{
    match question {
        Question::Capacity => Told::Capacity(venue.capacity()),
        Question::CurrentPhase => Told::CurrentPhase(venue.phase()),
        Question::NextNumber => Told::NextNumber(venue.next_number()),
        Question::IsFresh => Told::IsFresh(venue.is_fresh()),
        Question::Height => Told::Height(venue.height()),
        Question::OrderAt(side, rank) => Told::OrderAt(venue.order_at(side, rank)),
    }
}

// Sends a request to a venue, and writes down what it was answered.
fn send<V: Venue>(venue: &mut V, sending: &mut Sending)
    ensures same { V.setup venue.new ≡ V.setup venue.old }
    ensures stands { (t : Tape) → V.stands venue.old t → V.stands venue.new (joined (refusal (V.setup venue.old) t sending.old) t sending.old.request) }
    ensures answered { (t : Tape) → V.stands venue.old t → Sent (V.setup venue.old) t sending.old sending.new }
{
    let outcome = venue.serve(sending.request, sending.fills.as_mut_slice());
    sending.outcome = Some(outcome);
}

// Takes one step.
fn take_step<V: Venue>(venue: &mut V, step: &mut Step)
    ensures same { V.setup venue.new ≡ V.setup venue.old }
    ensures stands { (t : Tape) → V.stands venue.old t → V.stands venue.new (tape_of (V.setup venue.old) t step.old) }
    ensures answered { (t : Tape) → V.stands venue.old t → Answered (V.setup venue.old) t step.old step.new }
{
    match step {
        Step::Send(sending) => send(venue, sending),
        Step::Ask(asking) => asking.told = Some(ask(venue, asking.question)),
    }
}

// Takes steps, one after the other; after it each step holds what it was answered.
pub fn run<V: Venue>(venue: &mut V, steps: &mut [Step])
    ensures same { V.setup venue.new ≡ V.setup venue.old }
    ensures stands { (t : Tape) → V.stands venue.old t → V.stands venue.new (t ++ admitted steps.new) }
    ensures whole { (t : Tape) → V.stands venue.old t → WholeRun (V.setup venue.old) t steps.old steps.new }
{
    for step in steps.iter_mut() {
        take_step(venue, step);
    }
    venue.keeps();
}
