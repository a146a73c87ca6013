use crate::question::{Question, Told};
use orders::answer::Answer;
use orders::order::Fill;
use orders::refusal::Refusal;
use orders::request::Request;

// A request with the fill list that it brings, and what it was answered.
#[derive(Drop)]
pub struct Sending {
    pub request: Request,
    pub fills: Vec<Fill>,
    pub outcome: Option<Result<Answer, Refusal>>,
}

// A question, and what was told.
#[derive(Drop)]
pub struct Asking {
    pub question: Question,
    pub told: Option<Told>,
}

// One step of a run.
#[derive(Drop)]
pub enum Step {
    Send(Sending),
    Ask(Asking),
}
