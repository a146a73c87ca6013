// Venues as somebody else might write them, against the trait alone: they join ours with nothing of ours opened.
// Each says for itself all that the trait asks, also where two say the same, since strangers share no code.
#![tactic(auto)]

pub mod counting;
pub mod picky;
pub mod relay;
