// Request files that are damaged in every way, and what the reader makes of them.
#![tactic(auto)]

#[cfg(test)]
mod damaged;
#[cfg(test)]
mod ranges;
