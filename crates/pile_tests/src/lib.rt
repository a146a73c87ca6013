// Deals tried through piles of layers, ours and other people's, over both books.
#![tactic(auto)]

#[cfg(test)]
mod deals;
#[cfg(test)]
mod heights;
#[cfg(test)]
mod lists;
#[cfg(test)]
mod ranks;
#[cfg(test)]
mod rows;
