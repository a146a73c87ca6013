// Claims tried against books: which fail, how full a ledger gets, and what goes wrong between two books that differ.
#![tactic(auto)]

#[cfg(test)]
mod differing;
#[cfg(test)]
mod limit;
#[cfg(test)]
mod market;
#[cfg(test)]
mod standing;
#[cfg(test)]
mod tried;
