//! Worked runs over the public calls of what workers share: the events of the plain state, the two words of bounds and
//! the board of clauses, with one thread and with two. All code here is tests: they stand apart, so that the crates
//! they call are proved once.
#![tactic(auto)]

#[cfg(test)]
mod clauses;
#[cfg(test)]
mod events;
#[cfg(test)]
mod models;
#[cfg(test)]
mod words;
