//! A board of learnt clauses that all workers share: a row for each clause, which a worker draws, fills and opens once.
//!
//! `share` puts a clause into a row of its own, and each seat takes the open rows in order with `take`. Each step is
//! one atomic operation on one word; none waits, retries or takes memory. An entry that is taken was shared, whole, and
//! its clause holds in each assignment that is better than the incumbent it names; a row never changes once it is open.
#![tactic(auto)]

mod coding;
pub mod laws;
mod plays;
mod row;
mod rule;
mod seats;
mod table;
mod view;

pub use seats::{Board, BoardSeat};
