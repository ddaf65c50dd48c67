//! Two words that all workers share: the least objective that any of them found, and the greatest lower bound that any
//! of them proved.
//!
//! Each call but `new`, `split`, `join` and `close` is one atomic step on one word, so it never waits, retries or takes
//! memory. An answer is never worse than what its seat saw before, an upper bound is some solution's objective, and no
//! solution's objective is below a lower bound. A seat that has all splits knows both words in the end.
#![tactic(auto)]

pub mod laws;
mod plays;
mod rule;
mod seats;
mod table;
mod view;

pub use seats::{Bounds, BoundsSeat};
