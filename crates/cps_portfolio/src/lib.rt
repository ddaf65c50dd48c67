//! The workers of the portfolio, and the search of a model by a crew of them.
//!
//! Worker 0 follows the model's strategies. After it three kinds come in turn: workers 1, 4, 7, 10 and 13 take
//! variables by activity; workers 2, 5, 8, 11 and 14 raise the lower bound core by core; and workers 3, 6, 9, 12 and 15
//! search near solutions that were found, in rounds. Each has the whole budget of conflicts. `solve` and
//! `solve_interleaved` answer a good outcome (`IsGoodOutcome`), by what is proved of every crew.
#![tactic(auto)]

mod solving;
mod worker;

pub use cps_crew::{AnyEnded, Options, Outcome, TablePort};
pub use solving::{solve, solve_interleaved};
