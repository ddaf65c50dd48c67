//! What the workers of one solver share: the best objective that any of them found, the best lower bound, and a board
//! of learnt clauses. This crate says what each step on them may do, has the shared state as plain data with one
//! function for each step, and the trait `Port` through which a worker reaches it.
//!
//! After every list of lawful steps, by whichever actors, each clause on the board holds in each assignment that is
//! better than the incumbent it names, the upper bound is the least objective that was offered, and the lower bound is
//! the greatest of the least objective by the domains and of all raises, and at most every solution's objective. A port
//! over the plain state changes it by lawful steps of its own actor alone, so it cannot make up an answer.
#![tactic(auto)]

pub mod entry;
pub mod event;
pub mod laws;
pub mod order;
pub mod part;
pub mod plain_port;
pub mod port;
mod seat;
pub mod state;
pub mod word;

pub use entry::{Entry, MOST_ATOMS, MOST_ROWS, Share, Taken};
pub use event::{Event, Seen};
pub use order::{greater, is_closed, lesser, raised_to};
pub use part::{BoardPart, BoundsPart, Part};
pub use plain_port::PlainPort;
pub use port::Port;
pub use state::CoreState;
