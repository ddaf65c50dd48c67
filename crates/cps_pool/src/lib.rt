//! Solutions of one model that workers found, near which a neighbourhood worker searches.
//!
//! A pool only grows. Workers that take turns have a plain list (`PlainPool`), and workers in threads push to one
//! vector through a shared reference (`SharedPool`), each by a handle of its own (`PoolHandle`). Whatever other threads
//! push, what a pool gives is a solution of its model: the rule of the vector says so of each value, and names the
//! model by numbers.
#![tactic(auto)]

mod plain;
mod pool;
mod shared;

pub use plain::PlainPool;
pub use pool::Pool;
pub use shared::{PoolHandle, SharedPool};
