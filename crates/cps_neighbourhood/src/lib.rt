//! Neighbourhood search: a worker that looks near solutions that were found.
//!
//! `NearWorker` is a frame of `cps_search` with a brancher by activity, and searches in rounds, as large
//! neighbourhood search does (Shaw, "Using Constraint Programming and Local Search Methods to Solve Vehicle Routing
//! Problems", 1998). A round frees some variables, which `choose_free` draws, decides the model's assumptions, and
//! then that each other variable, in order, has its value in the solution that the round aims at. These values are
//! decisions like any others, so what is learnt holds of the whole model and can be shared. A round ends after 100
//! conflicts, or when a learnt clause sends the search back below the last of these decisions (they may still be
//! possible together; the next round frees others); the search then goes back to level 0. `aim` hands in another
//! solution, which the next round takes up. The worker ends when the bounds have met, when no solution is left, when
//! an assumption is false, or when its rounds are done. Within a round it does not restart, as that would only repeat
//! the same decisions.
#![tactic(auto)]

mod aim;
mod draws;
mod explorer;
mod laws;
mod near;
mod round;

pub use draws::choose_free;
pub use laws::{ended_near_workers_are_honest, near_turns_come_to_a_run};
pub use near::NearWorker;
