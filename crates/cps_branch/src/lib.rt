//! Branching: which atom is decided next, and when to restart.
//!
//! A brancher chooses an atom that the store leaves undecided; it answers `None` exactly if all variables are fixed. It
//! hears each learnt clause, and answers whether to restart. As long as the store's first entries stay, it keeps what
//! it saw of them, so that a choice need not look at every variable.
//!
//! `FixedBrancher` follows the model's strategies and then goes through the variables in order. A strategy takes one of
//! its open subjects and tries a value or a half of its domain. The brancher goes on from the last place that the kept
//! entries fixed, and never restarts.
//!
//! `ActivityBrancher` takes the variable of which most learnt clauses spoke, as Moskewicz, Madigan, Zhao, Zhang and
//! Malik, "Chaff: Engineering an Efficient SAT Solver" (2001), section 3.2, but halves the counts only at a limit, and
//! tries the value of the model's hint first. It finds that variable by a tournament (Knuth, "The Art of Computer
//! Programming", volume 3, section 5.2.3), in which variables that were seen fixed are out of play until their entries
//! are gone. It restarts by the sequence of Luby, Sinclair and Zuckerman, "Optimal speedup of Las Vegas algorithms"
//! (1993).
#![tactic(auto)]

mod activity;
mod brancher;
mod bump;
mod fixed;
mod guidance;
mod hint;
mod plan;
mod ranking;
mod restarts;
mod scan;
mod strategy;
mod tournament;

pub use activity::ActivityBrancher;
pub use brancher::Brancher;
pub use fixed::FixedBrancher;
pub use guidance::Guidance;
pub use plan::Plan;
pub use scan::any_open;
