//! The subjects of a log: the domain of each, which sums may be defined, and which atoms a clause may have.
//!
//! A log speaks of a model's variables and of the sums that it defined (`cps_log`). A variable has the model's domain,
//! and a sum each number from its least to its greatest value over these, term by term. Whoever writes a log and whoever
//! checks it have these domains from here.
#![tactic(auto)]

mod atoms;
mod definable;
mod domains;
mod sums;

pub use atoms::{FARTHEST, atom_of_literal, is_over};
pub use definable::{is_definable, sum_domain};
pub use domains::domain_of;
pub use sums::{Ends, sum_ends};
