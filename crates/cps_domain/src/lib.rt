//! Domains: finite sets of whole numbers, kept as rising intervals that are cut in place, and
//! division that rounds down or up.
//!
//! Each cut states exactly which values stay: it answers `Narrowed` with the values that pass, or
//! `NoChange` where each value passes, or `Wiped` where none does, and then the domain is as it was. A
//! `narrow_` call also answers what it moved, from which `undo` restores the domain with no memory.
//! Interval lists as domains, cut at their ends, are those of Schulte and Stuckey, "Efficient
//! Constraint Propagation Engines" (2008), section 2.
#![tactic(auto)]

pub mod cut;
pub mod division;
pub mod domain;
mod scan;

pub use cut::{Cut, Narrowing, Undo};
pub use division::{ceil_div, floor_div};
pub use domain::{DOMAIN_LIMIT, Domain};
