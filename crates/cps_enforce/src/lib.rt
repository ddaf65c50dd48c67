//! A propagator of each rule: enforcement literals, notes, conflicts, reasons, and looking again until nothing is left
//! to narrow.
//!
//! A rule knows its body alone. Where all enforcement literals are true, what the rule gives is made true, with a note
//! of the rule's hint; where one is open and the body cannot hold, that literal is made false. Reasons are made when
//! they are asked for, from the domains as they stood before, and where the rule finds none, from all that was narrowed
//! before of what the task reads.
#![tactic(auto)]

mod enforced;
mod explain;
mod force;
mod narrow;
mod reasons;
mod settle;

pub use enforced::Enforced;
