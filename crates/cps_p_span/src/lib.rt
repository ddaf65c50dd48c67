//! Spans, as the rules of intervals, of spans that do not overlap and of boxes see them.
//!
//! A span has a start, an end and presence literals. Here is what a store leaves to it, which atoms say when it starts
//! or ends, and what two of a list give that does not overlap: where one cannot come before the other it comes after it,
//! which bounds the one's start and the other's end; where neither can come first, one of them is absent, or they leave
//! no way.
//!
//! A reason names bounds and presence literals, each tested against the past before it is used; of the two bounds that
//! keep one span from coming before another, one is loosened as far as the other lets it.
//!
//! Source: the disjunctive precedences of two tasks are in Baptiste, Le Pape and Nuijten, "Constraint-Based Scheduling"
//! (2001), chapter 2.
#![tactic(auto)]

mod edges;
mod explain;
mod facts;
mod hull;
mod pairs;
mod seen;
mod spans;

pub use edges::{end_from, end_up_to, start_from, start_up_to};
pub use explain::{
    cite_clash, cite_end_from, cite_late, cite_present, cite_start_up_to, denied_place,
    explain_pair, least_end, pair_of, refute_pair,
};
pub use facts::{cite, cite_all, cite_others, same_atom};
pub use hull::{Hull, hull_of, offer};
pub use pairs::{Pair, follow, meet_all, propose};
pub use seen::{Presence, Seen, Times, see};
pub use spans::{copy_spans, push_spans};
