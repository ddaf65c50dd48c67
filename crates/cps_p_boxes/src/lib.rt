//! The rule of boxes that do not overlap.
//!
//! `Boxes` looks at each two rectangles: where they surely overlap in one direction, they are ordered in the other as
//! two spans are that do not overlap. Where all is fixed, the rule says whether its body holds. What a store leaves to a
//! span, and the facts that say when it starts and ends, are those of `cps_p_span`.
#![tactic(auto)]

mod boxes;
mod explain;
mod pairs;

pub use boxes::Boxes;
