//! The rule of spans that do not overlap.
//!
//! `NoOverlap` looks at each two spans (`cps_p_span`). Where no two give anything new, it looks at sets of the surely
//! present spans: more of them than a window of time has room for cannot be; and another span comes after all of them
//! that it cannot come before one by one, after one of them where they have no room after it, and after all of a window
//! where they leave it no room there. So it starts later, and with time reversed ends earlier. One that may be absent is
//! asked the same, and is absent where it would start later than it can. Where all is fixed, the rule says whether its
//! body holds.
//!
//! A reason names bounds and presence literals, each tested against the past before it is used; the windows of a set are
//! as wide as it crowds them. What sets of spans give is found by a fast search of which nothing is proved but that it
//! is safe and ends, and then counted again.
//!
//! Source: the check of overloads, detectable precedences, not-first with not-last, and edge finding, each in n log n by
//! trees, are in Vilím, "Filtering Algorithms for the Unary Resource Constraint" (2008). A span whose length varies is
//! counted by its least end less its greatest start, since a task says nothing of sizes. Not done: pushes of one look
//! are not fed into the next rule, since the next look sees them; and a span that may be absent pushes no other, as long
//! as it may.
#![tactic(auto)]

mod crowd;
mod desk;
mod detectable;
mod edge_finding;
mod hints;
mod jobs;
mod no_overlap;
mod not_first;
mod overload;
mod proposals;
mod pushes;
mod set_reasons;
mod sets;
mod sides;
mod theta_tree;
mod timeline;
mod windows;

pub use no_overlap::NoOverlap;
