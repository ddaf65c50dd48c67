//! The rule of an interval: its size is not negative, and takes its start to its end.
//!
//! Bounds of the start, the end and the size are passed on in every direction. Where all is fixed, the rule says whether
//! its body holds. A reason names bounds, each tested against the past before it is used.
#![tactic(auto)]

mod interval;

pub use interval::Interval;
