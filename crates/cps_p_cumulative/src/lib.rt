//! The rule of resources that spans use together.
//!
//! At no time do the present spans that run then demand more than the capacity. A span whose greatest start lies before
//! its least end surely runs between them: its compulsory part. The body cannot hold where the least demands of
//! compulsory parts pass the greatest capacity at some time; where the rule does not say so, they pass it at no time,
//! and that is proved of the sweep itself. Nor can it hold where spans surely use more of a window of times than there
//! is, though no time need be overloaded: what they demand, summed over the window.
//!
//! Starts are pushed later and ends earlier past the times at which others leave no room, demands are cut to what
//! others leave, the capacity is raised to the highest load, and a span without room whose presence has one open atom
//! is made absent. A finder without a contract proposes an atom and a time; what it proposes counts where its denial is
//! seen to overload that time. One proved search for facts does that for a time, which is a window of one, and for
//! wider ones, and makes each reason: spans are present, start by one time, end after another, and demand enough.
//!
//! A tank's level is looked at in the same way: events surely by a time count their least change, open ones only where
//! that takes away, and where the sum passes a limit the tank cannot hold. An event is pushed, made to take place or
//! made not to, or its change bounded, where the denial is seen to make the level pass.
//!
//! The algorithm is the time table with pointwise explanations of Schutt, Feydy, Stuckey and Wallace, "Explaining the
//! cumulative propagator" (2011), over a sweep as that of Letort, Beldiceanu and Carlsson, "A scalable sweep algorithm
//! for the cumulative constraint" (2012). Windows are found by the tree of Vilim (2009, 2011), named in `windows`.
#![tactic(auto)]

mod charge;
mod cumulative;
mod judge;
mod level;
mod measure;
mod part;
mod passing;
mod propose;
mod pushes;
mod reservoir;
mod resource;
mod segments;
mod tank;
mod windows;

pub use cumulative::Cumulative;
pub use reservoir::Reservoir;
