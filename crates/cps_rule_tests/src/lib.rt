//! Tests of the rules over public calls: a propagator is made of a task and runs on a store of whole intervals, after
//! decisions.
//!
//! Each module has the rules of one group. What a run is to leave is worked out by hand from what the constraint says,
//! and a row's comment says how.
#![tactic(auto)]

#[cfg(test)]
mod arithmetic;
#[cfg(test)]
mod boxes;
#[cfg(test)]
mod circuits;
#[cfg(test)]
mod intervals;
#[cfg(test)]
mod lists;
#[cfg(test)]
mod lookups;
#[cfg(test)]
mod reservoirs;
#[cfg(test)]
mod resources;
#[cfg(test)]
mod runs;
#[cfg(test)]
mod schedules;
#[cfg(test)]
mod sequences;
#[cfg(test)]
mod spans;
#[cfg(test)]
mod stores;
