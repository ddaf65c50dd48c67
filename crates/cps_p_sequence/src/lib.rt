//! Rules of kinds over lists of values.
//!
//! An inverse is looked at value by value: a position may have a place exactly where that place's position in the
//! other list may have the first one; and each of its lists is one of values that all differ. The contract: no atom is
//! given that the body does not give, and where all that are given are true, the two lists mirror each other, so that
//! they are each other's inverse once all values are fixed, and no interval holds the values of more positions of a
//! list than it has numbers.
//!
//! An automaton is looked at layer by layer: the states that a run can have reached before a position, and those from
//! which one can end after it. The contract: no atom is given that the body does not give; no run is left where the
//! look says so, and one is where it does not; and where all atoms that are given are true, the least and the
//! greatest value of each position are labels of a run, and so is each other value where they are among few numbers. A
//! reason is made of the values that were gone along a cut of the layers.
#![tactic(auto)]

mod automaton;
mod cuts;
mod facts;
mod inverse;
mod keep;
mod layers;
mod sides;
mod states;

pub use automaton::Automaton;
pub use inverse::Inverse;
