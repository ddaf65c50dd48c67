//! Tests of domains, atoms and the store, over their public calls alone.
//!
//! What these calls promise is proved where they stand. The tests compare them with worked rows, whose answers come
//! from outside, and see that a call with ample memory succeeds. In a crate of their own they do not have those proved
//! twice.
#![tactic(auto)]

#[cfg(test)]
mod atoms;
#[cfg(test)]
mod domains;
#[cfg(test)]
mod stores;
