//! What a kind of constraint says of domains, whatever enforces it.
//!
//! A rule knows its body alone. It looks at a store and says which atoms the body gives there, or that the body cannot
//! hold, and, when it is asked, by which facts. `cps_enforce` makes a propagator of it.
#![tactic(auto)]

mod rule;

pub use rule::{Hint, Look, Narrowing, Rule};
