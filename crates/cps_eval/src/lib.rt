//! Whether an assignment is a solution of a model, where it first fails, and what its objective is.
//!
//! `satisfies` says exactly whether an assignment is a solution, `holds` whether it satisfies one constraint, and
//! `first_violated` the first place at which it is none: domains, constraints, objective and assumptions in order.
//! Domains are tested first, so that the rules of a valid model keep every later sum below 2^62.
//!
//! Each call is linear in the model but for sorting and for these: an interval is evaluated once more for each position
//! that names it, an automaton takes at each label all transitions that some run can take there, and boxes, and
//! intervals of which one ends before it starts, are compared two by two.
#![tactic(auto)]

mod arithmetic;
mod automata;
mod circuits;
mod cumulative;
mod intervals;
mod kinds;
mod levels;
mod lookups;
mod numbers;
mod objectives;
mod reservoirs;
mod sequences;
mod solution;
mod start;
mod values;
mod violation;

pub use circuits::is_circuit;
pub use objectives::{display_value, objective, objective_sum};
pub use solution::satisfies;
pub use start::objective_start;
pub use violation::{first_violated, holds};
