//! The model of a problem over whole numbers, as plain data, and what its parts mean: variables with domains,
//! constraints, an objective to minimise, assumptions, and advice to a search that changes no meaning.
//!
//! The definitions on which every other crate stands are in `specs/`: the value of references, literals and
//! expressions at an assignment, when a constraint holds, what a solution and a best solution are, which models are
//! valid, and which status two bounds show. They follow the comments of the public message definitions of CP-SAT
//! models, but for the rules of validity with their limits and for the choices that `docs/DECISIONS.md` lists.
#![tactic(auto)]

mod bound;
mod bounds;
mod constraint;
mod exprs;
mod fault;
mod listed;
mod model;
mod numbers;
mod parts;
mod place;
mod reference;
mod status;
mod steering;
mod text;

pub use bound::Bound;
pub use bounds::is_within;
pub use constraint::{Constraint, Kind};
pub use exprs::Exprs;
pub use fault::FaultName;
pub use listed::Listed;
pub use model::{CpModel, LinearExpr, Objective, Variable};
pub use numbers::{are_different, is_rising};
pub use parts::{Arc, Area, Event, Run, Transition, Use};
pub use place::Place;
pub use reference::{negated, variable_of};
pub use status::Status;
pub use steering::{Choose, Hint, Select, Strategy};
pub use text::Text;

/// References to variables, or numbers of constraints or nodes. A reference `i >= 0` names variable `i`, and `i < 0`
/// names variable `-i - 1`, negated.
pub type Refs = Listed<i32>;

/// Whole numbers.
pub type Ints = Listed<i64>;
