//! The objective as a base and terms that are held at bounds.
//!
//! At every assignment it is worth the same as the objective: the base, and each term's weight times what its subject
//! is above its bound. Where no solution that is still looked for has a subject below its term's bound, the base is a
//! lower bound of them all. Two steps raise it: the bound of one term rises (`lift`), or a core, which is a set of
//! terms that cannot all stay at their bounds, gives up the least of its weights, which the sum of its subjects takes
//! over at a bound one greater (`split`). This is the algorithm OLL of Andres, Kaufmann, Matheis and Schaub,
//! "Unsatisfiability-based Optimization in clasp" (2012), section 4, as Morgado, Dodaro and Marques-Silva, "Core-Guided
//! MaxSAT with Soft Cardinality Constraints" (2014), section 3, state it, over bounds of whole-number subjects in place
//! of literals.
//!
//! The core is marked in the terms, so that its words go by cases on one list. Facts are said of one list of values, so
//! that no law quantifies over predicates; `lift_below` and `split_below` lift them to all solutions below an
//! incumbent. Terms of weight 0 stay: dropping them would save little, and places in the form would move.
#![tactic(auto)]

mod below;
mod held;
mod mark;
mod objective;
mod reform;

pub use below::Ceiling;
pub use held::Held;
pub use mark::assumption;
pub use objective::{greatest_sum, objective_terms};
pub use reform::Reform;
