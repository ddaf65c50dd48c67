//! Core-guided search: a worker that raises the lower bound core by core.
//!
//! The objective is kept as a base plus, for each term, a weight times the excess of a subject over a bound; this form
//! is worth the objective at every assignment (`Reform`). A worker assumes that each subject with a weight stays at its
//! bound. Where an assumption fails, the reasons on the trail lead to a core: terms that cannot all stay at their
//! bounds in a solution below z. The base then rises by the least weight in the core, and the sum of the core's
//! subjects takes that weight over at a bound one greater, so that the form is worth the same as before. This is the
//! algorithm OLL of Andres, Kaufmann, Matheis and Schaub, "Unsatisfiability-based Optimization in clasp" (2012),
//! section 4, as Morgado, Dodaro and Marques-Silva, "Core-Guided MaxSAT with Soft Cardinality Constraints" (2014),
//! section 3, state it, over bounds of whole-number subjects in place of literals.
//!
//! The contracts say that the form stays worth the objective, that what is raised is at most the objective of each
//! solution and at most z, and that a turn reforms, or ends since no solution can have the new form, exactly where a
//! decision is due and the assumption of a term is false, as long as terms are assumed.
//! `CoreEnded` is the worker as others see it after it ended.
#![tactic(auto)]

mod assume;
mod ended;
mod first;
mod guided;
mod laws;
mod worker;

pub use ended::CoreEnded;
pub use laws::{core_turns_come_to_a_run, ended_core_workers_are_honest};
pub use worker::CoreWorker;
