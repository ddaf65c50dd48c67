//! Reverse unit propagation over clauses of integer atoms.
//!
//! A clause is implied by others where its opposite, propagated through them, comes to a clause that is false.
//! `RupChecker` answers that exactly. This is the step of a clausal proof (Goldberg and Novikov, "Verification of proofs
//! of unsatisfiability for CNF formulas", 2003) over atoms of integer variables. Which clause to look at comes from two
//! watched atoms a clause (Moskewicz and others, "Chaff", 2001; Eén and Sörensson, "An extensible SAT-solver", 2003).
//! The watches only propose: each clause that they name is looked at before it counts, and where they name no more a
//! scan of all clauses has the last word. `LratChecker` is told which clauses to look at, and looks at no other.
#![tactic(auto)]

mod arena;
mod checker;
mod lrat;
mod narrowing;
mod propagation;
mod scan;
mod trailed;
mod watching;

pub use checker::RupChecker;
pub use lrat::LratChecker;
pub use trailed::TrailedDomains;
