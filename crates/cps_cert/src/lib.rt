//! Checks a response to a model by the log of its proof.
//!
//! A log says step by step why no solution is better than the one that a response gives, or why there is none. Each
//! line has a clause, and is accepted where the clause follows: from one constraint, from the objective, from a sum, or
//! by unit propagation over the clauses before it. The last clause is empty. Who wrote the log is not trusted: `laws`
//! says that what is accepted is true. The form is that of clausal proofs (Goldberg and Novikov, "Verification of
//! proofs of unsatisfiability for CNF formulas", 2003) over atoms of integer variables, with the reasons of lazy clause
//! generation beside them.
#![tactic(auto)]

mod assignments;
mod assumed;
mod checking;
mod claim;
mod cursor;
mod domains;
mod fields;
mod fixed;
mod intervals;
pub mod laws;
mod ledger;
mod number;
mod objective;
mod part;
mod reader;
mod refuting;
mod response;
mod shown;
mod trying;
mod values;
mod verdict;
mod words;

pub use checking::check;
pub use claim::Claim;
pub use part::{SplitInput, model_part, split};
pub use verdict::Verdict;
