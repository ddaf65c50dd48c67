//! Atoms, comparisons of a subject with a number, clauses of them, and numbers for atoms.
//!
//! An atom is true at a list of values where its subject's value meets it, and a clause where one of its
//! atoms is. Each call is exact: `negate` is true exactly where its atom is false, `implies` asks of
//! every whole number, `truth_in` of each value of a domain, and `normal_clause` keeps a clause's truth at
//! every list of values. Atoms over integer variables as the literals of learnt clauses are those of
//! Ohrimenko, Stuckey and Codish, "Propagation via lazy clause generation" (2009), section 3.
#![tactic(auto)]

pub mod atom;
pub mod clause;
pub mod normal;
pub mod table;

pub use atom::{Atom, Op, Truth};
pub use clause::Clause;
pub use normal::normal_clause;
pub use table::LiteralTable;
