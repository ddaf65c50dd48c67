//! The log of a proof, certified as it is written.
//!
//! A solver hands what it found to a `Tracer` (CaDiCaL's name for what writes proofs): sums that it defined, reasons
//! with what each follows from, and clauses that it learnt. A learnt clause comes with hints, the numbers of earlier
//! clauses by which unit propagation from its box comes to a clause that is false. They are tried before it becomes an
//! item, so nothing need be known of whoever learnt it. This is the form of LRAT (Cruz-Filipe, Heule, Hunt, Kaufmann and
//! Schneider-Kamp, "Efficient certified RAT verification", 2017) over atoms of integer variables.
#![tactic(auto)]

mod tracer;

pub use tracer::Tracer;
