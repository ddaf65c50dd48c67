//! The whole program over any source of bytes and any sink.
//!
//! The contract of `solve_main` says what the program does: OPTIMAL comes only with a solution that none beats by more
//! than the gap that the words give, INFEASIBLE only where there is none, FEASIBLE and UNKNOWN only where each worker
//! spent its budget of conflicts, or did its rounds near solutions, on clauses that said something new; each item of a
//! log says what is so, and it is closed where the response is proved; `valid` comes only for a valid model, and a
//! canonical text is read as the same model; `verified` comes only for a response that is true of its model; and every
//! other answer comes only where its cause is there.
#![tactic(auto)]

mod answer;
mod checking;
mod exits;
mod generation;
mod input;
mod ran;
mod solve;
mod solving;

pub use exits::OUT_OF_MEMORY;
pub use ran::Ran;
pub use solve::solve_main;
