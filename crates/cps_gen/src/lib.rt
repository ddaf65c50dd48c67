//! Models of three families, made of drawn numbers: knapsacks, job shops and tours.
//!
//! `generate` answers the model that `specs/` states of a family, a size and a seed. What is drawn comes from the words
//! of `Lcg64Xsh32::new(seed, stream)`, with a stream of its own for each family: a number below `n` is the next word
//! modulo `n`. So a model is the same on each machine and in each run.
//!
//! Grids of `n` rows and `n` columns, the steps of jobs and the pairs of nodes, are numbered row by row: number `t`
//! stands in row `t / n` and column `t % n`.
#![tactic(auto)]

mod draws;
mod family;
mod jobshop;
mod knapsack;
mod models;
mod parts;
mod tour;

pub use family::Family;
pub use models::generate;
