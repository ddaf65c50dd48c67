//! How a model is solved: what the command line says of it, and what the search goes by.
#![tactic(auto)]

mod options;

pub use options::{GREATEST_GAP, LEAST_WORKERS, MOST_CONFLICTS, MOST_WORKERS, Options};
