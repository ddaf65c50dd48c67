//! The result of a run of the program.
use cps_portfolio::Outcome;

/// The exit status of a run, and the outcome where it solved a model.
#[derive(Drop)]
pub struct Ran {
    pub exit: u8,
    pub outcome: Option<Outcome>,
}
