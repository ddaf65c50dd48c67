//! What a brancher goes by.

use crate::plan::Plan;
use cps_model::Listed;

/// What a brancher goes by from its first choice to its last.
pub enum Guidance {
    /// Strategies in order, and then the variables.
    Steered(Plan),
    /// For each variable the value of a hint, if there is one. Which variable is next the activities say.
    Hinted(Listed<Option<i64>>),
}

// Written out, so that crates above do not prove it anew.
impl Drop for Guidance {
    fn drop(self) {
        match self {
            Guidance::Steered(_plan) => {}
            Guidance::Hinted(_values) => {}
        }
    }
}
