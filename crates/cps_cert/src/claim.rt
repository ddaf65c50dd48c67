//! What a response claims of its model.
use cps_model::Refs;

/// What a log is to show.
pub enum Claim {
    /// No solution has an objective below this value.
    Optimal(i64),
    /// No free assignment makes all these literals true.
    Infeasible(Refs),
}

// Written out, so that crates above do not prove it anew.
impl Drop for Claim {
    fn drop(self) {
        match self {
            Claim::Optimal(_value) => {}
            Claim::Infeasible(_literals) => {}
        }
    }
}
