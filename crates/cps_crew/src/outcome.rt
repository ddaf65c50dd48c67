//! What a search came to.
ghost use Rattle.std.specs.Prelude.{◌≡◌, Some, IfSome, IsNone};
ghost use Rattle.cps_crew.specs.Logs.{log_of};

use crate::ended::AnyEnded;
use cps_log::LogItem;
use cps_model::{Bound, Ints, Listed, Refs, Status};

/// What the workers found, with the bounds that they reached on the objective.
#[derive(Drop)]
pub struct Outcome {
    pub status: Status,
    /// A solution whose objective is `upper`.
    pub solution: Option<Ints>,
    /// The least objective that was found, infinite where no solution was.
    pub upper: Bound,
    /// At most the objective of each solution, infinite where there is none.
    pub lower: Bound,
    /// Of an infeasible model assumptions that cannot all be true, those of the first worker that left no solution at
    /// all; there may be none where it is infeasible without them.
    pub core: Refs,
    /// How each worker ended, by number.
    pub ends: Listed<AnyEnded>,
}

impl Outcome {
    /// The log of the proof, if one was kept.
    pub fn log(&self) -> Option<&[LogItem]>
        ensures none { IsNone result → IsNone (log_of self.now.ends) }
        ensures some { IfSome result (λ items. log_of self.now.ends ≡ Some items.now) }
    {
        self.ends.as_slice().first()?.log()
    }
}

/// How the workers ended, by number, and the bounds that they left.
#[derive(Drop)]
pub struct Reached {
    pub upper: Bound,
    pub lower: Bound,
    pub ends: Vec<AnyEnded>,
}
