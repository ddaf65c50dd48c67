//! A core-guided worker that has ended, as others see it.

ghost use Rattle.std.specs.Prelude.{◌≡◌, Some, IfSome, IsNone};

use cps_clauses::Journal;
use cps_log::LogItem;
use cps_model::{Bound, Refs};
use cps_port::raised_to;
use cps_search::{End, Ended};
use std::marker::Model;

/// A core-guided worker that has ended. Only a worker's `finish` makes one. Contracts see it as an `Ended` whose
/// `raised` counts what the worker itself raised too.
pub struct CoreEnded {
    pub(crate) ended: Ended,
    /// The greatest bound to which the worker itself raised the lower one.
    pub(crate) raised: Option<Bound>,
    /// The assumptions by which it ended, if it ended in place of a reform.
    pub(crate) own: Option<Refs>,
}

// Written out, so that crates above do not prove it anew.
impl Drop for CoreEnded {
    fn drop(self) {
        let CoreEnded {
            ended: _ended,
            raised: _raised,
            own: _own,
        } = self;
    }
}

impl Model for CoreEnded {
    ghost use Rattle.cps_search.specs.Ends.{Ending};

    ghost Value = { Ending };

    ghost use Rattle.cps_port.specs.Order.{greater_of};
    ghost use Rattle.cps_core_guided.specs.Guiding.{core_or};

    ghost view = { λ e. record e.ended {
      raised = greater_of e.ended.raised e.raised;
      core = core_or e.own e.ended.core;
    } };
}

impl CoreEnded {
    /// How many clauses it learnt.
    pub fn tally(&self) -> u64
        ensures { result ≡ self.now.tally }
    {
        self.ended.tally()
    }

    /// What it learnt.
    pub fn journal(&self) -> &Journal
        ensures { result.now ≡ self.now.journal }
    {
        self.ended.journal()
    }

    /// The best solution that it found.
    pub fn best(&self) -> Option<&[i64]>
        ensures none { IsNone result → IsNone self.now.best }
        ensures some { IfSome result (λ values. self.now.best ≡ Some values.now) }
    {
        self.ended.best()
    }

    /// Why it ended.
    pub fn end(&self) -> &End
        ensures { result.now ≡ self.now.end }
    {
        self.ended.end()
    }

    /// The greatest bound to which it raised the lower one; `None` if it raised nothing.
    pub fn raised(&self) -> Option<Bound>
        ensures { result ≡ self.now.raised }
    {
        match self.raised {
            Some(own) => raised_to(self.ended.raised(), own),
            None => self.ended.raised(),
        }
    }

    /// Assumptions that are sufficient for infeasibility, in the order of the model, where it left no solution at all;
    /// else none.
    pub fn core(&self) -> &[i32]
        ensures { result.now ≡ self.now.core }
    {
        match &self.own {
            Some(core) => core.as_slice(),
            None => self.ended.core(),
        }
    }

    /// The items of its log, if it kept one.
    pub fn log(&self) -> Option<&[LogItem]>
        ensures none { IsNone result → IsNone self.now.log }
        ensures some { IfSome result (λ items. self.now.log ≡ Some items.now) }
    {
        self.ended.log()
    }
}
