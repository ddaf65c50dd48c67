//! What is seen of a worker of any kind that has ended.
ghost use Rattle.std.specs.Prelude.{◌≡◌, Some, IfSome, IsNone};

use cps_clauses::Journal;
use cps_core_guided::CoreEnded;
use cps_log::LogItem;
use cps_model::Bound;
use cps_search::{End, Ended};
use std::marker::Model;

/// What a worker's `finish` gave.
#[derive(Drop)]
enum Finished {
    /// Of a worker whose frame alone raised the lower bound.
    Plain(Ended),
    /// Of a core-guided worker, which raised it too.
    Core(CoreEnded),
}

/// A worker of any kind that has ended, made of what its `finish` gave.
#[derive(Drop)]
pub struct AnyEnded {
    finished: Finished,
}

impl Model for AnyEnded {
    ghost use Rattle.cps_search.specs.Ends.{Ending};

    ghost Value = { Ending };

    ghost use Rattle.cps_crew.specs.Endings.{seen_of};

    ghost view = { λ e. seen_of e.finished };
}

impl AnyEnded {
    /// A worker that is not core-guided.
    pub fn plain(ended: Ended) -> Self
        ensures { result ≡ ended }
    {
        AnyEnded {
            finished: Finished::Plain(ended),
        }
    }

    /// A core-guided worker.
    pub fn guided(ended: CoreEnded) -> Self
        ensures { result ≡ ended }
    {
        AnyEnded {
            finished: Finished::Core(ended),
        }
    }

    /// How many clauses it learnt.
    pub fn tally(&self) -> u64
        ensures { result ≡ self.now.tally }
    {
        match &self.finished {
            Finished::Plain(ended) => ended.tally(),
            Finished::Core(ended) => ended.tally(),
        }
    }

    /// What it learnt.
    pub fn journal(&self) -> &Journal
        ensures { result.now ≡ self.now.journal }
    {
        match &self.finished {
            Finished::Plain(ended) => ended.journal(),
            Finished::Core(ended) => ended.journal(),
        }
    }

    /// The best solution that it found.
    pub fn best(&self) -> Option<&[i64]>
        ensures none { IsNone result → IsNone self.now.best }
        ensures some { IfSome result (λ values. self.now.best ≡ Some values.now) }
    {
        match &self.finished {
            Finished::Plain(ended) => ended.best(),
            Finished::Core(ended) => ended.best(),
        }
    }

    /// Why it ended.
    pub fn end(&self) -> &End
        ensures { result.now ≡ self.now.end }
    {
        match &self.finished {
            Finished::Plain(ended) => ended.end(),
            Finished::Core(ended) => ended.end(),
        }
    }

    /// The greatest bound to which it raised the lower one; `None` if it raised nothing.
    pub fn raised(&self) -> Option<Bound>
        ensures { result ≡ self.now.raised }
    {
        match &self.finished {
            Finished::Plain(ended) => ended.raised(),
            Finished::Core(ended) => ended.raised(),
        }
    }

    /// Assumptions that are sufficient for infeasibility, in the order of the model, where it left no solution at all;
    /// else none.
    pub fn core(&self) -> &[i32]
        ensures { result.now ≡ self.now.core }
    {
        match &self.finished {
            Finished::Plain(ended) => ended.core(),
            Finished::Core(ended) => ended.core(),
        }
    }

    /// The log that it kept; a core-guided worker keeps none.
    pub fn log(&self) -> Option<&[LogItem]>
        ensures none { IsNone result → IsNone self.now.log }
        ensures some { IfSome result (λ items. self.now.log ≡ Some items.now) }
    {
        match &self.finished {
            Finished::Plain(ended) => ended.log(),
            Finished::Core(ended) => ended.log(),
        }
    }
}
