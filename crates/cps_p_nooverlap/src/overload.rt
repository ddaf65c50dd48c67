//! Overload checking: the spans of a window cannot all be done in it.
//!
//! Source: Vilím, "Filtering Algorithms for the Unary Resource Constraint" (2008).
ghost use Rattle.std.specs.Prelude.{◌≡◌, true};
ghost use Rattle.cps_instance.specs.Parts.{span_runs};
ghost use Rattle.cps_model.specs.Scheduling.{IsNoOverlap};
ghost use Rattle.cps_instance.specs.Tasks.{span_subjects};
ghost use Rattle.cps_p_span.specs.Citing.{Cites};
ghost use Rattle.cps_p_span.specs.Spans.{AreSpans};

use crate::crowd::{Ends, Window, count_of, is_overfull};
use crate::jobs::Job;
use crate::theta_tree::ThetaTree;
use crate::timeline::Timeline;
use crate::windows::cite_runs;
use cps_instance::Span;
use cps_literal::Atom;
use cps_trail::Before;
use std::alloc::AllocError;

/// A window of time that holds too much.
#[derive(Clone, Copy)]
pub(crate) struct Overload {
    pub(crate) from: i64,
    pub(crate) to: i64,
}

impl Overload {
    /// Whether a job lies in the window.
    pub(crate) fn includes(&self, job: &Job) -> bool {
        self.from <= job.earliest_start && job.latest_end <= self.to
    }

    /// By how much the jobs are longer than they need to be, if they are `taken` long.
    pub(crate) fn slack(&self, taken: i64) -> i64 {
        self.from
            .saturating_add(taken)
            .saturating_sub(self.to)
            .saturating_sub(1)
    }

    /// The same window, longer.
    pub(crate) fn loosened(&self, slack: i64) -> Overload {
        Overload {
            from: self.from,
            to: self.to.wrapping_add(slack),
        }
    }
}

/// The end of a window that jobs overfill, if there is one: jobs come to the set in the order of their latest ends, and
/// the set must end by the last of them.
fn overloaded_end(timeline: &Timeline, tree: &mut ThetaTree) -> Result<Option<i64>, AllocError> {
    tree.clear(timeline.jobs.len())?;
    for entry in timeline.by_latest_end.as_slice() {
        if let Some(job) = timeline.jobs.get(entry.index) {
            if job.is_sure() {
                tree.add(job.leaf, job.earliest_start, job.length);
                if job.latest_end < tree.end() {
                    return Ok(Some(job.latest_end));
                }
            }
        }
    }
    Ok(None)
}

/// The start from which on jobs overfill a window that ends at a time, if there is one.
fn overfull_from(timeline: &Timeline, to: i64) -> Option<i64> {
    let mut taken: i64 = 0;
    for entry in timeline.by_earliest_start.iter().rev() {
        if let Some(job) = timeline.jobs.get(entry.index) {
            if job.is_sure() && job.latest_end <= to {
                taken = taken.saturating_add(job.length);
                if to < job.earliest_start.saturating_add(taken) {
                    return Some(job.earliest_start);
                }
            }
        }
    }
    None
}

/// A window that jobs overfill, if there is one.
pub(crate) fn find_overload(
    timeline: &Timeline,
    tree: &mut ThetaTree,
) -> Result<Option<Overload>, AllocError> {
    match overloaded_end(timeline, tree)? {
        Some(to) => match overfull_from(timeline, to) {
            Some(from) => Ok(Some(Overload { from, to })),
            None => Ok(None),
        },
        None => Ok(None),
    }
}

/// Adds why more spans start and end between two times than there is room for.
pub(crate) fn refute_window(
    past: &Before,
    spans: &[Span],
    weights: &[u64],
    overload: Overload,
    facts: &mut Vec<Atom>,
) -> Result<bool, AllocError>
    requires spans { AreSpans past.now.first spans.now }
    ensures { result ≡ Ok true → Cites past.now (span_subjects spans.now) facts.old.items facts.new.items
        (λ xs. IsNoOverlap (span_runs xs spans.now) → ⊥) }
{
    match count_of(weights, spans.len()) {
        Some(counted) => {
            if !is_overfull(overload.from, overload.to, counted, 0) {
                return Ok(false);
            }
            let window = Window {
                ends: Ends::Both,
                is_reversed: false,
                from: overload.from,
                to: overload.to,
            };
            cite_runs(past, spans, weights, window, facts)
        }
        None => Ok(false),
    }
}
