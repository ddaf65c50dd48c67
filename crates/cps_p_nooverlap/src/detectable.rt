//! Detectable precedences: a span comes after each of those that start before it can end, so it starts no sooner than
//! all of them can be done.
//!
//! Source: Vilím, "Filtering Algorithms for the Unary Resource Constraint" (2008).
ghost use Rattle.std.specs.Prelude.{◌≡◌, true};
ghost use Rattle.cps_instance.specs.Tasks.{span_subjects};
ghost use Rattle.cps_p_span.specs.Citing.{Cites};
ghost use Rattle.cps_p_nooverlap.specs.Crowds.{StartsFrom};
ghost use Rattle.cps_p_span.specs.Spans.{AreSpans};

use crate::crowd::{Ends, Marks, PushedSpan, Window, count_beside, is_reached};
use crate::jobs::Job;
use crate::pushes::{Push, Pushed, SetRule, note};
use crate::theta_tree::ThetaTree;
use crate::timeline::Timeline;
use crate::windows::{cite_late, cite_runs};
use cps_instance::Span;
use cps_literal::Atom;
use cps_trail::Before;
use std::alloc::AllocError;

/// Spans that start in a window, and a span that ends after it.
#[derive(Clone, Copy)]
pub(crate) struct Predecessors {
    pub(crate) pushed: PushedSpan,
    pub(crate) from: i64,
    pub(crate) to: i64,
    /// When the span that is pushed ends at the earliest.
    pub(crate) end: i64,
}

impl Predecessors {
    /// Whether a job lies in the window.
    pub(crate) fn includes(&self, job: &Job) -> bool {
        self.from <= job.earliest_start && job.latest_start <= self.to
    }

    /// By how much they are longer than they need to be, if they are `taken` long.
    pub(crate) fn slack(&self, taken: i64) -> i64 {
        self.from
            .saturating_add(taken)
            .saturating_sub(self.pushed.time)
    }

    /// The same in a longer window.
    pub(crate) fn loosened(&self, slack: i64) -> Predecessors {
        let mut loose = *self;
        loose.from = self.from.wrapping_sub(slack);
        loose
    }
}

/// Notes which jobs are pushed. They are asked in the order of their earliest ends, and the set is that of the jobs that
/// start before that end at the latest.
pub(crate) fn find_precedences(
    timeline: &Timeline,
    tree: &mut ThetaTree,
    pushes: &mut Vec<Pushed>,
) -> Result<(), AllocError> {
    tree.clear(timeline.jobs.len())?;
    let mut turn = 0;
    for entry in timeline.by_earliest_end.as_slice() {
        turn = tree.admit(timeline, turn, entry.key);
        if let Some(job) = timeline.jobs.get(entry.index) {
            if job.earliest_start < tree.end() {
                let push = Push {
                    rule: SetRule::Detectable,
                    time: tree.end_without(job.leaf),
                    to: entry.key,
                };
                note(pushes, entry.index, job, push)?;
            }
        }
    }
    Ok(())
}

/// The fewest predecessors of a job, the latest start first, that push it to `pushed.time`.
pub(crate) fn predecessors_of(
    timeline: &Timeline,
    job: &Job,
    pushed: PushedSpan,
) -> Option<Predecessors> {
    let mut taken: i64 = 0;
    for entry in timeline.by_earliest_start.iter().rev() {
        if let Some(other) = timeline.jobs.get(entry.index) {
            if other.is_sure()
                && other.place != job.place
                && other.latest_start < job.earliest_end
            {
                taken = taken.saturating_add(other.length);
                if pushed.time <= other.earliest_start.saturating_add(taken) {
                    return Some(Predecessors {
                        pushed,
                        from: other.earliest_start,
                        to: job.earliest_end.wrapping_sub(1),
                        end: job.earliest_end,
                    });
                }
            }
        }
    }
    None
}

/// Adds why a span comes after others that start before it can end.
pub(crate) fn cite_precedences(
    past: &Before,
    spans: &[Span],
    marks: &Marks,
    crowd: Predecessors,
    facts: &mut Vec<Atom>,
) -> Result<bool, AllocError>
    requires spans { AreSpans past.now.first spans.now }
    ensures { result ≡ Ok true → Cites past.now (span_subjects spans.now) facts.old.items facts.new.items
        (λ xs. StartsFrom crowd.pushed.is_reversed xs spans.now crowd.pushed.place crowd.pushed.time) }
{
    let whole = marks.whole.as_slice();
    match count_beside(whole, crowd.pushed.place, spans.len()) {
        Some(counted) => {
            if !is_reached(crowd.from, counted, crowd.pushed.time) {
                return Ok(false);
            }
            if crowd.end <= crowd.to {
                return Ok(false);
            }
            if !cite_late(
                past,
                &spans[crowd.pushed.place],
                crowd.pushed,
                crowd.end,
                facts,
            )? {
                return Ok(false);
            }
            let window = Window {
                ends: Ends::Start,
                is_reversed: crowd.pushed.is_reversed,
                from: crowd.from,
                to: crowd.to,
            };
            cite_runs(past, spans, whole, window, facts)
        }
        None => Ok(false),
    }
}
