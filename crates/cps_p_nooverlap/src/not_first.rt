//! Not-first: a span comes after one of others that would have no room after it, so it starts no sooner than the first
//! of them can end.
//!
//! Source: Vilím, "Filtering Algorithms for the Unary Resource Constraint" (2008).
ghost use Rattle.std.specs.Prelude.{◌≡◌, true};
ghost use Rattle.cps_instance.specs.Tasks.{span_subjects};
ghost use Rattle.cps_p_span.specs.Citing.{Cites};
ghost use Rattle.cps_p_nooverlap.specs.Crowds.{StartsFrom};
ghost use Rattle.cps_p_span.specs.Spans.{AreSpans};

use crate::crowd::{Ends, Marks, PushedSpan, Window, count_beside, is_overfull};
use crate::jobs::Job;
use crate::pushes::{Push, Pushed, SetRule, note};
use crate::theta_tree::ThetaTree;
use crate::timeline::Timeline;
use crate::windows::{cite_late, cite_runs};
use cps_instance::Span;
use cps_literal::Atom;
use cps_trail::Before;
use std::alloc::AllocError;

/// Spans that end from the time on to which they push another, and by a time until when there is no room for them all
/// after it.
#[derive(Clone, Copy)]
pub(crate) struct NotFirst {
    pub(crate) pushed: PushedSpan,
    pub(crate) to: i64,
    /// When the span that is pushed ends at the earliest.
    pub(crate) end: i64,
}

impl NotFirst {
    /// Whether a job lies in the window.
    pub(crate) fn includes(&self, job: &Job) -> bool {
        self.pushed.time <= job.earliest_end && job.latest_end <= self.to
    }

    /// By how much they are longer than they need to be, if they are `taken` long.
    pub(crate) fn slack(&self, taken: i64) -> i64 {
        self.end
            .saturating_add(taken)
            .saturating_sub(self.to)
            .saturating_sub(1)
    }

    /// The same in a longer window.
    pub(crate) fn loosened(&self, slack: i64) -> NotFirst {
        let mut loose = *self;
        loose.to = self.to.wrapping_add(slack);
        loose
    }
}

/// The latest of the latest starts before `time` of jobs that push others, but for the job at `index`.
fn last_before(timeline: &Timeline, time: i64, index: usize) -> Option<i64> {
    let mut last = None;
    for entry in timeline.by_latest_start.as_slice() {
        if time <= entry.key {
            return last;
        }
        if let Some(job) = timeline.jobs.get(entry.index) {
            if job.is_sure() && entry.index != index {
                last = Some(entry.key);
            }
        }
    }
    last
}

/// Notes which jobs of `timeline` are pushed. With time reversed, as in `opposite`, they are not last: they are asked in
/// the order of their latest ends, and the set is that of the jobs that start before that end at the latest.
pub(crate) fn find_not_first(
    timeline: &Timeline,
    opposite: &Timeline,
    tree: &mut ThetaTree,
    pushes: &mut Vec<Pushed>,
) -> Result<(), AllocError> {
    tree.clear(opposite.jobs.len())?;
    let mut turn = 0;
    for entry in opposite.by_latest_end.as_slice() {
        turn = tree.admit(opposite, turn, entry.key);
        if let Some(job) = opposite.jobs.get(entry.index) {
            if job.latest_start < tree.end() {
                let end = tree.end_without(job.leaf);
                if job.latest_start < end {
                    note_not_first(timeline, opposite, entry.index, end, pushes)?;
                }
            }
        }
    }
    Ok(())
}

/// Notes that the job at an index is not last with time reversed, where the others end at `end` or later.
fn note_not_first(
    timeline: &Timeline,
    opposite: &Timeline,
    index: usize,
    end: i64,
    pushes: &mut Vec<Pushed>,
) -> Result<(), AllocError> {
    if let Some(job) = timeline.jobs.get(index) {
        let latest_end = job.earliest_start.wrapping_neg();
        if let Some(last) = last_before(opposite, latest_end, index) {
            let push = Push {
                rule: SetRule::NotFirst,
                time: last.wrapping_neg(),
                to: end.wrapping_neg(),
            };
            note(pushes, index, job, push)?;
        }
    }
    Ok(())
}

/// The fewest jobs that a job cannot come before, the earliest end first, for which there is no room after it.
pub(crate) fn not_first_of(timeline: &Timeline, job: &Job, pushed: PushedSpan) -> Option<NotFirst> {
    let mut taken: i64 = 0;
    for entry in timeline.by_latest_end.as_slice() {
        if let Some(other) = timeline.jobs.get(entry.index) {
            if other.is_sure() && other.place != job.place && pushed.time <= other.earliest_end {
                taken = taken.saturating_add(other.length);
                let to = other.latest_end;
                if to < job.earliest_end.saturating_add(taken) {
                    let end = job.earliest_end;
                    return Some(NotFirst { pushed, to, end });
                }
            }
        }
    }
    None
}

/// Adds why a span comes after one of others, for which there is no room after it.
pub(crate) fn cite_not_first(
    past: &Before,
    spans: &[Span],
    marks: &Marks,
    crowd: NotFirst,
    facts: &mut Vec<Atom>,
) -> Result<bool, AllocError>
    requires spans { AreSpans past.now.first spans.now }
    ensures { result ≡ Ok true → Cites past.now (span_subjects spans.now) facts.old.items facts.new.items
        (λ xs. StartsFrom crowd.pushed.is_reversed xs spans.now crowd.pushed.place crowd.pushed.time) }
{
    let whole = marks.whole.as_slice();
    match count_beside(whole, crowd.pushed.place, spans.len()) {
        Some(counted) => {
            if !is_overfull(crowd.end, crowd.to, counted, 0) {
                return Ok(false);
            }
            if !cite_late(
                past,
                &spans[crowd.pushed.place],
                crowd.pushed,
                crowd.end,
                facts,
            )? {
                return Ok(false);
            }
            let window = Window {
                ends: Ends::End,
                is_reversed: crowd.pushed.is_reversed,
                from: crowd.pushed.time,
                to: crowd.to,
            };
            cite_runs(past, spans, whole, window, facts)
        }
        None => Ok(false),
    }
}
