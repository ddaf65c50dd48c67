//! Edge finding: others leave a span no room in their window, so it ends after the window and comes after each of them.
//! It starts no sooner than those can be done that start from some time on.
//!
//! Source: Vilím, "Filtering Algorithms for the Unary Resource Constraint" (2008).
ghost use Rattle.std.specs.Prelude.{◌≡◌, ◌≤ℤ◌, true, IfSome};
ghost use Rattle.cps_instance.specs.Tasks.{span_subjects, subjects_of_span};
ghost use Rattle.cps_p_span.specs.Citing.{Cites};
ghost use Rattle.cps_p_nooverlap.specs.Crowds.{low_at, IsCrowd, LastsAt, StartsFrom};
ghost use Rattle.cps_p_span.specs.Spans.{IsSpan, AreSpans};

use crate::crowd::{Ends, Marks, PushedSpan, Window, count_of, is_overfull, is_reached, total};
use crate::jobs::Job;
use crate::pushes::{Push, Pushed, SetRule, note};
use crate::sides::cite_low;
use crate::theta_tree::ThetaLambdaTree;
use crate::timeline::Timeline;
use crate::windows::{cite_length, cite_runs};
use cps_instance::Span;
use cps_literal::Atom;
use cps_trail::Before;
use std::alloc::AllocError;

/// Spans that start and end in a window, and a span that has no room there beside them.
#[derive(Clone, Copy)]
pub(crate) struct Edge {
    pub(crate) pushed: PushedSpan,
    /// How long the span is that is pushed.
    pub(crate) weight: u64,
    pub(crate) from: i64,
    pub(crate) to: i64,
    /// From when on those start after which it starts.
    pub(crate) edge: i64,
}

impl Edge {
    /// Whether a job lies in the window.
    pub(crate) fn includes(&self, job: &Job) -> bool {
        self.from <= job.earliest_start && job.latest_end <= self.to
    }

    /// Whether a job is of those after which the span starts that is pushed.
    pub(crate) fn is_before(&self, job: &Job) -> bool {
        self.edge <= job.earliest_start && job.latest_end <= self.to
    }

    /// By how much they are longer than they need to be, if they are `taken` long.
    pub(crate) fn slack(&self, taken: i64) -> i64 {
        self.from
            .saturating_add(taken)
            .saturating_add(i64::try_from(self.weight).unwrap_or(0))
            .saturating_sub(self.to)
            .saturating_sub(1)
    }

    /// The same in longer windows, if those after which it starts are `part` long.
    pub(crate) fn loosened(&self, slack: i64, part: i64) -> Edge {
        let mut loose = *self;
        loose.to = self.to.wrapping_add(slack);
        loose.edge = self.pushed.time.wrapping_sub(part);
        loose
    }
}

/// Notes the gray jobs that come after the set, which ends by a time, and takes them out.
fn push_gray(
    timeline: &Timeline,
    tree: &mut ThetaLambdaTree,
    to: i64,
    pushes: &mut Vec<Pushed>,
) -> Result<(), AllocError> {
    for _ in 0..timeline.jobs.len() {
        match tree.gray_after(to) {
            Some(leaf) => {
                tree.remove(leaf);
                let push = Push {
                    rule: SetRule::EdgeFinding,
                    time: tree.end(),
                    to,
                };
                if let Some(entry) = timeline.by_earliest_start.get(leaf) {
                    if let Some(job) = timeline.jobs.get(entry.index) {
                        note(pushes, entry.index, job, push)?;
                    }
                }
            }
            None => return Ok(()),
        }
    }
    Ok(())
}

/// Notes which jobs are pushed. Jobs turn gray from the latest end on, and a gray one with which the set would end after
/// its window comes after the set.
pub(crate) fn find_edges(
    timeline: &Timeline,
    tree: &mut ThetaLambdaTree,
    pushes: &mut Vec<Pushed>,
) -> Result<(), AllocError> {
    let mut left = tree.fill(timeline)?;
    for entry in timeline.by_latest_end.iter().rev() {
        if let Some(job) = timeline.jobs.get(entry.index) {
            if job.is_sure() {
                push_gray(timeline, tree, job.latest_end, pushes)?;
                left = left.wrapping_sub(1);
                if left < 2 {
                    // What one alone pushes is known from pairs.
                    return Ok(());
                }
                tree.make_gray(job.leaf, job.earliest_start, job.length);
            }
        }
    }
    Ok(())
}

/// The fewest jobs that leave a job no room in a window that ends at `to`, the latest start first, and those of them
/// after which it starts at `pushed.time`.
pub(crate) fn edge_of(timeline: &Timeline, job: &Job, pushed: PushedSpan, to: i64) -> Option<Edge> {
    let mut taken: i64 = 0;
    let mut from = None;
    let mut edge = None;
    if to.saturating_sub(job.earliest_start) < job.length {
        from = Some(job.earliest_start);
    }
    for entry in timeline.by_earliest_start.iter().rev() {
        if let Some(other) = timeline.jobs.get(entry.index) {
            if other.is_sure() && other.place != job.place && other.latest_end <= to {
                taken = taken.saturating_add(other.length);
                let start = other.earliest_start.min(job.earliest_start);
                let room = to.saturating_sub(start).saturating_sub(taken);
                if from.is_none() && room < job.length {
                    from = Some(start);
                }
                if edge.is_none() && pushed.time <= other.earliest_start.saturating_add(taken) {
                    edge = Some(other.earliest_start);
                }
                if let (Some(from), Some(edge)) = (from, edge) {
                    return Some(Edge {
                        pushed,
                        weight: job.weight(),
                        from,
                        to,
                        edge,
                    });
                }
            }
        }
    }
    None
}

/// The sum of the part's weights, if the counted spans leave no room for the crowd's span, which is another of `spans`
/// spans.
fn part_of(marks: &Marks, crowd: Edge, spans: usize) -> Option<u64>
    ensures { IfSome result (λ all. IsCrowd spans marks.now.whole.items marks.now.part.items crowd all) }
{
    let whole = marks.whole.as_slice();
    let part = marks.part.as_slice();
    let all = total(whole)?;
    let late = count_of(part, spans)?;
    if whole.len() != spans || crowd.pushed.place >= spans || crowd.weight == 0 {
        return None;
    }
    if whole[crowd.pushed.place] != 0 || part[crowd.pushed.place] != 0 {
        return None;
    }
    if is_overfull(crowd.from, crowd.to, all, crowd.weight) {
        return Some(late);
    }
    None
}

/// Adds that a span takes so long, and starts at a time or later.
fn cite_early(
    past: &Before,
    span: &Span,
    weight: u64,
    window: Window,
    facts: &mut Vec<Atom>,
) -> Result<bool, AllocError>
    requires { IsSpan past.now.first span.now }
    ensures { result ≡ Ok true → Cites past.now (subjects_of_span span.now) facts.old.items facts.new.items
        (λ xs. LastsAt xs span.now weight × (window.from ≤ℤ low_at window.ends window.is_reversed xs span.now)) }
{
    if !cite_length(past, span, weight, facts)? {
        return Ok(false);
    }
    cite_low(past, span, window, facts)
}

/// Adds why a span comes after those that are a part of a crowd.
pub(crate) fn cite_edge(
    past: &Before,
    spans: &[Span],
    marks: &Marks,
    crowd: Edge,
    facts: &mut Vec<Atom>,
) -> Result<bool, AllocError>
    requires spans { AreSpans past.now.first spans.now }
    ensures { result ≡ Ok true → Cites past.now (span_subjects spans.now) facts.old.items facts.new.items
        (λ xs. StartsFrom crowd.pushed.is_reversed xs spans.now crowd.pushed.place crowd.pushed.time) }
{
    match part_of(marks, crowd, spans.len()) {
        Some(counted) => {
            if !is_reached(crowd.edge, counted, crowd.pushed.time) {
                return Ok(false);
            }
            let window = Window {
                ends: Ends::Both,
                is_reversed: crowd.pushed.is_reversed,
                from: crowd.from,
                to: crowd.to,
            };
            if !cite_early(
                past,
                &spans[crowd.pushed.place],
                crowd.weight,
                window,
                facts,
            )? {
                return Ok(false);
            }
            if !cite_runs(past, spans, marks.whole.as_slice(), window, facts)? {
                return Ok(false);
            }
            let late = Window {
                ends: Ends::Both,
                is_reversed: crowd.pushed.is_reversed,
                from: crowd.edge,
                to: crowd.to,
            };
            cite_runs(past, spans, marks.part.as_slice(), late, facts)
        }
        None => Ok(false),
    }
}
