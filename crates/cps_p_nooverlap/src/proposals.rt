//! Which spans push a job: a crowd of few of them, with windows as wide as it allows.
//!
//! An algorithm by trees says only that and how far a job is pushed. Here the spans that push it are named, so that the
//! push can be counted on the store and explained: as few as do it, since each is a fact of the reason, and in windows
//! that are widened as far as the crowd stays one, since wider windows are weaker facts. Nothing is proved of either.

use crate::crowd::{Crowd, Marks, PushedSpan, total};
use crate::detectable::predecessors_of;
use crate::edge_finding::edge_of;
use crate::jobs::Job;
use crate::not_first::not_first_of;
use crate::overload::Overload;
use crate::pushes::{Push, SetRule};
use crate::timeline::Timeline;
use std::alloc::AllocError;

/// A crowd that pushes a job to `push.time`, if there is one.
pub(crate) fn crowd_of(
    timeline: &Timeline,
    job: &Job,
    push: Push,
    is_reversed: bool,
) -> Option<Crowd> {
    let pushed = PushedSpan {
        is_reversed,
        place: job.place,
        time: push.time,
        open: job.open,
    };
    match push.rule {
        SetRule::Detectable => Some(Crowd::Detectable(predecessors_of(timeline, job, pushed)?)),
        SetRule::NotFirst => Some(Crowd::NotFirst(not_first_of(timeline, job, pushed)?)),
        SetRule::EdgeFinding => Some(Crowd::EdgeFinding(edge_of(timeline, job, pushed, push.to)?)),
    }
}

/// Replaces `weights` by a weight of 0 for each of `spans` spans.
fn clear_weights(weights: &mut Vec<u64>, spans: usize) -> Result<(), AllocError> {
    weights.clear();
    weights.resize(spans, 0)
}

/// Writes a weight, where there is such a place.
fn set_weight(weights: &mut [u64], place: usize, weight: u64) {
    if place < weights.len() {
        weights[place] = weight;
    }
}

/// The weight at a place; 0 where there is no such place.
fn weight_at(weights: &[u64], place: usize) -> u64 {
    match weights.get(place) {
        Some(weight) => *weight,
        None => 0,
    }
}

/// Marks the jobs of a crowd among `spans` spans.
pub(crate) fn mark_crowd(
    jobs: &[Job],
    crowd: &Crowd,
    spans: usize,
    marks: &mut Marks,
) -> Result<(), AllocError> {
    clear_weights(&mut marks.whole, spans)?;
    clear_weights(&mut marks.part, spans)?;
    let place = crowd.pushed().place;
    for job in jobs {
        if job.is_sure() && job.place != place {
            if crowd.includes(job) {
                set_weight(marks.whole.as_mut_slice(), job.place, job.weight());
            }
            if crowd.is_part(job) {
                set_weight(marks.part.as_mut_slice(), job.place, job.weight());
            }
        }
    }
    Ok(())
}

/// Marks the jobs of an overloaded window among `spans` spans.
pub(crate) fn mark_overload(
    jobs: &[Job],
    overload: &Overload,
    spans: usize,
    marks: &mut Marks,
) -> Result<(), AllocError> {
    clear_weights(&mut marks.whole, spans)?;
    clear_weights(&mut marks.part, spans)?;
    for job in jobs {
        if job.is_sure() && overload.includes(job) {
            set_weight(marks.whole.as_mut_slice(), job.place, job.weight());
        }
    }
    Ok(())
}

/// How long the marked spans are in all.
fn length_of(weights: &[u64]) -> i64 {
    i64::try_from(total(weights).unwrap_or(0)).unwrap_or(0)
}

/// Unmarks jobs, outside the marked part, that are not needed where the marked ones are longer by a slack than they
/// need to be. Answers what is left of it.
fn thin_out(timeline: &Timeline, slack: i64, marks: &mut Marks) -> i64 {
    let mut slack = slack;
    for entry in timeline.by_earliest_start.as_slice() {
        if let Some(job) = timeline.jobs.get(entry.index) {
            let is_aside = weight_at(marks.part.as_slice(), job.place) == 0;
            let is_marked = weight_at(marks.whole.as_slice(), job.place) > 0;
            if is_aside && is_marked && job.length <= slack {
                set_weight(marks.whole.as_mut_slice(), job.place, 0);
                slack = slack.wrapping_sub(job.length);
            }
        }
    }
    slack
}

/// The same crowd, weaker: without jobs that it does not need, in the longest windows that it crowds.
pub(crate) fn loosened(timeline: &Timeline, crowd: &Crowd, marks: &mut Marks) -> Crowd {
    let slack = crowd.slack(length_of(marks.whole.as_slice()));
    let left = thin_out(timeline, slack, marks);
    crowd.loosened(left, length_of(marks.part.as_slice()))
}

/// The longest window that jobs of an overloaded one overfill, without jobs that are not needed.
pub(crate) fn widened(timeline: &Timeline, overload: &Overload, marks: &mut Marks) -> Overload {
    let slack = overload.slack(length_of(marks.whole.as_slice()));
    let left = thin_out(timeline, slack, marks);
    overload.loosened(left)
}
