//! Which jobs a rule pushes, and how far.

use crate::jobs::Job;
use std::alloc::AllocError;

/// By which rule spans push another.
#[derive(Clone, Copy)]
pub(crate) enum SetRule {
    Detectable,
    NotFirst,
    EdgeFinding,
}

/// That a job is pushed.
#[derive(Clone, Copy)]
pub(crate) struct Push {
    pub(crate) rule: SetRule,
    /// When it starts at the earliest.
    pub(crate) time: i64,
    /// By edge finding, when the jobs end at the latest that push it there.
    pub(crate) to: i64,
}

/// A push, and the index of the job that is pushed.
#[derive(Clone, Copy)]
pub(crate) struct Pushed {
    pub(crate) index: usize,
    pub(crate) push: Push,
    /// By what pushes are put in order: the job's earliest start, then its latest end, the latest first.
    rank: (i64, i64),
}

/// How far a job is pushed, if it is pushed so far that something follows: a span that is not surely present is absent
/// where it would start later than it can.
fn effect_of(push: Push, job: &Job) -> Option<Push> {
    if push.time <= job.earliest_start {
        return None;
    }
    if job.open.is_none() {
        return Some(push);
    }
    if push.time <= job.latest_start {
        return None;
    }
    Some(Push {
        rule: push.rule,
        time: job.latest_start.wrapping_add(1),
        to: push.to,
    })
}

/// Notes that the job at an index is pushed, if something follows.
pub(crate) fn note(
    pushes: &mut Vec<Pushed>,
    index: usize,
    job: &Job,
    push: Push,
) -> Result<(), AllocError> {
    if let Some(push) = effect_of(push, job) {
        pushes.push(Pushed {
            index,
            push,
            rank: (job.earliest_start, job.latest_end.wrapping_neg()),
        })?;
    }
    Ok(())
}

/// Puts pushes in the order in which they are counted: that of the earliest starts. Of jobs that start together, the
/// one that ends last goes first, or where `are_as_listed` the one that is listed first.
pub(crate) fn arrange(pushes: &mut Vec<Pushed>, are_as_listed: bool) {
    if are_as_listed {
        pushes.sort_unstable_by_key(|pushed| (pushed.rank.0, pushed.index));
    } else {
        pushes.sort_unstable_by_key(|pushed| (pushed.rank, pushed.index));
    }
}
