//! Spans as jobs: what a store leaves to each span that may be present.
//!
//! The algorithms on sets see jobs alone: their earliest and latest starts and ends, their least lengths, and whether the
//! span is surely there. Time is reversed by mirroring the jobs, so that each algorithm is written once. What is found of
//! jobs is only a proposal: it is counted once more on the store before it is used.
ghost use Rattle.std.specs.Prelude.{◌<◌, length, All};
ghost use Rattle.cps_p_span.specs.Spans.{IsSpan, AreSpans};

use cps_instance::Span;
use cps_literal::{Atom, Truth};
use cps_trail::Before;
use std::alloc::AllocError;

/// A span that is present, or of which one presence atom alone is open.
#[derive(Clone, Copy)]
pub(crate) struct Job {
    pub(crate) place: usize,
    pub(crate) earliest_start: i64,
    pub(crate) latest_start: i64,
    pub(crate) earliest_end: i64,
    pub(crate) latest_end: i64,
    /// How long it is at least.
    pub(crate) length: i64,
    /// The place of its open atom.
    pub(crate) open: Option<usize>,
    /// Its leaf in a tree.
    pub(crate) leaf: usize,
}

/// A time of a job, by which jobs are put in order.
#[derive(Clone, Copy)]
pub(crate) enum Key {
    EarliestStart,
    LatestStart,
    EarliestEnd,
}

impl Job {
    pub(crate) fn key(&self, key: Key) -> i64 {
        match key {
            Key::EarliestStart => self.earliest_start,
            Key::LatestStart => self.latest_start,
            Key::EarliestEnd => self.earliest_end,
        }
    }

    /// How long it is at least.
    pub(crate) fn weight(&self) -> u64 {
        u64::try_from(self.length).unwrap_or(0)
    }

    /// Whether it pushes others: it is surely there and takes time.
    pub(crate) fn is_sure(&self) -> bool {
        self.open.is_none() && self.length > 0
    }

    /// The same with time reversed.
    pub(crate) fn mirrored(&self) -> Job {
        Job {
            place: self.place,
            earliest_start: self.latest_end.wrapping_neg(),
            latest_start: self.earliest_end.wrapping_neg(),
            earliest_end: self.latest_start.wrapping_neg(),
            latest_end: self.earliest_start.wrapping_neg(),
            length: self.length,
            open: self.open,
            leaf: self.leaf,
        }
    }
}

/// Whether the atoms of a list were true.
#[derive(Clone, Copy)]
enum Standing {
    Sure,
    /// All but the one at this place, which was open.
    Open(usize),
    Away,
}

/// Whether these atoms were all true, or all but one, which was open.
fn standing_of(past: &Before, atoms: &[Atom]) -> Standing
    requires { All (λ u. u.subject < length past.now.first) atoms.now }
{
    let mut found = Standing::Sure;
    for place in 0..atoms.len() {
        match past.truth(atoms[place]) {
            Truth::Yes => (),
            Truth::No => return Standing::Away,
            Truth::Undecided => {
                if !matches!(found, Standing::Sure) {
                    return Standing::Away;
                }
                found = Standing::Open(place);
            }
        }
    }
    found
}

/// The job that a span was, if at most one presence atom was open.
fn job_of(past: &Before, span: &Span, place: usize) -> Option<Job>
    requires { IsSpan past.now.first span.now }
{
    let open = match standing_of(past, span.presence.as_slice()) {
        Standing::Sure => None,
        Standing::Open(place) => Some(place),
        Standing::Away => return None,
    };
    let (earliest_start, latest_start) = past.ends(span.start);
    let (earliest_end, latest_end, length) = match span.length {
        Some(far) => (
            earliest_start.wrapping_add(far),
            latest_start.wrapping_add(far),
            far,
        ),
        None => {
            let end = past.ends(span.end);
            (end.0, end.1, end.0.saturating_sub(latest_start))
        }
    };
    Some(Job {
        place,
        earliest_start,
        latest_start,
        earliest_end,
        latest_end,
        length,
        open,
        leaf: 0,
    })
}

/// The jobs among these spans.
pub(crate) fn list_jobs(
    past: &Before,
    spans: &[Span],
    jobs: &mut Vec<Job>,
) -> Result<(), AllocError>
    requires { AreSpans past.now.first spans.now }
{
    jobs.clear();
    for place in 0..spans.len() {
        if let Some(job) = job_of(past, &spans[place], place) {
            jobs.push(job)?;
        }
    }
    Ok(())
}
