//! Spans that are counted in a window of time, and a span that they push.
//!
//! Time may be reversed: then a span starts at the negative of its end, and ends at the negative of its start. So each
//! rule is written once, for spans that push another to a later start.
ghost use Rattle.std.specs.Prelude.{◌≡◌, ◌+◌, ◌<ℤ◌, ◌≤ℤ◌, ◌+ℤ◌, pos, IfSome, IsTrue};
ghost use Rattle.std.specs.List.{sum};
ghost use Rattle.cps_p_nooverlap.specs.Crowds.{IsSpanCount, IsUncounted, pushed_by};

use crate::detectable::Predecessors;
use crate::edge_finding::Edge;
use crate::jobs::Job;
use crate::not_first::NotFirst;

/// Which ends of a span lie in a window.
#[derive(Clone, Copy)]
pub(crate) enum Ends {
    /// It starts there and ends there.
    Both,
    Start,
    End,
}

/// A window of time.
#[derive(Clone, Copy)]
pub(crate) struct Window {
    pub(crate) ends: Ends,
    pub(crate) is_reversed: bool,
    pub(crate) from: i64,
    pub(crate) to: i64,
}

/// A span that others push to a later start.
#[derive(Clone, Copy)]
pub(crate) struct PushedSpan {
    pub(crate) is_reversed: bool,
    pub(crate) place: usize,
    /// When it starts at the earliest.
    pub(crate) time: i64,
    /// The place of the one atom of its presence that is open, where it is not surely present. It is absent then.
    pub(crate) open: Option<usize>,
}

/// Spans that push another to a later start, by the rule that says so.
#[derive(Clone, Copy)]
pub(crate) enum Crowd {
    /// They start before it can end, so each of them comes before it: their precedences are detectable.
    Detectable(Predecessors),
    /// They end too early to come after it all, so one of them comes before it.
    NotFirst(NotFirst),
    /// They leave it no room in their window, so it comes after them.
    EdgeFinding(Edge),
}

impl Crowd {
    /// The span that is pushed.
    pub(crate) fn pushed(&self) -> PushedSpan
        ensures { result ≡ pushed_by self.now }
    {
        match self {
            Crowd::Detectable(crowd) => crowd.pushed,
            Crowd::NotFirst(crowd) => crowd.pushed,
            Crowd::EdgeFinding(crowd) => crowd.pushed,
        }
    }

    /// Whether a job is of the crowd.
    pub(crate) fn includes(&self, job: &Job) -> bool {
        match self {
            Crowd::Detectable(crowd) => crowd.includes(job),
            Crowd::NotFirst(crowd) => crowd.includes(job),
            Crowd::EdgeFinding(crowd) => crowd.includes(job),
        }
    }

    /// Whether a job is of the part of an edge finding's crowd after which the pushed span starts.
    pub(crate) fn is_part(&self, job: &Job) -> bool {
        match self {
            Crowd::EdgeFinding(crowd) => crowd.is_before(job),
            _ => false,
        }
    }

    /// By how much it is longer than it needs to be, if it is `taken` long.
    pub(crate) fn slack(&self, taken: i64) -> i64 {
        match self {
            Crowd::Detectable(crowd) => crowd.slack(taken),
            Crowd::NotFirst(crowd) => crowd.slack(taken),
            Crowd::EdgeFinding(crowd) => crowd.slack(taken),
        }
    }

    /// The same in longer windows, if its part is `part` long.
    pub(crate) fn loosened(&self, slack: i64, part: i64) -> Crowd {
        match self {
            Crowd::Detectable(crowd) => Crowd::Detectable(crowd.loosened(slack)),
            Crowd::NotFirst(crowd) => Crowd::NotFirst(crowd.loosened(slack)),
            Crowd::EdgeFinding(crowd) => Crowd::EdgeFinding(crowd.loosened(slack, part)),
        }
    }
}

/// For each span its length if it is counted in a window, and if it is counted in a part of it; else 0. The lists are
/// kept for the next crowd.
#[derive(Drop)]
pub(crate) struct Marks {
    pub(crate) whole: Vec<u64>,
    pub(crate) part: Vec<u64>,
}

/// The sum of weights; `None` if it does not fit into 64 bits.
pub(crate) fn total(weights: &[u64]) -> Option<u64>
    ensures { IfSome result (λ all. all ≡ sum weights.now) }
{
    let mut all: u64 = 0;
    for weight in weights {
        all = all.checked_add(*weight)?;
    }
    Some(all)
}

/// The sum of weights, if there is one weight for each of `spans` spans and the sum is above 0.
pub(crate) fn count_of(weights: &[u64], spans: usize) -> Option<u64>
    ensures { IfSome result (λ all. IsSpanCount spans weights.now all) }
{
    let all = total(weights)?;
    if weights.len() == spans && all > 0 {
        return Some(all);
    }
    None
}

/// The same, if the span at a place is not counted.
pub(crate) fn count_beside(weights: &[u64], place: usize, spans: usize) -> Option<u64>
    ensures { IfSome result (λ all. IsUncounted spans weights.now place all) }
{
    let all = count_of(weights, spans)?;
    if place < weights.len() && weights[place] == 0 {
        return Some(all);
    }
    None
}

/// Whether two lengths are more in all than there is from one time to another.
pub(crate) fn is_overfull(from: i64, to: i64, counted: u64, more: u64) -> bool
    ensures { IsTrue result → to <ℤ (from +ℤ pos (counted + more)) }
{
    let taken = from as i128 + counted as i128 + more as i128;
    let end = to as i128;
    end < taken
}

/// Whether work of this length that begins at one time lasts until another or longer.
pub(crate) fn is_reached(from: i64, counted: u64, time: i64) -> bool
    ensures { IsTrue result → time ≤ℤ (from +ℤ pos counted) }
{
    let reached = from as i128 + counted as i128;
    let wanted = time as i128;
    wanted <= reached
}
