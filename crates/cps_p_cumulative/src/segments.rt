//! Where a span has no room beside the compulsory parts of others.
//!
//! The starts and ends of the parts, in order, cut the times into segments at each of which the parts demand the same.
//! A span starts after the last time of a full segment that it would run in at its earliest, and so for its end. The
//! span's own part is taken off where it is among the parts.
//!
//! Nothing is claimed here: what is found is certified before it is used.
ghost use Rattle.std.specs.Prelude.{◌<◌, length};
ghost use Rattle.cps_p_cumulative.specs.Running.{IsSpanOf};

use crate::measure::least_end;
use crate::part::Part;
use cps_instance::Span;
use cps_trail::Before;
use std::alloc::{AllocError, Global};

/// From when on the parts demand more, or less.
#[derive(Clone, Copy)]
struct Change {
    time: i64,
    demand: i128,
}

/// The times from `from` on and before `to`. The parts demand `level` at each.
#[derive(Clone, Copy)]
pub(crate) struct Segment {
    pub(crate) from: i64,
    pub(crate) to: i64,
    pub(crate) level: i128,
}

/// The segments at which something is demanded, in order, with room for the changes between them.
#[derive(Drop)]
pub(crate) struct Segments {
    changes: Vec<Change>,
    pub(crate) list: Vec<Segment>,
}

/// The nearest number that is a time.
pub(crate) fn time_of(value: i128) -> i64 {
    if value < i128::from(i64::MIN) {
        return i64::MIN;
    }
    if i128::from(i64::MAX) < value {
        return i64::MAX;
    }
    value as i64
}

impl Segments {
    /// No segment.
    pub(crate) fn new(alloc: Global) -> Self {
        Segments {
            changes: Vec::new(alloc),
            list: Vec::new(alloc),
        }
    }

    /// Takes down where parts begin and end.
    fn change(&mut self, parts: &[Part]) -> Result<(), AllocError> {
        self.changes.clear();
        for part in parts {
            self.changes.push(Change {
                time: part.from,
                demand: i128::from(part.demand),
            })?;
            self.changes.push(Change {
                time: time_of(part.to),
                demand: -i128::from(part.demand),
            })?;
        }
        self.changes.sort_unstable_by_key(|change| change.time);
        Ok(())
    }

    /// Makes the segments of these parts.
    pub(crate) fn fill(&mut self, parts: &[Part]) -> Result<(), AllocError> {
        self.change(parts)?;
        self.list.clear();
        let mut from = i64::MIN;
        let mut level: i128 = 0;
        for change in self.changes.as_slice() {
            if from < change.time && 0 < level {
                self.list.push(Segment {
                    from,
                    to: change.time,
                    level,
                })?;
            }
            level = level.wrapping_add(change.demand);
            from = change.time;
        }
        Ok(())
    }
}

/// Where a span may lie, what it demands at least, and how much it may demand beside others.
#[derive(Clone, Copy)]
pub(crate) struct Place {
    pub(crate) start: (i64, i64),
    pub(crate) end: (i64, i64),
    pub(crate) demand: (i64, i64),
    pub(crate) most: i64,
    /// Whether the span's own compulsory part is among those of the segments.
    pub(crate) is_present: bool,
}

/// Where a span may lie.
pub(crate) fn place_of(past: &Before, span: &Span, demand: u32, most: i64) -> Place
    requires span { IsSpanOf past.now.first span.now }
    requires demand { demand < length past.now.first }
{
    let start = past.ends(span.start);
    let last = match span.length {
        Some(length) => time_of(i128::from(start.1) + i128::from(length)),
        None => past.ends(span.end).1,
    };
    Place {
        start,
        end: (time_of(least_end(past, span)), last),
        demand: past.ends(demand),
        most,
        is_present: false,
    }
}

/// What others demand in a segment.
fn others(place: &Place, segment: &Segment) -> i128 {
    let is_own = place.is_present && place.start.1 <= segment.from && segment.to <= place.end.0;
    if is_own && 0 < place.demand.0 {
        segment.level.wrapping_sub(i128::from(place.demand.0))
    } else {
        segment.level
    }
}

/// Whether others leave a span no room in a segment.
fn is_full(place: &Place, segment: &Segment) -> bool {
    i128::from(place.most) < others(place, segment).wrapping_add(i128::from(place.demand.0))
}

/// The last time of the first segment that is full and in which the span would run if it started as early as it may.
pub(crate) fn first_full(place: &Place, segments: &[Segment]) -> Option<i64> {
    for segment in segments {
        if place.end.0 <= segment.from {
            return None;
        }
        if place.start.0 < segment.to && is_full(place, segment) {
            return Some(segment.to.min(place.end.0).wrapping_sub(1));
        }
    }
    None
}

/// The first time of the last segment that is full and in which the span would run if it ended as late as it may.
pub(crate) fn last_full(place: &Place, segments: &[Segment]) -> Option<i64> {
    let count = segments.len();
    for k in 0..count {
        let segment = &segments[count - 1 - k];
        if segment.to <= place.start.1 {
            return None;
        }
        if segment.from < place.end.1 && is_full(place, segment) {
            return Some(segment.from.max(place.start.1));
        }
    }
    None
}

/// A time at which the span surely runs, if it is present, and others leave it no room.
pub(crate) fn surely_full(place: &Place, segments: &[Segment]) -> Option<i64> {
    for segment in segments {
        let from = segment.from.max(place.start.1);
        if from < segment.to.min(place.end.0) && is_full(place, segment) {
            return Some(from);
        }
    }
    None
}

/// A segment in which the span surely runs and others demand most.
pub(crate) fn fullest(place: &Place, segments: &[Segment]) -> Option<(i64, i64)> {
    let mut best = None;
    for segment in segments {
        let is_own = place.start.1 <= segment.from && segment.to <= place.end.0;
        let room = time_of(i128::from(place.most).wrapping_sub(others(place, segment)));
        let is_less = match best {
            Some((_, least)) => room < least,
            None => true,
        };
        if is_own && is_less {
            best = Some((segment.from, room));
        }
    }
    best
}

/// The segment at which most is demanded.
pub(crate) fn highest(segments: &[Segment]) -> Option<(i64, i64)> {
    let mut best = None;
    for segment in segments {
        let level = time_of(segment.level);
        let is_more = match best {
            Some((_, most)) => most < level,
            None => true,
        };
        if is_more {
            best = Some((segment.from, level));
        }
    }
    best
}
