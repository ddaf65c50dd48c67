//! Whether a time is overloaded.
//!
//! A sweep over the starts and the ends of compulsory parts, each sorted, keeps what they demand. That no time is
//! overloaded is proved of the sweep itself: what began and what ended are sums over two orders of the same list. Where
//! the sweep names a time, the demands at it are summed again before it is used; should that not confirm it, each start
//! is tried.
ghost use Rattle.std.specs.Prelude.{◌≡◌, ◌<◌, ◌≤◌, ◌^◌, None, MatchOption, IfOk, IsTrue, false};
ghost use Rattle.cps_p_cumulative.specs.Profile.{height, AreParts, FitsCapacity, IsOverCapacity, IsEndedBy, PassesEnds, StopsAt, IsSwept};

use crate::part::{Part, demand_at};
use std::alloc::{AllocError, Global};

/// Whether all parts demand more than the capacity at a time.
fn is_over(time: i64, parts: &[Part], capacity: u64) -> bool
    requires parts { AreParts parts.now }
    requires capacity { capacity < 2 ^ 63 }
    ensures over { IsTrue result → IsOverCapacity parts.now capacity time }
    ensures room { result ≡ false → height time parts.now ≤ capacity }
{
    let mut sum: u64 = 0;
    for part in parts {
        sum += demand_at(time, part);
        if capacity < sum {
            return true;
        }
    }
    false
}

/// A time at which a part begins and the parts demand more than the capacity.
fn scan(parts: &[Part], capacity: u64) -> Option<i64>
    requires parts { AreParts parts.now }
    requires capacity { capacity < 2 ^ 63 }
    ensures { MatchOption result (FitsCapacity parts.now capacity) (λ time. IsOverCapacity parts.now capacity time) }
{
    for part in parts {
        let time = part.from;
        if is_over(time, parts, capacity) {
            return Some(time);
        }
    }
    None
}

/// How many ends a sweep passed, and what is demanded after them.
#[derive(Clone, Copy)]
pub(crate) struct Ended {
    pub(crate) place: usize,
    pub(crate) level: u64,
}

/// Passes each end at a time or before, as long as the level has what it demands.
fn pass_ends(time: i64, ends: &[Part], ended: Ended) -> Ended
    requires before { IsEndedBy ends.now ended time }
    ensures ended { IsEndedBy ends.now result time }
    ensures passes { PassesEnds ends.now ended result }
    ensures stops { StopsAt ends.now result time }
{
    let mut place = ended.place;
    let mut level = ended.level;
    while place < ends.len() && ends[place].to <= i128::from(time) && ends[place].demand <= level {
        level -= ends[place].demand;
        place += 1;
    }
    Ended { place, level }
}

/// One sweep: a time at which what began seems to exceed what ended by more than the capacity. `starts` and `ends` are
/// the parts in the order of their first times, and of their ends.
fn sweep(starts: &[Part], ends: &[Part], capacity: u64) -> Option<i64>
    requires starts { AreParts starts.now }
    requires capacity { capacity < 2 ^ 63 }
    ensures { result ≡ None → IsSwept starts.now ends.now capacity }
{
    let mut ended = Ended { place: 0, level: 0 };
    let mut last = i64::MIN;
    for part in starts {
        let time = part.from;
        if time < last {
            return Some(time);
        }
        last = time;
        let passed = pass_ends(time, ends, ended);
        let level = passed.level + part.demand;
        if capacity < level {
            return Some(time);
        }
        ended = Ended {
            place: passed.place,
            level,
        };
    }
    None
}

/// Room for the parts in two orders.
#[derive(Drop)]
pub(crate) struct Orders {
    starts: Vec<Part>,
    ends: Vec<Part>,
}

impl Orders {
    /// No part.
    pub(crate) fn new(alloc: Global) -> Self {
        Orders {
            starts: Vec::new(alloc),
            ends: Vec::new(alloc),
        }
    }
}

/// A time at which the parts demand more than the capacity, where there is one.
pub(crate) fn overload(
    parts: &[Part],
    capacity: u64,
    orders: &mut Orders,
) -> Result<Option<i64>, AllocError>
    requires parts { AreParts parts.now }
    requires capacity { capacity < 2 ^ 63 }
    ensures { IfOk result (λ found. MatchOption found (FitsCapacity parts.now capacity)
        (λ time. IsOverCapacity parts.now capacity time)) }
{
    orders.starts.clear();
    orders.starts.extend_from_slice(parts)?;
    orders.starts.sort_unstable_by_key(|part| part.from);
    orders.ends.clear();
    orders.ends.extend_from_slice(parts)?;
    orders.ends.sort_unstable_by_key(|part| part.to);
    match sweep(orders.starts.as_slice(), orders.ends.as_slice(), capacity) {
        Some(time) => {
            if is_over(time, parts, capacity) {
                return Ok(Some(time));
            }
        }
        None => return Ok(None),
    }
    Ok(scan(parts, capacity))
}
