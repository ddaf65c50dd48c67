//! Intervals of whole numbers, and the ends of what subjects can be now.
ghost use Rattle.std.specs.Prelude.{◌≡◌, ◌<◌, ◌≤◌, ◌^◌, IsTrue, false, length, All, OnOk};
ghost use Rattle.cps_p_alldiff.specs.Intervals.{covers, covered, numbers, IsInRange, AreEnds, IsFull, IsOverfull, AreTightIntervals};

use cps_domain::DOMAIN_LIMIT;
use cps_trail::Store;
use std::alloc::AllocError;

/// An interval, with its least and its greatest number.
#[derive(Clone, Copy, PartialEq, Eq)]
pub(crate) struct Interval {
    pub(crate) low: i64,
    pub(crate) high: i64,
}

/// Whether a domain may have the two ends as values, and the first is not greater than the second.
pub(crate) fn are_ends(hall: &Interval) -> bool
    ensures yes { IsTrue result → AreEnds hall.now }
    ensures no { result ≡ false → AreEnds hall.now → ⊥ }
{
    -DOMAIN_LIMIT <= hall.low && hall.low <= hall.high && hall.high <= DOMAIN_LIMIT
}

/// Whether an interval has all numbers of another.
pub(crate) fn covers(hall: &Interval, ends: &Interval) -> bool
    ensures { result ≡ covers hall.now ends.now }
{
    hall.low <= ends.low && ends.high <= hall.high
}

/// How many of these intervals an interval covers.
fn covered(hall: &Interval, ends: &[Interval]) -> usize
    ensures { result ≡ covered hall.now ends.now }
{
    ends.iter().filter(|each| covers(hall, each)).count()
}

/// How many numbers there are in an interval.
pub(crate) fn numbers(hall: &Interval) -> u64
    requires { IsInRange hall.now }
    ensures is { result ≡ numbers hall.now }
    ensures small { result ≤ 2 ^ 63 }
{
    hall.high.abs_diff(hall.low) + 1
}

/// Whether an interval covers as many of these as it has numbers.
pub(crate) fn is_full(hall: &Interval, ends: &[Interval]) -> bool
    ensures { IsTrue result → IsFull ends.now hall.now }
{
    if !are_ends(hall) {
        return false;
    }
    numbers(hall) <= covered(hall, ends) as u64
}

/// Whether it covers more.
pub(crate) fn is_overfull(hall: &Interval, ends: &[Interval]) -> bool
    ensures yes { IsTrue result → IsOverfull ends.now hall.now }
    ensures no { result ≡ false → AreEnds hall.now → covered hall.now ends.now ≤ numbers hall.now }
{
    if !are_ends(hall) {
        return false;
    }
    numbers(hall) < covered(hall, ends) as u64
}

/// Measures the ends of what each subject can be now. Answers whether one is not where it was.
fn measure_all(store: &Store, subjects: &[u32], ends: &mut [Interval]) -> bool
    requires subjects { All (λ i. i < length store.now.first) subjects.now }
    requires size { length ends.old ≡ length subjects.now }
    ensures { AreTightIntervals store.now subjects.now ends.new }
{
    let mut moved = false;
    for (place, subject) in subjects.iter().enumerate() {
        let domain = store.domain(*subject);
        let now = Interval {
            low: domain.min(),
            high: domain.max(),
        };
        moved |= ends[place] != now;
        ends[place] = now;
    }
    moved
}

/// The same in a list that has the ends as they were last measured, or none. Where it has none they moved.
pub(crate) fn measure(
    store: &Store,
    subjects: &[u32],
    ends: &mut Vec<Interval>,
) -> Result<bool, AllocError>
    requires { All (λ i. i < length store.now.first) subjects.now }
    ensures { OnOk result (AreTightIntervals store.now subjects.now ends.new.items) }
{
    if ends.len() == subjects.len() {
        return Ok(measure_all(store, subjects, ends.as_mut_slice()));
    }
    ends.clear();
    ends.resize(subjects.len(), Interval { low: 0, high: 0 })?;
    measure_all(store, subjects, ends.as_mut_slice());
    Ok(true)
}
