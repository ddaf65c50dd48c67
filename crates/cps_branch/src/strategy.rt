//! What a strategy takes and decides.
//!
//! Each way to choose is a rank of the open subjects (`rank_of`), of which the least is taken and of equal ones the
//! first listed; so four ways share one loop, and the first listed, of equal ranks, needs none. Ranks have 128 bits,
//! since the opposite of a count of values need not fit into 64. Each way to select is one atom, which is undecided
//! because the subject has more than one value.
ghost use Rattle.std.specs.Prelude.{pos, negsuc, neg_ℤ, ◌≡◌, ◌<◌, ◌≤◌, ◌-◌, ◌/◌, ◌^◌, ◌+ℤ◌, ◌-ℤ◌, ◌≤ℤ◌, ◌<ℤ◌, All, length, unsigned_abs, MatchOption, IfSome, slice_index, slice_index_or, take};
ghost use Rattle.cps_domain.specs.Window.{RisesFrom, IsIntervalAbove, intervals, size_of, width as width_of};
ghost use Rattle.cps_domain.specs.Division.{IsFloor};
ghost use Rattle.cps_branch.specs.Fixed.{IsFixed};
ghost use Rattle.cps_branch.specs.Choice.{IsUndecided};
ghost use Rattle.cps_branch.specs.Strategies.{IsLeast, IsGreatestValue, HasSize, IsMiddle, IsMedian, IsRank, IsTaken, better_of, Selects, IsDone, FollowsStrategies, AreWithin, DecidesBy, listed, values_of};

use crate::scan::is_fixed;
use cps_domain::Domain;
use cps_instance::Steering;
use cps_literal::{Atom, Op};
use cps_model::{Choose, Select};
use cps_trail::Store;

/// A subject with the number by which a strategy compares it.
#[derive(Clone, Copy)]
struct Ranked {
    subject: u32,
    rank: i128,
}

/// The least value of a subject.
fn least(store: &Store, subject: u32) -> i64
    requires { subject < length store.now.first }
    ensures least { IsLeast store.now subject result }
    ensures low { negsuc (2 ^ 62 - 2) ≤ℤ result }
{
    store.domain(subject).min()
}

/// The greatest value of a subject.
fn greatest(store: &Store, subject: u32) -> i64
    requires { subject < length store.now.first }
    ensures greatest { IsGreatestValue store.now subject result }
    ensures high { result ≤ℤ pos (2 ^ 62 - 1) }
{
    store.domain(subject).max()
}

/// How many values a subject has.
fn size(store: &Store, subject: u32) -> u64
    requires { subject < length store.now.first }
    ensures { HasSize store.now subject result }
{
    let domain = store.domain(subject);
    // Reading its ends gives the proof the domain's invariant.
    prove!(domain.min() <= domain.max());
    domain.size()
}

/// The opposite of a number.
fn opposite(value: i64) -> i128
    ensures { result ≡ neg_ℤ value }
{
    -i128::from(value)
}

/// The opposite of a count.
fn opposite_count(count: u64) -> i128
    ensures { result ≡ neg_ℤ (pos count) }
{
    -i128::from(count)
}

/// The rank by which a strategy compares a subject with others. The least is taken.
fn rank_of(store: &Store, choose: Choose, subject: u32) -> i128
    requires { subject < length store.now.first }
    ensures { IsRank choose store.now subject result }
{
    match choose {
        Choose::First => 0,
        Choose::LowestMin => i128::from(least(store, subject)),
        Choose::HighestMax => opposite(greatest(store, subject)),
        Choose::MinDomainSize => i128::from(size(store, subject)),
        Choose::MaxDomainSize => opposite_count(size(store, subject)),
    }
}

/// A subject with its rank.
fn with_rank(store: &Store, choose: Choose, subject: u32) -> Ranked
    requires { subject < length store.now.first }
    ensures subject { result.subject ≡ subject }
    ensures rank { IsRank choose store.now result.subject result.rank }
{
    Ranked {
        subject,
        rank: rank_of(store, choose, subject),
    }
}

/// The one of lesser rank; the first if both have the same.
fn better(best: Ranked, next: Ranked) -> Ranked
    ensures { result ≡ better_of best next }
{
    if best.rank <= next.rank { best } else { next }
}

/// The subject of least rank, where those before `from` are fixed and that at `from` is not.
fn least_ranked(store: &Store, choose: Choose, subjects: &[u32], from: usize) -> Ranked
    requires within { All (λ i. i < length store.now.first) subjects.now }
    requires from { from < length subjects.now }
    requires before { All (IsFixed store.now) (take from subjects.now) }
    requires open_there { IsFixed store.now (slice_index subjects.now from) → ⊥ }
    ensures { IsTaken choose store.now subjects.now result.subject result.rank }
{
    let mut best = with_rank(store, choose, subjects[from]);
    for place in from + 1..subjects.len() {
        if !is_fixed(store, subjects[place]) {
            best = better(best, with_rank(store, choose, subjects[place]));
        }
    }
    best
}

/// The subject that a strategy takes, where those before `from` are fixed and that at `from` is not.
fn taken(store: &Store, choose: Choose, subjects: &[u32], from: usize) -> Ranked
    requires within { All (λ i. i < length store.now.first) subjects.now }
    requires from { from < length subjects.now }
    requires before { All (IsFixed store.now) (take from subjects.now) }
    requires open_there { IsFixed store.now (slice_index subjects.now from) → ⊥ }
    ensures { IsTaken choose store.now subjects.now result.subject result.rank }
{
    match choose {
        Choose::First => {
            Ranked {
                subject: subjects[from],
                rank: 0,
            }
        }
        _ => least_ranked(store, choose, subjects, from),
    }
}

/// Half of the way from one number up to another, rounded down.
fn half_way(low: i64, high: i64) -> u64
    requires order { low ≤ℤ high }
    requires low { negsuc (2 ^ 62 - 2) ≤ℤ low }
    requires high { high ≤ℤ pos (2 ^ 62 - 1) }
    ensures { result ≡ unsigned_abs (high -ℤ low) / 2 }
{
    (high - low) as u64 / 2
}

/// A number some steps up.
fn raised(value: i64, steps: u64) -> i64
    requires low { negsuc (2 ^ 62 - 2) ≤ℤ value }
    requires room { (value +ℤ pos steps) ≤ℤ pos (2 ^ 62) }
    ensures { result ≡ value +ℤ pos steps }
{
    value + steps as i64
}

/// The middle between the least and the greatest value of a subject, rounded down.
fn middle(store: &Store, subject: u32) -> i64
    requires subject { subject < length store.now.first }
    requires open_now { IsFixed store.now subject → ⊥ }
    ensures middle { IsMiddle store.now subject result }
    ensures low { negsuc (2 ^ 62 - 2) ≤ℤ result }
    ensures high { result <ℤ pos (2 ^ 62 - 1) }
{
    let low = least(store, subject);
    raised(low, half_way(low, greatest(store, subject)))
}

/// How many numbers an interval has.
fn width(interval: &(i64, i64)) -> u64
    requires { IsIntervalAbove (negsuc (2 ^ 62 - 1)) interval.now }
    ensures { result ≡ width_of interval.now }
{
    (interval.1 - interval.0) as u64 + 1
}

/// The value at a place of rising intervals, counted from 0.
fn value_at_place(intervals: &[(i64, i64)], place: u64) -> i64
    requires rising { RisesFrom (negsuc (2 ^ 62 - 1)) intervals.now }
    requires place { place < size_of intervals.now }
    ensures { result ≡ slice_index_or (values_of intervals.now) place (pos 0) }
{
    let mut left = place;
    for interval in intervals {
        let width = width(interval);
        if left < width {
            return raised(interval.0, left);
        }
        left -= width;
    }
    // The place is below the number of values.
    unreachable!()
}

/// The median of a subject's values, the lower of two.
fn median(store: &Store, subject: u32) -> i64
    requires { subject < length store.now.first }
    ensures { IsMedian store.now subject result }
{
    let domain = store.domain(subject);
    value_at_place(domain.intervals(), (domain.size() - 1) / 2)
}

/// What is decided of a subject that is not fixed.
fn selected(store: &Store, select: Select, subject: u32) -> Atom
    requires subject { subject < length store.now.first }
    requires open_now { IsFixed store.now subject → ⊥ }
    ensures subject { result.subject ≡ subject }
    ensures selected { Selects select store.now result }
{
    match select {
        Select::MinValue => Atom {
            subject,
            op: Op::Le,
            value: least(store, subject),
        },
        Select::MaxValue => Atom {
            subject,
            op: Op::Ge,
            value: greatest(store, subject),
        },
        Select::LowerHalf => Atom {
            subject,
            op: Op::Le,
            value: middle(store, subject),
        },
        Select::UpperHalf => Atom {
            subject,
            op: Op::Ge,
            value: raised(middle(store, subject), 1),
        },
        Select::MedianValue => Atom {
            subject,
            op: Op::Eq,
            value: median(store, subject),
        },
    }
}

/// What a strategy decides, where its subjects before `from` are fixed and that at `from` is not.
fn decided_by(store: &Store, strategy: &Steering, from: usize) -> Atom
    requires within { All (λ i. i < length store.now.first) strategy.now.subjects }
    requires from { from < length strategy.now.subjects }
    requires before { All (IsFixed store.now) (take from strategy.now.subjects) }
    requires open_there { IsFixed store.now (slice_index strategy.now.subjects from) → ⊥ }
    ensures decides { DecidesBy strategy.now store.now result }
    ensures undecided { IsUndecided store.now result }
{
    let taken = taken(store, strategy.choose, strategy.subjects.as_slice(), from);
    // Reading its ends gives the proof that they are in order.
    prove!(least(store, taken.subject) <= greatest(store, taken.subject));
    selected(store, strategy.select, taken.subject)
}

/// What strategies decide, if of all subjects that they list those before `place` are fixed and that at `place` is not;
/// `None` if they list no more than `place` subjects.
pub(crate) fn decided_at(store: &Store, strategies: &[Steering], place: usize) -> Option<Atom>
    requires within { AreWithin (length store.now.first) strategies.now }
    requires before { All (IsFixed store.now) (take place (listed strategies.now)) }
    requires open_there { place < length (listed strategies.now)
        → IsFixed store.now (slice_index (listed strategies.now) place) → ⊥ }
    ensures choice { MatchOption result
        ((length (listed strategies.now) ≤ place) × All (IsDone store.now) strategies.now)
        (FollowsStrategies strategies.now store.now) }
    ensures undecided { IfSome result (IsUndecided store.now) }
{
    let mut left = place;
    for strategy in strategies {
        let count = strategy.subjects.len();
        if left < count {
            return Some(decided_by(store, strategy, left));
        }
        left -= count;
    }
    None
}
