//! Questions on one subject, or on several in order.
ghost use Rattle.std.specs.Prelude.{◌≡◌, ◌↔◌, ℕ, ◌<◌, ◌≤◌, ◌^◌, All, length, slice_index, IsTrue};
ghost use Rattle.cps_branch.specs.Fixed.{AreFixed, IsFixed};
ghost use Rattle.cps_branch.specs.Choice.{IsUndecided, TakesLeast};

use cps_literal::{Atom, Op};
use cps_trail::Store;

/// Whether a subject has one value alone.
pub(crate) fn is_fixed(store: &Store, subject: u32) -> bool
    requires { subject < length store.now.first }
    ensures { IsTrue result ↔ IsFixed store.now subject }
{
    store.domain(subject).is_fixed()
}

/// The first subject from `from` up to `count` that is not fixed; `count` if there is none.
pub(crate) fn first_open(store: &Store, from: usize, count: usize) -> usize
    requires order { from ≤ count }
    requires subjects { count ≤ length store.now.first }
    requires few { count ≤ 2 ^ 31 }
    ensures low { from ≤ result }
    ensures high { result ≤ count }
    ensures before { (i : ℕ) → from ≤ i → i < result → IsFixed store.now i }
    ensures open_there { result < count → IsFixed store.now result → ⊥ }
{
    for subject in from..count {
        if !is_fixed(store, subject as u32) {
            return subject;
        }
    }
    count
}

/// The first place from `from` on whose subject is not fixed; the length of the list if there is none.
pub(crate) fn first_open_place(store: &Store, order: &[u32], from: usize) -> usize
    requires from { from ≤ length order.now }
    requires subjects { All (λ i. i < length store.now.first) order.now }
    ensures low { from ≤ result }
    ensures high { result ≤ length order.now }
    ensures before { (i : ℕ) → from ≤ i → i < result → IsFixed store.now (slice_index order.now i) }
    ensures open_there { result < length order.now → IsFixed store.now (slice_index order.now result) → ⊥ }
{
    for place in from..order.len() {
        if !is_fixed(store, order[place]) {
            return place;
        }
    }
    order.len()
}

/// A subject before `count` that is not fixed, looked for from `from` on and then before it; `count` if there is none.
pub fn any_open(store: &Store, from: usize, count: usize) -> usize
    requires subjects { count ≤ length store.now.first }
    requires few { count ≤ 2 ^ 31 }
    ensures none { count ≤ result → AreFixed store.now count }
    ensures open_there { result < count → IsFixed store.now result → ⊥ }
{
    let start = from.min(count);
    let after = first_open(store, start, count);
    if after < count {
        return after;
    }
    let before = first_open(store, 0, start);
    if before < start {
        return before;
    }
    count
}

/// The atom that gives a subject its least value.
pub(crate) fn take_least(store: &Store, subject: u32) -> Atom
    requires subject { subject < length store.now.first }
    requires open_now { IsFixed store.now subject → ⊥ }
    ensures subject { result.subject ≡ subject }
    ensures least { TakesLeast store.now result }
    ensures undecided { IsUndecided store.now result }
{
    Atom {
        subject,
        op: Op::Le,
        value: store.domain(subject).min(),
    }
}
