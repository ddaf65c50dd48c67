//! What keeps a position at its labels: the first and the last of them bound its values, and each value between that
//! is none of them is taken away, be it another label of the automaton or none at all.
//!
//! Where the first and the last lie far apart, only those labels leave that are none of the position's own: an atom
//! takes one value away, and a look is not to name thousands of them.
ghost use Rattle.std.specs.Prelude.{◌≡◌, ◌↔◌, ◌-◌, ◌<◌, ◌≤◌, ℤ, pos, ◌-ℤ◌, ◌≤ℤ◌, ◌<ℤ◌, unsigned_abs, false, length, slice_index_or, Contains, OnOk, IsTrue};
ghost use Rattle.cps_instance.specs.declared.task.Body.{Body as BodyOf};
ghost use Rattle.cps_propagate.specs.Now.{IsOpenTo, IsEndNow};
ghost use Rattle.cps_propagate.specs.Strength.{IsNarrowAt};
ghost use Rattle.cps_model.specs.Rising.{IsRising};
ghost use Rattle.cps_p_sequence.specs.Runs.{HasLabels, AreClosed, IsFrom, IsSubjectUpTo, AllGiven, AllTargetsTrue};

use crate::states::is_listed;
use cps_literal::{Atom, Op};
use cps_rule::{Hint, Narrowing};
use cps_trail::Store;
use std::alloc::AllocError;

/// Values between labels are looked at one by one only if the labels lie within this many numbers.
const MOST: u64 = 4096;

/// Whether a subject may have a value.
pub(crate) fn is_open(store: &Store, subject: u32, value: i64) -> bool
    requires { subject < length store.now.first }
    ensures { IsTrue result ↔ IsOpenTo store.now subject value }
{
    store.domain(subject).contains(value)
}

/// An atom that is given, with a hint that says nothing.
fn given(subject: u32, op: Op, value: i64) -> Narrowing
    ensures subject { result.target.subject ≡ subject }
    ensures op { result.target.op ≡ op }
    ensures value { result.target.value ≡ value }
{
    Narrowing {
        target: Atom { subject, op, value },
        hint: Hint { a: 0, b: 0 },
    }
}

/// Adds what keeps a subject's values from a number on.
fn keep_from(
    store: &Store,
    subject: u32,
    least: i64,
    found: &mut Vec<Narrowing>,
) -> Result<(), AllocError>
    requires { subject < length store.now.first }
    ensures given { OnOk result ((b : BodyOf) → IsFrom b store.now subject least →
        AllGiven b store.now found.old.items → AllGiven b store.now found.new.items) }
    ensures kept { OnOk result (AllTargetsTrue store.now found.new.items → AllTargetsTrue store.now found.old.items) }
    ensures from { OnOk result (AllTargetsTrue store.now found.new.items → (x : ℤ) →
        IsOpenTo store.now subject x → least ≤ℤ x) }
{
    if least <= store.domain(subject).min() {
        return Ok(());
    }
    found.push(given(subject, Op::Ge, least))?;
    Ok(())
}

/// Adds what keeps a subject's values up to a number.
fn keep_up_to(
    store: &Store,
    subject: u32,
    greatest: i64,
    found: &mut Vec<Narrowing>,
) -> Result<(), AllocError>
    requires { subject < length store.now.first }
    ensures given { OnOk result ((b : BodyOf) → IsSubjectUpTo b store.now subject greatest →
        AllGiven b store.now found.old.items → AllGiven b store.now found.new.items) }
    ensures kept { OnOk result (AllTargetsTrue store.now found.new.items → AllTargetsTrue store.now found.old.items) }
    ensures up_to { OnOk result (AllTargetsTrue store.now found.new.items → (x : ℤ) →
        IsOpenTo store.now subject x → x ≤ℤ greatest) }
{
    if store.domain(subject).max() <= greatest {
        return Ok(());
    }
    found.push(given(subject, Op::Le, greatest))?;
    Ok(())
}

/// Adds what keeps a subject's values between the first and the last of its labels.
fn keep_ends(
    store: &Store,
    subject: u32,
    labels: &[i64],
    found: &mut Vec<Narrowing>,
) -> Result<(), AllocError>
    requires subject { subject < length store.now.first }
    requires some { 0 < length labels.now }
    requires rising { IsRising labels.now }
    ensures given { OnOk result ((b : BodyOf) → HasLabels b store.now subject labels.now →
        AllGiven b store.now found.old.items → AllGiven b store.now found.new.items) }
    ensures kept { OnOk result (AllTargetsTrue store.now found.new.items → AllTargetsTrue store.now found.old.items) }
    ensures ends { OnOk result (AllTargetsTrue store.now found.new.items → ((v : ℤ) → Contains labels.now v →
        IsOpenTo store.now subject v) → (v : ℤ) → IsEndNow store.now subject v → Contains labels.now v) }
    ensures within { OnOk result (AllTargetsTrue store.now found.new.items → (x : ℤ) → IsOpenTo store.now subject x →
        (slice_index_or labels.now 0 (pos 0) ≤ℤ x)
        × (x ≤ℤ slice_index_or labels.now (length labels.now - 1) (pos 0))) }
{
    keep_from(store, subject, labels[0], found)?;
    keep_up_to(store, subject, labels[labels.len() - 1], found)?;
    Ok(())
}

/// Adds what keeps a subject off the labels of an alphabet that are none of its own.
fn keep_off_others(
    store: &Store,
    subject: u32,
    alphabet: &[i64],
    labels: &[i64],
    found: &mut Vec<Narrowing>,
) -> Result<(), AllocError>
    requires subject { subject < length store.now.first }
    requires rising { IsRising labels.now }
    ensures given { OnOk result ((b : BodyOf) → HasLabels b store.now subject labels.now →
        AllGiven b store.now found.old.items → AllGiven b store.now found.new.items) }
    ensures kept { OnOk result (AllTargetsTrue store.now found.new.items → AllTargetsTrue store.now found.old.items) }
    ensures closed { OnOk result (AllTargetsTrue store.now found.new.items →
        AreClosed store.now subject alphabet.now labels.now) }
{
    for label in alphabet {
        if is_listed(labels, *label) {
            continue;
        }
        if !is_open(store, subject, *label) {
            continue;
        }
        found.push(given(subject, Op::Ne, *label))?;
    }
    Ok(())
}

/// Where the numbers of an interval begin that lie from one on and before another, and where they end.
fn run_between(low: i64, high: i64, first: i64, last: i64) -> (i64, i64)
    ensures from { (x : ℤ) → first ≤ℤ x → low ≤ℤ x → result.0 ≤ℤ x }
    ensures to { (x : ℤ) → x <ℤ last → x ≤ℤ high → x <ℤ result.1 }
{
    let to = if high < last { high + 1 } else { last };
    (first.max(low), to)
}

/// Adds what keeps a subject off each number from one on and before another that is none of its labels.
fn keep_off_run(
    store: &Store,
    subject: u32,
    labels: &[i64],
    run: (i64, i64),
    found: &mut Vec<Narrowing>,
) -> Result<(), AllocError>
    requires subject { subject < length store.now.first }
    requires rising { IsRising labels.now }
    ensures given { OnOk result ((b : BodyOf) → HasLabels b store.now subject labels.now →
        AllGiven b store.now found.old.items → AllGiven b store.now found.new.items) }
    ensures kept { OnOk result (AllTargetsTrue store.now found.new.items → AllTargetsTrue store.now found.old.items) }
    ensures whole { OnOk result (AllTargetsTrue store.now found.new.items → (x : ℤ) → run.0 ≤ℤ x → x <ℤ run.1 →
        IsOpenTo store.now subject x → Contains labels.now x) }
{
    for value in run.0..run.1 {
        if is_listed(labels, value) {
            continue;
        }
        if !is_open(store, subject, value) {
            continue;
        }
        found.push(given(subject, Op::Ne, value))?;
    }
    Ok(())
}

/// Adds what keeps a subject off each value between the first and the last of its labels that is none of them.
fn keep_off_strays(
    store: &Store,
    subject: u32,
    labels: &[i64],
    found: &mut Vec<Narrowing>,
) -> Result<(), AllocError>
    requires subject { subject < length store.now.first }
    requires some { 0 < length labels.now }
    requires rising { IsRising labels.now }
    ensures given { OnOk result ((b : BodyOf) → HasLabels b store.now subject labels.now →
        AllGiven b store.now found.old.items → AllGiven b store.now found.new.items) }
    ensures kept { OnOk result (AllTargetsTrue store.now found.new.items → AllTargetsTrue store.now found.old.items) }
    ensures whole { OnOk result (AllTargetsTrue store.now found.new.items → (x : ℤ) →
        slice_index_or labels.now 0 (pos 0) ≤ℤ x → x ≤ℤ slice_index_or labels.now (length labels.now - 1) (pos 0) →
        IsOpenTo store.now subject x → Contains labels.now x) }
{
    let first = labels[0];
    let last = labels[labels.len() - 1];
    let domain = store.domain(subject);
    let parts = domain.intervals();
    for part in parts {
        let run = run_between(part.0, part.1, first, last);
        keep_off_run(store, subject, labels, run, found)?;
    }
    Ok(())
}

/// Whether labels that rise are among so few numbers that each value between them is looked at.
fn are_near(labels: &[i64]) -> bool
    requires { 0 < length labels.now }
    ensures { result ≡ false → 4096 ≤ unsigned_abs (slice_index_or labels.now (length labels.now - 1) (pos 0)
        -ℤ slice_index_or labels.now 0 (pos 0)) }
{
    labels[labels.len() - 1].abs_diff(labels[0]) < MOST
}

/// Adds what keeps a subject between the first and the last of its labels, off those of an alphabet that are none of
/// its own and, where its values are among few numbers, off all that are none.
pub(crate) fn keep_labels(
    store: &Store,
    subject: u32,
    alphabet: &[i64],
    labels: &[i64],
    found: &mut Vec<Narrowing>,
) -> Result<(), AllocError>
    requires subject { subject < length store.now.first }
    requires some { 0 < length labels.now }
    requires rising { IsRising labels.now }
    ensures given { OnOk result ((b : BodyOf) → HasLabels b store.now subject labels.now →
        AllGiven b store.now found.old.items → AllGiven b store.now found.new.items) }
    ensures kept { OnOk result (AllTargetsTrue store.now found.new.items → AllTargetsTrue store.now found.old.items) }
    ensures ends { OnOk result (AllTargetsTrue store.now found.new.items → ((v : ℤ) → Contains labels.now v →
        IsOpenTo store.now subject v) → (v : ℤ) → IsEndNow store.now subject v → Contains labels.now v) }
    ensures closed { OnOk result (AllTargetsTrue store.now found.new.items →
        AreClosed store.now subject alphabet.now labels.now) }
    ensures whole { OnOk result (AllTargetsTrue store.now found.new.items → ((v : ℤ) → Contains labels.now v →
        IsOpenTo store.now subject v) → IsNarrowAt store.now subject → (x : ℤ) → IsOpenTo store.now subject x →
        Contains labels.now x) }
{
    keep_ends(store, subject, labels, found)?;
    if are_near(labels) {
        keep_off_strays(store, subject, labels, found)?;
        return Ok(());
    }
    keep_off_others(store, subject, alphabet, labels, found)?;
    Ok(())
}
