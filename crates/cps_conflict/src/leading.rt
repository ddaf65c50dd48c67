//! What reasons lead back to: the decisions behind an atom that is false.
//!
//! The walk is that of the analysis of a final conflict by Eén and Sörensson, "Temporal Induction by Incremental SAT
//! Solving" (2003), section 3: backwards along the trail, from each entry that was reached to those behind the other
//! atoms of its reason. There is one mark for each entry, and the trail is gone through once from its end: a reason
//! leads to earlier entries alone, so each is asked for once at most, and no stack is needed. (The search for
//! redundant atoms keeps a stack instead: it stops where an atom leads elsewhere, and asks for few reasons.)
//!
//! As a domain may have gaps, an atom may fall with an entry that alone does not refute it. Then all earlier entries
//! about its subject count as behind it, though some may not be needed: to look for a least set of them, or of
//! decisions, would take more than one walk. That decisions are answered once each, in the order in which they were
//! made, is tested, and no contract says it.

ghost use Rattle.std.specs.Prelude.{ℕ, ◌≡◌, ◌≢◌, ◌↔◌, ◌+◌, ◌≤◌, ◌<◌, length, true, false, IfOk, OnOk, IsTrue};
ghost use Rattle.std.specs.List.{All};
ghost use Rattle.cps_trail.specs.Trail.{IsFalseNow, IsInside};
ghost use Rattle.cps_trail.specs.Notes.{AllFit};
ghost use Rattle.cps_conflict.specs.Conflicts.{AreTrueReasons};
ghost use Rattle.cps_conflict.specs.Behind.{RulesOut};
ghost use Rattle.cps_conflict.specs.Leading.{IsRuledOutAt, IsFetched, AreBehind, IsMarkedFalse, MarksBehind};
ghost use Rattle.cps_conflict.specs.Leading.{MarksUnless, MarksReason, MarkedSoFar, FollowedSoFar, WalksBack, ArePicked};
ghost use Rattle.cps_conflict.specs.Leading.{is_marked};

use crate::reason::fetch;
use cps_literal::Atom;
use cps_trail::{EntryView, Explain, ReasonView, Store};
use std::alloc::{AllocError, Global};

/// Whether two atoms are about one subject, and no value meets both.
pub(crate) fn rules_out(one: Atom, other: Atom) -> bool
    requires { IsInside one.value }
    ensures { IsTrue result ↔ RulesOut one other }
{
    other.implies(one.negate())
}

/// Whether the last of the first `count` entries rules an atom out by itself.
pub(crate) fn is_ruled_out(store: &Store, count: usize, atom: Atom) -> bool
    requires { count ≤ length store.now.entries }
    ensures { IsTrue result ↔ IsRuledOutAt store.now count atom }
{
    if count == 0 {
        return false;
    }
    rules_out(store.entries()[count - 1].atom, atom)
}

/// Sets the mark at a place.
fn mark(marks: &mut [bool], place: usize)
    requires { place < length marks.old }
    ensures same_length { length marks.new ≡ length marks.old }
    ensures here { is_marked marks.new place ≡ true }
    ensures others { (k : ℕ) → k ≢ place → is_marked marks.new k ≡ is_marked marks.old k }
{
    marks[place] = true;
}

/// Marks the entries about a subject among the first `count`.
fn mark_about(store: &Store, count: usize, subject: u32, marks: &mut [bool])
    requires subject { subject < length store.now.first }
    requires count { count ≤ length store.now.entries }
    requires marks { length marks.old ≡ length store.now.entries }
    ensures { MarkedSoFar store.now subject count 0 marks.old marks.new }
{
    let mut found = store.last_within(count, subject);
    while found > 0 {
        mark(marks, found - 1);
        found = store.last_before(found - 1);
    }
}

/// Marks the entries behind an atom that is false.
fn mark_behind(store: &Store, atom: Atom, marks: &mut [bool])
    requires subject { atom.subject < length store.now.first }
    requires false_now { IsFalseNow store.now atom }
    requires marks { length marks.old ≡ length store.now.entries }
    ensures marks { MarksBehind store.now atom marks.old marks.new }
    ensures falls { IsMarkedFalse store.now atom marks.new }
{
    let count = store.falsified(atom);
    if is_ruled_out(store, count, atom) {
        mark(marks, count - 1);
        return;
    }
    mark_about(store, count, atom.subject, marks);
}

/// Marks the entries behind an atom of a reason, unless it is the one that the reason made true.
fn mark_unless(store: &Store, atom: Atom, implied: Atom, marks: &mut [bool])
    requires subject { atom.subject < length store.now.first }
    requires false_now { atom ≢ implied → IsFalseNow store.now atom }
    requires marks { length marks.old ≡ length store.now.entries }
    ensures { MarksUnless store.now atom implied marks.old marks.new }
{
    if atom != implied {
        mark_behind(store, atom, marks);
    }
}

/// Marks the entries behind the atoms of a reason but the one that it made true.
fn mark_reason(store: &Store, reason: &[Atom], implied: Atom, marks: &mut [bool])
    requires subjects { All (λ u. u.subject < length store.now.first) reason.now }
    requires false_now { All (λ u. u ≢ implied → IsFalseNow store.now u) reason.now }
    requires marks { length marks.old ≡ length store.now.entries }
    ensures { MarksReason store.now reason.now implied marks.old marks.new }
{
    for atom in reason {
        mark_unless(store, *atom, implied, marks);
    }
}

/// Follows the reason of an entry, if it is marked and no decision.
fn follow_one<E: Explain>(
    store: &Store,
    explain: &E,
    place: usize,
    reason: &mut Vec<Atom>,
    marks: &mut [bool],
) -> Result<(), AllocError>
    requires within { place < length store.now.entries }
    requires fits { AllFit (E.fits explain.now) store.now }
    requires marks { length marks.old ≡ length store.now.entries }
    ensures followed { OnOk result (WalksBack (IsFetched (E.makes explain.now store.now) store.now)
        (AreTrueReasons (E.makes explain.now store.now) store.now) store.now (place + 1) place marks.old marks.new) }
    ensures same_length { OnOk result (length marks.new ≡ length marks.old) }
{
    if !marks[place] {
        return Ok(());
    }
    if !fetch(explain, store, place, reason)? {
        return Ok(());
    }
    let implied = store.entries()[place].atom;
    mark_reason(store, reason.as_slice(), implied, marks);
    Ok(())
}

/// Follows the reasons of marked entries, from the last one to the first.
fn follow<E: Explain>(
    alloc: Global,
    store: &Store,
    explain: &E,
    marks: &mut [bool],
) -> Result<(), AllocError>
    requires fits { AllFit (E.fits explain.now) store.now }
    requires marks { length marks.old ≡ length store.now.entries }
    ensures followed { OnOk result (WalksBack (IsFetched (E.makes explain.now store.now) store.now)
        (AreTrueReasons (E.makes explain.now store.now) store.now) store.now
        (length store.now.entries) 0 marks.old marks.new) }
    ensures same_length { OnOk result (length marks.new ≡ length marks.old) }
{
    let mut reason = Vec::new(alloc);
    let mut place = store.entries().len();
    while place > 0 {
        place -= 1;
        follow_one(store, explain, place, &mut reason, marks)?;
    }
    Ok(())
}

/// Whether an entry is a decision.
fn is_decision(entry: &EntryView) -> bool
    ensures { IsTrue result ↔ (entry.now.reason ≡ ReasonView.Decision) }
{
    match entry.reason {
        ReasonView::Decision => true,
        ReasonView::Because(_) | ReasonView::Later(_) => false,
    }
}

/// The decisions among the marked entries.
fn pick(alloc: Global, store: &Store, marks: &[bool]) -> Result<Vec<Atom>, AllocError>
    requires { length marks.now ≡ length store.now.entries }
    ensures { IfOk result (λ decisions. ArePicked store.now marks.now (length store.now.entries) decisions.items) }
{
    let mut decisions = Vec::new(alloc);
    let entries = store.entries();
    for place in 0..entries.len() {
        if marks[place] && is_decision(&entries[place]) {
            decisions.push(entries[place].atom)?;
        }
    }
    Ok(decisions)
}

/// Marks the entries to which reasons lead from an atom that is false.
fn mark_led_to<E: Explain>(
    alloc: Global,
    store: &Store,
    atom: Atom,
    explain: &E,
    marks: &mut [bool],
) -> Result<(), AllocError>
    requires subject { atom.subject < length store.now.first }
    requires false_now { IsFalseNow store.now atom }
    requires fits { AllFit (E.fits explain.now) store.now }
    requires marks { length marks.old ≡ length store.now.entries }
    requires none { (k : ℕ) → is_marked marks.old k ≡ false }
    ensures { OnOk result (FollowedSoFar (IsFetched (E.makes explain.now store.now) store.now)
        (AreTrueReasons (E.makes explain.now store.now) store.now) store.now atom 0 marks.new) }
{
    mark_behind(store, atom, marks);
    follow(alloc, store, explain, marks)
}

/// The decisions behind an atom that is false: wherever they are true, it is false.
pub fn decisions_behind<E: Explain>(
    alloc: Global,
    store: &Store,
    atom: Atom,
    explain: &E,
) -> Result<Vec<Atom>, AllocError>
    requires subject { atom.subject < length store.now.first }
    requires false_now { IsFalseNow store.now atom }
    requires fits { AllFit (E.fits explain.now) store.now }
    ensures { IfOk result (λ decisions. AreBehind (IsFetched (E.makes explain.now store.now) store.now)
        (AreTrueReasons (E.makes explain.now store.now) store.now) store.now atom decisions.items) }
{
    let mut marks = vec![in alloc; false; store.entries().len()]?;
    mark_led_to(alloc, store, atom, explain, &mut marks)?;
    pick(alloc, store, &marks)
}
