//! A run of one propagator to rest, what it leaves, and the reason of what it did last.
//!
//! The helpers of the other files. Their tables are statics, which a test refers to and does not build, so that its
//! proof is short. A propagator is run until it settles and then once more, which must change nothing, so each row also
//! tests that rest is reached in one run.

ghost use Rattle.std.specs.Prelude.{◌≡◌, ◌<◌, Some, true, IsTrue, All, OnOk, length};
ghost use Rattle.cps_instance.specs.Tasks.{subjects_of};
ghost use Rattle.cps_instance.specs.Fitting.{IsFitting};
ghost use Rattle.cps_rule_tests.specs.Noted.{AreNotesOfRule};
ghost use Rattle.cps_rule_tests.specs.Ready.{IsFreshStore, IsPlainTask, IsTaskReady};

use crate::stores::{Comparison, Ends, atom_of, decide_all, has_note, store_of};
use cps_literal::Atom;
use cps_propagate::{Answer, Propagator};
use cps_trail::Store;
use std::alloc::{AllocError, Global};
use std::process::Abort;

/// A subject, and the ends of one of the intervals that are left to it.
pub type Left = (u32, i64, i64);

/// What a run comes to.
#[derive(Drop)]
pub struct Outcome {
    is_settled: bool,
    /// The intervals of each subject in turn.
    left: Vec<Left>,
    /// The conflict, or the reason of the last entry.
    clause: Vec<Atom>,
}

/// Whether a subject is among so many.
fn is_below(subject: u32, count: usize) -> bool
    ensures { IsTrue result → subject < count }
{
    (subject as usize) < count
}

/// Whether each subject of a list is.
fn are_below(subjects: &[u32], count: usize) -> bool
    ensures { IsTrue result → All (λ i. i < count) subjects.now }
{
    for subject in subjects {
        if !is_below(*subject, count) {
            return false;
        }
    }
    true
}

/// Whether each subject of a propagator's task is among so many.
fn has_subjects<P: Propagator>(
    alloc: Global,
    propagator: &P,
    count: usize,
) -> Result<bool, AllocError>
    ensures { result ≡ Ok true → All (λ i. i < count) (subjects_of (P.task propagator.now)) }
{
    let mut subjects = Vec::new(alloc);
    propagator.push_subjects(&mut subjects)?;
    Ok(are_below(subjects.as_slice(), count))
}

/// The reason of the last entry, which ends with what it made true; no atom for a decision.
fn last_reason<P: Propagator>(
    alloc: Global,
    propagator: &P,
    store: &Store,
) -> Result<Vec<Atom>, AllocError>
    requires fits { IsFitting store.now.first (P.task propagator.now) }
    requires notes { AreNotesOfRule 7 (P.task propagator.now) store.now }
{
    let mut reason = Vec::new(alloc);
    let count = store.entries().len();
    if count > 0 && has_note(store, count - 1) {
        propagator.explain_into(store, count - 1, &mut reason)?;
    }
    Ok(reason)
}

/// Runs a propagator under the number 7. Whether it settles, and the conflict or the reason of the last entry.
fn settle<P: Propagator>(
    alloc: Global,
    propagator: &mut P,
    store: &mut Store,
) -> Result<(bool, Vec<Atom>), AllocError>
    requires fits { IsFitting store.old.first (P.task propagator.old) }
    requires notes { AreNotesOfRule 7 (P.task propagator.old) store.old }
    ensures task { P.task propagator.new ≡ P.task propagator.old }
    ensures first { OnOk result (store.new.first ≡ store.old.first) }
{
    let mut conflict = Vec::new(alloc);
    match propagator.propagate(7, store, None, &mut conflict)? {
        Answer::NoConflict => {
            let reason = last_reason(alloc, propagator, store)?;
            Ok((true, reason))
        }
        Answer::Conflict => Ok((false, conflict)),
    }
}

/// Whether a further run changes nothing.
fn is_at_rest<P: Propagator>(
    alloc: Global,
    propagator: &mut P,
    store: &mut Store,
) -> Result<bool, AllocError>
    requires { IsFitting store.old.first (P.task propagator.old) }
{
    let count = store.entries().len();
    match propagator.propagate(7, store, None, &mut Vec::new(alloc))? {
        Answer::NoConflict => Ok(store.entries().len() == count),
        Answer::Conflict => Ok(false),
    }
}

/// The intervals that are left to each subject in turn.
fn left_by(alloc: Global, store: &Store) -> Result<Vec<Left>, AllocError> {
    let mut left = Vec::new(alloc);
    for subject in 0..1000u32 {
        if store.len() <= subject as usize {
            return Ok(left);
        }
        for (low, high) in store.domain(subject).intervals() {
            left.push((subject, *low, *high))?;
        }
    }
    Ok(left)
}

/// Runs a propagator to rest on a store, after decisions. Nothing where its task has other subjects than the store, or
/// where a further run narrows more.
pub fn run<P: Propagator>(
    alloc: Global,
    propagator: &mut P,
    store: &mut Store,
    decided: &[Comparison],
) -> Result<Option<Outcome>, AllocError>
    requires fresh { IsFreshStore store.old }
    requires ready { IsTaskReady store.old.first (P.task propagator.old) }
{
    let is_told = has_subjects(alloc, propagator, store.len())?;
    if !is_told {
        return Ok(None);
    }
    decide_all(store, decided)?;
    let (is_settled, clause) = settle(alloc, propagator, store)?;
    let left = left_by(alloc, store)?;
    if is_settled {
        let stays = is_at_rest(alloc, propagator, store)?;
        if !stays {
            return Ok(None);
        }
    }
    Ok(Some(Outcome {
        is_settled,
        left,
        clause,
    }))
}

/// The same on a store of subjects between these ends, of a task that fits all.
pub fn trial<P: Propagator>(
    alloc: Global,
    propagator: &mut P,
    ends: &[Ends],
    decided: &[Comparison],
) -> Result<Option<Outcome>, AllocError>
    requires { IsPlainTask (P.task propagator.old) }
{
    let mut store = store_of(alloc, ends)?;
    run(alloc, propagator, &mut store, decided)
}

/// Whether a run left these intervals of each subject in turn, or met a conflict where there are none.
pub fn leaves(outcome: Option<Outcome>, left: &[Left]) -> bool {
    match outcome {
        Some(found) => {
            if found.is_settled {
                found.left.as_slice() == left
            } else {
                left.is_empty()
            }
        }
        None => false,
    }
}

/// Whether an atom is among these.
fn is_wanted(wanted: &[Comparison], atom: Atom) -> bool {
    for comparison in wanted {
        if atom_of(*comparison) == atom {
            return true;
        }
    }
    false
}

/// Whether a clause has these atoms and no others, in any order.
fn is_clause(clause: &[Atom], wanted: &[Comparison]) -> bool {
    for atom in clause {
        if !is_wanted(wanted, *atom) {
            return false;
        }
    }
    for comparison in wanted {
        if !clause.contains(&atom_of(*comparison)) {
            return false;
        }
    }
    true
}

/// Whether a run settled, with this reason of the last entry.
pub fn ends_by(outcome: Option<Outcome>, reason: &[Comparison]) -> bool {
    match outcome {
        Some(found) => found.is_settled && is_clause(found.clause.as_slice(), reason),
        None => false,
    }
}

/// Whether a run met this conflict.
pub fn refuses(outcome: Option<Outcome>, conflict: &[Comparison]) -> bool {
    match outcome {
        Some(found) => !found.is_settled && is_clause(found.clause.as_slice(), conflict),
        None => false,
    }
}

/// Asserts that a row of a table is as it says.
pub fn assert_row(rt: &impl Abort, place: usize, is_held: bool) {
    assert!(rt; is_held, "row {place}");
}
