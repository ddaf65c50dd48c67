//! Stores of intervals with decisions, and atoms as rows write them.

ghost use Rattle.std.specs.Prelude.{◌≡◌, ◌<◌, IsTrue, IfOk, OnOk, length};
ghost use Rattle.cps_domain.specs.Window.{intervals};
ghost use Rattle.cps_instance.specs.Terms.{AreIntervals};
ghost use Rattle.cps_trail.specs.Notes.{HasNote};
ghost use Rattle.cps_rule_tests.specs.Noted.{HasNoRuleNotes};
ghost use Rattle.cps_rule_tests.specs.Ready.{IsFreshStore};

use cps_domain::Domain;
use cps_literal::{Atom, Op, Truth};
use cps_trail::Store;
use std::alloc::{AllocError, Global};

/// The least and the greatest value of a subject.
pub type Ends = (i64, i64);

/// An atom as rows write it: a subject, how its value compares, and with what.
pub type Comparison = (u32, Op, i64);

/// No end is further from 0.
const FAR: i64 = 1000;

/// The atom of a comparison.
pub fn atom_of(comparison: Comparison) -> Atom {
    let (subject, op, value) = comparison;
    Atom { subject, op, value }
}

/// The numbers between two ends; an error where there are none, or one end is far from 0.
fn interval(alloc: Global, ends: Ends) -> Result<Domain, AllocError>
    ensures { IfOk result (λ domain. AreIntervals (intervals domain)) }
{
    let (low, high) = ends;
    if high < low || low < -FAR || high > FAR {
        return Err(AllocError);
    }
    let domain = Domain::of_bounds(alloc, &[low, high])?;
    prove!(domain.min() <= domain.max());
    Ok(domain)
}

/// A store of the subjects between these ends; an error where ends are no interval.
pub fn store_of(alloc: Global, ends: &[Ends]) -> Result<Store, AllocError>
    ensures { IfOk result IsFreshStore }
{
    let mut domains = Vec::new(alloc);
    for each in ends {
        let domain = interval(alloc, *each)?;
        domains.push(domain)?;
    }
    if domains.len() > 1000 {
        return Err(AllocError);
    }
    let store = Store::new(alloc, domains.as_slice())?;
    Ok(store)
}

/// Decides an atom where it is open.
fn decide(store: &mut Store, atom: Atom) -> Result<(), AllocError>
    ensures first { OnOk result (store.new.first ≡ store.old.first) }
    ensures notes { OnOk result (HasNoRuleNotes store.old → HasNoRuleNotes store.new) }
{
    if store.len() <= atom.subject as usize {
        return Ok(());
    }
    match store.truth(atom) {
        Truth::Undecided => {
            store.decide(atom)?;
            Ok(())
        }
        _ => Ok(()),
    }
}

/// Decides each comparison that is open.
pub fn decide_all(store: &mut Store, comparisons: &[Comparison]) -> Result<(), AllocError>
    ensures first { OnOk result (store.new.first ≡ store.old.first) }
    ensures notes { OnOk result (HasNoRuleNotes store.old → HasNoRuleNotes store.new) }
{
    for comparison in comparisons {
        decide(store, atom_of(*comparison))?;
    }
    Ok(())
}

/// Whether an entry has the note of a task.
pub fn has_note(store: &Store, entry: usize) -> bool
    requires { entry < length store.now.entries }
    ensures { IsTrue result → HasNote store.now entry }
{
    match store.entries()[entry].reason.task() {
        Some(_) => true,
        None => false,
    }
}
