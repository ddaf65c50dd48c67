//! A run of one propagator, and the reason of what it did last.

ghost use Rattle.std.specs.Prelude.{◌≡◌, OnOk};
ghost use Rattle.cps_instance.specs.Fitting.{IsFitting};
ghost use Rattle.cps_propagation_tests.specs.Noted.{AreNotesOf};

use crate::stores::has_note;
use cps_literal::Atom;
use cps_propagate::{Answer, Propagator};
use cps_trail::Store;
use std::alloc::{AllocError, Global};

/// The reason of the last entry, which ends with what it made true; no atom for a decision.
fn last_reason<P: Propagator>(
    alloc: Global,
    propagator: &P,
    store: &Store,
) -> Result<Vec<Atom>, AllocError>
    requires fits { IsFitting store.now.first (P.task propagator.now) }
    requires notes { AreNotesOf 7 (P.task propagator.now) store.now }
{
    let mut reason = Vec::new(alloc);
    let count = store.entries().len();
    if count > 0 && has_note(store, count - 1) {
        propagator.explain_into(store, count - 1, &mut reason)?;
    }
    Ok(reason)
}

/// Runs a propagator under the number 7. Whether it settles, and the conflict or the reason of the last entry.
pub fn run<P: Propagator>(
    alloc: Global,
    propagator: &mut P,
    store: &mut Store,
) -> Result<(bool, Vec<Atom>), AllocError>
    requires fits { IsFitting store.old.first (P.task propagator.old) }
    requires notes { AreNotesOf 7 (P.task propagator.old) store.old }
    ensures task { P.task propagator.new ≡ P.task propagator.old }
    ensures first { OnOk result (store.new.first ≡ store.old.first) }
    ensures notes { OnOk result (AreNotesOf 7 (P.task propagator.old) store.new) }
{
    let mut conflict = Vec::new(alloc);
    match propagator.propagate(7, store, None, &mut conflict)? {
        Answer::NoConflict => {
            let reason = last_reason(alloc, propagator, store)?;
            Ok((true, reason))
        }
        Answer::Conflict => Ok((false, conflict)),
    }
}
