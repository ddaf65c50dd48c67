//! Atoms, and stores of decisions alone.

ghost use Rattle.std.specs.Prelude.{◌≡◌, ◌+◌, ◌<◌, [], ◌∷◌, ◌++◌, false, true, IsTrue, All, OnOk, length};
ghost use Rattle.cps_trail.specs.Trail.{Decision};
ghost use Rattle.cps_trail.specs.Notes.{HasNote};
ghost use Rattle.cps_propagation_tests.specs.Bits.{IsBit};
ghost use Rattle.cps_propagation_tests.specs.Noted.{HasNoNotes};

use cps_literal::{Atom, Op, Truth};
use cps_trail::Store;
use std::alloc::AllocError;

/// That a subject has this value or a greater one.
pub fn at_least(subject: u32, value: i64) -> Atom {
    Atom {
        subject,
        op: Op::Ge,
        value,
    }
}

/// That a subject has this value or a lesser one.
pub fn at_most(subject: u32, value: i64) -> Atom {
    Atom {
        subject,
        op: Op::Le,
        value,
    }
}

/// Whether an atom is about one of the subjects from a number up to another, with a value of a literal.
fn is_bit(from: u32, to: u32, atom: Atom) -> bool
    ensures { IsTrue result → IsBit from to atom }
{
    atom.subject >= from && atom.subject < to && atom.value >= 0 && atom.value <= 1
}

/// Whether all atoms are.
pub fn are_bits(from: u32, to: u32, atoms: &[Atom]) -> bool
    ensures { IsTrue result → All (IsBit from to) atoms.now }
{
    for atom in atoms {
        if !is_bit(from, to, *atom) {
            return false;
        }
    }
    true
}

/// Decides an atom where it is open, and answers whether it was.
pub fn decide(store: &mut Store, atom: Atom) -> Result<bool, AllocError>
    ensures first { OnOk result (store.new.first ≡ store.old.first) }
    ensures notes { OnOk result (HasNoNotes store.old → HasNoNotes store.new) }
    ensures decided { result ≡ Ok true
        → store.new ≡ record store.old {
          entries = store.old.entries ++ record {
            atom = atom;
            level = store.old.level + 1;
            reason = Decision;
          } ∷ [];
          level = store.old.level + 1;
        } }
{
    if store.len() <= atom.subject as usize {
        return Ok(false);
    }
    match store.truth(atom) {
        Truth::Undecided => {
            store.decide(atom)?;
            Ok(true)
        }
        _ => Ok(false),
    }
}

/// Decides each atom that is open.
pub fn decide_all(store: &mut Store, atoms: &[Atom]) -> Result<(), AllocError>
    ensures first { OnOk result (store.new.first ≡ store.old.first) }
    ensures notes { OnOk result (HasNoNotes store.old → HasNoNotes store.new) }
{
    for atom in atoms {
        decide(store, *atom)?;
    }
    Ok(())
}

/// Whether an entry has the note of a task.
pub fn has_note(store: &Store, entry: usize) -> bool
    requires { entry < length store.now.entries }
    ensures { IsTrue result → HasNote store.now entry }
{
    match store.entries()[entry].reason.task() {
        Some(_) => true,
        None => false,
    }
}
