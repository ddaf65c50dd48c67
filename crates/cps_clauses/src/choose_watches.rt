//! The first reading of a clause, which chooses the two atoms that it watches.
//!
//! The two are those that became false last, where an atom that is not false counts as later than all. So the watches
//! are right at every earlier level too, and a clause can be added at any level that `level_for` allows. A new watcher
//! goes to the end of its atom's list; the watchers of atoms that are no longer watched stay until a walk meets them
//! (`walk`).

ghost use Rattle.std.specs.Prelude.{ℕ, ◌+◌, ◌≡◌, ◌≢◌, ◌<◌, ◌≤◌, true, false, length, max, slice_index_or, slice_set, take, IsTrue, OnOk, IfOk};
ghost use Rattle.std.specs.List.{All};
ghost use Rattle.cps_literal.specs.declared.atom.Atom.{Atom as AtomOf};
ghost use Rattle.cps_trail.specs.Trail.{IsFalseNow};
ghost use Rattle.cps_trail.specs.Adds.{Infers};
ghost use Rattle.cps_clauses.specs.Notes.{ByClause};
ghost use Rattle.cps_clauses.specs.Quiet.{Fits, AreFalseBut};
ghost use Rattle.cps_clauses.specs.Watches.{IsWatching, IsWatched, IsWatchPair, HasWatchLists, StandsInList, IsGuarded, clause_of, watch_of, slot_of, list_at};
ghost use Rattle.cps_clauses.specs.Looks.{IsLooked, IsLastSettled, IsShortSettled, IsAttached, IsRewatched};

use crate::clauses::Clauses;
use crate::falls::last_two;
use crate::literals::Literals;
use crate::slot::slot;
use crate::visit::imply_last;
use crate::watch::{Watch, Watcher};
use crate::watching::{Watching, partner};
use cps_literal::Truth;
use cps_trail::Store;
use std::alloc::AllocError;

/// An atom of a clause that is to be watched, by the clause's number and the places of the atom and of its blocker.
#[derive(Clone, Copy)]
struct WatchedAtom {
    clause: usize,
    place: usize,
    blocker: usize,
}

/// Adds a watcher for an atom of a clause to the atom's list, unless one stands there already.
fn attach(
    watching: &mut Watching,
    atoms: &Literals<'_>,
    watched: WatchedAtom,
    stands: bool,
) -> Result<(), AllocError>
    requires place { watched.place < length atoms.now }
    requires blocker { watched.blocker < length atoms.now }
    requires room { (d : AtomOf) → slot_of
        (slice_index_or atoms.now watched.place d) < length watching.old.lists.items }
    requires stands { IsTrue stands → (d : AtomOf)
        → StandsInList (list_at watching.old.lists.items (slot_of (slice_index_or atoms.now watched.place d))) 0
        watched.clause watched.place }
    ensures attached { IsAttached watching.old.lists.items watching.new.lists.items watched.clause atoms.now
        watched.place watched.blocker }
    ensures stands { OnOk result ((d : AtomOf)
        → StandsInList (list_at watching.new.lists.items (slot_of (slice_index_or atoms.now watched.place d))) 0
        watched.clause watched.place) }
    ensures same { watching.new ≡ record watching.old { lists = watching.new.lists } }
{
    if stands {
        return Ok(());
    }
    let (Ok(number), Ok(at)) = (u32::try_from(watched.clause), u32::try_from(watched.place)) else {
        return Err(AllocError);
    };
    let atom = atoms.atom(watched.place);
    let to = slot(atom.subject, atom.op);
    let target = &mut watching.lists[to];
    target.push(Watcher {
        clause: number,
        place: at,
        value: atom.value,
        blocker: atoms.atom(watched.blocker),
    })
}

/// Reads a clause, watches the two of its atoms that became false last or not at all, and, if only one is not false,
/// makes that one true. Answers whether all are false.
pub(crate) fn choose_watches(
    clauses: &Clauses,
    watching: &mut Watching,
    clause: usize,
    store: &mut Store,
) -> Result<bool, AllocError>
    requires fits { All (Fits store.old.first) clauses.now }
    requires clause { clause < length clauses.now }
    requires within { clause ≤ watching.old.attached }
    requires room { HasWatchLists clauses.now (length watching.old.lists.items) }
    requires watching { IsWatching clauses.now watching.old.watches.items watching.old.attached (list_at
        watching.old.lists.items) }
    ensures infers { OnOk result (Infers (ByClause clause (clause_of clauses.now clause)) store.old store.new) }
    ensures looked { IfOk result (IsLooked store.old watching.old.watches.items store.new watching.new.watches.items
        clauses.now clause) }
    ensures attached { OnOk result (watching.new.attached ≡ max watching.old.attached (clause + 1)) }
    ensures beyond { watching.old.attached ≤ watching.new.attached }
    ensures watching { IsWatching clauses.now watching.new.watches.items watching.new.attached (list_at
        watching.new.lists.items) }
    ensures room { length watching.new.lists.items ≡ length watching.old.lists.items }
{
    let Ok(number) = u32::try_from(clause) else {
        return Err(AllocError);
    };
    let atoms = clauses.clause(clause);
    if atoms.len() < 2 {
        watching.attached = watching.attached.max(clause + 1);
        return propagate_short(store, number, &atoms);
    }
    let two = last_two(store, &atoms);
    rewatch(watching, clauses, clause, two.place, two.other)?;
    if two.other_fell > store.entries().len() {
        // Two atoms are not false: nothing to do.
        return Ok(false);
    }
    propagate_unit(store, number, &atoms, two.place)
}

/// Propagates a clause of at most one atom: makes the atom true, and returns whether it is false. Without an atom
/// nothing is done: the clause was dropped, or the base answers it as a conflict before it reads any clause.
fn propagate_short(store: &mut Store, number: u32, atoms: &Literals<'_>) -> Result<bool, AllocError>
    requires fits { Fits store.old.first atoms.now }
    requires short { length atoms.now < 2 }
    ensures infers { OnOk result (Infers (ByClause number atoms.now) store.old store.new) }
    ensures settled { IfOk result (IsShortSettled store.old store.new atoms.now) }
{
    if atoms.len() == 0 {
        return Ok(false);
    }
    propagate_unit(store, number, atoms, 0)
}

/// Makes an atom of a clause true whose other atoms are false. Answers whether it is false too.
fn propagate_unit(
    store: &mut Store,
    number: u32,
    atoms: &Literals<'_>,
    place: usize,
) -> Result<bool, AllocError>
    requires fits { Fits store.old.first atoms.now }
    requires place { place < length atoms.now }
    requires others { AreFalseBut store.old.first store.old.entries atoms.now place }
    ensures infers { OnOk result (Infers (ByClause number atoms.now) store.old store.new) }
    ensures settled { IfOk result (IsLastSettled store.old store.new atoms.now) }
{
    match store.truth(atoms.atom(place)) {
        Truth::Yes => Ok(false),
        Truth::No => Ok(true),
        Truth::Undecided => {
            imply_last(store, number, atoms, place)?;
            Ok(false)
        }
    }
}

/// Watches two atoms of a clause.
fn rewatch(
    watching: &mut Watching,
    clauses: &Clauses,
    clause: usize,
    one: usize,
    other: usize,
) -> Result<(), AllocError>
    requires clause { clause < length clauses.now }
    requires within { clause ≤ watching.old.attached }
    requires one { one < length (clause_of clauses.now clause) }
    requires other { other < length (clause_of clauses.now clause) }
    requires apart { one ≢ other }
    requires room { HasWatchLists clauses.now (length watching.old.lists.items) }
    requires watching { IsWatching clauses.now watching.old.watches.items watching.old.attached (list_at
        watching.old.lists.items) }
    ensures watches { OnOk result (watching.new.watches.items
        ≡ slice_set watching.old.watches.items clause (record { one = one; other = other })) }
    ensures attached { OnOk result (watching.new.attached ≡ max watching.old.attached (clause + 1)) }
    ensures beyond { watching.old.attached ≤ watching.new.attached }
    ensures watching { IsWatching clauses.now watching.new.watches.items watching.new.attached (list_at
        watching.new.lists.items) }
    ensures room { length watching.new.lists.items ≡ length watching.old.lists.items }
{
    let (Ok(first), Ok(second)) = (u32::try_from(one), u32::try_from(other)) else {
        return Err(AllocError);
    };
    let atoms = clauses.clause(clause);
    let known = clause < watching.attached;
    let old = watching.watches[clause];
    let at_one = WatchedAtom {
        clause,
        place: one,
        blocker: other,
    };
    let at_other = WatchedAtom {
        clause,
        place: other,
        blocker: one,
    };
    attach(watching, &atoms, at_one, known && is_watched(old, first))?;
    attach(watching, &atoms, at_other, known && is_watched(old, second))?;
    watching.watches[clause] = Watch {
        one: first,
        other: second,
    };
    watching.attached = watching.attached.max(clause + 1);
    Ok(())
}

/// Whether a place is watched.
fn is_watched(watch: Watch, place: u32) -> bool
    ensures { IsTrue result → IsWatched watch place }
{
    watch.one == place || watch.other == place
}
