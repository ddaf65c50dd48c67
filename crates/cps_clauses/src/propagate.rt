//! Unit propagation by watched atoms: first the clauses that are new, then those whose watched atoms the entries made
//! false.
//!
//! Entries are gone through in order while the walk adds new ones, so there is no queue beside the trail. If an entry
//! of an earlier level than the present one is among those not seen yet, and made a watched atom false, every clause is
//! looked at whole: its watches are to be right at the end of each level, and what that entry implies belongs to an
//! earlier level. In a search this does not come up: it decides only where clauses are at rest, so where they last came
//! to rest is never before the end of the level below the present one. It serves callers who decide before they
//! propagate.

ghost use Rattle.std.specs.Prelude.{ℕ, ◌+◌, ◌≡◌, ◌<◌, ◌≤◌, true, false, None, max, List, length, take, OnOk, IfOk};
ghost use Rattle.std.specs.List.{All};
ghost use Rattle.cps_literal.specs.declared.atom.Atom.{Atom as AtomOf};
ghost use Rattle.cps_trail.specs.Trail.{IsSoundTrail, up_to};
ghost use Rattle.cps_clauses.specs.Quiet.{Fits};
ghost use Rattle.cps_clauses.specs.Watches.{IsWatching, HasWatchLists, IsStill, list_at};
ghost use Rattle.cps_clauses.specs.Visits.{AreSafe, IsOutcome, IsWoken, IsUntouched};
ghost use Rattle.cps_clauses.specs.Settles.{AreGuarded, AreQuiet, StaysFalse, IsLookedOver, IsLookedAt, AreSettled};

use crate::choose_watches::choose_watches;
use crate::clauses::Clauses;
use crate::wake::{wake, wakes};
use crate::watching::Watching;
use cps_trail::Store;
use std::alloc::{AllocError, Global};

/// How far propagation came before: the clauses below number `settled` are settled over the entries below number
/// `from`.
#[derive(Clone, Copy)]
pub(crate) struct Progress {
    pub(crate) settled: usize,
    pub(crate) from: usize,
}

/// Whether one of the entries from number `from` up to `to` made a watched atom false.
fn wakes_some(store: &Store, watching: &Watching, from: usize, to: usize) -> bool
    requires within { to ≤ length store.now.entries }
    requires watching { (clauses : List (List AtomOf))
        × IsWatching clauses watching.now.watches.items watching.now.attached (list_at watching.now.lists.items) }
    ensures yes { result ≡ true → (clauses : List (List AtomOf))
        → IsWatching clauses watching.now.watches.items watching.now.attached (list_at watching.now.lists.items)
        → IsStill clauses watching.now.watches.items store.now from → ⊥ }
    ensures no { result ≡ false → (clauses : List (List AtomOf))
        → IsWatching clauses watching.now.watches.items watching.now.attached (list_at watching.now.lists.items)
        → StaysFalse clauses watching.now.watches.items watching.now.attached store.now from to }
{
    for entry in from..to {
        if wakes(store, watching, entry) {
            return true;
        }
    }
    false
}

/// The number of the first clause that must be looked at whole: the first that was not settled yet, or 0 where an
/// entry of an earlier level made a watched atom false.
fn first_looked(store: &Store, watching: &Watching, progress: Progress, below: usize) -> usize
    requires below { below ≤ length store.now.entries }
    requires settled { progress.settled ≤ watching.now.attached }
    requires watching { (clauses : List (List AtomOf))
        × IsWatching clauses watching.now.watches.items watching.now.attached (list_at watching.now.lists.items) }
    ensures within { result ≤ progress.settled }
    ensures still { (clauses : List (List AtomOf))
        → IsWatching clauses watching.now.watches.items watching.now.attached (list_at watching.now.lists.items)
        → IsStill clauses watching.now.watches.items store.now progress.from → result ≡ progress.settled }
    ensures stays { (clauses : List (List AtomOf))
        → IsWatching clauses watching.now.watches.items watching.now.attached (list_at watching.now.lists.items)
        → StaysFalse clauses watching.now.watches.items result store.now progress.from (max progress.from below) }
{
    let from = progress.from;
    if from < below && wakes_some(store, watching, from, below) {
        0
    } else {
        progress.settled
    }
}

/// How many entries there were when the level below the present one ended.
fn end_below(store: &Store) -> usize
    ensures within { result ≤ length store.now.entries }
    ensures end { (l : ℕ) → l < store.now.level → length (up_to l store.now.entries) ≤ result }
    ensures sound { IsSoundTrail store.now }
{
    let level = store.level();
    if store.entries().is_empty() || level == 0 {
        0
    } else {
        store.end_of(level - 1)
    }
}

/// Looks at the clauses from number `from` on. Answers the number of one that is false, if it meets one.
fn choose_all_watches(
    clauses: &Clauses,
    watching: &mut Watching,
    from: usize,
    store: &mut Store,
) -> Result<Option<usize>, AllocError>
    requires fits { All (Fits store.old.first) clauses.now }
    requires within { from ≤ watching.old.attached }
    requires room { HasWatchLists clauses.now (length watching.old.lists.items) }
    requires watching { IsWatching clauses.now watching.old.watches.items watching.old.attached (list_at
        watching.old.lists.items) }
    ensures looked { IfOk result (IsLookedAt clauses.now store.old watching.old.watches.items store.new
        watching.new.watches.items from) }
    ensures attached { result ≡ Ok None → watching.new.attached ≡ length clauses.now }
    ensures beyond { watching.old.attached ≤ watching.new.attached }
    ensures still { OnOk result (from ≡ length clauses.now
        → IsUntouched store.old watching.old.watches.items watching.old.visits store.new watching.new.watches.items
        watching.new.visits) }
    ensures watching { IsWatching clauses.now watching.new.watches.items watching.new.attached (list_at
        watching.new.lists.items) }
    ensures room { length watching.new.lists.items ≡ length watching.old.lists.items }
{
    for clause in from..clauses.len() {
        watching.visits = watching.visits.saturating_add(1);
        if choose_watches(clauses, watching, clause, store)? {
            return Ok(Some(clause));
        }
    }
    Ok(None)
}

/// Goes through the entries from number `from` on. Answers the number of a clause that is false, if it meets one.
fn wake_all(
    alloc: Global,
    clauses: &Clauses,
    watching: &mut Watching,
    from: usize,
    store: &mut Store,
) -> Result<Option<usize>, AllocError>
    requires fits { All (Fits store.old.first) clauses.now }
    requires room { HasWatchLists clauses.now (length watching.old.lists.items) }
    requires watching { IsWatching clauses.now watching.old.watches.items (length clauses.now) (list_at
        watching.old.lists.items) }
    requires within { from ≤ length store.old.entries }
    requires safe { AreSafe clauses.now watching.old.watches.items store.old from }
    ensures outcome { OnOk result (IsOutcome clauses.now store.old watching.old.watches.items store.new
        watching.new.watches.items) }
    ensures woken { IfOk result (IsWoken clauses.now watching.new.watches.items (length store.new.entries) store.new) }
    ensures still { OnOk result (IsStill clauses.now watching.old.watches.items store.old from
        → IsUntouched store.old watching.old.watches.items watching.old.visits store.new watching.new.watches.items
        watching.new.visits) }
    ensures watching { IsWatching clauses.now watching.new.watches.items (length clauses.now) (list_at
        watching.new.lists.items) }
    ensures room { length watching.new.lists.items ≡ length watching.old.lists.items }
    ensures attached { watching.new.attached ≡ watching.old.attached }
    ensures sound { result ≡ Ok None → IsSoundTrail store.new }
{
    let mut next = from;
    while next < store.entries().len() {
        if let Some(clause) = wake(alloc, clauses, watching, next, store)? {
            return Ok(Some(clause));
        }
        next += 1;
    }
    Ok(None)
}

/// Unit propagation at the present level. Looks at new clauses, and at those with a watched atom that a new entry made
/// false. Returns the number of a clause that is false, if it meets one.
pub(crate) fn propagate_watches(
    alloc: Global,
    clauses: &Clauses,
    watching: &mut Watching,
    progress: Progress,
    store: &mut Store,
) -> Result<Option<usize>, AllocError>
    requires fits { All (Fits store.old.first) clauses.now }
    requires room { HasWatchLists clauses.now (length watching.old.lists.items) }
    requires watching { IsWatching clauses.now watching.old.watches.items watching.old.attached (list_at
        watching.old.lists.items) }
    requires settled { progress.settled ≤ watching.old.attached }
    requires within { progress.from ≤ length store.old.entries }
    requires quiet { AreQuiet clauses.now store.old store.old.level }
    requires in_step { AreGuarded store.old.first (take progress.from store.old.entries) clauses.now
        watching.old.watches.items progress.settled }
    ensures settles { IfOk result (AreSettled clauses.now store.old store.new watching.new.watches.items
        progress.settled progress.from) }
    ensures attached { result ≡ Ok None → watching.new.attached ≡ length clauses.now }
    ensures beyond { watching.old.attached ≤ watching.new.attached }
    ensures sound { result ≡ Ok None → IsSoundTrail store.new }
    ensures still { OnOk result (progress.settled ≡ length clauses.now
        → IsStill clauses.now watching.old.watches.items store.old progress.from
        → watching.new.visits ≡ watching.old.visits) }
    ensures watching { IsWatching clauses.now watching.new.watches.items watching.new.attached (list_at
        watching.new.lists.items) }
    ensures room { length watching.new.lists.items ≡ length watching.old.lists.items }
{
    let below = end_below(store);
    let looked = first_looked(store, watching, progress, below);
    if let Some(clause) = choose_all_watches(clauses, watching, looked, store)? {
        return Ok(Some(clause));
    }
    wake_all(alloc, clauses, watching, progress.from.max(below), store)
}
