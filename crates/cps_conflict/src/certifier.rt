//! Unit propagation from the box of a clause, over the reasons of entries that are proposed.
//!
//! A reason counts where each of its atoms but the one that it made true is shown to be false: the atom implies one of
//! the clause, or entries that are known take all values that meet it. Then its entry is known as well. So whatever was
//! proposed, what is answered is a proof: the antecedents of Cruz-Filipe and others, "Efficient Certified RAT
//! Verification" (2017), in an order in which each of them is unit.

ghost use Rattle.std.specs.Prelude.{ℕ, ◌≡◌, ◌≢◌, ◌⊎◌, ◌<◌, length, false, All, Any, IsTrue, OnOk, IfOk, IfSome};
ghost use Rattle.cps_literal.specs.Truth.{Implies};
ghost use Rattle.cps_trail.specs.Trail.{IsFalseNow};
ghost use Rattle.cps_trail.specs.Notes.{AllFit};
ghost use Rattle.cps_conflict.specs.Leading.{IsFetched, is_marked};
ghost use Rattle.cps_conflict.specs.Antecedents.{AreForcedSoFar, Certifies, IsPassed, IsRefuted};

use crate::leading::rules_out;
use crate::reason::fetch;
use cps_literal::{Atom, Clause};
use cps_trail::{Explain, Store};
use std::alloc::{AllocError, Global};

/// A clause by which unit propagation goes on: the reason of an entry, by the number of the entry.
#[derive(Drop)]
pub struct Antecedent {
    pub entry: usize,
    pub reason: Clause,
}

/// Certifies antecedents. Between two calls it keeps nothing but room.
#[derive(Drop)]
pub(crate) struct Certifier {
    alloc: Global,
    /// The clause whose atoms count as false.
    clause: Vec<Atom>,
    /// For each entry whether propagation has come to its atom.
    known: Vec<bool>,
    /// The reason that was asked for last.
    reason: Vec<Atom>,
}

/// Whether an atom implies one of a clause.
pub(crate) fn implies_some(atom: Atom, clause: &[Atom]) -> bool
    ensures { IsTrue result → Any (Implies atom) clause.now }
{
    for other in clause {
        if atom.implies(*other) {
            return true;
        }
    }
    false
}

impl Certifier {
    /// With no room yet.
    pub(crate) fn new(alloc: Global) -> Self {
        Certifier {
            alloc,
            clause: Vec::new(alloc),
            known: Vec::new(alloc),
            reason: Vec::new(alloc),
        }
    }

    /// Begins anew for a clause.
    pub(crate) fn reset(&mut self, store: &Store, clause: &[Atom]) -> Result<(), AllocError>
        ensures clause { OnOk result (self.new.clause.items ≡ clause.now) }
        ensures size { OnOk result (length self.new.known.items ≡ length store.now.entries) }
        ensures none { OnOk result ((k : ℕ) → is_marked self.new.known.items k ≡ false) }
    {
        self.clause.clear();
        self.clause.extend_from_slice(clause)?;
        self.known.clear();
        self.known.resize(store.entries().len(), false)?;
        Ok(())
    }

    /// Whether one entry that is known rules an atom out. It may be a later one than that with which the atom fell.
    fn is_ruled_out(&self, store: &Store, atom: Atom) -> bool
        requires subject { atom.subject < length store.now.first }
        requires size { length self.now.known.items ≡ length store.now.entries }
        ensures { IsTrue result → IsRefuted store.now self.now.clause.items self.now.known.items atom }
    {
        let entries = store.entries();
        let mut count = store.last_on(atom.subject);
        while count > 0 {
            let place = count - 1;
            if self.known[place] && rules_out(entries[place].atom, atom) {
                return true;
            }
            count = store.last_before(place);
        }
        false
    }

    /// Whether an entry takes none of the values that meet an atom and are left: it is known, or of level 0, or true
    /// where the atom is or all of the clause is false. Or the entry at `last` takes all that it takes.
    fn is_passed(&self, store: &Store, place: usize, last: usize, atom: Atom) -> bool
        requires place { place < length store.now.entries }
        requires last { last < length store.now.entries }
        requires size { length self.now.known.items ≡ length store.now.entries }
        ensures { IsTrue result
            → (place ≢ last → IsPassed store.now self.now.clause.items self.now.known.items atom last)
            → IsPassed store.now self.now.clause.items self.now.known.items atom place }
    {
        let entries = store.entries();
        let entry = entries[place].atom;
        if self.known[place] || entries[place].level == 0 || atom.implies(entry) {
            return true;
        }
        if place != last && entries[last].atom.implies(entry) {
            return true;
        }
        implies_some(entry.negate(), self.clause.as_slice())
    }

    /// Whether the entries by which an atom fell take all values that meet it, as far as they are known.
    fn is_worn_away(&self, store: &Store, atom: Atom) -> bool
        requires subject { atom.subject < length store.now.first }
        requires false_now { IsFalseNow store.now atom }
        requires size { length self.now.known.items ≡ length store.now.entries }
        ensures { IsTrue result → IsRefuted store.now self.now.clause.items self.now.known.items atom }
    {
        let count = store.falsified(atom);
        let last = store.last_within(count, atom.subject);
        let mut found = last;
        while found > 0 {
            let place = found - 1;
            if !self.is_passed(store, place, last - 1, atom) {
                return false;
            }
            found = store.last_before(place);
        }
        true
    }

    /// Whether an atom that is false in the store is shown to be false.
    fn is_refuted(&self, store: &Store, atom: Atom) -> bool
        requires subject { atom.subject < length store.now.first }
        requires false_now { IsFalseNow store.now atom }
        requires size { length self.now.known.items ≡ length store.now.entries }
        ensures { IsTrue result → IsRefuted store.now self.now.clause.items self.now.known.items atom }
    {
        if implies_some(atom, self.clause.as_slice()) {
            return true;
        }
        if self.is_ruled_out(store, atom) {
            return true;
        }
        self.is_worn_away(store, atom)
    }

    /// Whether an atom is the one that a reason made true, or is shown to be false.
    fn is_no_obstacle(&self, store: &Store, atom: Atom, implied: Atom) -> bool
        requires subject { atom.subject < length store.now.first }
        requires false_now { atom ≢ implied → IsFalseNow store.now atom }
        requires size { length self.now.known.items ≡ length store.now.entries }
        ensures { IsTrue result
            → (atom ≡ implied) ⊎ IsRefuted store.now self.now.clause.items self.now.known.items atom }
    {
        if atom == implied {
            return true;
        }
        self.is_refuted(store, atom)
    }

    /// Whether all atoms of a reason are shown to be false but the one that it made true.
    fn is_unit(&self, store: &Store, reason: &[Atom], implied: Atom) -> bool
        requires subjects { All (λ u. u.subject < length store.now.first) reason.now }
        requires false_now { All (λ u. u ≢ implied → IsFalseNow store.now u) reason.now }
        requires size { length self.now.known.items ≡ length store.now.entries }
        ensures { IsTrue result → All (λ u. (u ≡ implied)
            ⊎ IsRefuted store.now self.now.clause.items self.now.known.items u) reason.now }
    {
        for atom in reason {
            if !self.is_no_obstacle(store, *atom, implied) {
                return false;
            }
        }
        true
    }

    /// Whether all atoms of a conflict are shown to be false.
    fn are_refuted(&self, store: &Store, conflict: &[Atom]) -> bool
        requires subjects { All (λ u. u.subject < length store.now.first) conflict.now }
        requires false_now { All (IsFalseNow store.now) conflict.now }
        requires size { length self.now.known.items ≡ length store.now.entries }
        ensures { IsTrue result → All (IsRefuted store.now self.now.clause.items self.now.known.items) conflict.now }
    {
        for atom in conflict {
            if !self.is_refuted(store, *atom) {
                return false;
            }
        }
        true
    }

    /// Adds the reason of an entry, if it forces the entry's atom. Answers whether it does, and did not before.
    fn add<E: Explain>(
        &mut self,
        store: &Store,
        explain: &E,
        place: usize,
        found: &mut Vec<Antecedent>,
    ) -> Result<bool, AllocError>
        requires fits { AllFit (E.fits explain.now) store.now }
        requires so_far { AreForcedSoFar (IsFetched (E.makes explain.now store.now) store.now) store.now
            self.old.clause.items self.old.known.items found.old.items }
        ensures clause { OnOk result (self.new.clause ≡ self.old.clause) }
        ensures so_far { OnOk result (AreForcedSoFar (IsFetched (E.makes explain.now store.now) store.now) store.now
            self.new.clause.items self.new.known.items found.new.items) }
    {
        if place >= store.entries().len() || self.known[place] {
            return Ok(false);
        }
        if !fetch(explain, store, place, &mut self.reason)? {
            return Ok(false);
        }
        let implied = store.entries()[place].atom;
        if !self.is_unit(store, self.reason.as_slice(), implied) {
            return Ok(false);
        }
        let reason = Clause::from_slice(self.alloc, self.reason.as_slice())?;
        found.push(Antecedent {
            entry: place,
            reason,
        })?;
        self.known[place] = true;
        Ok(true)
    }

    /// Goes once over the entries that are proposed. Answers whether a reason was added.
    fn pass<E: Explain>(
        &mut self,
        store: &Store,
        explain: &E,
        proposed: &[usize],
        found: &mut Vec<Antecedent>,
    ) -> Result<bool, AllocError>
        requires fits { AllFit (E.fits explain.now) store.now }
        requires so_far { AreForcedSoFar (IsFetched (E.makes explain.now store.now) store.now) store.now
            self.old.clause.items self.old.known.items found.old.items }
        ensures clause { OnOk result (self.new.clause ≡ self.old.clause) }
        ensures so_far { OnOk result (AreForcedSoFar (IsFetched (E.makes explain.now store.now) store.now) store.now
            self.new.clause.items self.new.known.items found.new.items) }
    {
        let mut goes_on = false;
        for place in proposed {
            if self.add(store, explain, *place, found)? {
                goes_on = true;
            }
        }
        Ok(goes_on)
    }

    /// Goes over the entries that are proposed until no reason is added. An atom may be false by an entry that comes
    /// later than the one whose reason has it.
    fn propagate<E: Explain>(
        &mut self,
        store: &Store,
        explain: &E,
        proposed: &[usize],
        found: &mut Vec<Antecedent>,
    ) -> Result<(), AllocError>
        requires fits { AllFit (E.fits explain.now) store.now }
        requires so_far { AreForcedSoFar (IsFetched (E.makes explain.now store.now) store.now) store.now
            self.old.clause.items self.old.known.items found.old.items }
        ensures clause { OnOk result (self.new.clause ≡ self.old.clause) }
        ensures so_far { OnOk result (AreForcedSoFar (IsFetched (E.makes explain.now store.now) store.now) store.now
            self.new.clause.items self.new.known.items found.new.items) }
    {
        for _ in 0..proposed.len() {
            if !self.pass(store, explain, proposed, found)? {
                return Ok(());
            }
        }
        Ok(())
    }

    /// The antecedents of a conflict among the entries that are proposed, in an order in which each is unit; `None` if
    /// propagation over them does not make the conflict false.
    pub(crate) fn certify<E: Explain>(
        &mut self,
        store: &Store,
        explain: &E,
        conflict: &[Atom],
        proposed: &[usize],
    ) -> Result<Option<Vec<Antecedent>>, AllocError>
        requires fits { AllFit (E.fits explain.now) store.now }
        requires subjects { All (λ u. u.subject < length store.now.first) conflict.now }
        requires false_now { All (IsFalseNow store.now) conflict.now }
        requires size { length self.old.known.items ≡ length store.now.entries }
        requires none { (k : ℕ) → is_marked self.old.known.items k ≡ false }
        ensures { IfOk result (λ o. IfSome o (λ found. Certifies
            (IsFetched (E.makes explain.now store.now) store.now) store.now conflict.now self.old.clause.items
            found.items)) }
    {
        let mut found = Vec::new(self.alloc);
        self.propagate(store, explain, proposed, &mut found)?;
        if !self.are_refuted(store, conflict) {
            return Ok(None);
        }
        Ok(Some(found))
    }
}
