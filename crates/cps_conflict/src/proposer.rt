//! Which entries' reasons may lead from a clause to a conflict.
//!
//! Entries are followed from the conflict, each once, by the atoms of their reasons, up to atoms that imply one of the
//! clause, to decisions and to level 0. Where an atom implies one of the resolvent, that one's entry is followed in
//! place of its own: the search for redundant atoms goes that way. This proposes, and only `Certifier` judges.

ghost use Rattle.std.specs.Prelude.{◌≡◌, ◌≢◌, ◌≤◌, ◌<◌, length, All};
ghost use Rattle.cps_trail.specs.Trail.{IsFalseNow};
ghost use Rattle.cps_trail.specs.Notes.{AllFit};

use crate::certifier::implies_some;
use crate::leading::is_ruled_out;
use crate::reason::fetch;
use crate::resolvent::Resolvent;
use cps_literal::Atom;
use cps_trail::{Explain, ReasonView, Store};
use std::alloc::{AllocError, Global};

/// Proposes entries. Between two calls it keeps nothing but room.
#[derive(Drop)]
pub(crate) struct Proposer {
    alloc: Global,
    /// The clause whose atoms count as false.
    clause: Vec<Atom>,
    /// The entries that are proposed.
    places: Vec<usize>,
    /// For each entry whether it is proposed.
    seen: Vec<bool>,
}

impl Proposer {
    /// With no room yet.
    pub(crate) fn new(alloc: Global) -> Self {
        Proposer {
            alloc,
            clause: Vec::new(alloc),
            places: Vec::new(alloc),
            seen: Vec::new(alloc),
        }
    }

    /// Begins anew for a clause.
    pub(crate) fn reset(&mut self, store: &Store, clause: &[Atom]) -> Result<(), AllocError> {
        self.clause.clear();
        self.clause.extend_from_slice(clause)?;
        self.places.clear();
        self.seen.clear();
        self.seen.resize(store.entries().len(), false)?;
        Ok(())
    }

    /// The entries that are proposed.
    pub(crate) fn places(&self) -> &[usize] {
        self.places.as_slice()
    }

    /// Proposes an entry, if it has a reason and is of no level that is taken as known.
    fn propose_entry(&mut self, store: &Store, place: usize) -> Result<(), AllocError> {
        let (Some(entry), Some(seen)) = (store.entries().get(place), self.seen.get_mut(place))
        else {
            return Ok(());
        };
        if *seen || entry.level == 0 || entry.reason == ReasonView::Decision {
            return Ok(());
        }
        *seen = true;
        self.places.push(place)?;
        Ok(())
    }

    /// Proposes the entries about an atom's subject, of the first `count`.
    fn propose_about(&mut self, store: &Store, count: usize, subject: u32) -> Result<(), AllocError>
        requires subject { subject < length store.now.first }
        requires count { count ≤ length store.now.entries }
    {
        let mut found = store.last_within(count, subject);
        while found > 0 {
            self.propose_entry(store, found - 1)?;
            found = store.last_before(found - 1);
        }
        Ok(())
    }

    /// Proposes what may make an atom false.
    fn propose(
        &mut self,
        resolvent: &Resolvent,
        store: &Store,
        atom: Atom,
    ) -> Result<(), AllocError>
        requires subject { atom.subject < length store.now.first }
        requires false_now { IsFalseNow store.now atom }
    {
        if implies_some(atom, self.clause.as_slice()) {
            return Ok(());
        }
        if let Some(from) = resolvent.first_implied(atom)
            && from > 0
        {
            return self.propose_entry(store, from - 1);
        }
        let count = store.falsified(atom);
        if is_ruled_out(store, count, atom) && count > 0 {
            return self.propose_entry(store, count - 1);
        }
        self.propose_about(store, count, atom.subject)
    }

    /// Proposes what may make an atom of a reason false, unless it is the one that the reason made true.
    fn propose_unless(
        &mut self,
        resolvent: &Resolvent,
        store: &Store,
        atom: Atom,
        implied: Atom,
    ) -> Result<(), AllocError>
        requires subject { atom.subject < length store.now.first }
        requires false_now { atom ≢ implied → IsFalseNow store.now atom }
    {
        if atom == implied {
            return Ok(());
        }
        self.propose(resolvent, store, atom)
    }

    /// Proposes what may make the atoms of a reason false but the one that it made true.
    fn propose_others(
        &mut self,
        resolvent: &Resolvent,
        store: &Store,
        reason: &[Atom],
        implied: Atom,
    ) -> Result<(), AllocError>
        requires subjects { All (λ u. u.subject < length store.now.first) reason.now }
        requires false_now { All (λ u. u ≢ implied → IsFalseNow store.now u) reason.now }
    {
        for atom in reason {
            self.propose_unless(resolvent, store, *atom, implied)?;
        }
        Ok(())
    }

    /// Follows the reason of an entry.
    fn follow<E: Explain>(
        &mut self,
        resolvent: &Resolvent,
        store: &Store,
        explain: &E,
        place: usize,
    ) -> Result<(), AllocError>
        requires within { place < length store.now.entries }
        requires fits { AllFit (E.fits explain.now) store.now }
    {
        let mut reason = Vec::new(self.alloc);
        if !fetch(explain, store, place, &mut reason)? {
            return Ok(());
        }
        let implied = store.entries()[place].atom;
        self.propose_others(resolvent, store, reason.as_slice(), implied)
    }

    /// Proposes the entries that are behind a conflict, in the order of the trail.
    pub(crate) fn gather<E: Explain>(
        &mut self,
        resolvent: &Resolvent,
        store: &Store,
        explain: &E,
        conflict: &[Atom],
    ) -> Result<(), AllocError>
        requires fits { AllFit (E.fits explain.now) store.now }
        requires subjects { All (λ u. u.subject < length store.now.first) conflict.now }
        requires false_now { All (IsFalseNow store.now) conflict.now }
    {
        for atom in conflict {
            self.propose(resolvent, store, *atom)?;
        }
        let count = store.entries().len();
        for index in 0..count {
            let Some(place) = self.places.get(index).copied() else {
                break;
            };
            if place < count {
                self.follow(resolvent, store, explain, place)?;
            }
        }
        self.places.sort()?;
        Ok(())
    }
}
