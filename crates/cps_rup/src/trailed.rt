//! Domains with a trail of what narrowed them.
//!
//! A domain is narrowed in place, and the trail has what undoes that, newest last. So the box of a clause costs what its
//! atoms cost, and no domain is copied for it.

ghost use Rattle.std.specs.Prelude.{◌≡◌, ◌<◌, ℕ, ℤ, [], ◌∷◌, ◌++◌, length, OnOk, OnErr};
ghost use Rattle.cps_unit.specs.Boxes.{with_atom, HasValues};
ghost use Rattle.cps_rup.specs.Domains.{box_in, IsOpenIn};
ghost use Rattle.cps_rup.specs.Trails.{CanUndoAll, all_undone};

use cps_domain::{Domain, Narrowing, Undo};
use cps_literal::Atom;
use std::alloc::{AllocError, Global};
use std::marker::Model;

/// An atom that narrowed its subject's domain, and what undoes that.
#[derive(Clone, Copy)]
pub(crate) struct Change {
    pub(crate) atom: Atom,
    pub(crate) undo: Undo,
}

/// The domains of subjects, which can be narrowed and restored. They are seen as they were at first and as they are now.
#[derive(Drop)]
pub struct TrailedDomains {
    domains: Vec<Domain>,
    /// What narrowed them since they were as at first, newest last.
    trail: Vec<Change>,
}

impl Model for TrailedDomains {
    ghost use Rattle.cps_rup.specs.Trailed.{Trailed};

    ghost Value = { Trailed };

    ghost use Rattle.cps_rup.specs.Trails.{trailed_of, IsTrailed};

    ghost view = { trailed_of };

    ghost invariant = { IsTrailed };
}

impl TrailedDomains {
    /// No subject.
    pub fn new(alloc: Global) -> Self
        ensures { result ≡ record { first = []; now = [] } }
    {
        TrailedDomains {
            domains: Vec::new(alloc),
            trail: Vec::new(alloc),
        }
    }

    /// Adds a subject, where no domain is narrowed.
    pub fn push(&mut self, domain: Domain) -> Result<(), AllocError>
        requires { self.old.now ≡ self.old.first }
        ensures ok { OnOk result (self.new
            ≡ record { first = self.old.first ++ domain ∷ []; now = self.old.first ++ domain ∷ [] }) }
        ensures err { OnErr result (self.new ≡ self.old) }
    {
        // A domain always has a value.
        let _least = domain.min();
        self.trail.clear();
        self.domains.push(domain)?;
        Ok(())
    }

    /// The domains as they are now.
    pub fn as_slice(&self) -> &[Domain]
        ensures now { result.now ≡ self.now.now }
        ensures values { HasValues (length self.now.now) (box_in self.now.now) }
    {
        self.domains.as_slice()
    }

    /// Keeps the values at which an open atom is true. Only `!=` may take memory for the domain; the trail may take it
    /// for each.
    pub(crate) fn force(&mut self, atom: Atom) -> Result<(), AllocError>
        requires subject { atom.subject < length self.old.now }
        requires is_open { IsOpenIn (box_in self.old.now) atom }
        ensures first { self.new.first ≡ self.old.first }
        ensures count { length self.new.now ≡ length self.old.now }
        ensures kept { OnOk result ((s : ℕ) (x : ℤ) → box_in self.new.now s x
            ≡ with_atom (box_in self.old.now) atom s x) }
    {
        self.trail.reserve(1)?;
        let domain = &mut self.domains[atom.subject as usize];
        // Some values meet the atom and some do not, so this narrows.
        let Narrowing::Narrowed(undo) = atom.narrow(domain)? else {
            unreachable!();
        };
        // A domain always has a value.
        let _least = domain.min();
        self.trail.push_reserved(Change { atom, undo });
        Ok(())
    }

    /// How often a domain was narrowed since all were as at first.
    pub(crate) fn changes(&self) -> usize {
        self.trail.len()
    }

    /// The atom of a change, by its place in the order of time.
    pub(crate) fn change(&self, place: usize) -> Option<Atom> {
        match self.trail.get(place) {
            Some(change) => Some(change.atom),
            None => None,
        }
    }

    /// Makes the domains as they are now the first ones.
    pub(crate) fn keep(&mut self)
        ensures { self.new ≡ record { first = self.old.now; now = self.old.now } }
    {
        self.trail.clear();
    }

    /// Makes the domains as they were at first.
    pub fn restore(&mut self)
        ensures { self.new ≡ record { first = self.old.first; now = self.old.first } }
    {
        undo_all(&mut self.domains, &mut self.trail);
    }
}

/// Undoes all changes, the newest first.
fn undo_all(domains: &mut [Domain], trail: &mut Vec<Change>)
    requires { CanUndoAll trail.old.items domains.old }
    ensures undone { domains.new ≡ all_undone trail.old.items domains.old }
    ensures none_left { trail.new.items ≡ [] }
{
    while let Some(change) = trail.pop() {
        domains[change.atom.subject as usize].undo(change.undo);
    }
}
