//! The checker: domains, clauses, and whether these imply another clause.

ghost use Rattle.std.specs.Prelude.{◌≡◌, ◌↔◌, ◌⊎◌, true, [], ◌∷◌, ◌++◌, length, IfOk, OnOk, OnErr, IsTrue};
ghost use Rattle.cps_log.specs.Subjects.{IsClauseOver};
ghost use Rattle.cps_unit.specs.Boxes.{IsEmpty, denied, AreOn};
ghost use Rattle.cps_unit.specs.Propagation.{LeadsToConflict};
ghost use Rattle.cps_rup.specs.Domains.{box_in};

use crate::arena::Clauses;
use crate::propagation::propagate;
use crate::scan::leads_to_conflict;
use crate::trailed::TrailedDomains;
use crate::watching::Watches;
use cps_domain::Domain;
use cps_literal::Atom;
use std::alloc::{AllocError, Global};
use std::marker::Model;

/// Domains of subjects, and clauses over them. Seen as these two lists.
#[derive(Drop)]
pub struct RupChecker {
    alloc: Global,
    /// The domains as they were given.
    given: Vec<Domain>,
    /// The same without the values that the clauses rule out by themselves.
    domains: TrailedDomains,
    clauses: Clauses,
    watches: Watches,
}

impl Model for RupChecker {
    ghost use Rattle.cps_rup.specs.Known.{Known};

    ghost Value = { Known };

    ghost use Rattle.cps_rup.specs.Checkers.{known_of, IsSettled};

    ghost view = { known_of };

    ghost invariant = { IsSettled };
}

impl RupChecker {
    /// No subject and no clause.
    pub fn new(alloc: Global) -> Self
        ensures { result ≡ record { domains = []; clauses = [] } }
    {
        RupChecker {
            alloc,
            given: Vec::new(alloc),
            domains: TrailedDomains::new(alloc),
            clauses: Clauses::new(alloc),
            watches: Watches::new(alloc),
        }
    }

    /// Adds the next subject, with its domain.
    pub fn add_subject(&mut self, domain: Domain) -> Result<(), AllocError>
        ensures ok { OnOk result (self.new ≡ record self.old { domains = self.old.domains ++ domain ∷ [] }) }
        ensures err { OnErr result (self.new ≡ self.old) }
    {
        self.watches.add_subject()?;
        self.given.reserve(1)?;
        self.domains.push(domain.clone()?)?;
        self.given.push_reserved(domain);
        Ok(())
    }

    /// Adds a clause. All clauses may have fewer than 2^32 atoms, and more are answered as if memory had run out.
    pub fn add_clause(&mut self, clause: &[Atom]) -> Result<(), AllocError>
        requires { IsClauseOver (length self.old.domains) clause.now }
        ensures ok { OnOk result (self.new ≡ record self.old { clauses = self.old.clauses ++ clause.now ∷ [] }) }
        ensures err { OnErr result (self.new ≡ self.old) }
    {
        self.watches.add_clause(self.domains.as_slice(), clause)?;
        self.clauses.push(clause)?;
        Ok(())
    }

    /// Whether a clause is implied: its box is empty, or unit propagation over the clauses comes from its box to a
    /// clause that is false.
    pub fn is_implied(&mut self, clause: &[Atom]) -> Result<bool, AllocError>
        requires { IsClauseOver (length self.old.domains) clause.now }
        ensures kept { self.new ≡ self.old }
        ensures implied { IfOk result (λ yes. IsTrue yes
            ↔ (IsEmpty (length self.old.domains) (denied (box_in self.old.domains) clause.now)
            ⊎ LeadsToConflict self.old.clauses (denied (box_in self.old.domains) clause.now))) }
    {
        if self.settle()? {
            return Ok(true);
        }
        let answer = follows(
            self.alloc,
            &mut self.domains,
            &self.clauses,
            &mut self.watches,
            clause,
        );
        self.domains.restore();
        answer
    }

    /// Narrows the domains for good by what the clauses force by themselves, and answers whether one of them is false.
    fn settle(&mut self) -> Result<bool, AllocError>
        ensures kept { self.new ≡ self.old }
        ensures conflict { IfOk result (λ found. found ≡ true
            → LeadsToConflict self.old.clauses (box_in self.old.domains)) }
    {
        match propagate(&mut self.domains, &self.clauses, &mut self.watches) {
            Ok(found) => {
                self.domains.keep();
                Ok(found)
            }
            Err(error) => {
                self.domains.restore();
                Err(error)
            }
        }
    }
}

/// Whether a clause follows from others by unit propagation from its box. What is left of the domains has no meaning
/// until they are restored.
fn follows(
    alloc: Global,
    domains: &mut TrailedDomains,
    clauses: &Clauses,
    watches: &mut Watches,
    clause: &[Atom],
) -> Result<bool, AllocError>
    requires over { IsClauseOver (length domains.old.now) clause.now }
    requires known { AreOn (length domains.old.now) clauses.now }
    ensures first { domains.new.first ≡ domains.old.first }
    ensures implied { IfOk result (λ yes. IsTrue yes
        ↔ (IsEmpty (length domains.old.now) (denied (box_in domains.old.now) clause.now)
        ⊎ LeadsToConflict clauses.now (denied (box_in domains.old.now) clause.now))) }
{
    if !domains.keep_box(clause)? {
        return Ok(true);
    }
    // Each subject is left a value.
    let _left = domains.as_slice();
    if propagate(domains, clauses, watches)? {
        return Ok(true);
    }
    leads_to_conflict(alloc, domains, clauses)
}
