//! The checker with hints: a clause comes with the numbers of those clauses that propagation from its box needs.
//!
//! Only these clauses are looked at, so an answer costs their atoms and nothing that grows with the clauses. The form is
//! that of LRAT (Cruz-Filipe, Heule, Hunt, Kaufmann and Schneider-Kamp, "Efficient certified RAT verification", 2017).
//! There hints stand in the order in which they become unit; here they may stand in any, and are walked over until a
//! walk narrows nothing.

ghost use Rattle.std.specs.Prelude.{◌≡◌, ◌⊎◌, [], ◌∷◌, ◌++◌, length, IfOk, OnOk, OnErr, IsTrue};
ghost use Rattle.cps_log.specs.Subjects.{IsClauseOver};
ghost use Rattle.cps_unit.specs.Boxes.{IsEmpty, denied, AreOn};
ghost use Rattle.cps_unit.specs.Propagation.{LeadsToConflict};
ghost use Rattle.cps_rup.specs.Domains.{box_in};

use crate::arena::Clauses;
use crate::propagation::look_at_each;
use crate::trailed::TrailedDomains;
use cps_domain::Domain;
use cps_literal::Atom;
use std::alloc::{AllocError, Global};
use std::marker::Model;

/// Domains of subjects, and clauses over them. Seen as these two lists.
#[derive(Drop)]
pub struct LratChecker {
    /// The domains as they were given.
    given: Vec<Domain>,
    /// The same without the values that settled clauses rule out.
    domains: TrailedDomains,
    clauses: Clauses,
}

impl Model for LratChecker {
    ghost use Rattle.std.specs.Prelude.{List};
    ghost use Rattle.cps_rup.specs.Known.{Known};

    ghost Value = { Known };

    ghost use Rattle.cps_rup.specs.Checkers.{IsSettledIn};

    ghost view = { λ c. record { domains = c.given.items; clauses = c.clauses } };

    ghost invariant = { λ c. IsSettledIn c.given.items c.domains c.clauses };
}

impl LratChecker {
    /// No subject and no clause.
    pub fn new(alloc: Global) -> Self
        ensures { result ≡ record { domains = []; clauses = [] } }
    {
        LratChecker {
            given: Vec::new(alloc),
            domains: TrailedDomains::new(alloc),
            clauses: Clauses::new(alloc),
        }
    }

    /// The domains as they were given.
    pub fn domains(&self) -> &[Domain]
        ensures { result.now ≡ self.now.domains }
    {
        self.given.as_slice()
    }

    /// How many clauses there are.
    pub fn clause_count(&self) -> usize
        ensures { result ≡ length self.now.clauses }
    {
        self.clauses.len()
    }

    /// Adds the next subject, with its domain.
    pub fn add_subject(&mut self, domain: Domain) -> Result<(), AllocError>
        ensures ok { OnOk result (self.new ≡ record self.old { domains = self.old.domains ++ domain ∷ [] }) }
        ensures err { OnErr result (self.new ≡ self.old) }
    {
        self.given.reserve(1)?;
        self.domains.push(domain.clone()?)?;
        self.given.push_reserved(domain);
        Ok(())
    }

    /// Adds a clause. All clauses may have fewer than 2^32 atoms, and more are answered as if memory had run out.
    pub fn add_clause(&mut self, clause: &[Atom]) -> Result<(), AllocError>
        requires { IsClauseOver (length self.old.domains) clause.now }
        ensures ok { OnOk result (self.new ≡ record self.old { clauses = self.old.clauses ++ clause.now ∷ [] }) }
        ensures err { OnErr result (self.new ≡ self.old) }
    {
        self.clauses.push(clause)
    }

    /// Narrows the domains for good by what a clause forces by itself. A number of no clause is passed over.
    pub fn settle(&mut self, number: u32) -> Result<(), AllocError>
        ensures { self.new ≡ self.old }
    {
        match look_at_each(&mut self.domains, &self.clauses, &[number]) {
            Ok(_) => {
                self.domains.keep();
                Ok(())
            }
            Err(error) => {
                self.domains.restore();
                Err(error)
            }
        }
    }

    /// Whether the clauses with these numbers, and those that were settled, show that a clause is implied: its box is
    /// empty, or unit propagation comes from its box to a clause that is false. A number of no clause is passed over.
    pub fn is_implied_by(&mut self, clause: &[Atom], hints: &[u32]) -> Result<bool, AllocError>
        requires { IsClauseOver (length self.old.domains) clause.now }
        ensures kept { self.new ≡ self.old }
        ensures implied { IfOk result (λ yes. IsTrue yes
            → IsEmpty (length self.old.domains) (denied (box_in self.old.domains) clause.now)
            ⊎ LeadsToConflict self.old.clauses (denied (box_in self.old.domains) clause.now)) }
    {
        let answer = follows_by(&mut self.domains, &self.clauses, clause, hints);
        self.domains.restore();
        answer
    }
}

/// Whether hints show that a clause follows. What is left of the domains has no meaning until they are restored.
fn follows_by(
    domains: &mut TrailedDomains,
    clauses: &Clauses,
    clause: &[Atom],
    hints: &[u32],
) -> Result<bool, AllocError>
    requires over { IsClauseOver (length domains.old.now) clause.now }
    requires known { AreOn (length domains.old.now) clauses.now }
    ensures first { domains.new.first ≡ domains.old.first }
    ensures implied { IfOk result (λ yes. IsTrue yes
        → IsEmpty (length domains.old.now) (denied (box_in domains.old.now) clause.now)
        ⊎ LeadsToConflict clauses.now (denied (box_in domains.old.now) clause.now)) }
{
    if !domains.keep_box(clause)? {
        return Ok(true);
    }
    walk_hints(domains, clauses, hints)
}

/// Whether unit propagation over the clauses with these numbers comes to one that is false.
fn walk_hints(
    domains: &mut TrailedDomains,
    clauses: &Clauses,
    hints: &[u32],
) -> Result<bool, AllocError>
    requires { AreOn (length domains.old.now) clauses.now }
    ensures first { domains.new.first ≡ domains.old.first }
    ensures leads { IfOk result (λ yes. IsTrue yes → LeadsToConflict clauses.now (box_in domains.old.now)) }
{
    // Each clause forces one open atom at most, so no more walks than these narrow anything.
    for _ in 0..=hints.len() {
        let before = domains.changes();
        if look_at_each(domains, clauses, hints)?.is_some() {
            return Ok(true);
        }
        if domains.changes() == before {
            return Ok(false);
        }
    }
    Ok(false)
}
