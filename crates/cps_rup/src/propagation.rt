//! Unit propagation over the clauses that the watches propose.
//!
//! A clause is looked at as it stands in the domains: false, unit with an open atom, or idle. What it forces is written
//! into the domains at once, and each domain that changed brings up the clauses that watch it. Where no more come up
//! nothing is claimed: that is left to the scan of all clauses.

ghost use Rattle.std.specs.Prelude.{◌≡◌, ◌↔◌, ◌<◌, IfOk, OnOk, IsTrue, IsSome, All, Any, length};
ghost use Rattle.cps_unit.specs.Propagation.{IsFalseClause};
ghost use Rattle.cps_unit.specs.Boxes.{AreOn};
ghost use Rattle.cps_rup.specs.Domains.{box_in, HasState};
ghost use Rattle.cps_rup.specs.Chains.{IsPropagated};

use crate::arena::Clauses;
use crate::trailed::TrailedDomains;
use crate::watching::Watches;
use cps_domain::Domain;
use cps_literal::{Atom, Truth};
use std::alloc::AllocError;

/// How a clause stands.
#[derive(Clone, Copy)]
pub(crate) enum ClauseState {
    /// All its atoms are false.
    False,
    /// All are but this one, which is open.
    Unit(Atom),
    /// Neither: it forces nothing that is open.
    Idle,
}

/// Whether two atoms are the same.
fn are_same(one: Atom, other: Atom) -> bool
    ensures { IsTrue result ↔ (one ≡ other) }
{
    one == other
}

/// How a clause stands. Its subjects have domains.
pub(crate) fn state_of(domains: &[Domain], clause: &[Atom]) -> ClauseState
    requires { All (λ t. t.subject < length domains.now) clause.now }
    ensures { HasState (box_in domains.now) clause.now result }
{
    let mut open: Option<Atom> = None;
    for atom in clause {
        match atom.truth_in(&domains[atom.subject as usize]) {
            Truth::No => {}
            Truth::Yes => return ClauseState::Idle,
            Truth::Undecided => match open {
                None => open = Some(*atom),
                Some(other) => {
                    if !are_same(other, *atom) {
                        return ClauseState::Idle;
                    }
                }
            },
        }
    }
    match open {
        Some(atom) => ClauseState::Unit(atom),
        None => ClauseState::False,
    }
}

/// Looks at some clauses in turn, and forces what they force. Answers the first that is false.
pub(crate) fn look_at_each(
    domains: &mut TrailedDomains,
    clauses: &Clauses,
    numbers: &[u32],
) -> Result<Option<u32>, AllocError>
    requires { AreOn (length domains.old.now) clauses.now }
    ensures first { domains.new.first ≡ domains.old.first }
    ensures propagated { OnOk result (IsPropagated clauses.now domains.old domains.new) }
    ensures conflict { IfOk result (λ found. IsSome found
        → Any (IsFalseClause (box_in domains.new.now)) clauses.now) }
{
    for number in numbers {
        let place = *number as usize;
        if place >= clauses.len() {
            continue;
        }
        match state_of(domains.as_slice(), clauses.clause(place)) {
            ClauseState::False => return Ok(Some(*number)),
            ClauseState::Unit(atom) => domains.force(atom)?,
            ClauseState::Idle => {}
        }
    }
    Ok(None)
}

/// Propagates what the clauses at hand and the changes on the trail force, and answers whether a clause is false.
/// Where none is found that is false, there may still be one.
pub(crate) fn propagate(
    domains: &mut TrailedDomains,
    clauses: &Clauses,
    watches: &mut Watches,
) -> Result<bool, AllocError>
    requires { AreOn (length domains.old.now) clauses.now }
    ensures first { domains.new.first ≡ domains.old.first }
    ensures propagated { OnOk result (IsPropagated clauses.now domains.old domains.new) }
    ensures conflict { IfOk result (λ found. IsTrue found
        → Any (IsFalseClause (box_in domains.new.now)) clauses.now) }
{
    // A clause forces one open atom at most, so there are no more changes than these, and each is visited twice.
    let rounds = domains
        .changes()
        .saturating_add(clauses.len())
        .saturating_mul(2);
    watches.begin();
    for _ in 0..=rounds {
        if let Some(number) = look_at_each(domains, clauses, watches.proposed())? {
            watches.propose_only(number)?;
            return Ok(true);
        }
        watches.clear_proposed();
        if !watches.visit_next(domains, clauses)? {
            return Ok(false);
        }
    }
    Ok(false)
}
