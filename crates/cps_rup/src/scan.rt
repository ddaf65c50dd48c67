//! Unit propagation by a plain scan of all clauses.
//!
//! The scan begins anew after each atom that is forced, and ends at a false clause or where all are idle. It decides
//! where the watches propose no more, which is once in a proof that is refused.

ghost use Rattle.std.specs.Prelude.{◌≡◌, ◌↔◌, IfOk, IsTrue, length};
ghost use Rattle.cps_unit.specs.Propagation.{LeadsToConflict};
ghost use Rattle.cps_unit.specs.Boxes.{AreOn};
ghost use Rattle.cps_rup.specs.Domains.{box_in, IsFound};

use crate::arena::Clauses;
use crate::propagation::{ClauseState, state_of};
use crate::trailed::TrailedDomains;
use cps_domain::Domain;
use cps_literal::Atom;
use std::alloc::{AllocError, Global};

/// What a look at all clauses found.
#[derive(Clone, Copy)]
pub(crate) enum Found {
    /// One is false.
    Conflict,
    /// The one at this place forces this atom, which is open.
    Forced(usize, Atom),
    /// All are idle that are not done.
    Nothing,
}

/// A clause that is not done, and is false or forces an open atom.
fn look(domains: &[Domain], clauses: &Clauses, done: &[bool]) -> Found
    requires subjects { AreOn (length domains.now) clauses.now }
    requires marks { length done.now ≡ length clauses.now }
    ensures { IsFound (box_in domains.now) clauses.now done.now result }
{
    for place in 0..clauses.len() {
        if done[place] {
            continue;
        }
        match state_of(domains, clauses.clause(place)) {
            ClauseState::False => return Found::Conflict,
            ClauseState::Unit(atom) => return Found::Forced(place, atom),
            ClauseState::Idle => {}
        }
    }
    Found::Nothing
}

/// Whether unit propagation over clauses comes to one that is false. What is left to the subjects gets less. A clause
/// that forced its atom is true from then on, and not looked at again.
pub(crate) fn leads_to_conflict(
    alloc: Global,
    domains: &mut TrailedDomains,
    clauses: &Clauses,
) -> Result<bool, AllocError>
    requires { AreOn (length domains.old.now) clauses.now }
    ensures first { domains.new.first ≡ domains.old.first }
    ensures leads { IfOk result (λ yes. IsTrue yes ↔ LeadsToConflict clauses.now (box_in domains.old.now)) }
{
    let mut done = vec![in alloc; false; clauses.len()]?;
    loop {
        match look(domains.as_slice(), clauses, &done) {
            Found::Conflict => return Ok(true),
            Found::Forced(place, atom) => {
                domains.force(atom)?;
                done[place] = true;
            }
            Found::Nothing => return Ok(false),
        }
    }
}
