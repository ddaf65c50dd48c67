//! Facts in the place of signs: each sign is a literal that was true or false, or follows from an atom that is denied.

ghost use Rattle.std.specs.Prelude.{◌≡◌, ◌<◌, Ok, IfSome, IsTrue, All, true, length, List, ℤ};
ghost use Rattle.cps_literal.specs.Truth.{atom_holds};
ghost use Rattle.cps_instance.specs.Tasks.{atom_subjects};
ghost use Rattle.cps_trail.specs.Trail.{IsTrueNow};
ghost use Rattle.cps_p_circuit.specs.Showing.{IsAtomOf, MakeSignsTrue};

use crate::clash::Sign;
use cps_literal::{Atom, Truth};
use cps_trail::Before;
use std::alloc::AllocError;

/// A literal is an atom about a number that is 0 or 1. Its value and its opposite's are no farther from 0 than this.
pub const FARTHEST: i64 = 2;

/// The atom that says of an arc's literal what a sign says of the arc.
pub fn atom_of(literals: &[Atom], sign: Sign) -> Option<Atom>
    ensures { IfSome result (λ u. IsAtomOf literals.now sign u) }
{
    if sign.arc >= literals.len() {
        return None;
    }
    let literal = literals[sign.arc];
    if literal.value < 0 || literal.value > 1 {
        return None;
    }
    if sign.holds {
        return Some(literal);
    }
    let opposite = literal.negate();
    if opposite.value < -FARTHEST || opposite.value > FARTHEST {
        return None;
    }
    Some(opposite)
}

/// Whether an atom is true wherever another is that is denied.
pub fn follows(denied: Option<Atom>, atom: Atom) -> bool
    ensures { IsTrue result → (xs : List ℤ) → IfSome denied (λ u. atom_holds xs u ≡ true) → atom_holds xs atom ≡ true }
{
    match denied {
        Some(other) => other.implies(atom),
        None => false,
    }
}

/// Whether an atom was true.
pub fn was_true(past: &Before, atom: Atom) -> bool
    requires { atom.subject < length past.now.first }
    ensures { IsTrue result → IsTrueNow past.now atom }
{
    match past.truth(atom) {
        Truth::Yes => true,
        _ => false,
    }
}

/// Replaces `facts` by those that make the signs true, together with the atom `denied`. Returns false where a sign was
/// not true.
pub fn keep(
    literals: &[Atom],
    past: &Before,
    denied: Option<Atom>,
    used: &[Sign],
    facts: &mut Vec<Atom>,
) -> Result<bool, AllocError>
    requires { All (λ i. i < length past.now.first) (atom_subjects literals.now) }
    ensures { result ≡ Ok true → MakeSignsTrue past.now literals.now denied used.now facts.new.items }
{
    facts.clear();
    for sign in used {
        let Some(atom) = atom_of(literals, *sign) else {
            return Ok(false);
        };
        if follows(denied, atom) {
            continue;
        }
        if !was_true(past, atom) {
            return Ok(false);
        }
        facts.push(atom)?;
    }
    Ok(true)
}
