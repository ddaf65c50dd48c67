//! Facts of an explanation. Each is tested against the past before it is added, so what names it need not be trusted.
ghost use Rattle.std.specs.Prelude.{ℤ, List, [], ◌∷◌, ◌≡◌, ◌<◌, ◌↔◌, true, false, length, All, IsTrue};
ghost use Rattle.std.specs.List.{list_all};
ghost use Rattle.cps_literal.specs.Truth.{atom_holds};
ghost use Rattle.cps_instance.specs.Tasks.{atom_subjects};
ghost use Rattle.cps_trail.specs.Trail.{IsInside, IsTrueNow};
ghost use Rattle.cps_p_span.specs.Citing.{Cites};
ghost use Rattle.cps_p_span.specs.Spans.{IsSmallAtom};

use cps_literal::Atom;
use cps_trail::Before;
use std::alloc::AllocError;

/// The greatest magnitude of a value that an atom of an explanation may compare with.
const FARTHEST: i64 = 0x3fff_ffff_ffff_ffff;

/// Whether a number may stand in a fact.
pub(crate) fn is_inside(value: i64) -> bool
    ensures { IsTrue result ↔ IsInside value }
{
    -FARTHEST <= value && value <= FARTHEST
}

/// Adds an atom where it was true and can stand in a fact, and says whether it was.
pub fn cite(past: &Before, atom: Atom, facts: &mut Vec<Atom>) -> Result<bool, AllocError>
    requires { atom.subject < length past.now.first }
    ensures yes { result ≡ Ok true → Cites past.now (atom.subject ∷ []) facts.old.items facts.new.items
        (λ xs. atom_holds xs atom ≡ true) }
    ensures no { result ≡ Ok false → IsInside atom.value → IsTrueNow past.now atom → ⊥ }
{
    if !is_inside(atom.value) {
        return Ok(false);
    }
    if !past.truth(atom).is_yes() {
        return Ok(false);
    }
    facts.push(atom)?;
    Ok(true)
}

/// Adds each of these atoms, if all were true.
pub fn cite_all(past: &Before, atoms: &[Atom], facts: &mut Vec<Atom>) -> Result<bool, AllocError>
    requires { All (λ u. u.subject < length past.now.first) atoms.now }
    ensures { result ≡ Ok true → Cites past.now (atom_subjects atoms.now) facts.old.items facts.new.items
        (λ xs. list_all (atom_holds xs) atoms.now ≡ true) }
{
    for atom in atoms {
        if !cite(past, *atom, facts)? {
            return Ok(false);
        }
    }
    Ok(true)
}

/// Whether two atoms are the same.
pub fn same_atom(one: Atom, other: Atom) -> bool
    ensures { IsTrue result → one ≡ other }
{
    one == other
}

/// Whether an atom is true wherever another one is false.
fn is_denied(atom: Atom, target: Atom) -> bool
    requires { IsSmallAtom atom }
    ensures { result ≡ true → (xs : List ℤ) → atom_holds xs target ≡ false → atom_holds xs atom ≡ true }
{
    same_atom(atom.negate(), target)
}

/// Adds an atom, if it was true and no target denies it.
fn cite_unless_denied(
    past: &Before,
    atom: Atom,
    target: Atom,
    facts: &mut Vec<Atom>,
) -> Result<bool, AllocError>
    requires subject { atom.subject < length past.now.first }
    requires small { IsSmallAtom atom }
    ensures { result ≡ Ok true → Cites past.now (atom.subject ∷ []) facts.old.items facts.new.items
        (λ xs. atom_holds xs target ≡ false → atom_holds xs atom ≡ true) }
{
    if is_denied(atom, target) {
        return Ok(true);
    }
    cite(past, atom, facts)
}

/// Adds each of these atoms but those that a target denies, where they were true. So where it is false all of them
/// hold.
pub fn cite_others(
    past: &Before,
    atoms: &[Atom],
    target: Atom,
    facts: &mut Vec<Atom>,
) -> Result<bool, AllocError>
    requires subjects { All (λ u. u.subject < length past.now.first) atoms.now }
    requires small { All IsSmallAtom atoms.now }
    ensures { result ≡ Ok true → Cites past.now (atom_subjects atoms.now) facts.old.items facts.new.items
        (λ xs. atom_holds xs target ≡ false → list_all (atom_holds xs) atoms.now ≡ true) }
{
    for atom in atoms {
        if !cite_unless_denied(past, *atom, target, facts)? {
            return Ok(false);
        }
    }
    Ok(true)
}
