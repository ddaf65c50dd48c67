//! The normal form of a clause.

ghost use Rattle.std.specs.Prelude.{ℕ, ℤ, ◌≡◌, ◌<◌, ◌≤◌, ◌+◌, OnOk, IfOk, IsOk, length, List, [], ◌∷◌, ◌++◌, All, true, false};
ghost use Rattle.std.specs.List.Sorted.{IsPermutation, IsSortedBy};
ghost use Rattle.smallvec.specs.SmallVec.{small_vec_len, HasRoomFor};
ghost use Rattle.cps_literal.specs.Truth.{clause_holds};
ghost use Rattle.cps_literal.specs.Normal.{IsNormal, IsNormalOf, Includes, comes_before};

use crate::atom::Atom;
use crate::clause::Clause;
use smallvec::SmallVec;
use std::alloc::{AllocError, Global};

/// The clause of the given atoms with the same truth at every list of values, sorted by subject, operator
/// and number, in which no atom implies another: of two atoms of which one implies the other the implied
/// one stays. Up to eight atoms take no memory.
pub fn normal_clause(alloc: Global, atoms: &[Atom]) -> Result<Clause, AllocError>
    ensures truth { IfOk result (λ clause. (a : List ℤ) → clause_holds clause a ≡ clause_holds atoms.now a) }
    ensures normal { IfOk result IsNormal }
    ensures of_atoms { IfOk result (IsNormalOf atoms.now) }
    ensures inline { length atoms.now ≤ 8 → IsOk result }
{
    let sorted = sorted_atoms(alloc, atoms)?;
    normal_of_sorted(alloc, sorted.as_slice())
}

/// The given atoms, sorted. Up to eight take no memory.
fn sorted_atoms(alloc: Global, atoms: &[Atom]) -> Result<SmallVec<Atom, 8>, AllocError>
    ensures permutation { IfOk result (λ list. IsPermutation atoms.now list.items) }
    ensures sorted { IfOk result (λ list. IsSortedBy comes_before list.items) }
    ensures inline { length atoms.now ≤ 8 → IsOk result }
{
    let mut sorted: SmallVec<Atom, 8> = SmallVec::from_slice(alloc, atoms)?;
    sorted.as_mut_slice().sort_unstable();
    Ok(sorted)
}

/// The normal form of a clause whose atoms are sorted. Up to eight atoms take no memory.
fn normal_of_sorted(alloc: Global, atoms: &[Atom]) -> Result<Clause, AllocError>
    requires { IsSortedBy comes_before atoms.now }
    ensures normal { IfOk result IsNormal }
    ensures of_atoms { IfOk result (IsNormalOf atoms.now) }
    ensures inline { length atoms.now ≤ 8 → IsOk result }
{
    let mut kept = SmallVec::new(alloc);
    for atom in atoms {
        include(&mut kept, *atom)?;
    }
    Ok(Clause::of(kept))
}

/// Adds an atom that comes before none of those kept, and takes out those that imply it, unless it
/// implies one itself.
fn include(kept: &mut SmallVec<Atom, 8>, atom: Atom) -> Result<(), AllocError>
    requires normal { IsNormal kept.old.items }
    requires sorted { All (λ u. comes_before atom u ≡ false) kept.old.items }
    ensures includes { OnOk result (Includes kept.old.items atom kept.new.items) }
    ensures succeeds { HasRoomFor kept.old 1 → IsOk result }
    ensures len { small_vec_len kept.new ≤ small_vec_len kept.old + 1 }
    ensures capacity { kept.old.capacity ≤ kept.new.capacity }
{
    if clear_for(kept, atom) {
        kept.push(atom)?;
    }
    Ok(())
}

/// Takes out the atoms that imply one that comes before none of those kept, and says whether that one is still to be
/// added. Only the last atoms, those about the same subject, are looked at.
fn clear_for(kept: &mut SmallVec<Atom, 8>, atom: Atom) -> bool
    requires normal { IsNormal kept.old.items }
    requires sorted { All (λ u. comes_before atom u ≡ false) kept.old.items }
    ensures added { result ≡ true → Includes kept.old.items atom (kept.new.items ++ atom ∷ []) }
    ensures implied { result ≡ false → Includes kept.old.items atom kept.new.items }
    ensures len { small_vec_len kept.new ≤ small_vec_len kept.old }
    ensures capacity { kept.old.capacity ≤ kept.new.capacity }
{
    let mut place = kept.len();
    while place > 0 {
        let other = kept.as_slice()[place - 1];
        if other.subject != atom.subject {
            break;
        }
        if atom.implies(other) {
            return false;
        }
        place -= 1;
        if other.implies(atom) {
            kept.remove(place);
        }
    }
    true
}
