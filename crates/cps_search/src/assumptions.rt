//! A model's assumptions: which of them is undecided in a store, or false, and by which ones it is.
//!
//! Assumptions are decided first, so where one is false only assumptions were decided. Those of them that are behind
//! it, with it, are sufficient for infeasibility: the analysis of a final conflict by Eén and Sörensson, "Temporal
//! Induction by Incremental SAT Solving" (2003), section 3.

ghost use Rattle.std.specs.Prelude.{ℤ, ◌≡◌, ◌≢◌, ◌↔◌, ◌⊎◌, ◌<◌, ◌^◌, length, true, false, IfOk, IfSome, IsNone, IsTrue};
ghost use Rattle.std.specs.List.{All, Contains};
ghost use Rattle.cps_instance.specs.Posting.{atom_of};
ghost use Rattle.cps_trail.specs.Trail.{IsFalseNow};
ghost use Rattle.cps_branch.specs.Choice.{IsUndecided};
ghost use Rattle.cps_search.specs.Assumptions.{AreOnceInOrder, IsAssumed, IsAssumedNext, IsFailedAssumption, IsInCore};
ghost use Rattle.cps_search.specs.Assumptions.{NoneFails, NoneIsOpen, is_marked, mark_of};

use cps_literal::{Atom, Op, Truth};
use cps_trail::Store;
use std::alloc::{AllocError, Global};

/// The atom that is true where a literal is.
pub(crate) fn atom_of(literal: i32) -> Atom
    ensures { result ≡ atom_of literal }
{
    if literal >= 0 {
        Atom {
            subject: literal as u32,
            op: Op::Ge,
            value: 1,
        }
    } else {
        Atom {
            subject: (-1 - literal) as u32,
            op: Op::Le,
            value: 0,
        }
    }
}

/// Whether an atom is undecided.
fn is_open(store: &Store, atom: Atom) -> bool
    requires { atom.subject < length store.now.first }
    ensures { IsTrue result ↔ IsUndecided store.now atom }
{
    match store.truth(atom) {
        Truth::Undecided => true,
        Truth::Yes | Truth::No => false,
    }
}

/// Whether an atom is false.
fn is_false(store: &Store, atom: Atom) -> bool
    requires { atom.subject < length store.now.first }
    ensures { IsTrue result ↔ IsFalseNow store.now atom }
{
    match store.truth(atom) {
        Truth::No => true,
        Truth::Yes | Truth::Undecided => false,
    }
}

/// The first assumption that is undecided.
pub(crate) fn first_open(assumptions: &[i32], store: &Store) -> Option<Atom>
    requires { All (λ r. (atom_of r).subject < length store.now.first) assumptions.now }
    ensures some { IfSome result (IsAssumedNext assumptions.now store.now) }
    ensures none { IsNone result → NoneIsOpen assumptions.now store.now }
{
    for reference in assumptions {
        let atom = atom_of(*reference);
        if is_open(store, atom) {
            return Some(atom);
        }
    }
    None
}

/// The number of the first assumption that is false.
pub(crate) fn first_failed(assumptions: &[i32], store: &Store) -> Option<usize>
    requires { All (λ r. (atom_of r).subject < length store.now.first) assumptions.now }
    ensures some { IfSome result (IsFailedAssumption assumptions.now store.now) }
    ensures none { IsNone result → NoneFails assumptions.now store.now }
{
    for (number, reference) in assumptions.iter().enumerate() {
        if is_false(store, atom_of(*reference)) {
            return Some(number);
        }
    }
    None
}

/// Where the mark of a literal stands, by its atom.
fn mark_of(atom: Atom) -> usize
    ensures { (r : ℤ) → atom ≡ atom_of r → result ≡ mark_of r }
{
    let place = 2 * atom.subject as usize;
    match atom.op {
        Op::Le => place + 1,
        Op::Ge | Op::Eq | Op::Ne => place,
    }
}

/// Sets the mark of a literal, by its atom.
fn mark(marks: &mut [bool], atom: Atom)
    requires { (r : ℤ) × (atom ≡ atom_of r) × (mark_of r < length marks.old) }
    ensures same_length { length marks.new ≡ length marks.old }
    ensures here { (r : ℤ) → atom ≡ atom_of r → is_marked marks.new r ≡ true }
    ensures others { (r : ℤ) → atom ≢ atom_of r → is_marked marks.new r ≡ is_marked marks.old r }
{
    marks[mark_of(atom)] = true;
}

/// Marks the literals whose atoms are among the decisions.
fn mark_all(marks: &mut [bool], decisions: &[Atom])
    requires { All (λ t. (r : ℤ) × (t ≡ atom_of r) × (mark_of r < length marks.old)) decisions.now }
    ensures same_length { length marks.new ≡ length marks.old }
    ensures marks { (r : ℤ) → is_marked marks.new r ≡ true
        ↔ ((is_marked marks.old r ≡ true) ⊎ Contains decisions.now (atom_of r)) }
{
    for atom in decisions {
        mark(marks, *atom);
    }
}

/// Of the assumptions those that are marked, each once, in their order. Their marks go.
fn pick(alloc: Global, assumptions: &[i32], marks: &mut [bool]) -> Result<Vec<i32>, AllocError>
    requires { All (λ r. mark_of r < length marks.old) assumptions.now }
    ensures { IfOk result (λ core. AreOnceInOrder (λ r. is_marked marks.old r ≡ true) assumptions.now core.items) }
{
    let mut core = Vec::new(alloc);
    for reference in assumptions {
        let place = mark_of(atom_of(*reference));
        if marks[place] {
            core.push(*reference)?;
            marks[place] = false;
        }
    }
    Ok(core)
}

/// The core of the assumption with number `failed`: of the assumptions that one, and those that are among the decisions
/// behind it, each once and in their order. Their variables are among the first `variables`.
pub(crate) fn core_by_decisions(
    alloc: Global,
    assumptions: &[i32],
    variables: usize,
    failed: usize,
    decisions: &[Atom],
) -> Result<Vec<i32>, AllocError>
    requires variables { All (λ r. (atom_of r).subject < variables) assumptions.now }
    requires few { variables < 2 ^ 32 }
    requires failed { failed < length assumptions.now }
    requires decisions { All (IsAssumed assumptions.now) decisions.now }
    ensures { IfOk result (λ core. AreOnceInOrder (IsInCore assumptions.now failed decisions.now)
        assumptions.now core.items) }
{
    let mut marks = vec![in alloc; false; 2 * variables]?;
    mark(&mut marks, atom_of(assumptions[failed]));
    mark_all(&mut marks, decisions);
    pick(alloc, assumptions, &mut marks)
}
