//! Atoms, and those of them that were true.

ghost use Rattle.std.specs.Prelude.{◌≡◌, ◌<◌, length, IsTrue, true, false, Ok};
ghost use Rattle.cps_literal.specs.Truth.{meets};
ghost use Rattle.cps_trail.specs.Trail.{IsInside};
ghost use Rattle.cps_p_lookup.specs.Facts.{AddsBoth, AddsWhere};
ghost use Rattle.cps_rule.specs.Facts.{Adds};

use cps_literal::{Atom, Op, Truth};
use cps_trail::Before;
use std::alloc::AllocError;

/// The greatest magnitude of a value that a domain may have.
pub(crate) const LIMIT: i64 = (1 << 62) - 1;

/// Whether a domain may have a value.
fn is_inside(value: i64) -> bool
    ensures { IsTrue result → IsInside value }
{
    -LIMIT <= value && value <= LIMIT
}

/// An atom.
pub(crate) fn atom(subject: u32, op: Op, value: i64) -> Atom
    ensures { result ≡ record { subject = subject; op = op; value = value } }
{
    Atom { subject, op, value }
}

/// Whether a number meets an atom.
pub(crate) fn is_met(atom: Atom, value: i64) -> bool
    ensures { result ≡ meets atom.op atom.value value }
{
    match atom.op {
        Op::Le => value <= atom.value,
        Op::Ge => atom.value <= value,
        Op::Eq => value == atom.value,
        Op::Ne => value != atom.value,
    }
}

/// Adds an atom, if it was true and can be negated.
pub(crate) fn push_fact(
    past: &Before,
    atom: Atom,
    facts: &mut Vec<Atom>,
) -> Result<bool, AllocError>
    requires { atom.subject < length past.now.first }
    ensures yes { result ≡ Ok true → Adds past.now atom facts.old.items facts.new.items }
    ensures no { result ≡ Ok false → facts.new.items ≡ facts.old.items }
{
    if !is_inside(atom.value) {
        return Ok(false);
    }
    match past.truth(atom) {
        Truth::Yes => {
            facts.push(atom)?;
            Ok(true)
        }
        _ => Ok(false),
    }
}

/// Adds two atoms, if both were true.
pub(crate) fn push_both(
    past: &Before,
    first: Atom,
    second: Atom,
    facts: &mut Vec<Atom>,
) -> Result<bool, AllocError>
    requires first { first.subject < length past.now.first }
    requires second { second.subject < length past.now.first }
    ensures { result ≡ Ok true → AddsBoth past.now first second facts.old.items facts.new.items }
{
    if push_fact(past, first, facts)? {
        push_fact(past, second, facts)
    } else {
        Ok(false)
    }
}

/// Adds an atom where it is needed. Answers false where it is needed and was not true.
pub(crate) fn push_where(
    past: &Before,
    needed: bool,
    atom: Atom,
    facts: &mut Vec<Atom>,
) -> Result<bool, AllocError>
    requires { atom.subject < length past.now.first }
    ensures { result ≡ Ok true → AddsWhere past.now needed atom facts.old.items facts.new.items }
{
    if needed {
        push_fact(past, atom, facts)
    } else {
        Ok(true)
    }
}
