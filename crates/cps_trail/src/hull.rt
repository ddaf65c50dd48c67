//! The two ends of a domain.

ghost use Rattle.std.specs.Prelude.{ℤ, Bool, true, false, ◌≡◌, ◌≢◌, ◌↔◌, IsTrue};
ghost use Rattle.cps_domain.specs.Window.{contains};
ghost use Rattle.cps_literal.specs.Truth.{meets, IsFalseOn};
ghost use Rattle.cps_trail.specs.Changes.{IsHull};

use cps_domain::Domain;
use cps_literal::{Atom, Op};

/// The least and the greatest value.
pub(crate) fn hull_of(domain: &Domain) -> (i64, i64)
    ensures { IsHull (contains domain.now) result }
{
    (domain.min(), domain.max())
}

/// Whether no number between two ends meets an atom, which is no `=`.
pub(crate) fn excludes(hull: (i64, i64), atom: Atom) -> bool
    requires { atom.op ≢ Op.Eq }
    ensures { (admitted : ℤ → Bool) → IsHull admitted hull → (IsTrue result ↔ IsFalseOn admitted atom.op atom.value) }
{
    match atom.op {
        Op::Le => atom.value < hull.0,
        Op::Ge => hull.1 < atom.value,
        Op::Eq => unreachable!(),
        Op::Ne => hull.0 == atom.value && hull.1 == atom.value,
    }
}

/// Whether a value meets an atom.
fn is_met(atom: Atom, value: i64) -> bool
    ensures { result ≡ meets atom.op atom.value value }
{
    match atom.op {
        Op::Le => value <= atom.value,
        Op::Ge => atom.value <= value,
        Op::Eq => value == atom.value,
        Op::Ne => value != atom.value,
    }
}

/// Whether a cut by an atom takes away one of the two ends.
pub(crate) fn moves_end(hull: (i64, i64), atom: Atom) -> bool
    ensures { (result ≡ false)
        ↔ ((meets atom.op atom.value hull.0 ≡ true) × (meets atom.op atom.value hull.1 ≡ true)) }
{
    !(is_met(atom, hull.0) && is_met(atom, hull.1))
}
