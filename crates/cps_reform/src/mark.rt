//! Which terms are in the core of a failed assumption.

ghost use Rattle.std.specs.Prelude.{◌≡◌, ◌⊎◌, ◌↔◌, ◌≤◌, true, Contains, IsTrue};
ghost use Rattle.cps_reform.specs.Marks.{AreMarked, assumed};

use crate::held::Held;
use cps_literal::{Atom, Op};

/// That a term's subject stays at its bound.
pub fn assumption(term: &Held) -> Atom
    ensures { result ≡ assumed term.now }
{
    Atom {
        subject: term.subject,
        op: Op::Le,
        value: term.bound,
    }
}

/// Whether an atom is one of these.
fn is_among(atoms: &[Atom], atom: Atom) -> bool
    ensures { IsTrue result ↔ Contains atoms.now atom }
{
    for other in atoms {
        if *other == atom {
            return true;
        }
    }
    false
}

/// Whether a term weighs something, and is at the place of the failed one or has its assumption among the decisions.
fn is_in_core(term: &Held, place: usize, failed: usize, decisions: &[Atom]) -> bool
    ensures { IsTrue result ↔ ((1 ≤ term.now.weight) × ((place ≡ failed) ⊎ Contains decisions.now (assumed term.now))) }
{
    term.weight > 0 && (place == failed || is_among(decisions, assumption(term)))
}

/// Marks the core of a failed term among terms: it, and each that weighs something and whose assumption is among the
/// decisions. Other marks go.
pub(crate) fn mark_terms(terms: &mut [Held], failed: usize, decisions: &[Atom])
    ensures { AreMarked terms.old terms.new failed decisions.now }
{
    for place in 0..terms.len() {
        let term = terms[place];
        let in_core = is_in_core(&term, place, failed, decisions);
        terms[place] = Held { in_core, ..term };
    }
}
