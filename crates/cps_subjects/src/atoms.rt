//! Clauses over the subjects of a log.
ghost use Rattle.std.specs.Prelude.{◌≡◌, ◌↔◌, [], ◌∷◌, IsTrue};
ghost use Rattle.cps_log.specs.Deriving.{literal_clause};
ghost use Rattle.cps_log.specs.Subjects.{IsClauseOver};

use cps_literal::{Atom, Op};
use cps_model::variable_of;

/// The greatest magnitude of a number of a log.
pub const FARTHEST: u64 = 1 << 62;

/// Whether a clause has atoms alone that name the first subjects and numbers of a log.
pub fn is_over(count: usize, clause: &[Atom]) -> bool
    ensures { IsTrue result ↔ IsClauseOver count clause.now }
{
    for atom in clause {
        if atom.subject as usize >= count || atom.value.unsigned_abs() > FARTHEST {
            return false;
        }
    }
    true
}

/// The atom that says that a literal is true.
pub fn atom_of_literal(literal: i32) -> Atom
    ensures { result ∷ [] ≡ literal_clause literal }
{
    let subject = variable_of(literal) as u32;
    if literal >= 0 {
        Atom {
            subject,
            op: Op::Ge,
            value: 1,
        }
    } else {
        Atom {
            subject,
            op: Op::Le,
            value: 0,
        }
    }
}
