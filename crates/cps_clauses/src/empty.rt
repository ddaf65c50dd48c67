//! Clauses in force that have no atom, which are false everywhere.

ghost use Rattle.std.specs.Prelude.{ℕ, ◌≡◌, ◌≤◌, [], length, IfSome, IsNone};
ghost use Rattle.cps_clauses.specs.InForce.{IsNumberInForce};
ghost use Rattle.cps_clauses.specs.Watches.{clause_of};

use crate::clauses::Clauses;

/// The number of a clause in force without atoms, among those from one number on.
pub(crate) fn empty_from(clauses: &Clauses, dropped: &[bool], from: usize) -> Option<usize>
    requires { length dropped.now ≡ length clauses.now }
    ensures some { IfSome result (λ i. IsNumberInForce clauses.now dropped.now i × (clause_of clauses.now i ≡ [])) }
    ensures none { IsNone result → (i : ℕ) → from ≤ i → IsNumberInForce clauses.now dropped.now i
        → 1 ≤ length (clause_of clauses.now i) }
{
    for number in from..clauses.len() {
        if !dropped[number] && clauses.clause(number).len() == 0 {
            return Some(number);
        }
    }
    None
}
