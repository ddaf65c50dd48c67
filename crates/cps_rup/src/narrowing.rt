//! The box of a clause: what domains leave where each atom is false.

ghost use Rattle.std.specs.Prelude.{◌≡◌, ◌&&◌, ◌==◌, not, ℕ, ℤ, true, false, IfOk, length};
ghost use Rattle.std.specs.Prelude.{◌≤◌, ◌^◌, unsigned_abs};
ghost use Rattle.cps_domain.specs.Window.{contains};
ghost use Rattle.cps_literal.specs.Truth.{meets, IsTrueOn};
ghost use Rattle.cps_log.specs.Subjects.{IsAtomOver, IsClauseOver};
ghost use Rattle.cps_unit.specs.Boxes.{IsEmpty, denied, IsTrueIn};
ghost use Rattle.cps_rup.specs.Domains.{box_in};

use crate::trailed::TrailedDomains;
use cps_domain::Domain;
use cps_literal::{Atom, Truth};
use std::alloc::AllocError;

/// The opposite of an atom that some value of the domain does not meet: its number is one that an atom may have.
fn opposite_in(domain: &Domain, atom: Atom) -> Atom
    requires near { unsigned_abs atom.value ≤ 2 ^ 62 }
    requires missed { IsTrueOn (contains domain.now) atom.op atom.value → ⊥ }
    ensures subject { result.subject ≡ atom.subject }
    ensures opposite { (x : ℤ) → meets result.op result.value x ≡ not (meets atom.op atom.value x) }
{
    // Every value lies between these.
    let _least = domain.min();
    let _greatest = domain.max();
    atom.negate()
}

/// Keeps the values at which an atom is false, and answers whether there are any.
fn deny(domains: &mut TrailedDomains, atom: Atom) -> Result<bool, AllocError>
    requires over { IsAtomOver (length domains.old.now) atom }
    ensures first { domains.new.first ≡ domains.old.first }
    ensures count { length domains.new.now ≡ length domains.old.now }
    ensures kept { IfOk result (λ some. some ≡ true → (s : ℕ) (x : ℤ) → box_in domains.new.now s x
        ≡ (box_in domains.old.now s x && not ((atom.subject == s) && meets atom.op atom.value x))) }
    ensures none { IfOk result (λ some. some ≡ false → IsTrueIn (box_in domains.old.now) atom) }
{
    let domain = &domains.as_slice()[atom.subject as usize];
    match atom.truth_in(domain) {
        Truth::Yes => Ok(false),
        Truth::No => Ok(true),
        Truth::Undecided => {
            let opposite = opposite_in(domain, atom);
            domains.force(opposite)?;
            Ok(true)
        }
    }
}

impl TrailedDomains {
    /// Keeps of the domains the box of a clause, and answers whether each subject is left a value. Where not, what is
    /// left of the domains has no meaning until `restore`.
    pub fn keep_box(&mut self, clause: &[Atom]) -> Result<bool, AllocError>
        requires { IsClauseOver (length self.old.now) clause.now }
        ensures first { self.new.first ≡ self.old.first }
        ensures count { length self.new.now ≡ length self.old.now }
        ensures kept { IfOk result (λ some. some ≡ true → (s : ℕ) (x : ℤ) → box_in self.new.now s x
            ≡ denied (box_in self.old.now) clause.now s x) }
        ensures none { IfOk result (λ some. some ≡ false → IsEmpty (length self.old.now)
            (denied (box_in self.old.now) clause.now)) }
    {
        for atom in clause {
            if !deny(self, *atom)? {
                return Ok(false);
            }
        }
        Ok(true)
    }
}
