//! Unit propagation over clauses of integer atoms, as a relation.
//!
//! A box says which values are left to each subject (`specs/Boxes`). Where all atoms of a clause but one are false in
//! it, the clause forces that one; and from a box propagation leads to a conflict where atoms can be forced one after
//! another until a clause is false (`specs/Propagation`, `specs/Chains`). No queue, watch or order is spoken of: any
//! order and any choice of clauses will do. So whoever derives a clause and whoever checks it cite one definition. The
//! step is that of clausal proofs (Goldberg and Novikov, "Verification of proofs of unsatisfiability for CNF formulas",
//! 2003).
#![tactic(auto)]

ghost use Rattle.std.specs.Prelude.{◌≡◌, ℕ, ℤ, true, List, All, Contains};
ghost use Rattle.cps_literal.specs.declared.atom.Atom.{Atom};
ghost use Rattle.cps_literal.specs.Truth.{clause_holds};
ghost use Rattle.cps_unit.specs.Boxes.{Box, denied, LieIn, AreOn};
ghost use Rattle.cps_unit.specs.Propagation.{LeadsToConflict};

/// A clause from whose box propagation leads to a conflict is true wherever the clauses are. The function does nothing:
/// its contract is the law.
pub fn what_leads_to_a_conflict_is_implied()
    ensures { (count : ℕ) (clauses : List (List Atom)) (box : Box) (clause : List Atom) (xs : List ℤ)
        → LeadsToConflict clauses (denied box clause) → AreOn count clauses → LieIn count box xs
        → All (λ c. clause_holds c xs ≡ true) clauses → clause_holds clause xs ≡ true }
{}

/// What leads to a conflict does so among more clauses, in whatever order they stand. The function does nothing: its
/// contract is the law.
pub fn more_clauses_lead_too()
    ensures { (few more : List (List Atom)) (box : Box) → ((c : List Atom) → Contains few c → Contains more c)
        → LeadsToConflict few box → LeadsToConflict more box }
{}
