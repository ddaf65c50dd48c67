//! What reasons of the trail give to unit propagation. The functions do nothing: their contracts are the laws.

ghost use Rattle.std.specs.Prelude.{ℕ, ◌≤◌, ◌<◌, [], List, length};
ghost use Rattle.cps_literal.specs.declared.atom.Atom.{Atom};
ghost use Rattle.cps_trail.specs.Trail.{Trail, admits};
ghost use Rattle.cps_unit.specs.Boxes.{Box, IsBelow};
ghost use Rattle.cps_conflict.specs.Antecedents.{HasReasonAt, ComesBelow};

/// Clauses that have a reason of each of the first so many entries force their atoms one after another, whatever else
/// is denied. So what level 0 leaves is reached from the first domains by the reasons of its entries.
pub fn first_entries_are_forced()
    ensures { (s : Trail) (clauses : List (List Atom)) (start : Box) (count : ℕ) → IsBelow start (admits s.first [])
        → count ≤ length s.entries → ((k : ℕ) → k < count → HasReasonAt s clauses k)
        → ComesBelow s clauses start count }
{}
