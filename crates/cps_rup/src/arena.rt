//! Clauses in one list of atoms.

ghost use Rattle.std.specs.Prelude.{◌≡◌, ◌<◌, [], ◌∷◌, ◌++◌, length, slice_index_or, ◌+◌, OnOk, OnErr, IfOk};

use cps_literal::Atom;
use std::alloc::{AllocError, Global};
use std::marker::Model;

/// Where a clause's atoms stand in the list of all.
#[derive(Clone, Copy)]
pub(crate) struct AtomRange {
    pub(crate) from: u32,
    pub(crate) to: u32,
}

/// Clauses, numbered from 0 as they came. All have fewer than 2^32 atoms.
#[derive(Drop)]
pub(crate) struct Clauses {
    /// The atoms of all clauses.
    atoms: Vec<Atom>,
    /// Where each clause's atoms stand.
    atom_ranges: Vec<AtomRange>,
}

impl Model for Clauses {
    ghost use Rattle.std.specs.Prelude.{List, map, length};
    ghost use Rattle.std.specs.List.{All};
    ghost use Rattle.cps_literal.specs.declared.atom.Atom.{Atom};

    ghost Value = { List (List Atom) };

    ghost use Rattle.cps_rup.specs.AtomRanges.{clause_at, IsAtomRange};

    ghost view = { λ c. map (clause_at c.atoms.items) c.atom_ranges.items };

    ghost invariant = { λ c. All (IsAtomRange (length c.atoms.items)) c.atom_ranges.items };
}

impl Clauses {
    /// No clause.
    pub(crate) fn new(alloc: Global) -> Self
        ensures { result ≡ [] }
    {
        Clauses {
            atoms: Vec::new(alloc),
            atom_ranges: Vec::new(alloc),
        }
    }

    /// How many clauses there are.
    pub(crate) fn len(&self) -> usize
        ensures { result ≡ length self.now }
    {
        self.atom_ranges.len()
    }

    /// The atoms of a clause.
    pub(crate) fn clause(&self, place: usize) -> &[Atom]
        requires { place < length self.now }
        ensures { result.now ≡ slice_index_or self.now place [] }
    {
        let range = self.atom_ranges[place];
        &self.atoms[range.from as usize..range.to as usize]
    }

    /// Adds a clause at the end. Too many atoms are answered as if memory had run out.
    pub(crate) fn push(&mut self, clause: &[Atom]) -> Result<(), AllocError>
        ensures ok { OnOk result (self.new ≡ self.old ++ clause.now ∷ []) }
        ensures err { OnErr result (self.new ≡ self.old) }
    {
        self.atom_ranges.reserve(1)?;
        let range = range_behind(self.atoms.len(), clause.len())?;
        self.atoms.extend_from_slice(clause)?;
        self.atom_ranges.push_reserved(range);
        Ok(())
    }
}

/// The range of so many atoms behind the first ones.
fn range_behind(first: usize, many: usize) -> Result<AtomRange, AllocError>
    ensures { IfOk result (λ range. (range.from ≡ first) × (range.to ≡ first + many)) }
{
    let (Ok(from), Some(end)) = (u32::try_from(first), first.checked_add(many)) else {
        return Err(AllocError);
    };
    match u32::try_from(end) {
        Ok(to) => Ok(AtomRange { from, to }),
        Err(_) => Err(AllocError),
    }
}
