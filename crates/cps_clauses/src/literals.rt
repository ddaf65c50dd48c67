//! A clause in force, each of whose atoms is a number in a table.

ghost use Rattle.std.specs.Prelude.{◌≡◌, ◌<◌, ◌↔◌, ◌++◌, length, map, slice_index_or, IfOk, OnOk, IsTrue};
ghost use Rattle.std.specs.List.{All};
ghost use Rattle.cps_clauses.specs.AtomRanges.{atom_in};
ghost use Rattle.cps_clauses.specs.Watches.{no_atom};

use cps_literal::{Atom, Clause, LiteralTable};
use std::alloc::{AllocError, Global};
use std::marker::Model;

/// The atoms of a clause, read in place.
#[derive(Drop)]
pub(crate) struct Literals<'a> {
    numbers: &'a [u32],
    table: &'a LiteralTable,
}

impl<'a> Model for Literals<'a> {
    ghost use Rattle.std.specs.Prelude.{List, map, length, ◌<◌};
    ghost use Rattle.std.specs.List.{All};
    ghost use Rattle.cps_literal.specs.declared.atom.Atom.{Atom};

    ghost Value = { List Atom };

    ghost use Rattle.cps_clauses.specs.AtomRanges.{atom_in};

    ghost view = { λ l. map (atom_in l.table.now) l.numbers.now };

    ghost invariant = { λ l. All (λ n. n < length l.table.now) l.numbers.now };
}

impl<'a> Literals<'a> {
    /// The atoms with these numbers.
    pub(crate) fn new(numbers: &'a [u32], table: &'a LiteralTable) -> Self
        requires { All (λ n. n < length table.now) numbers.now }
        ensures { result ≡ map (atom_in table.now) numbers.now }
    {
        Literals { numbers, table }
    }

    /// How many atoms there are.
    pub(crate) fn len(&self) -> usize
        ensures { result ≡ length self.now }
    {
        self.numbers.len()
    }

    /// The atom at a place.
    pub(crate) fn atom(&self, place: usize) -> Atom
        requires { place < length self.now }
        ensures { result ≡ slice_index_or self.now place no_atom }
    {
        self.table.atom(self.numbers[place] as usize)
    }

    /// Adds the atoms at the end of a list, in order.
    pub(crate) fn append_to(&self, atoms: &mut Vec<Atom>) -> Result<(), AllocError>
        ensures { OnOk result (atoms.new.items ≡ atoms.old.items ++ self.now) }
    {
        atoms.reserve(self.len())?;
        for place in 0..self.len() {
            atoms.push_reserved(self.atom(place));
        }
        Ok(())
    }

    /// A copy of the clause.
    pub(crate) fn to_clause(&self, alloc: Global) -> Result<Clause, AllocError>
        ensures { IfOk result (λ clause. clause ≡ self.now) }
    {
        let mut clause = Clause::new(alloc);
        for place in 0..self.len() {
            clause.push(self.atom(place))?;
        }
        Ok(clause)
    }

    /// Whether these are the atoms, in this order.
    pub(crate) fn is(&self, atoms: &[Atom]) -> bool
        ensures { IsTrue result ↔ (self.now ≡ atoms.now) }
    {
        if self.len() != atoms.len() {
            return false;
        }
        for place in 0..atoms.len() {
            if self.atom(place) != atoms[place] {
                return false;
            }
        }
        true
    }
}
