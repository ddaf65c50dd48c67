//! Atoms in a list, each held as a number of four bytes.

ghost use Rattle.std.specs.Prelude.{◌≡◌, [], ◌∷◌, ◌++◌, length, take, IfOk, OnOk, OnErr};
ghost use Rattle.cps_clauses.specs.AtomRanges.{clause_at, IsAtomRange, IsAppended};

use crate::atom_range::AtomRange;
use crate::literals::Literals;
use cps_literal::{Atom, LiteralTable};
use std::alloc::{AllocError, Global};
use std::marker::Model;
use std::mem::size_of;

const NUMBER_BYTES: usize = size_of::<u32>();

/// Atoms, each as its number in a table.
#[derive(Drop)]
pub(crate) struct AtomList {
    numbers: Vec<u32>,
    literals: LiteralTable,
}

impl Model for AtomList {
    ghost use Rattle.std.specs.Prelude.{List, map, length, ◌<◌};
    ghost use Rattle.std.specs.List.{All};
    ghost use Rattle.cps_literal.specs.declared.atom.Atom.{Atom};

    ghost Value = { List Atom };

    ghost use Rattle.cps_clauses.specs.AtomRanges.{atom_in};

    ghost view = { λ a. map (atom_in a.literals) a.numbers.items };

    ghost invariant = { λ a. All (λ n. n < length a.literals) a.numbers.items };
}

impl AtomList {
    /// No atom.
    pub(crate) fn new(alloc: Global) -> Self
        ensures { result ≡ [] }
    {
        AtomList {
            numbers: Vec::new(alloc),
            literals: LiteralTable::new(alloc),
        }
    }

    /// How many atoms there are.
    fn len(&self) -> usize
        ensures { result ≡ length self.now }
    {
        self.numbers.len()
    }

    /// Adds an atom at the end.
    fn push(&mut self, atom: Atom) -> Result<(), AllocError>
        ensures ok { OnOk result (self.new ≡ self.old ++ atom ∷ []) }
        ensures err { OnErr result (self.new ≡ self.old) }
    {
        self.numbers.reserve(1)?;
        let number = self.literals.number(atom)?;
        let Ok(short) = u32::try_from(number) else {
            return Err(AllocError);
        };
        self.numbers.push_reserved(short);
        Ok(())
    }

    /// Adds atoms at the end, in order. Where an allocation fails, only some first ones of them were added.
    fn extend(&mut self, atoms: &[Atom]) -> Result<(), AllocError>
        ensures ok { OnOk result (self.new ≡ self.old ++ atoms.now) }
        ensures front { take (length self.old) self.new ≡ self.old }
    {
        for atom in atoms {
            self.push(*atom)?;
        }
        Ok(())
    }

    /// How many bytes the numbers take.
    pub(crate) fn room(&self) -> usize {
        self.numbers.capacity().saturating_mul(NUMBER_BYTES)
    }

    /// Keeps only the first atoms.
    fn truncate(&mut self, len: usize)
        ensures { self.new ≡ take len self.old }
    {
        self.numbers.truncate(len);
    }

    /// Adds the atoms of a clause at the end, and answers where they stand.
    pub(crate) fn append(&mut self, clause: &[Atom]) -> Result<AtomRange, AllocError>
        ensures ok { IfOk result (IsAppended self.old self.new clause.now) }
        ensures err { OnErr result (self.new ≡ self.old) }
    {
        let from = self.len();
        match self.extend(clause) {
            Ok(()) => Ok(AtomRange {
                from,
                to: self.len(),
            }),
            Err(error) => {
                self.truncate(from);
                Err(error)
            }
        }
    }

    /// The clause at a range, in place.
    pub(crate) fn literals(&self, atom_range: AtomRange) -> Literals<'_>
        requires { IsAtomRange (length self.now) atom_range }
        ensures { result ≡ clause_at self.now atom_range }
    {
        Literals::new(
            &self.numbers[atom_range.from..atom_range.to],
            &self.literals,
        )
    }
}
