//! Entries of the board, and the answers of `share` and `take`.
ghost use Rattle.std.specs.Prelude.{◌≡◌, ◌≤◌, length};

use cps_literal::{Atom, Op};
use cps_model::Bound;

/// The most atoms of a clause that is shared.
pub const MOST_ATOMS: usize = 16;

/// The most rows of a board. After the last nothing more is shared.
pub const MOST_ROWS: u32 = 4096;

/// Fills the places of an entry that its clause leaves free.
pub(crate) const BLANK: Atom = Atom {
    subject: 0,
    op: Op::Le,
    value: 0,
};

/// A clause on the board: its first `len` atoms. It holds at each assignment whose objective is less than `below`.
#[derive(Clone, Copy, Debug, PartialEq, Eq)]
pub struct Entry {
    /// The number of its row.
    pub row: u32,
    /// The bound below which the clause was learnt: the incumbent's objective then, or `Infinite`.
    pub below: Bound,
    /// How many atoms it has, at most `MOST_ATOMS`.
    pub len: u32,
    /// Its atoms, then a filler in each free place.
    pub atoms: [Atom; MOST_ATOMS],
}

/// The answer of `share`.
#[derive(Clone, Copy, Debug, PartialEq, Eq)]
pub enum Share {
    /// The clause stands in the row of this number.
    Row(u32),
    /// No row is left.
    Full,
}

/// The answer of `take`.
#[derive(Clone, Copy, Debug, PartialEq, Eq)]
pub enum Taken {
    /// The entry of the first row that was not taken.
    Entry(Entry),
    /// That row is not published yet.
    NotYet,
    /// Every row was taken.
    End,
}

impl Entry {
    ghost use Rattle.cps_port.specs.Entries.{entry_of, entry_clause};

    /// The entry of a clause of at most `MOST_ATOMS` atoms.
    pub fn of(row: u32, below: Bound, clause: &[Atom]) -> Entry
        requires { length clause.now ≤ MOST_ATOMS }
        ensures { result ≡ entry_of row below clause.now }
    {
        let mut atoms = [BLANK; MOST_ATOMS];
        atoms[..clause.len()].copy_from_slice(clause);
        Entry {
            row,
            below,
            len: clause.len() as u32,
            atoms,
        }
    }

    /// The atoms of its clause.
    pub fn clause(&self) -> &[Atom]
        requires { self.now.len ≤ MOST_ATOMS }
        ensures { result.now ≡ entry_clause self.now }
    {
        &self.atoms[..self.len as usize]
    }
}
