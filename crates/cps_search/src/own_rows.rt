//! The rows of the board that a worker filled itself, and how many of them it has taken back.
//!
//! A worker takes each row of the board once, its own too. Rows are taken in the order of their numbers, so its own
//! ones come back in the order in which it shared them, and only the next of them has to be compared. Those that came
//! back stay in the list. The clause of an own row is in force already: added once more, it would be stored and watched
//! twice.

ghost use Rattle.std.specs.Prelude.{◌≡◌, ◌≤◌, ◌↔◌, IsTrue, OnOk};
ghost use Rattle.cps_port.specs.Entries.{most_atoms};
ghost use Rattle.cps_search.specs.Shelves.{shelf_of};
ghost use Rattle.cps_search.specs.OwnRows.{with_own, IsOwn, StandsAt};

use cps_clauses::ClauseBase;
use cps_literal::Atom;
use cps_port::Entry;
use std::alloc::{AllocError, Global};

/// A row that this worker filled, and the number of its clause in the base.
#[derive(Clone, Copy)]
struct OwnRow {
    row: u32,
    clause: u32,
}

/// The own rows in their order, and how many of them were taken back.
#[derive(Drop)]
pub(crate) struct OwnRows {
    rows: Vec<OwnRow>,
    taken: usize,
}

impl OwnRows {
    /// No row yet.
    pub fn new(alloc: Global) -> Self {
        OwnRows {
            rows: Vec::new(alloc),
            taken: 0,
        }
    }

    /// Notes the row in which the clause of this number stands, if one was left for it.
    pub fn add(&mut self, row: Option<u32>, clause: u32) -> Result<(), AllocError>
        ensures rows { OnOk result (self.new.rows.items ≡ with_own self.old.rows.items row clause) }
        ensures taken { OnOk result (self.new.taken ≡ self.old.taken) }
    {
        if let Some(row) = row {
            self.rows.push(OwnRow { row, clause })?;
        }
        Ok(())
    }

    /// Whether an entry is of the next own row, and the clause that was shared there still stands in the base. The row
    /// is taken where the entry is of it.
    pub fn take_back(&mut self, base: &ClauseBase, entry: &Entry) -> bool
        requires few { entry.now.len ≤ most_atoms }
        ensures own { IsTrue result ↔ IsOwn self.old.rows.items self.old.taken (shelf_of base.now) entry.now }
        ensures rows { self.new.rows.items ≡ self.old.rows.items }
    {
        let Some(own) = self.rows.get(self.taken).copied() else {
            return false;
        };
        if own.row != entry.row {
            return false;
        }
        self.taken += 1;
        stands_at(base, own.clause, entry.clause())
    }

    /// The number of the clause with which the row that was taken last was filled, if it is this row.
    pub fn clause_of(&self, row: u32) -> Option<u32> {
        let own = self.rows.get(self.taken.checked_sub(1)?)?;
        if own.row != row {
            return None;
        }
        Some(own.clause)
    }
}

/// Whether the clause of this number is in force and has just these atoms.
pub(crate) fn stands_at(base: &ClauseBase, number: u32, atoms: &[Atom]) -> bool
    ensures { IsTrue result ↔ StandsAt (shelf_of base.now) number atoms.now }
{
    base.in_force(number) && base.is_clause(number, atoms)
}
