//! What of a table is left, kept from look to look.
//!
//! For each row it is counted in how many columns the subject lacks its value, so the rows of the count 0 are left.
//! A look compares each subject's domain with that of the last look and counts the rows of those values alone that
//! went or came back, so nothing has to be undone. For each value a row that has it and was left is kept and tried
//! first, and its other rows only where that one is gone: Lecoutre and Hemery, "A study of residual supports in arc
//! consistency" (2007). Nothing is promised but that the calls are safe: rows that are found are tested where they count.

ghost use Rattle.std.specs.Prelude.{◌<◌, length, All};

use crate::gaps::{first_reaching, is_worth};
use crate::index::{Cell, TupleSet};
use crate::numbering::Numbering;
use cps_domain::Domain;
use cps_trail::Store;
use std::alloc::{AllocError, Global};

/// A column's domain at the last look, and how many of its values the column has.
struct Seen {
    intervals: Vec<(i64, i64)>,
    open: u64,
}

// Written out, so that crates above do not prove it anew.
impl Drop for Seen {
    fn drop(self) {
        let Seen {
            intervals: _intervals,
            open: _open,
        } = self;
    }
}

/// A row that has the least value of a column's subject, and one that has the greatest.
#[derive(Clone, Copy)]
pub(crate) struct EndRows {
    pub(crate) low: usize,
    pub(crate) high: usize,
}

/// The values that subjects have, and the rows that are left.
pub(crate) struct Supports {
    columns: Vec<Seen>,
    /// The rows of each column's ends, where the last look found no value to lose.
    ends: Vec<EndRows>,
    /// For each value by number, whether its subject has it.
    is_open: Vec<bool>,
    /// For each value by number, a row that has it and was left; no row before one is found.
    residues: Vec<usize>,
    /// For each row, in how many columns its value is gone.
    gone: Vec<u32>,
    /// How many rows are left.
    live: usize,
}

// Written out, so that crates above do not prove it anew.
impl Drop for Supports {
    fn drop(self) {
        let Supports {
            columns: _columns,
            ends: _ends,
            is_open: _is_open,
            residues: _residues,
            gone: _gone,
            live: _live,
        } = self;
    }
}

/// The cells from one place to before another, as far as there are such.
fn cells_from(cells: &[Cell], first: usize, end: usize) -> &[Cell] {
    let end = end.min(cells.len());
    if first <= end {
        &cells[first..end]
    } else {
        &cells[end..end]
    }
}

/// The value of the cell at a place.
fn value_at(cells: &[Cell], place: usize) -> i64 {
    match cells.get(place) {
        Some(cell) => cell.value,
        None => i64::MAX,
    }
}

/// The entry at a place; false where there is none.
fn is_set(list: &[bool], place: usize) -> bool {
    match list.get(place) {
        Some(entry) => *entry,
        None => false,
    }
}

/// Whether intervals from one on have a value, which none before that one reaches.
fn has_value(intervals: &[(i64, i64)], at: usize, value: i64) -> bool {
    match intervals.get(at) {
        Some(interval) => interval.0 <= value && value <= interval.1,
        None => false,
    }
}

impl Supports {
    /// What is kept before the first look: no value is there, and no row is left.
    pub(crate) fn new(alloc: Global, numbering: &Numbering) -> Result<Self, AllocError> {
        let mut supports = Supports {
            columns: Vec::new(alloc),
            ends: Vec::new(alloc),
            is_open: Vec::new(alloc),
            residues: Vec::new(alloc),
            gone: Vec::new(alloc),
            live: 0,
        };
        for _ in 0..numbering.width() {
            supports.columns.push(Seen {
                intervals: Vec::new(alloc),
                open: 0,
            })?;
        }
        let width = u32::try_from(numbering.width()).map_err(|_| AllocError)?;
        supports.is_open.resize(numbering.count(), false)?;
        supports.residues.resize(numbering.count(), usize::MAX)?;
        supports.gone.resize(numbering.rows(), width)?;
        Ok(supports)
    }

    /// Whether no column lacks a row's value.
    fn is_left(&self, row: usize) -> bool {
        match self.gone.get(row) {
            Some(columns) => *columns == 0,
            None => false,
        }
    }

    /// Counts that a value of a row came back or went.
    fn count(&mut self, row: usize, is_open: bool) {
        if row >= self.gone.len() {
            return;
        }
        let before = self.gone[row];
        if is_open {
            self.gone[row] = before.wrapping_sub(1);
            if before == 1 {
                self.live = self.live.wrapping_add(1);
            }
        } else {
            self.gone[row] = before.wrapping_add(1);
            if before == 0 {
                self.live = self.live.wrapping_sub(1);
            }
        }
    }

    /// Counts the values of a column that came back or went, where its subject has these intervals. Answers how many
    /// there are.
    fn recount(
        &mut self,
        column: usize,
        intervals: &[(i64, i64)],
        cells: &[Cell],
        numbering: &Numbering,
    ) -> u64 {
        let mut at = 0;
        let mut open: u64 = 0;
        for number in numbering.first_in(column)..numbering.first_in(column.wrapping_add(1)) {
            let first = numbering.first_cell(number);
            let value = value_at(cells, first);
            at = first_reaching(intervals, at, value);
            let is_open = has_value(intervals, at, value);
            if is_open {
                open = open.wrapping_add(1);
            }
            if number < self.is_open.len() && self.is_open[number] != is_open {
                self.is_open[number] = is_open;
                for cell in cells_from(cells, first, numbering.first_cell(number.wrapping_add(1))) {
                    self.count(cell.row, is_open);
                }
            }
        }
        open
    }

    /// Brings up to date what is kept of a column, if its subject's domain is another than at the last look.
    fn renew(
        &mut self,
        column: usize,
        domain: &Domain,
        cells: &[Cell],
        numbering: &Numbering,
    ) -> Result<(), AllocError> {
        let intervals = domain.intervals();
        if column < self.columns.len() && self.columns[column].intervals.as_slice() == intervals {
            return Ok(());
        }
        let open = self.recount(column, intervals, cells, numbering);
        if column < self.columns.len() {
            let seen = &mut self.columns[column];
            seen.open = open;
            seen.intervals.clear();
            seen.intervals.extend_from_slice(intervals)?;
        }
        Ok(())
    }

    /// Whether a row that is left has a value.
    fn has_support(&mut self, number: usize, cells: &[Cell], numbering: &Numbering) -> bool {
        if number >= self.residues.len() {
            return false;
        }
        if self.is_left(self.residues[number]) {
            return true;
        }
        let first = numbering.first_cell(number);
        for cell in cells_from(cells, first, numbering.first_cell(number.wrapping_add(1))) {
            if self.is_left(cell.row) {
                self.residues[number] = cell.row;
                return true;
            }
        }
        false
    }

    /// The row that was found for a value; no row where there is none.
    fn residue(&self, number: usize) -> usize {
        match self.residues.get(number) {
            Some(row) => *row,
            None => usize::MAX,
        }
    }

    /// The rows of each column's ends, where `find` has just said that no subject has a value to lose.
    pub(crate) fn ends(&self) -> &[EndRows] {
        self.ends.as_slice()
    }

    /// Whether the rows that are left have each value of a column's subject, or where it has many more values than
    /// there are such rows, its least and its greatest. Keeps the rows of these two.
    fn is_tight(
        &mut self,
        column: usize,
        domain: &Domain,
        cells: &[Cell],
        numbering: &Numbering,
    ) -> Result<bool, AllocError> {
        let open = match self.columns.get(column) {
            Some(seen) => seen.open,
            None => return Ok(false),
        };
        let is_whole = is_worth(domain, self.live);
        if is_whole && open != domain.size() {
            return Ok(false);
        }
        let low = domain.min();
        let high = domain.max();
        let mut ends = EndRows {
            low: usize::MAX,
            high: usize::MAX,
        };
        for number in numbering.first_in(column)..numbering.first_in(column.wrapping_add(1)) {
            if !is_set(self.is_open.as_slice(), number) {
                continue;
            }
            let value = value_at(cells, numbering.first_cell(number));
            let is_end = value == low || value == high;
            if (is_end || is_whole) && !self.has_support(number, cells, numbering) {
                return Ok(false);
            }
            if value == low {
                ends.low = self.residue(number);
            }
            if value == high {
                ends.high = self.residue(number);
            }
        }
        self.ends.push(ends)?;
        Ok(ends.low != usize::MAX && ends.high != usize::MAX)
    }

    /// Whether the subjects have no value to lose.
    pub(crate) fn find(
        &mut self,
        store: &Store,
        tuples: &TupleSet,
        numbering: &Numbering,
    ) -> Result<bool, AllocError>
        requires fits { All (λ e. e < length store.now.first) tuples.now.exprs }
    {
        let cells = tuples.cells();
        let exprs = tuples.grid().exprs;
        self.ends.clear();
        for (column, subject) in exprs.iter().enumerate() {
            self.renew(column, store.domain(*subject), cells, numbering)?;
        }
        for (column, subject) in exprs.iter().enumerate() {
            if !self.is_tight(column, store.domain(*subject), cells, numbering)? {
                return Ok(false);
            }
        }
        Ok(true)
    }
}
