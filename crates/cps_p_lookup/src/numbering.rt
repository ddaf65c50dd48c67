//! The values of a table's columns by number.
//!
//! A finder marks values in lists, and looks a cell's mark up by the number of its value. Nothing is promised of the
//! numbers but that each call is safe.

use crate::index::Cell;
use std::alloc::{AllocError, Global};

/// The number of each cell's value, and the columns by how many values they have.
pub(crate) struct Numbering {
    width: usize,
    rows: usize,
    /// For each cell, row by row, the number of its value among those of all columns.
    numbers: Vec<u32>,
    /// For each value by number, the place of the first of its cells.
    firsts: Vec<usize>,
    /// For each column, the number of the first of its values.
    starts: Vec<usize>,
    /// The columns, those of few values first.
    pub(crate) order: Vec<usize>,
}

// Written out, so that crates above do not prove it anew.
impl Drop for Numbering {
    fn drop(self) {
        let Numbering {
            width: _width,
            rows: _rows,
            numbers: _numbers,
            firsts: _firsts,
            starts: _starts,
            order: _order,
        } = self;
    }
}

/// Writes the entry at a place, if there is one.
pub(crate) fn set_number(list: &mut [u32], place: usize, entry: u32) {
    if place < list.len() {
        list[place] = entry;
    }
}

/// The entry at a place; `otherwise` where there is none.
fn entry_at(list: &[usize], place: usize, otherwise: usize) -> usize {
    match list.get(place) {
        Some(entry) => *entry,
        None => otherwise,
    }
}

/// Whether two cells that follow one another have the same column and value.
fn is_same(last: Option<Cell>, cell: &Cell) -> bool {
    match last {
        Some(before) => before.column == cell.column && before.value == cell.value,
        None => false,
    }
}

impl Numbering {
    /// The numbers of sorted cells.
    pub(crate) fn new(alloc: Global, cells: &[Cell], width: usize) -> Result<Self, AllocError> {
        let mut numbering = Numbering {
            width,
            rows: 0,
            numbers: Vec::new(alloc),
            firsts: Vec::new(alloc),
            starts: Vec::new(alloc),
            order: Vec::new(alloc),
        };
        numbering.numbers.resize(cells.len(), 0)?;
        let mut last: Option<Cell> = None;
        for (place, cell) in cells.iter().enumerate() {
            if !is_same(last, cell) {
                numbering.add_value(place, cell.column)?;
            }
            numbering.set(cell)?;
            last = Some(*cell);
        }
        numbering.order_columns(alloc)?;
        Ok(numbering)
    }

    /// Adds a value of a column whose cells begin at a place.
    fn add_value(&mut self, place: usize, column: usize) -> Result<(), AllocError> {
        if self.starts.len() <= column {
            let number = self.firsts.len();
            self.starts.push(number)?;
        }
        self.firsts.push(place)?;
        Ok(())
    }

    /// Gives a cell the number of the value that was added last.
    fn set(&mut self, cell: &Cell) -> Result<(), AllocError> {
        let number = u32::try_from(self.firsts.len().wrapping_sub(1)).map_err(|_| AllocError)?;
        let place = cell.row.wrapping_mul(self.width).wrapping_add(cell.column);
        set_number(self.numbers.as_mut_slice(), place, number);
        self.rows = self.rows.max(cell.row.wrapping_add(1));
        Ok(())
    }

    /// Orders the columns by how many values they have.
    fn order_columns(&mut self, alloc: Global) -> Result<(), AllocError> {
        let mut counts: Vec<(usize, usize)> = Vec::new(alloc);
        for column in 0..self.width {
            let next = self.first_in(column.wrapping_add(1));
            counts.push((next.wrapping_sub(self.first_in(column)), column))?;
        }
        counts.sort_unstable_by_key(|count| count.0);
        for count in counts.as_slice() {
            self.order.push(count.1)?;
        }
        Ok(())
    }

    /// How many columns there are.
    pub(crate) fn width(&self) -> usize {
        self.width
    }

    /// How many rows there are.
    pub(crate) fn rows(&self) -> usize {
        self.rows
    }

    /// How many values there are in all columns.
    pub(crate) fn count(&self) -> usize {
        self.firsts.len()
    }

    /// The number of the first value of a column; that of all values where there is no such column.
    pub(crate) fn first_in(&self, column: usize) -> usize {
        entry_at(self.starts.as_slice(), column, self.firsts.len())
    }

    /// The place of the first cell of a value; that of all cells where there is no such value.
    pub(crate) fn first_cell(&self, number: usize) -> usize {
        entry_at(self.firsts.as_slice(), number, self.numbers.len())
    }

    /// The number of a row's value in a column.
    pub(crate) fn number_of(&self, row: usize, column: usize) -> u32 {
        let place = row.wrapping_mul(self.width).wrapping_add(column);
        match self.numbers.get(place) {
            Some(number) => *number,
            None => 0,
        }
    }
}
