//! A table whose rows are found by a column and its values.
//!
//! The cells are sorted once by column and value. So the rows whose value in a column lies between two numbers stand
//! together there, and are found by bisection: no other row matters for the reason of an atom about that column, nor
//! for a look where the column's subject has few values.

ghost use Rattle.std.specs.Prelude.{ℕ, ◌≡◌, ◌<◌, ◌≤◌, ◌+◌, ◌*◌, ◌≤ℤ◌, length, All, IfOk, OnOk, IsPermutation};
ghost use Rattle.cps_p_lookup.specs.Cells.{comes_before, comes_up_to, AreGrouped, BeginAt, EndBefore, part, value_in, IsWord, IsCellIn, HasCell, AreListed, AddsColumn};

use crate::rows::{Grid, row_at};
use cps_model::Listed;
use std::alloc::{AllocError, Global};
use std::marker::Model;

/// A value of a table, and where it stands.
#[derive(Clone, Copy)]
pub(crate) struct Cell {
    pub(crate) column: usize,
    pub(crate) value: i64,
    pub(crate) row: usize,
}

/// A table: its subjects, its rows one after another, and its cells by column and value.
pub(crate) struct TupleSet {
    exprs: Listed<u32>,
    values: Listed<i64>,
    cells: Vec<Cell>,
}

// Written out, so that crates above do not prove it anew.
impl Drop for TupleSet {
    fn drop(self) {
        let TupleSet {
            exprs: _exprs,
            values: _values,
            cells: _cells,
        } = self;
    }
}

impl Model for TupleSet {
    ghost use Rattle.cps_p_lookup.specs.Cells.{Tuples, AreCells};

    ghost Value = { Tuples };

    ghost view = { λ t. record { exprs = t.exprs; values = t.values } };

    ghost invariant = { λ t. AreCells t.exprs t.values t.cells.items };
}

/// Whether a cell comes before those of a column and a value.
fn comes_before(cell: &Cell, column: usize, value: i64) -> bool
    ensures { result ≡ comes_before column value cell.now }
{
    cell.column < column || cell.column == column && cell.value < value
}

/// Whether a cell comes before those of a column and a value, or is one of them.
fn comes_up_to(cell: &Cell, column: usize, value: i64) -> bool
    ensures { result ≡ comes_up_to column value cell.now }
{
    cell.column < column || cell.column == column && cell.value <= value
}

/// Sorts cells by column and value.
fn sort_cells(cells: &mut Vec<Cell>)
    ensures grouped { AreGrouped cells.new.items }
    ensures moved { IsPermutation cells.old.items cells.new.items }
{
    cells.sort_unstable_by_key(|cell| (cell.column, cell.value));
}

/// Where the cells of a column and a value begin.
fn first_of(cells: &[Cell], column: usize, value: i64) -> usize
    requires { AreGrouped cells.now }
    ensures begin { BeginAt cells.now column value result }
    ensures inside { result ≤ length cells.now }
{
    cells.partition_point(|cell| comes_before(cell, column, value))
}

/// Before which place they end.
fn end_of(cells: &[Cell], column: usize, value: i64) -> usize
    requires { AreGrouped cells.now }
    ensures end { EndBefore cells.now column value result }
    ensures inside { result ≤ length cells.now }
{
    cells.partition_point(|cell| comes_up_to(cell, column, value))
}

/// The cells from one place to before another; none where the other comes first.
fn between(cells: &[Cell], first: usize, end: usize) -> &[Cell]
    requires { end ≤ length cells.now }
    ensures { result.now ≡ part cells.now first end }
{
    if end < first {
        return &cells[end..end];
    }
    &cells[first..end]
}

/// Adds the cells of a column.
fn add_column(
    values: &[i64],
    width: usize,
    column: usize,
    cells: &mut Vec<Cell>,
) -> Result<(), AllocError>
    requires { column < width }
    ensures { OnOk result (AddsColumn width values.now column cells.old.items cells.new.items) }
{
    for row in 0..values.len() / width {
        let value = row_at(values, width, row)[column];
        cells.push(Cell { column, value, row })?;
    }
    Ok(())
}

/// The cells of rows of a width.
fn list_cells(alloc: Global, values: &[i64], width: usize) -> Result<Vec<Cell>, AllocError>
    ensures { IfOk result (λ cells. AreListed width values.now cells.items) }
{
    let mut cells = Vec::new(alloc);
    for column in 0..width {
        add_column(values, width, column, &mut cells)?;
    }
    Ok(cells)
}

impl TupleSet {
    /// A table of these subjects and rows.
    pub(crate) fn new(
        alloc: Global,
        exprs: Listed<u32>,
        values: Listed<i64>,
    ) -> Result<Self, AllocError>
        ensures exprs { IfOk result (λ tuples. tuples.exprs ≡ exprs) }
        ensures values { IfOk result (λ tuples. tuples.values ≡ values) }
    {
        let mut cells = list_cells(alloc, values.as_slice(), exprs.as_slice().len())?;
        sort_cells(&mut cells);
        Ok(TupleSet {
            exprs,
            values,
            cells,
        })
    }

    /// The subjects and the rows.
    pub(crate) fn grid(&self) -> Grid<'_>
        ensures exprs { result.exprs.now ≡ self.now.exprs }
        ensures values { result.values.now ≡ self.now.values }
    {
        Grid {
            exprs: self.exprs.as_slice(),
            values: self.values.as_slice(),
        }
    }

    /// All cells, by column and value.
    pub(crate) fn cells(&self) -> &[Cell] {
        self.cells.as_slice()
    }

    /// The cells of a column whose values lie between two.
    pub(crate) fn cells_between(&self, column: usize, low: i64, high: i64) -> &[Cell]
        requires { column < length self.now.exprs }
        ensures inside { All (IsCellIn (length self.now.exprs) self.now.values) result.now }
        ensures every { (r : ℕ) → (r + 1) * length self.now.exprs ≤ length self.now.values
            → low ≤ℤ value_in (length self.now.exprs) self.now.values column r
            → value_in (length self.now.exprs) self.now.values column r ≤ℤ high
            → HasCell (length self.now.exprs) self.now.values column r result.now }
        ensures range { (r : ℕ) → (r + 1) * length self.now.exprs ≤ length self.now.values
            → IsWord (value_in (length self.now.exprs) self.now.values column r) }
    {
        let cells = self.cells.as_slice();
        let first = first_of(cells, column, low);
        let end = end_of(cells, column, high);
        between(cells, first, end)
    }
}
