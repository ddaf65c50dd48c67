//! The rows of a table that are left, and what they leave to each column.
//!
//! A look first asks what is kept from the last (`supports`) whether a subject has a value to lose. Where none has, it
//! names rows that have the ends of each column, and these are tested. Else the rows are scanned whose value in some column lies between the
//! ends of its subject, of the column where they are fewest, and those that the domains leave are listed; then each
//! column's subject is kept between the ends of its values there, and off the values inside that no row has.

ghost use Rattle.std.specs.Prelude.{ℕ, ℤ, pos, ◌≡◌, ◌<◌, ◌≤◌, ◌+◌, ◌*◌, List, length, All, IfOk, OnOk, Ok, true, false, slice_index_or, Contains};
ghost use Rattle.cps_model.specs.Lookups.{row_at};
ghost use Rattle.cps_propagate.specs.Lookups.{cell};
ghost use Rattle.cps_instance.specs.declared.task.Body.TheVariants.{Table};
ghost use Rattle.cps_rule.specs.Rules.{IsGiven, IsSeen, IsAtRest};
ghost use Rattle.cps_trail.specs.Trail.{Trail};
ghost use Rattle.cps_p_lookup.specs.Cells.{IsCellIn, HasCell};
ghost use Rattle.cps_p_lookup.specs.Tabling.{IsOpenRow, IsDeadRow, IsLive, AreEndsLive, HasEndRows, AreLive, ListsLive};
ghost use Rattle.cps_p_lookup.specs.Resting.{AreTrue, LeavesAtRest};
ghost use Rattle.cps_p_lookup.specs.Columns.{IsColumnIn, AreEndsOf};

use crate::gaps::{Gaps, exclude_missing, is_worth};
use crate::index::{Cell, TupleSet};
use crate::numbering::Numbering;
use crate::places::{NO_HINT, bound};
use crate::supports::{EndRows, Supports};
use cps_rule::{Look, Narrowing};
use cps_trail::Store;
use std::alloc::{AllocError, Global};

/// A table: its subjects, and its rows one after another.
#[derive(Clone, Copy)]
pub(crate) struct Grid<'a> {
    pub(crate) exprs: &'a [u32],
    pub(crate) values: &'a [i64],
}

/// Room for the rows that are left, and for a search of gaps in their columns.
pub(crate) struct Room {
    supports: Supports,
    rows: Vec<usize>,
    gaps: Gaps,
}

// Written out, so that crates above do not prove it anew.
impl Drop for Room {
    fn drop(self) {
        let Room {
            supports: _supports,
            rows: _rows,
            gaps: _gaps,
        } = self;
    }
}

impl Room {
    /// Room for the looks at a table before the first.
    pub(crate) fn new(alloc: Global, numbering: &Numbering) -> Result<Self, AllocError> {
        Ok(Room {
            supports: Supports::new(alloc, numbering)?,
            rows: Vec::new(alloc),
            gaps: Gaps::new(alloc),
        })
    }
}

/// A row of a table.
pub(crate) fn row_at(values: &[i64], width: usize, row: usize) -> &[i64]
    requires { (row + 1) * width ≤ length values.now }
    ensures same { result.now ≡ row_at width values.now row }
    ensures long { length result.now ≡ width }
{
    &values[row * width..row * width + width]
}

/// Whether each subject may have its value of a row.
fn is_open(store: &Store, exprs: &[u32], row: &[i64]) -> bool
    requires fits { All (λ e. e < length store.now.first) exprs.now }
    requires long { length row.now ≡ length exprs.now }
    ensures yes { result ≡ true → IsOpenRow store.now exprs.now row.now }
    ensures dead { result ≡ false → IsDeadRow store.now exprs.now row.now }
{
    for (k, subject) in exprs.iter().enumerate() {
        if !store.domain(*subject).contains(row[k]) {
            return false;
        }
    }
    true
}

/// The cells of a column whose values lie between the ends of its subject's domain.
fn cells_left<'a>(store: &Store, tuples: &'a TupleSet, column: usize) -> &'a [Cell]
    requires fits { All (λ e. e < length store.now.first) tuples.now.exprs }
    requires column { column < length tuples.now.exprs }
    ensures each { All (IsCellIn (length tuples.now.exprs) tuples.now.values) result.now }
    ensures every { (r : ℕ) → IsLive store.now tuples.now.exprs tuples.now.values r
        → HasCell (length tuples.now.exprs) tuples.now.values column r result.now }
{
    let domain = store.domain(tuples.grid().exprs[column]);
    tuples.cells_between(column, domain.min(), domain.max())
}

/// The column of the fewest such cells.
fn narrowest(store: &Store, tuples: &TupleSet) -> usize
    requires fits { All (λ e. e < length store.now.first) tuples.now.exprs }
    requires some { 0 < length tuples.now.exprs }
    ensures { result < length tuples.now.exprs }
{
    let mut best = 0;
    let mut least = usize::MAX;
    for column in 0..tuples.grid().exprs.len() {
        let count = cells_left(store, tuples, column).len();
        if count < least {
            best = column;
            least = count;
        }
    }
    best
}

/// Makes a list that of the rows of some cells that are left.
fn list_live(
    store: &Store,
    grid: &Grid,
    cells: &[Cell],
    rows: &mut Vec<usize>,
) -> Result<(), AllocError>
    requires fits { All (λ e. e < length store.now.first) grid.now.exprs.now }
    requires cells { All (IsCellIn (length grid.now.exprs.now) grid.now.values.now) cells.now }
    ensures { OnOk result (ListsLive store.now grid.now.exprs.now grid.now.values.now cells.now rows.new.items) }
{
    rows.clear();
    for cell in cells {
        let row = cell.row;
        if is_open(
            store,
            grid.exprs,
            row_at(grid.values, grid.exprs.len(), row),
        ) {
            rows.push(row)?;
        }
    }
    Ok(())
}

/// Makes a list that of the rows that are left.
fn collect(store: &Store, tuples: &TupleSet, rows: &mut Vec<usize>) -> Result<(), AllocError>
    requires fits { All (λ e. e < length store.now.first) tuples.now.exprs }
    requires some { 0 < length tuples.now.exprs }
    ensures { OnOk result (AreLive store.now tuples.now.exprs tuples.now.values rows.new.items) }
{
    let column = narrowest(store, tuples);
    let cells = cells_left(store, tuples, column);
    list_live(store, &tuples.grid(), cells, rows)?;
    Ok(())
}

/// A column of the rows that are left.
#[derive(Clone, Copy)]
struct Column<'a> {
    grid: Grid<'a>,
    rows: &'a [usize],
    place: usize,
}

/// The least and the greatest value of a column.
fn ends(column: &Column) -> (i64, i64)
    requires some { 0 < length column.now.rows.now }
    requires place { column.now.place < length column.now.grid.exprs.now }
    requires rows { All (λ r. (r + 1) * length column.now.grid.exprs.now ≤ length column.now.grid.values.now)
        column.now.rows.now }
    ensures { AreEndsOf column.now column.now.rows.now column.now.rows.now result.0 result.1 }
{
    let grid = column.grid;
    let place = column.place;
    let rows = column.rows;
    let first = row_at(grid.values, grid.exprs.len(), rows[0])[place];
    let mut low = first;
    let mut high = first;
    for row in rows {
        let value = row_at(grid.values, grid.exprs.len(), *row)[place];
        low = low.min(value);
        high = high.max(value);
    }
    (low, high)
}

/// Keeps a column's subject between the ends of the rows that are left.
fn narrow_column(
    store: &Store,
    column: &Column,
    found: &mut Vec<Narrowing>,
) -> Result<(), AllocError>
    requires some { 0 < length column.now.rows.now }
    requires column { IsColumnIn store.now column.now }
    requires given { All (λ n. IsGiven
        (Table column.now.grid.exprs.now column.now.grid.values.now false) store.now n.target) found.old.items }
    ensures given { OnOk result (All (λ n. IsGiven
        (Table column.now.grid.exprs.now column.now.grid.values.now false) store.now n.target) found.new.items) }
    ensures rests { OnOk result (LeavesAtRest store.now
        (AreEndsLive store.now column.now.grid.exprs.now column.now.grid.values.now column.now.place)
        found.old.items found.new.items) }
{
    let (low, high) = ends(column);
    bound(store, column.grid.exprs[column.place], low, high, found)?;
    Ok(())
}

/// Makes a list that of a column's values.
fn copy_column(column: &Column, values: &mut Vec<i64>) -> Result<(), AllocError>
    requires place { column.now.place < length column.now.grid.exprs.now }
    requires rows { All (λ r. (r + 1) * length column.now.grid.exprs.now ≤ length column.now.grid.values.now)
        column.now.rows.now }
    ensures { OnOk result (All (λ r. Contains values.new.items (slice_index_or
        (row_at (length column.now.grid.exprs.now) column.now.grid.values.now r) column.now.place (pos 0)))
        column.now.rows.now) }
{
    let grid = column.grid;
    let place = column.place;
    let rows = column.rows;
    values.clear();
    for row in rows {
        let value = row_at(grid.values, grid.exprs.len(), *row)[place];
        values.push(value)?;
    }
    Ok(())
}

/// Keeps a column's subject off the values between its ends that none of the rows has.
fn narrow_inside(
    store: &Store,
    column: &Column,
    gaps: &mut Gaps,
    found: &mut Vec<Narrowing>,
) -> Result<(), AllocError>
    requires column { IsColumnIn store.now column.now }
    requires given { All (λ n. IsGiven
        (Table column.now.grid.exprs.now column.now.grid.values.now false) store.now n.target) found.old.items }
    ensures given { OnOk result (All (λ n. IsGiven
        (Table column.now.grid.exprs.now column.now.grid.values.now false) store.now n.target) found.new.items) }
    ensures before { OnOk result (AreTrue store.now found.new.items → AreTrue store.now found.old.items) }
{
    let grid = column.grid;
    let place = column.place;
    let subject = grid.exprs[place];
    let domain = store.domain(subject);
    if !is_worth(domain, column.rows.len()) {
        return Ok(());
    }
    copy_column(column, &mut gaps.listed)?;
    exclude_missing(subject, domain, gaps, found)?;
    Ok(())
}

/// Keeps each column's subject to the values that the rows which are left have there; of a large domain, between their
/// ends.
fn narrow_columns(
    store: &Store,
    grid: &Grid,
    rows: &[usize],
    gaps: &mut Gaps,
    found: &mut Vec<Narrowing>,
) -> Result<(), AllocError>
    requires fits { All (λ e. e < length store.now.first) grid.now.exprs.now }
    requires some { 0 < length rows.now }
    requires rows { AreLive store.now grid.now.exprs.now grid.now.values.now rows.now }
    ensures given { OnOk result (All (λ n. IsGiven
        (Table grid.now.exprs.now grid.now.values.now false) store.now n.target) found.new.items) }
    ensures ends { OnOk result (AreTrue store.now found.new.items
        → HasEndRows store.now grid.now.exprs.now grid.now.values.now (length grid.now.exprs.now)) }
{
    found.clear();
    for place in 0..grid.exprs.len() {
        let column = Column {
            grid: *grid,
            rows,
            place,
        };
        narrow_column(store, &column, found)?;
        narrow_inside(store, &column, gaps, found)?;
    }
    Ok(())
}

/// Whether a row is left.
fn is_left(store: &Store, grid: &Grid, row: usize) -> bool
    requires fits { All (λ e. e < length store.now.first) grid.now.exprs.now }
    requires some { 0 < length grid.now.exprs.now }
    ensures { result ≡ true → IsLive store.now grid.now.exprs.now grid.now.values.now row }
{
    let width = grid.exprs.len();
    if row < grid.values.len() / width {
        is_open(store, grid.exprs, row_at(grid.values, width, row))
    } else {
        false
    }
}

/// Whether a row is left: one that was tested before is.
fn is_row_left(
    store: &Store,
    grid: &Grid,
    row: usize,
    tested: &mut Vec<usize>,
) -> Result<bool, AllocError>
    requires fits { All (λ e. e < length store.now.first) grid.now.exprs.now }
    requires some { 0 < length grid.now.exprs.now }
    requires tested { All (IsLive store.now grid.now.exprs.now grid.now.values.now) tested.old.items }
    ensures tested { OnOk result (All (IsLive store.now grid.now.exprs.now grid.now.values.now) tested.new.items) }
    ensures live { result ≡ Ok true → IsLive store.now grid.now.exprs.now grid.now.values.now row }
{
    if tested.contains(&row) {
        return Ok(true);
    }
    if !is_left(store, grid, row) {
        return Ok(false);
    }
    tested.push(row)?;
    Ok(true)
}

/// Whether a row has a value at a column.
fn has_value(grid: &Grid, row: usize, place: usize, value: i64) -> bool
    requires row { (row + 1) * length grid.now.exprs.now ≤ length grid.now.values.now }
    requires place { place < length grid.now.exprs.now }
    ensures { result ≡ true → cell grid.now.exprs.now grid.now.values.now row place ≡ value }
{
    row_at(grid.values, grid.exprs.len(), row)[place] == value
}

/// Whether two rows are left and have the least and the greatest value of a column's subject.
fn has_end_rows(
    store: &Store,
    grid: &Grid,
    place: usize,
    rows: EndRows,
    tested: &mut Vec<usize>,
) -> Result<bool, AllocError>
    requires fits { All (λ e. e < length store.now.first) grid.now.exprs.now }
    requires place { place < length grid.now.exprs.now }
    requires tested { All (IsLive store.now grid.now.exprs.now grid.now.values.now) tested.old.items }
    ensures tested { OnOk result (All (IsLive store.now grid.now.exprs.now grid.now.values.now) tested.new.items) }
    ensures ends { result ≡ Ok true → AreEndsLive store.now grid.now.exprs.now grid.now.values.now place }
{
    if !is_row_left(store, grid, rows.low, tested)? {
        return Ok(false);
    }
    if !is_row_left(store, grid, rows.high, tested)? {
        return Ok(false);
    }
    let domain = store.domain(grid.exprs[place]);
    Ok(
        has_value(grid, rows.low, place, domain.min())
            && has_value(grid, rows.high, place, domain.max()),
    )
}

/// Whether rows that are left have the least and the greatest value of each column's subject.
fn have_end_rows(
    store: &Store,
    grid: &Grid,
    ends: &[EndRows],
    tested: &mut Vec<usize>,
) -> Result<bool, AllocError>
    requires fits { All (λ e. e < length store.now.first) grid.now.exprs.now }
    ensures { result ≡ Ok true
        → HasEndRows store.now grid.now.exprs.now grid.now.values.now (length grid.now.exprs.now) }
{
    tested.clear();
    for place in 0..grid.exprs.len() {
        if place >= ends.len() {
            return Ok(false);
        }
        if !has_end_rows(store, grid, place, ends[place], tested)? {
            return Ok(false);
        }
    }
    Ok(true)
}

/// What the rows that are left give, or that there is none.
fn look_at_rows(
    store: &Store,
    tuples: &TupleSet,
    room: &mut Room,
    found: &mut Vec<Narrowing>,
) -> Result<Look, AllocError>
    requires fits { All (λ e. e < length store.now.first) tuples.now.exprs }
    requires some { 0 < length tuples.now.exprs }
    ensures given { OnOk result (All
        (λ n. IsGiven (Table tuples.now.exprs tuples.now.values false) store.now n.target) found.new.items) }
    ensures seen { IfOk result (IsSeen (Table tuples.now.exprs tuples.now.values false) store.now) }
    ensures rest { result ≡ Ok Look.Possible → AreTrue store.now found.new.items
        → IsAtRest (Table tuples.now.exprs tuples.now.values false) store.now }
{
    collect(store, tuples, &mut room.rows)?;
    let live = room.rows.as_slice();
    if live.is_empty() {
        found.clear();
        return Ok(Look::Impossible(NO_HINT));
    }
    narrow_columns(store, &tuples.grid(), live, &mut room.gaps, found)?;
    Ok(Look::Possible)
}

/// What a table gives, or that it cannot hold.
pub(crate) fn look_among(
    store: &Store,
    tuples: &TupleSet,
    numbering: &Numbering,
    room: &mut Room,
    found: &mut Vec<Narrowing>,
) -> Result<Look, AllocError>
    requires fits { All (λ e. e < length store.now.first) tuples.now.exprs }
    requires some { 0 < length tuples.now.exprs }
    ensures given { OnOk result (All
        (λ n. IsGiven (Table tuples.now.exprs tuples.now.values false) store.now n.target) found.new.items) }
    ensures seen { IfOk result (IsSeen (Table tuples.now.exprs tuples.now.values false) store.now) }
    ensures rest { result ≡ Ok Look.Possible → AreTrue store.now found.new.items
        → IsAtRest (Table tuples.now.exprs tuples.now.values false) store.now }
{
    if room.supports.find(store, tuples, numbering)? {
        let ends = room.supports.ends();
        if have_end_rows(store, &tuples.grid(), ends, &mut room.rows)? {
            found.clear();
            return Ok(Look::Possible);
        }
    }
    look_at_rows(store, tuples, room, found)
}
