//! The facts by which a table gives an atom, or cannot hold.
//!
//! A table needs for each row one fact that rules the row out, unless the atom is true in it. The weakest is taken: a
//! bound if the value lies past an end, and a fact that is there already may rule out further rows. A negated table
//! needs the values of one row in all columns but that of the atom.

ghost use Rattle.std.specs.Prelude.{◌≡◌, ◌<◌, ◌≤◌, ◌+◌, ◌*◌, length, All, true, false, Ok, List, Some, IfSome, OnOk};
ghost use Rattle.cps_literal.specs.declared.atom.Atom.{Atom as AtomOf};
ghost use Rattle.cps_instance.specs.declared.task.Body.TheVariants.{Table};
ghost use Rattle.cps_rule.specs.Facts.{GivesGoal, Grows};
ghost use Rattle.cps_p_lookup.specs.Cells.{IsColumnOf, CoversUnmet};
ghost use Rattle.cps_p_lookup.specs.Tabling.{AreSought, ClosesRow, IsMetAt, IsAgainst, IsRowBarred, IsSure, IsOffBy, AddsNeededFact, AreSure};

use crate::cover::{Barrier, Choice, Cover};
use crate::facts::{atom, is_met, push_fact};
use crate::index::{Cell, TupleSet};
use crate::numbering::Numbering;
use crate::rows::{Grid, row_at};
use cps_literal::{Atom, Op};
use cps_trail::Before;
use std::alloc::AllocError;

/// Whether a column has an atom's subject and meets it.
fn has_met(exprs: &[u32], row: &[i64], atom: Atom) -> bool
    requires { length row.now ≡ length exprs.now }
    ensures { result ≡ true → IsMetAt exprs.now row.now atom }
{
    for (k, subject) in exprs.iter().enumerate() {
        if *subject == atom.subject && is_met(atom, row[k]) {
            return true;
        }
    }
    false
}

/// Whether a column has an atom's subject and does not meet it.
fn is_unmet_at(exprs: &[u32], row: &[i64], column: usize, atom: Atom) -> bool
    requires long { length row.now ≡ length exprs.now }
    requires column { column < length exprs.now }
    ensures { result ≡ true → IsAgainst exprs.now row.now atom }
{
    exprs[column] == atom.subject && !is_met(atom, row[column])
}

/// Whether a row goes against the fact of a barrier.
fn is_barred(exprs: &[u32], row: &[i64], barrier: Option<Barrier>, facts: &[Atom]) -> bool
    requires { length row.now ≡ length exprs.now }
    ensures { result ≡ true → IsRowBarred exprs.now row.now facts.now }
{
    let Some(Barrier { column, fact }) = barrier else {
        return false;
    };
    if fact < facts.len() && column < exprs.len() {
        is_unmet_at(exprs, row, column, facts[fact])
    } else {
        false
    }
}

/// The weakest atom by which a subject that had its values between two ends lacks a value: a bound where the value is
/// past an end.
fn off(subject: u32, value: i64, ends: (i64, i64)) -> Atom
    ensures { IsOffBy subject value result }
{
    if ends.1 < value {
        return atom(subject, Op::Le, value - 1);
    }
    if value < ends.0 {
        return atom(subject, Op::Ge, value + 1);
    }
    atom(subject, Op::Ne, value)
}

/// Adds a fact that rules a row out, unless the row gives an atom.
fn close_row(
    past: &Before,
    exprs: &[u32],
    row: &[i64],
    goal: Option<Atom>,
    facts: &mut Vec<Atom>,
) -> Result<bool, AllocError>
    requires fits { All (λ e. e < length past.now.first) exprs.now }
    requires long { length row.now ≡ length exprs.now }
    ensures { result ≡ Ok true → ClosesRow past.now exprs.now row.now goal facts.old.items facts.new.items }
{
    if let Some(atom) = goal
        && has_met(exprs, row, atom)
    {
        return Ok(true);
    }
    for (k, subject) in exprs.iter().enumerate() {
        let fact = off(*subject, row[k], past.ends(*subject));
        if push_fact(past, fact, facts)? {
            return Ok(true);
        }
    }
    Ok(false)
}

/// The first column that has an atom's subject.
fn column_of(exprs: &[u32], atom: Atom) -> Option<usize>
    ensures { IfSome result (λ column. IsColumnOf exprs.now column atom) }
{
    for (k, subject) in exprs.iter().enumerate() {
        if *subject == atom.subject {
            return Some(k);
        }
    }
    None
}

/// Two values between which all values lie that do not meet an atom.
fn unmet_between(atom: Atom) -> (i64, i64)
    ensures { CoversUnmet atom result }
{
    match atom.op {
        Op::Le => (atom.value, i64::MAX),
        Op::Ge => (i64::MIN, atom.value),
        Op::Eq => (i64::MIN, i64::MAX),
        Op::Ne => (atom.value, atom.value),
    }
}

/// Cells of all rows that do not give an atom; of all rows where none is to be given.
fn seek(tuples: &TupleSet, goal: Option<Atom>) -> &[Cell]
    requires some { 0 < length tuples.now.exprs }
    ensures { AreSought tuples.now.exprs tuples.now.values goal result.now }
{
    let Some(atom) = goal else {
        return tuples.cells_between(0, i64::MIN, i64::MAX);
    };
    let Some(column) = column_of(tuples.grid().exprs, atom) else {
        return tuples.cells_between(0, i64::MIN, i64::MAX);
    };
    let (low, high) = unmet_between(atom);
    tuples.cells_between(column, low, high)
}

/// Adds facts that are chosen, as far as they were true.
fn push_chosen(
    past: &Before,
    exprs: &[u32],
    choices: &[Choice],
    facts: &mut Vec<Atom>,
) -> Result<(), AllocError>
    requires fits { All (λ e. e < length past.now.first) exprs.now }
    ensures { OnOk result (Grows past.now exprs.now facts.old.items facts.new.items) }
{
    for choice in choices {
        if choice.column < exprs.len() {
            let fact = atom(exprs[choice.column], choice.op, choice.value);
            push_fact(past, fact, facts)?;
        }
    }
    Ok(())
}

/// Rows to be ruled out, by a cell of each.
#[derive(Clone, Copy)]
struct Sought<'a> {
    grid: Grid<'a>,
    numbering: &'a Numbering,
    cells: &'a [Cell],
}

/// Makes the facts those that rule some rows out, where the other rows give an atom.
fn close_rows(
    past: &Before,
    rows: &Sought,
    goal: Option<Atom>,
    facts: &mut Vec<Atom>,
) -> Result<bool, AllocError>
    requires fits { All (λ e. e < length past.now.first) rows.now.grid.exprs.now }
    requires some { 0 < length rows.now.grid.exprs.now }
    requires sought { AreSought rows.now.grid.exprs.now rows.now.grid.values.now goal rows.now.cells.now }
    ensures { result ≡ Ok true → GivesGoal
        (Table rows.now.grid.exprs.now rows.now.grid.values.now false) past.now goal facts.new.items }
{
    let grid = rows.grid;
    let exprs = grid.exprs;
    let cover = Cover::of(*facts.allocator(), past, &grid, rows.numbering, rows.cells)?;
    facts.clear();
    push_chosen(past, exprs, cover.choices.as_slice(), facts)?;
    for cell in rows.cells {
        let row = cell.row;
        let values = row_at(grid.values, exprs.len(), row);
        let barrier = cover.barrier(rows.numbering, values, row);
        if is_barred(exprs, values, barrier, facts.as_slice()) {
            continue;
        }
        if !close_row(past, exprs, values, goal, facts)? {
            return Ok(false);
        }
    }
    Ok(true)
}

/// Makes the facts those by which a table gives an atom, or by which it cannot hold where there is none to give.
pub(crate) fn exclude(
    past: &Before,
    tuples: &TupleSet,
    numbering: &Numbering,
    goal: Option<Atom>,
    facts: &mut Vec<Atom>,
) -> Result<bool, AllocError>
    requires fits { All (λ e. e < length past.now.first) tuples.now.exprs }
    requires some { 0 < length tuples.now.exprs }
    ensures { result ≡ Ok true → GivesGoal
        (Table tuples.now.exprs tuples.now.values false) past.now goal facts.new.items }
{
    let rows = Sought {
        grid: tuples.grid(),
        numbering,
        cells: seek(tuples, goal),
    };
    close_rows(past, &rows, goal, facts)
}

/// Whether an atom says that a subject is not a value.
fn is_off(atom: Atom, subject: u32, value: i64) -> bool
    ensures { result ≡ true → (facts : List AtomOf) → IsSure subject value (Some atom) facts }
{
    if atom.subject != subject {
        return false;
    }
    if atom.value != value {
        return false;
    }
    match atom.op {
        Op::Ne => true,
        _ => false,
    }
}

/// Adds the fact that a subject has a value, unless the atom that is to be given is that it has not.
fn hold(
    past: &Before,
    subject: u32,
    value: i64,
    goal: Option<Atom>,
    facts: &mut Vec<Atom>,
) -> Result<bool, AllocError>
    requires { subject < length past.now.first }
    ensures { result ≡ Ok true → AddsNeededFact past.now subject value goal facts.old.items facts.new.items }
{
    if let Some(target) = goal
        && is_off(target, subject, value)
    {
        return Ok(true);
    }
    push_fact(past, atom(subject, Op::Eq, value), facts)
}

/// Adds the facts that all columns but that of an atom have a row's values.
fn fix_row(
    past: &Before,
    exprs: &[u32],
    row: &[i64],
    goal: Option<Atom>,
    facts: &mut Vec<Atom>,
) -> Result<bool, AllocError>
    requires fits { All (λ e. e < length past.now.first) exprs.now }
    requires long { length row.now ≡ length exprs.now }
    ensures { result ≡ Ok true → AreSure past.now exprs.now row.now goal facts.old.items facts.new.items }
{
    for (k, subject) in exprs.iter().enumerate() {
        if !hold(past, *subject, row[k], goal, facts)? {
            return Ok(false);
        }
    }
    Ok(true)
}

/// The row of a number, if there is one.
fn row_within(grid: &Grid, number: i64) -> Option<usize>
    requires { 0 < length grid.now.exprs.now }
    ensures { IfSome result (λ r. (r + 1) * length grid.now.exprs.now ≤ length grid.now.values.now) }
{
    if number < 0 {
        return None;
    }
    let row = number as usize;
    let rows = grid.values.len() / grid.exprs.len();
    if row < rows { Some(row) } else { None }
}

/// Makes the facts those by which a row of a negated table gives an atom, or by which the table cannot hold.
pub(crate) fn fix(
    past: &Before,
    grid: &Grid,
    goal: Option<Atom>,
    number: i64,
    facts: &mut Vec<Atom>,
) -> Result<bool, AllocError>
    requires fits { All (λ e. e < length past.now.first) grid.now.exprs.now }
    requires some { 0 < length grid.now.exprs.now }
    ensures { result ≡ Ok true → GivesGoal
        (Table grid.now.exprs.now grid.now.values.now true) past.now goal facts.new.items }
{
    facts.clear();
    let Some(row) = row_within(grid, number) else {
        return Ok(false);
    };
    let values = row_at(grid.values, grid.exprs.len(), row);
    fix_row(past, grid.exprs, values, goal, facts)
}
