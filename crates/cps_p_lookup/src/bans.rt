//! The rows of a negated table, which the values are not.

ghost use Rattle.std.specs.Prelude.{ℕ, pos, ◌≡◌, ◌<◌, ◌≤◌, ◌+◌, ◌*◌, length, All, IfOk, OnOk, true, false, slice_index_or, Ok};
ghost use Rattle.cps_model.specs.Lookups.{row_at};
ghost use Rattle.cps_instance.specs.declared.task.Body.TheVariants.{Table};
ghost use Rattle.cps_propagate.specs.Lookups.{IsRowMissed};
ghost use Rattle.cps_rule.specs.Rules.{IsGiven, IsSeen, IsAtRest};
ghost use Rattle.cps_p_lookup.specs.Resting.{AreTrue, LeavesAtRest};
ghost use Rattle.cps_p_lookup.specs.Tabling.{IsSingle, HasOtherValue, IsBanned, IsMissed};

use crate::facts::atom;
use crate::rows::{Grid, row_at};
use cps_literal::{Op, Truth};
use cps_rule::{Hint, Look, Narrowing};
use cps_trail::Store;
use std::alloc::AllocError;

/// Whether a subject has a value and no other.
fn is_single(store: &Store, subject: u32, value: i64) -> bool
    requires { subject < length store.now.first }
    ensures yes { result ≡ true → IsSingle store.now subject value }
    ensures no { result ≡ false → HasOtherValue store.now subject value }
{
    let domain = store.domain(subject);
    let low = domain.min();
    let high = domain.max();
    low == value && high == value
}

/// The first column from one on whose subject is not fixed to its value of a row; the row's length where there is none.
fn first_open(store: &Store, exprs: &[u32], row: &[i64], from: usize) -> usize
    requires fits { All (λ e. e < length store.now.first) exprs.now }
    requires long { length row.now ≡ length exprs.now }
    requires from { from ≤ length exprs.now }
    ensures after { from ≤ result }
    ensures within { result ≤ length exprs.now }
    ensures passed { (k : ℕ) → from ≤ k → k < result
        → IsSingle store.now (slice_index_or exprs.now k 0) (slice_index_or row.now k (pos 0)) }
    ensures open { result < length exprs.now
        → HasOtherValue store.now (slice_index_or exprs.now result 0) (slice_index_or row.now result (pos 0)) }
{
    for k in from..exprs.len() {
        if !is_single(store, exprs[k], row[k]) {
            return k;
        }
    }
    exprs.len()
}

/// Takes a row's value away where it is the last one that a column keeps it out by. Answers whether the values are
/// surely the row.
fn visit(
    store: &Store,
    grid: &Grid,
    row: usize,
    found: &mut Vec<Narrowing>,
) -> Result<bool, AllocError>
    requires fits { All (λ e. e < length store.now.first) grid.now.exprs.now }
    requires some { 0 < length grid.now.exprs.now }
    requires row { (row + 1) * length grid.now.exprs.now ≤ length grid.now.values.now }
    requires given { All (λ n. IsGiven
        (Table grid.now.exprs.now grid.now.values.now true) store.now n.target) found.old.items }
    ensures given { OnOk result (All
        (λ n. IsGiven (Table grid.now.exprs.now grid.now.values.now true) store.now n.target) found.new.items) }
    ensures banned { result ≡ Ok true
        → IsBanned store.now grid.now.exprs.now (row_at (length grid.now.exprs.now) grid.now.values.now row) }
    ensures missed { result ≡ Ok false
        → IsMissed store.now grid.now.exprs.now (row_at (length grid.now.exprs.now) grid.now.values.now row) }
    ensures rests { result ≡ Ok false → LeavesAtRest store.now
        (IsRowMissed store.now grid.now.exprs.now grid.now.values.now row) found.old.items found.new.items }
{
    let width = grid.exprs.len();
    let values = row_at(grid.values, width, row);
    let column = first_open(store, grid.exprs, values, 0);
    if column == width {
        return Ok(true);
    }
    let target = atom(grid.exprs[column], Op::Ne, values[column]);
    match store.truth(target) {
        Truth::Yes => return Ok(false),
        _ => {}
    }
    if first_open(store, grid.exprs, values, column + 1) == width {
        let hint = Hint {
            a: row as i64,
            b: column as i64,
        };
        found.push(Narrowing { target, hint })?;
    }
    Ok(false)
}

/// What a negated table gives, or that it cannot hold.
pub(crate) fn look_outside(
    store: &Store,
    grid: &Grid,
    found: &mut Vec<Narrowing>,
) -> Result<Look, AllocError>
    requires fits { All (λ e. e < length store.now.first) grid.now.exprs.now }
    requires some { 0 < length grid.now.exprs.now }
    ensures given { OnOk result (All
        (λ n. IsGiven (Table grid.now.exprs.now grid.now.values.now true) store.now n.target) found.new.items) }
    ensures seen { IfOk result (IsSeen (Table grid.now.exprs.now grid.now.values.now true) store.now) }
    ensures rest { result ≡ Ok Look.Possible → AreTrue store.now found.new.items
        → IsAtRest (Table grid.now.exprs.now grid.now.values.now true) store.now }
{
    found.clear();
    for row in 0..grid.values.len() / grid.exprs.len() {
        if visit(store, grid, row, found)? {
            return Ok(Look::Impossible(Hint {
                a: row as i64,
                b: 0,
            }));
        }
    }
    Ok(Look::Possible)
}
