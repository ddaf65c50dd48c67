//! Kinds over intervals: an interval by itself, and whether intervals or boxes overlap.
//!
//! Intervals are sorted by start and end; if none ends before it starts, each has to be compared with the next alone.
//! An assignment that breaks an interval's own constraint may give one that ends before it starts; then all pairs are
//! compared, by the same two comparisons. Boxes are always compared pair by pair.
ghost use Rattle.std.specs.Prelude.{◌≡◌, ◌<◌, ◌≤◌, ◌+◌, ◌*◌, ◌^◌, ◌↔◌, ◌+ℤ◌, ◌≤ℤ◌, IsTrue, IfOk, option_copied, length, unsigned_abs, filter_map, Option, IsPermutation};
ghost use Rattle.std.specs.List.{list_all};
ghost use Rattle.cps_model.specs.Scheduling.{IsInterval, constraint_at, run_of, present_run, run_at, runs, are_apart, IsNoOverlap, area_of, areas, are_disjoint, IsNoOverlap2d};
ghost use Rattle.cps_model.specs.Pairs.{each_two};
ghost use Rattle.cps_model.specs.Ready.{are_small, is_ready, is_ready_constraint};
ghost use Rattle.cps_model.specs.Rules.{sums_of};
ghost use Rattle.cps_eval.specs.Turns.{is_forward, AreInTurn};

use crate::values::{expression_value, literals_hold};
use cps_model::{Area, Constraint, Kind, Run};
use std::alloc::{AllocError, Global};

/// Whether a size that is not negative takes a start to an end.
pub fn is_interval(start: i64, end: i64, size: i64) -> bool
    requires start { unsigned_abs start < 2 ^ 62 }
    requires size { unsigned_abs size < 2 ^ 62 }
    ensures { IsTrue result ↔ IsInterval start end size }
{
    size >= 0 && start + size == end
}

/// From where to where an interval runs.
fn run_of(kind: &Kind, values: &[i64]) -> Option<Run>
    requires ready { IsTrue (list_all (is_ready values.now) (sums_of kind.now)) }
    requires small { IsTrue (are_small values.now) }
    ensures { result ≡ run_of values.now kind.now }
{
    match kind {
        Kind::Interval { start, end, .. } => Some(Run {
            start: expression_value(start, values),
            end: expression_value(end, values),
        }),
        _ => None,
    }
}

/// The constraint that an index names.
fn constraint_at(constraints: &[Constraint], index: i32) -> Option<&Constraint>
    ensures { option_copied result ≡ constraint_at constraints.now index }
{
    if index < 0 {
        return None;
    }
    constraints.get(index as usize)
}

/// From where to where the interval of an index runs, where it is present.
pub fn run_at(constraints: &[Constraint], index: i32, values: &[i64]) -> Option<Run>
    requires ready { IsTrue (list_all (is_ready_constraint values.now) constraints.now) }
    requires small { IsTrue (are_small values.now) }
    ensures { result ≡ run_at constraints.now values.now index }
{
    let Some(constraint) = constraint_at(constraints, index) else {
        return None;
    };
    if !literals_hold(constraint.enforcement.as_slice(), values) {
        return None;
    }
    run_of(&constraint.kind, values)
}

/// The intervals that are present.
fn runs(
    alloc: Global,
    constraints: &[Constraint],
    intervals: &[i32],
    values: &[i64],
) -> Result<Vec<Run>, AllocError>
    requires ready { IsTrue (list_all (is_ready_constraint values.now) constraints.now) }
    requires small { IsTrue (are_small values.now) }
    ensures { IfOk result (λ present. present.items ≡ runs constraints.now values.now intervals.now) }
{
    let mut present = Vec::new(alloc);
    for index in intervals {
        let Some(run) = run_at(constraints, *index, values) else {
            continue;
        };
        present.push(run)?;
    }
    Ok(present)
}

/// Whether one ends before the other starts, or as it starts.
fn are_apart(one: &Run, other: &Run) -> bool
    ensures { result ≡ are_apart one.now other.now }
{
    one.end <= other.start || other.end <= one.start
}

/// Whether a run is apart from each of others.
fn is_apart_from(run: &Run, others: &[Run]) -> bool
    ensures { result ≡ list_all (are_apart run.now) others.now }
{
    for other in others {
        if !are_apart(run, other) {
            return false;
        }
    }
    true
}

/// Whether each two are apart, one against the other.
fn are_apart_in_pairs(runs: &[Run]) -> bool
    ensures { result ≡ each_two are_apart runs.now }
{
    let mut rest = runs;
    while let [run, others @ ..] = rest {
        if !is_apart_from(run, others) {
            return false;
        }
        rest = others;
    }
    true
}

/// Whether a run does not end before it starts.
fn is_forward(run: &Run) -> bool
    ensures { result ≡ is_forward run.now }
{
    run.start <= run.end
}

/// Whether no run ends before it starts.
fn are_forward(runs: &[Run]) -> bool
    ensures { result ≡ list_all is_forward runs.now }
{
    for run in runs {
        if !is_forward(run) {
            return false;
        }
    }
    true
}

/// Sorts runs by start and end.
fn sort_runs(runs: &mut Vec<Run>)
    ensures order { AreInTurn runs.new.items }
    ensures moved { IsPermutation runs.old.items runs.new.items }
{
    runs.sort_unstable_by_key(|run| (run.start, run.end));
}

/// Whether each run, of sorted ones that do not end before they start, ends by the start of the next.
fn follow_one_another(runs: &[Run]) -> bool
    requires order { AreInTurn runs.now }
    requires forward { IsTrue (list_all is_forward runs.now) }
    ensures { IsTrue result ↔ IsNoOverlap runs.now }
{
    for k in 1..runs.len() {
        if runs[k - 1].end > runs[k].start {
            return false;
        }
    }
    true
}

/// Whether each two are apart. Where none ends before it starts, a sort shows it.
fn are_all_apart(mut runs: Vec<Run>) -> bool
    ensures { IsTrue result ↔ IsNoOverlap runs.items }
{
    if !are_forward(runs.as_slice()) {
        return are_apart_in_pairs(runs.as_slice());
    }
    sort_runs(&mut runs);
    follow_one_another(runs.as_slice())
}

/// Whether no two present intervals overlap.
pub fn have_no_overlap(
    alloc: Global,
    constraints: &[Constraint],
    intervals: &[i32],
    values: &[i64],
) -> Result<bool, AllocError>
    requires ready { IsTrue (list_all (is_ready_constraint values.now) constraints.now) }
    requires small { IsTrue (are_small values.now) }
    ensures { IfOk result (λ answer. IsTrue answer ↔ IsNoOverlap (runs constraints.now values.now intervals.now)) }
{
    let present = runs(alloc, constraints, intervals, values)?;
    Ok(are_all_apart(present))
}

/// The box of two intervals, where both are present.
fn area_of(x: Option<Run>, y: Option<Run>) -> Option<Area>
    ensures { result ≡ area_of x y }
{
    match (x, y) {
        (Some(x), Some(y)) => Some(Area { x, y }),
        _ => None,
    }
}

/// The box of the intervals of two indices, where both are present.
fn area_at(constraints: &[Constraint], x: i32, y: i32, values: &[i64]) -> Option<Area>
    requires ready { IsTrue (list_all (is_ready_constraint values.now) constraints.now) }
    requires small { IsTrue (are_small values.now) }
    ensures { result ≡ area_of (run_at constraints.now values.now x) (run_at constraints.now values.now y) }
{
    area_of(
        run_at(constraints, x, values),
        run_at(constraints, y, values),
    )
}

/// The boxes that are present.
fn areas(
    alloc: Global,
    constraints: &[Constraint],
    xs: &[i32],
    ys: &[i32],
    values: &[i64],
) -> Result<Vec<Area>, AllocError>
    requires paired { length xs.now ≡ length ys.now }
    requires ready { IsTrue (list_all (is_ready_constraint values.now) constraints.now) }
    requires small { IsTrue (are_small values.now) }
    ensures { IfOk result (λ present. present.items ≡ areas constraints.now values.now xs.now ys.now) }
{
    let mut present = Vec::new(alloc);
    for (k, x) in xs.iter().enumerate() {
        let Some(area) = area_at(constraints, *x, ys[k], values) else {
            continue;
        };
        present.push(area)?;
    }
    Ok(present)
}

/// Whether two boxes are apart in one direction.
fn are_disjoint(one: &Area, other: &Area) -> bool
    ensures { result ≡ are_disjoint one.now other.now }
{
    are_apart(&one.x, &other.x) || are_apart(&one.y, &other.y)
}

/// Whether a box is disjoint from each of others.
fn is_disjoint_from(area: &Area, others: &[Area]) -> bool
    ensures { result ≡ list_all (are_disjoint area.now) others.now }
{
    for other in others {
        if !are_disjoint(area, other) {
            return false;
        }
    }
    true
}

/// Whether each two boxes are disjoint.
fn are_all_disjoint(areas: &[Area]) -> bool
    ensures { result ≡ each_two are_disjoint areas.now }
{
    let mut rest = areas;
    while let [area, others @ ..] = rest {
        if !is_disjoint_from(area, others) {
            return false;
        }
        rest = others;
    }
    true
}

/// Whether no two present boxes overlap.
pub fn have_no_overlap_2d(
    alloc: Global,
    constraints: &[Constraint],
    xs: &[i32],
    ys: &[i32],
    values: &[i64],
) -> Result<bool, AllocError>
    requires paired { length xs.now ≡ length ys.now }
    requires ready { IsTrue (list_all (is_ready_constraint values.now) constraints.now) }
    requires small { IsTrue (are_small values.now) }
    ensures { IfOk result (λ answer. IsTrue answer ↔ IsNoOverlap2d (areas constraints.now values.now xs.now ys.now)) }
{
    let present = areas(alloc, constraints, xs, ys, values)?;
    Ok(are_all_disjoint(present.as_slice()))
}
