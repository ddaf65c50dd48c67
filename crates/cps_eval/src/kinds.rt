//! Whether what each kind demands holds.
//!
//! One match over all kinds, long because each has an arm of its own: it takes the kind's lists apart, computes the
//! values of its expressions, and asks the function that judges plain numbers (a file for each group of kinds). Where
//! the values need a list, a function before the match makes it and lets go of it. Domains were tested before, so no
//! sum leaves its type.
ghost use Rattle.std.specs.Prelude.{◌≡◌, ◌↔◌, IfOk, IsTrue, length};
ghost use Rattle.std.specs.List.{list_all, list_any};
ghost use Rattle.cps_model.specs.Values.{literal_holds, expression_value};
ghost use Rattle.cps_model.specs.Booleans.{true_count};
ghost use Rattle.cps_model.specs.Arithmetic.{IsQuotient, IsRemainder, IsProduct, IsGreatest};
ghost use Rattle.cps_model.specs.Lookups.{IsInTable, IsAllDifferent};
ghost use Rattle.cps_model.specs.Scheduling.{IsCumulative};
ghost use Rattle.cps_model.specs.Sequences.{Accepts, AreInverse};
ghost use Rattle.cps_model.specs.Meaning.{Holds, IsSatisfied, values_of, reference_values};
ghost use Rattle.cps_model.specs.Rules.{sums_of, literals_of, references_of, has_matching_lists};
ghost use Rattle.cps_model.specs.Ready.{are_named, are_small, is_ready, is_ready_constraint};
ghost use Rattle.cps_eval.specs.Levels.{have_small_demands};

use crate::arithmetic::{is_greatest, is_product, is_quotient, is_remainder};
use crate::automata::{accepts, transitions};
use crate::circuits::have_circuit;
use crate::cumulative::{is_cumulative, uses};
use crate::intervals::{have_no_overlap, have_no_overlap_2d, is_interval};
use crate::lookups::{is_element, is_in_table};
use crate::reservoirs::{events, is_reservoir};
use crate::sequences::are_inverse;
use crate::values::{
    all_values, expression_value, literal_holds, literals_hold, reference_values, sum_of, values_of,
};
use cps_model::{Constraint, Exprs, Kind, LinearExpr, Transition, Use, are_different, is_within};
use std::alloc::{AllocError, Global};

/// Whether some literal is true.
fn some_literal_holds(literals: &[i32], values: &[i64]) -> bool
    requires { IsTrue (are_named values.now literals.now) }
    ensures { result ≡ list_any (literal_holds values.now) literals.now }
{
    for literal in literals {
        if literal_holds(*literal, values) {
            return true;
        }
    }
    false
}

/// How many positions have a true literal.
fn true_count(literals: &[i32], values: &[i64]) -> usize
    requires { IsTrue (are_named values.now literals.now) }
    ensures { result ≡ true_count values.now literals.now }
{
    let mut count = 0;
    for literal in literals {
        if literal_holds(*literal, values) {
            count += 1;
        }
    }
    count
}

/// Whether an expression is the first of two others divided by the second.
fn have_quotient(
    alloc: Global,
    target: &LinearExpr,
    exprs: &[LinearExpr],
    values: &[i64],
) -> Result<bool, AllocError>
    requires target { IsTrue (is_ready values.now target.now) }
    requires exprs { IsTrue (list_all (is_ready values.now) exprs.now) }
    requires small { IsTrue (are_small values.now) }
    ensures { IfOk result (λ answer. IsTrue answer
        ↔ IsQuotient (expression_value values.now target.now) (values_of values.now exprs.now)) }
{
    let numbers = values_of(alloc, exprs, values)?;
    Ok(is_quotient(expression_value(target, values), numbers.as_slice()))
}

/// Whether an expression is what the first of two others has left.
fn have_remainder(
    alloc: Global,
    target: &LinearExpr,
    exprs: &[LinearExpr],
    values: &[i64],
) -> Result<bool, AllocError>
    requires target { IsTrue (is_ready values.now target.now) }
    requires exprs { IsTrue (list_all (is_ready values.now) exprs.now) }
    requires small { IsTrue (are_small values.now) }
    ensures { IfOk result (λ answer. IsTrue answer
        ↔ IsRemainder (expression_value values.now target.now) (values_of values.now exprs.now)) }
{
    let numbers = values_of(alloc, exprs, values)?;
    Ok(is_remainder(expression_value(target, values), numbers.as_slice()))
}

/// Whether an expression is the product of others.
fn have_product(
    alloc: Global,
    target: &LinearExpr,
    exprs: &[LinearExpr],
    values: &[i64],
) -> Result<bool, AllocError>
    requires target { IsTrue (is_ready values.now target.now) }
    requires exprs { IsTrue (list_all (is_ready values.now) exprs.now) }
    requires small { IsTrue (are_small values.now) }
    ensures { IfOk result (λ answer. IsTrue answer
        ↔ IsProduct (expression_value values.now target.now) (values_of values.now exprs.now)) }
{
    let numbers = values_of(alloc, exprs, values)?;
    Ok(is_product(expression_value(target, values), numbers.as_slice()))
}

/// Whether an expression is the greatest of others.
fn have_greatest(
    alloc: Global,
    target: &LinearExpr,
    exprs: &[LinearExpr],
    values: &[i64],
) -> Result<bool, AllocError>
    requires target { IsTrue (is_ready values.now target.now) }
    requires exprs { IsTrue (list_all (is_ready values.now) exprs.now) }
    requires small { IsTrue (are_small values.now) }
    ensures { IfOk result (λ answer. IsTrue answer
        ↔ IsGreatest (expression_value values.now target.now) (values_of values.now exprs.now)) }
{
    let numbers = values_of(alloc, exprs, values)?;
    Ok(is_greatest(expression_value(target, values), numbers.as_slice()))
}

/// Whether expressions are a row of a table, or none where it is negated.
fn have_row(
    alloc: Global,
    exprs: &Exprs,
    rows: &[i64],
    negated: bool,
    values: &[i64],
) -> Result<bool, AllocError>
    requires exprs { IsTrue (list_all (is_ready values.now) exprs.now) }
    requires small { IsTrue (are_small values.now) }
    ensures { IfOk result (λ answer. IsTrue answer ↔ IsInTable negated rows.now (values_of values.now exprs.now)) }
{
    let numbers = all_values(alloc, exprs, values)?;
    Ok(is_in_table(negated, rows, numbers.as_slice()))
}

/// Whether no two expressions are equal.
fn have_all_different(
    alloc: Global,
    exprs: &[LinearExpr],
    values: &[i64],
) -> Result<bool, AllocError>
    requires exprs { IsTrue (list_all (is_ready values.now) exprs.now) }
    requires small { IsTrue (are_small values.now) }
    ensures { IfOk result (λ answer. IsTrue answer ↔ IsAllDifferent (values_of values.now exprs.now)) }
{
    let numbers = values_of(alloc, exprs, values)?;
    Ok(are_different(numbers))
}

/// Whether intervals demand at most a capacity at each time.
fn have_capacity(
    alloc: Global,
    capacity: &LinearExpr,
    present: Vec<Use>,
    values: &[i64],
) -> Result<bool, AllocError>
    requires capacity { IsTrue (is_ready values.now capacity.now) }
    requires present { IsTrue (have_small_demands present.items) }
    requires small { IsTrue (are_small values.now) }
    ensures { IfOk result (λ answer. IsTrue answer
        ↔ IsCumulative (expression_value values.now capacity.now) present.items) }
{
    is_cumulative(
        alloc,
        expression_value(capacity, values),
        present.as_slice(),
    )
}

/// Whether an automaton accepts numbers.
fn have_run(
    alloc: Global,
    steps: Vec<Transition>,
    finals: &[i64],
    start: i64,
    numbers: Vec<i64>,
) -> Result<bool, AllocError>
    ensures { IfOk result (λ answer. IsTrue answer ↔ Accepts steps.items finals.now start numbers.items) }
{
    accepts(alloc, steps, finals, start, numbers.as_slice())
}

/// Whether each list of references leads back from where the other leads.
fn have_inverse(
    alloc: Global,
    direct: &[i32],
    inverse: &[i32],
    values: &[i64],
) -> Result<bool, AllocError>
    requires paired { length direct.now ≡ length inverse.now }
    requires direct { IsTrue (are_named values.now direct.now) }
    requires inverse { IsTrue (are_named values.now inverse.now) }
    requires small { IsTrue (are_small values.now) }
    ensures { IfOk result (λ answer. IsTrue answer
        ↔ AreInverse (reference_values values.now direct.now) (reference_values values.now inverse.now)) }
{
    let there = reference_values(alloc, direct, values)?;
    let back = reference_values(alloc, inverse, values)?;
    Ok(are_inverse(there.as_slice(), back.as_slice()))
}

/// Whether what a kind demands holds, in a model of these constraints.
fn holds(
    alloc: Global,
    constraints: &[Constraint],
    kind: &Kind,
    values: &[i64],
) -> Result<bool, AllocError>
    requires constraints { IsTrue (list_all (is_ready_constraint values.now) constraints.now) }
    requires literals { IsTrue (are_named values.now (literals_of kind.now)) }
    requires sums { IsTrue (list_all (is_ready values.now) (sums_of kind.now)) }
    requires references { IsTrue (are_named values.now (references_of kind.now)) }
    requires lists { IsTrue (has_matching_lists kind.now) }
    requires small { IsTrue (are_small values.now) }
    ensures { IfOk result (λ answer. IsTrue answer ↔ Holds constraints.now values.now kind.now) }
{
    match kind {
        Kind::Empty => Ok(true),
        Kind::BoolOr(literals) => Ok(some_literal_holds(literals.as_slice(), values)),
        Kind::BoolAnd(literals) => Ok(literals_hold(literals.as_slice(), values)),
        Kind::AtMostOne(literals) => Ok(true_count(literals.as_slice(), values) <= 1),
        Kind::ExactlyOne(literals) => Ok(true_count(literals.as_slice(), values) == 1),
        Kind::BoolXor(literals) => Ok(true_count(literals.as_slice(), values) % 2 == 1),
        Kind::Linear {
            vars,
            coeffs,
            domain,
        } => Ok(is_within(
            domain.as_slice(),
            sum_of(vars.as_slice(), coeffs.as_slice(), values),
        )),
        Kind::IntDiv { target, exprs } => have_quotient(alloc, target, exprs.as_slice(), values),
        Kind::IntMod { target, exprs } => have_remainder(alloc, target, exprs.as_slice(), values),
        Kind::IntProd { target, exprs } => have_product(alloc, target, exprs.as_slice(), values),
        Kind::LinMax { target, exprs } => have_greatest(alloc, target, exprs.as_slice(), values),
        Kind::Element {
            index,
            target,
            exprs,
        } => Ok(is_element(
            expression_value(index, values),
            expression_value(target, values),
            exprs,
            values,
        )),
        Kind::Table {
            exprs,
            values: rows,
            negated,
        } => have_row(alloc, exprs, rows.as_slice(), *negated, values),
        Kind::AllDiff(exprs) => have_all_different(alloc, exprs.as_slice(), values),
        Kind::Interval { start, end, size } => Ok(is_interval(
            expression_value(start, values),
            expression_value(end, values),
            expression_value(size, values),
        )),
        Kind::NoOverlap(intervals) => {
            have_no_overlap(alloc, constraints, intervals.as_slice(), values)
        }
        Kind::Circuit {
            tails,
            heads,
            literals,
        } => have_circuit(
            alloc,
            tails.as_slice(),
            heads.as_slice(),
            literals.as_slice(),
            values,
        ),
        Kind::Cumulative {
            capacity,
            intervals,
            demands,
        } => {
            let present = uses(
                alloc,
                constraints,
                intervals.as_slice(),
                demands.as_slice(),
                values,
            )?;
            have_capacity(alloc, capacity, present, values)
        }
        Kind::Automaton {
            start,
            finals,
            tails,
            heads,
            labels,
            exprs,
        } => {
            let steps = transitions(alloc, tails.as_slice(), heads.as_slice(), labels.as_slice())?;
            let numbers = all_values(alloc, exprs, values)?;
            have_run(alloc, steps, finals.as_slice(), *start, numbers)
        }
        Kind::Reservoir {
            min,
            max,
            times,
            changes,
            active,
        } => {
            let events = events(
                alloc,
                times.as_slice(),
                changes.as_slice(),
                active.as_slice(),
                values,
            )?;
            Ok(is_reservoir(*min, *max, events))
        }
        Kind::Inverse { direct, inverse } => {
            have_inverse(alloc, direct.as_slice(), inverse.as_slice(), values)
        }
        Kind::NoOverlap2d { x, y } => {
            have_no_overlap_2d(alloc, constraints, x.as_slice(), y.as_slice(), values)
        }
    }
}

/// Whether a constraint is satisfied.
pub fn is_satisfied(
    alloc: Global,
    constraints: &[Constraint],
    constraint: &Constraint,
    values: &[i64],
) -> Result<bool, AllocError>
    requires constraints { IsTrue (list_all (is_ready_constraint values.now) constraints.now) }
    requires ready { IsTrue (is_ready_constraint values.now constraint.now) }
    requires small { IsTrue (are_small values.now) }
    ensures { IfOk result (λ answer. IsTrue answer ↔ IsSatisfied constraints.now values.now constraint.now) }
{
    if !literals_hold(constraint.enforcement.as_slice(), values) {
        return Ok(true);
    }
    let answer = holds(alloc, constraints, &constraint.kind, values)?;
    Ok(answer)
}
