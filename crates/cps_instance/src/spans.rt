//! Interval indices as spans.
ghost use Rattle.std.specs.Prelude.{◌≡◌, IsTrue, true, All, map, length, IfOk};
ghost use Rattle.std.specs.List.{list_all};
ghost use Rattle.std.specs.Ordering.{int_eq};
ghost use Rattle.cps_model.specs.KindRules.{is_interval, names_interval};
ghost use Rattle.cps_model.specs.Values.{variable_of};
ghost use Rattle.cps_instance.specs.Lengths.{signed_coefficient, length_between};
ghost use Rattle.cps_instance.specs.Merging.{merged_coefficient, HasCoefficientsOf};
ghost use Rattle.cps_instance.specs.Posting.{expressions_of, span_of, span_at, HasSmallOffset, CanAllBePosted};

use crate::literals::atoms_of;
use crate::task::Span;
use cps_model::{Constraint, Kind, LinearExpr, Listed};
use std::alloc::{AllocError, Global};
use std::collections::HashMap;

/// The variable of a reference.
fn variable_of(reference: i32) -> u32
    ensures { result ≡ variable_of reference }
{
    if reference >= 0 {
        reference as u32
    } else {
        (-1 - reference) as u32
    }
}

/// The coefficient of a reference's variable, where that of the reference is `coeff`.
fn signed_coefficient(reference: i32, coeff: i64) -> i128
    ensures { result ≡ signed_coefficient reference coeff }
{
    let coeff = i128::from(coeff);
    if reference >= 0 { coeff } else { -coeff }
}

/// The coefficients of the variables in an expression, like terms merged.
fn merged(alloc: Global, expr: &LinearExpr) -> Result<HashMap<u32, i128>, AllocError>
    ensures { IfOk result (λ merged. HasCoefficientsOf merged expr.now) }
{
    let references = expr.vars.as_slice();
    let coeffs = expr.coeffs.as_slice();
    let mut merged = HashMap::new(alloc);
    for k in 0..references.len().min(coeffs.len()) {
        let variable = variable_of(references[k]);
        let before = merged.get(&variable).copied().unwrap_or(0);
        let own = signed_coefficient(references[k], coeffs[k]);
        merged.insert(variable, before + own)?;
    }
    Ok(merged)
}

/// Whether the variables of references have the same coefficients in both.
fn have_same_coefficients(
    references: &[i32],
    start: &HashMap<u32, i128>,
    end: &HashMap<u32, i128>,
) -> bool
    ensures { result ≡ list_all (λ r. int_eq (merged_coefficient start.now (variable_of r))
        (merged_coefficient end.now (variable_of r))) references.now }
{
    for reference in references {
        let variable = variable_of(*reference);
        let of_start = start.get(&variable).copied().unwrap_or(0);
        let of_end = end.get(&variable).copied().unwrap_or(0);
        if of_start != of_end {
            return false;
        }
    }
    true
}

/// How far the end is from the start, where both have the same terms, like ones merged.
fn length_between(
    alloc: Global,
    start: &LinearExpr,
    end: &LinearExpr,
) -> Result<Option<i64>, AllocError>
    requires start { HasSmallOffset start.now }
    requires end { HasSmallOffset end.now }
    ensures { IfOk result (λ length. length ≡ length_between start.now end.now) }
{
    let of_start = merged(alloc, start)?;
    let of_end = merged(alloc, end)?;
    if !have_same_coefficients(start.vars.as_slice(), &of_start, &of_end) {
        return Ok(None);
    }
    if !have_same_coefficients(end.vars.as_slice(), &of_start, &of_end) {
        return Ok(None);
    }
    Ok(Some(end.offset - start.offset))
}

/// An interval constraint as a span. Its expressions have these subjects.
fn span_of(alloc: Global, subjects: &[u32], constraint: &Constraint) -> Result<Span, AllocError>
    requires interval { is_interval constraint.now.kind ≡ true }
    requires each { length subjects.now ≡ 3 }
    requires offsets { All HasSmallOffset (expressions_of constraint.now.kind) }
    ensures { IfOk result (λ span. span ≡ span_of subjects.now constraint.now.enforcement constraint.now.kind) }
{
    // The rules let an interval index name nothing else.
    let Kind::Interval { start, end, .. } = &constraint.kind else {
        unreachable!()
    };
    Ok(Span {
        start: subjects[0],
        end: subjects[1],
        size: subjects[2],
        presence: atoms_of(alloc, constraint.enforcement.as_slice())?,
        length: length_between(alloc, start, end)?,
    })
}

/// The span of an interval index, where the expressions of each constraint have these subjects.
fn span_at(
    alloc: Global,
    constraints: &[Constraint],
    lists: &[Listed<u32>],
    index: i32,
) -> Result<Span, AllocError>
    requires named { IsTrue (names_interval constraints.now index) }
    requires posted { CanAllBePosted constraints.now lists.now }
    ensures { IfOk result (λ span. span ≡ span_at constraints.now lists.now index) }
{
    let place = index as usize;
    span_of(alloc, lists[place].as_slice(), &constraints[place])
}

/// The spans of interval indices, in order.
pub fn spans_at(
    alloc: Global,
    constraints: &[Constraint],
    lists: &[Listed<u32>],
    indices: &[i32],
) -> Result<Listed<Span>, AllocError>
    requires named { IsTrue (list_all (names_interval constraints.now) indices.now) }
    requires posted { CanAllBePosted constraints.now lists.now }
    ensures { IfOk result (λ spans. spans ≡ map (span_at constraints.now lists.now) indices.now) }
{
    let mut spans = Vec::with_capacity(alloc, indices.len())?;
    for index in indices {
        spans.push(span_at(alloc, constraints, lists, *index)?)?;
    }
    Ok(Listed::from_vec(spans))
}
