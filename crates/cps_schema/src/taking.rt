//! What gathered fields give, taken one field after another.
//!
//! The slots come in the order of the lines, and each function takes the next one as the type that its field has, with
//! the value that a field which is not given has. So a message of many fields is built by a few calls in the order of
//! its lines.
ghost use Rattle.std.specs.Prelude.{◌≡◌, [], ◌∷◌, ◌++◌, map, pos, false, IfSome, IfNone, IfOk};
ghost use Rattle.cps_schema.specs.Readings.{first_or, no_expression};
ghost use Rattle.cps_model.specs.Values.{reference_expression};
ghost use Rattle.cps_schema.specs.Gathered.{held, left, behind_first, next};

use super::gather::Slot;
use cps_model::{Exprs, LinearExpr, Listed};
use std::alloc::Global;
use std::vec::IntoIter;

/// What the next field gives. `None` after the last.
fn next_slot(slots: &mut IntoIter<Slot>) -> Option<Slot>
    ensures none { IfNone result (left slots.old ≡ []) }
    ensures last { IfNone result (left slots.new ≡ []) }
    ensures some { IfSome result (λ slot. left slots.old ≡ held slot ∷ left slots.new) }
{
    slots.next()
}

/// The references of the next field.
pub(crate) fn next_references(alloc: Global, slots: &mut IntoIter<Slot>) -> Listed<i32>
    ensures value { result ≡ (next (left slots.old)).references }
    ensures rest { left slots.new ≡ behind_first (left slots.old) }
{
    match next_slot(slots) {
        Some(slot) => {
            let Slot { references, .. } = slot;
            Listed::from_vec(references)
        }
        None => Listed::new(alloc),
    }
}

/// The numbers of the next field.
pub(crate) fn next_numbers(alloc: Global, slots: &mut IntoIter<Slot>) -> Listed<i64>
    ensures value { result ≡ (next (left slots.old)).numbers }
    ensures rest { left slots.new ≡ behind_first (left slots.old) }
{
    match next_slot(slots) {
        Some(slot) => {
            let Slot { numbers, .. } = slot;
            Listed::from_vec(numbers)
        }
        None => Listed::new(alloc),
    }
}

/// The expressions of the next field.
pub(crate) fn next_expressions(alloc: Global, slots: &mut IntoIter<Slot>) -> Listed<LinearExpr>
    ensures value { result ≡ (next (left slots.old)).expressions }
    ensures rest { left slots.new ≡ behind_first (left slots.old) }
{
    match next_slot(slots) {
        Some(slot) => {
            let Slot { expressions, .. } = slot;
            Listed::from_vec(expressions)
        }
        None => Listed::new(alloc),
    }
}

/// The number of the next field, 0 if it is not given.
pub(crate) fn next_number(slots: &mut IntoIter<Slot>) -> i64
    ensures value { result ≡ first_or (pos 0) (next (left slots.old)).numbers }
    ensures rest { left slots.new ≡ behind_first (left slots.old) }
{
    match next_slot(slots) {
        Some(slot) => match slot.numbers.first() {
            Some(number) => *number,
            None => 0,
        },
        None => 0,
    }
}

/// The truth value of the next field, false if it is not given.
pub(crate) fn next_truth(slots: &mut IntoIter<Slot>) -> bool
    ensures value { result ≡ first_or false (next (left slots.old)).truths }
    ensures rest { left slots.new ≡ behind_first (left slots.old) }
{
    match next_slot(slots) {
        Some(slot) => match slot.truths.first() {
            Some(value) => *value,
            None => false,
        },
        None => false,
    }
}

/// The first expression of a list, or one that is 0 if the list is empty.
fn first_expression(alloc: Global, expressions: Vec<LinearExpr>) -> LinearExpr
    ensures { result ≡ first_or no_expression expressions.items }
{
    match expressions.into_iter().next() {
        Some(expression) => expression,
        None => LinearExpr {
            vars: Listed::new(alloc),
            coeffs: Listed::new(alloc),
            offset: 0,
        },
    }
}

/// The expression of the next field, 0 if it is not given.
pub(crate) fn next_expression(alloc: Global, slots: &mut IntoIter<Slot>) -> LinearExpr
    ensures value { result ≡ first_or no_expression (next (left slots.old)).expressions }
    ensures rest { left slots.new ≡ behind_first (left slots.old) }
{
    match next_slot(slots) {
        Some(slot) => {
            let Slot { expressions, .. } = slot;
            first_expression(alloc, expressions)
        }
        None => first_expression(alloc, Vec::new(alloc)),
    }
}

/// Whether the next field is given, and its references.
pub(crate) fn next_given(alloc: Global, slots: &mut IntoIter<Slot>) -> (bool, Listed<i32>)
    ensures given { result.0 ≡ (next (left slots.old)).given }
    ensures references { result.1 ≡ (next (left slots.old)).references }
    ensures rest { left slots.new ≡ behind_first (left slots.old) }
{
    match next_slot(slots) {
        Some(slot) => {
            let Slot {
                given,
                references,
                ..
            } = slot;
            (given, Listed::from_vec(references))
        }
        None => (false, Listed::new(alloc)),
    }
}

/// The expressions of the next field, of the newer form, and the references of the one behind it, of the older form.
pub(crate) fn next_expressions_of_a_form(alloc: Global, slots: &mut IntoIter<Slot>) -> Exprs
    ensures value { result ≡ (next (left slots.old)).expressions ++ map reference_expression
        (next (behind_first (left slots.old))).references }
    ensures rest { left slots.new ≡ behind_first (behind_first (left slots.old)) }
{
    let written = next_expressions(alloc, slots);
    let references = next_references(alloc, slots);
    Exprs::of(written.into_vec(), references.into_vec())
}
