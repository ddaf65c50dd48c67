//! Elements of lists.
ghost use Rattle.std.specs.Prelude.{◌≡◌, ◌||◌, if◌then◌else◌, [], None, map, pos, IfOk, IfErr};
ghost use Rattle.cps_textproto.specs.Trees.{tree_of};
ghost use Rattle.cps_schema.specs.Inputs.{written_of};
ghost use Rattle.cps_schema.specs.Tables.{element_message};
ghost use Rattle.cps_schema.specs.Faults.{fields_fault};
ghost use Rattle.cps_schema.specs.Readings.{first_or, no_expression, read_element};
ghost use Rattle.cps_model.specs.Values.{reference_expression};
ghost use Rattle.cps_schema.specs.Answers.{Refuses};
ghost use Rattle.cps_schema.specs.Gathered.{left, behind_first, next};

use super::error::SchemaError;
use super::expression::reference_expression;
use super::form::Form::{Newer, Older};
use super::gather::Contents::{Expressions, References};
use super::gather::Takes::{ManyOf, OneOf};
use super::gather::{Line, Slot, gather};
use super::input::Input;
use super::taking::{next_expression, next_expressions, next_given};
use cps_model::{Exprs, Kind, Listed};
use cps_textproto::Node;
use std::alloc::{AllocError, Global};
use std::vec::IntoIter;

const FIELDS: [Line; 6] = [
    Line(b"linear_index", OneOf(Newer, Expressions)),
    Line(b"linear_target", OneOf(Newer, Expressions)),
    Line(b"exprs", ManyOf(Newer, Expressions)),
    Line(b"index", OneOf(Older, References)),
    Line(b"target", OneOf(Older, References)),
    Line(b"vars", ManyOf(Older, References)),
];

/// What the fields of the older form give, and whether any of them is given.
#[derive(Drop)]
struct OlderFields {
    given: bool,
    index: i32,
    target: i32,
    vars: Listed<i32>,
}

/// The reference of a single field, 0 if the field is not given.
fn the_reference(references: &Listed<i32>) -> i32
    ensures { result ≡ first_or (pos 0) references.now }
{
    match references.as_slice().first() {
        Some(reference) => *reference,
        None => 0,
    }
}

/// Whether the next field is given, and its reference, 0 if it is not given.
fn next_given_reference(alloc: Global, slots: &mut IntoIter<Slot>) -> (bool, i32)
    ensures given { result.0 ≡ (next (left slots.old)).given }
    ensures reference { result.1 ≡ first_or (pos 0) (next (left slots.old)).references }
    ensures rest { left slots.new ≡ behind_first (left slots.old) }
{
    let (given, references) = next_given(alloc, slots);
    (given, the_reference(&references))
}

/// The element of the next three fields, those of the newer form.
fn next_newer(alloc: Global, slots: &mut IntoIter<Slot>) -> Kind
    ensures value { result ≡ Kind.Element (first_or no_expression (next (left slots.old)).expressions)
        (first_or no_expression (next (behind_first (left slots.old))).expressions)
        (next (behind_first (behind_first (left slots.old)))).expressions }
    ensures rest { left slots.new ≡ behind_first (behind_first (behind_first (left slots.old))) }
{
    Kind::Element {
        index: next_expression(alloc, slots),
        target: next_expression(alloc, slots),
        exprs: Exprs::of(next_expressions(alloc, slots).into_vec(), Vec::new(alloc)),
    }
}

/// What the next three fields give, those of the older form.
fn next_older(alloc: Global, slots: &mut IntoIter<Slot>) -> OlderFields
    ensures given { result.given ≡ ((next (left slots.old)).given
        || (next (behind_first (left slots.old))).given
        || (next (behind_first (behind_first (left slots.old)))).given) }
    ensures index { result.index ≡ first_or (pos 0) (next (left slots.old)).references }
    ensures target { result.target ≡ first_or (pos 0) (next (behind_first (left slots.old))).references }
    ensures vars { result.vars ≡ (next (behind_first (behind_first (left slots.old)))).references }
    ensures rest { left slots.new ≡ behind_first (behind_first (behind_first (left slots.old))) }
{
    let index = next_given_reference(alloc, slots);
    let target = next_given_reference(alloc, slots);
    let (vars_given, vars) = next_given(alloc, slots);
    OlderFields {
        given: index.0 || target.0 || vars_given,
        index: index.1,
        target: target.1,
        vars,
    }
}

/// The element of the older form.
fn older_element(alloc: Global, older: OlderFields) -> Result<Kind, AllocError>
    ensures { IfOk result (λ kind. kind ≡ Kind.Element (reference_expression older.index)
        (reference_expression older.target) (map reference_expression older.vars)) }
{
    let OlderFields {
        index,
        target,
        vars,
        ..
    } = older;
    Ok(Kind::Element {
        index: reference_expression(alloc, index)?,
        target: reference_expression(alloc, target)?,
        exprs: Exprs::of(Vec::new(alloc), vars.into_vec()),
    })
}

/// The element of the form that is given, the newer one if no field is given.
fn given_element(alloc: Global, newer: Kind, older: OlderFields) -> Result<Kind, AllocError>
    ensures { IfOk result (λ kind. kind ≡ (if older.given then Kind.Element (reference_expression older.index)
        (reference_expression older.target) (map reference_expression older.vars) else newer)) }
{
    if older.given {
        older_element(alloc, older)
    } else {
        Ok(newer)
    }
}

/// The element that a message gives.
pub(crate) fn read_element(alloc: Global, input: &Input, node: &Node) -> Result<Kind, SchemaError>
    ensures accepted { IfOk result
        (λ _. fields_fault (written_of input.now) element_message [] (tree_of node.now) ≡ None) }
    ensures reading { IfOk result (λ kind. kind ≡ read_element (written_of input.now) (tree_of node.now)) }
    ensures err { IfErr result (Refuses (fields_fault (written_of input.now) element_message [] (tree_of node.now))) }
{
    let mut slots = match gather(alloc, input, &FIELDS, node) {
        Ok(slots) => slots,
        Err(error) => return Err(error),
    };
    let newer = next_newer(alloc, &mut slots);
    let older = next_older(alloc, &mut slots);
    Ok(given_element(alloc, newer, older)?)
}
