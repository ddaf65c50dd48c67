//! Linear expressions.
ghost use Rattle.std.specs.Prelude.{◌≡◌, ◌++◌, ℕ, List, [], ◌∷◌, None, Some, map, OnOk, IfOk, IfErr};
ghost use Rattle.cps_textproto.specs.Trees.{Tree, no_fields, tree_of, values_of};
ghost use Rattle.cps_schema.specs.Written.{Written, token_text};
ghost use Rattle.cps_schema.specs.Inputs.{written_of};
ghost use Rattle.cps_schema.specs.Tables.{expression_message, message};
ghost use Rattle.cps_schema.specs.Faults.{fields_fault, values_fault};
ghost use Rattle.cps_schema.specs.Readings.{value_messages, read_expression};
ghost use Rattle.cps_model.specs.Values.{reference_expression};
ghost use Rattle.cps_schema.specs.Values.{nested_trees, trees_fault};
ghost use Rattle.cps_schema.specs.Answers.{Refuses};
ghost use Rattle.cps_schema.specs.Steps.{field_then, Passes, Stops};
ghost use Rattle.cps_schema.specs.Slots.{AreGivenSlots};
ghost use Rattle.cps_schema.specs.Parts.{expression_from, expression_slots};

use super::error::SchemaError;
use super::input::{Input, same_text, token_text};
use super::lists::{add_ints, add_refs};
use super::message::Message;
use super::names::refused_field;
use super::number::Number;
use super::single::{fields_of, set_number};
use cps_model::{LinearExpr, Listed};
use cps_textproto::{Field, Node};
use std::alloc::{AllocError, Global};

/// The fields of this message that CP-SAT has and that are not served: each is refused as unsupported.
const UNSUPPORTED: [&[u8]; 0] = [];

/// What was read so far of an expression.
#[derive(Drop)]
pub struct ExpressionParts {
    pub vars: Vec<i32>,
    pub coeffs: Vec<i64>,
    pub offset: Option<i64>,
}

/// Reads a field of an expression.
fn add_field(input: &Input, parts: &mut ExpressionParts, field: &Field) -> Result<(), SchemaError>
    ensures passes { OnOk result ((before : List (List ℕ)) → AreGivenSlots (expression_slots parts.old) before →
        Passes (written_of input.now) expression_message before field.now
        × AreGivenSlots (expression_slots parts.new) (token_text (written_of input.now) field.now.name ∷ before)) }
    ensures read { OnOk result ((rest : Tree) →
        expression_from (written_of input.now) parts.old (field_then field.now rest)
        ≡ expression_from (written_of input.now) parts.new rest) }
    ensures err { IfErr result (λ e. (before : List (List ℕ)) → AreGivenSlots (expression_slots parts.old) before →
        Stops (written_of input.now) expression_message before field.now e) }
{
    let name = token_text(input, field.name as usize);
    if same_text(name, b"vars") {
        add_refs(input, &mut parts.vars, field)
    } else if same_text(name, b"coeffs") {
        add_ints(input, &mut parts.coeffs, field)
    } else if same_text(name, b"offset") {
        set_number(input, Number::Int64, &mut parts.offset, field)
    } else {
        Err(refused_field(input, &UNSUPPORTED, field.name))
    }
}

/// The expression of these parts alone.
#[tactic(auto, using(crate::proofs::Objectives::first_number))]
fn expression_of(parts: ExpressionParts) -> LinearExpr
    ensures { (w : Written) → result ≡ expression_from w parts no_fields }
{
    let ExpressionParts {
        vars,
        coeffs,
        offset,
    } = parts;
    LinearExpr {
        vars: Listed::from_vec(vars),
        coeffs: Listed::from_vec(coeffs),
        offset: offset.unwrap_or(0),
    }
}

/// The expression that a message gives.
fn read_expression(alloc: Global, input: &Input, node: &Node) -> Result<LinearExpr, SchemaError>
    ensures accepted { IfOk result
        (λ _. fields_fault (written_of input.now) expression_message [] (tree_of node.now) ≡ None) }
    ensures reading { IfOk result
        (λ expression. expression ≡ read_expression (written_of input.now) (tree_of node.now)) }
    ensures err { IfErr result (Refuses
        (fields_fault (written_of input.now) expression_message [] (tree_of node.now))) }
{
    let mut parts = ExpressionParts {
        vars: Vec::new(alloc),
        coeffs: Vec::new(alloc),
        offset: None,
    };
    for field in fields_of(node) {
        add_field(input, &mut parts, field)?;
    }
    Ok(expression_of(parts))
}

impl Message for LinearExpr {
    ghost use Rattle.cps_schema.specs.Tables.{expression_message};
    ghost use Rattle.cps_schema.specs.Readings.{read_expression};

    ghost fields = { expression_message };

    ghost reads = { read_expression };

    fn read(alloc: Global, input: &Input, node: &Node) -> Result<Self, SchemaError> {
        read_expression(alloc, input, node)
    }
}

/// A reference as an expression.
pub(crate) fn reference_expression(alloc: Global, reference: i32) -> Result<LinearExpr, AllocError>
    ensures { IfOk result (λ expression. expression ≡ reference_expression reference) }
{
    let mut vars = Vec::with_capacity(alloc, 1)?;
    vars.push(reference)?;
    let mut coeffs = Vec::with_capacity(alloc, 1)?;
    coeffs.push(1)?;
    Ok(LinearExpr {
        vars: Listed::from_vec(vars),
        coeffs: Listed::from_vec(coeffs),
        offset: 0,
    })
}
