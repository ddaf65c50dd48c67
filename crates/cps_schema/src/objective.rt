//! Objectives.
ghost use Rattle.std.specs.Prelude.{◌≡◌, ℕ, List, [], ◌∷◌, None, OnOk, IfOk, IfErr};
ghost use Rattle.cps_textproto.specs.Trees.{Tree, no_fields, tree_of};
ghost use Rattle.cps_schema.specs.Written.{Written, token_text};
ghost use Rattle.cps_schema.specs.Inputs.{written_of};
ghost use Rattle.cps_schema.specs.Tables.{objective_message};
ghost use Rattle.cps_schema.specs.Faults.{fields_fault};
ghost use Rattle.cps_schema.specs.Readings.{scaling_of, read_objective};
ghost use Rattle.cps_schema.specs.Answers.{Refuses};
ghost use Rattle.cps_schema.specs.Steps.{field_then, Passes, Stops};
ghost use Rattle.cps_schema.specs.Parts.{objective_from, IsGivenObjective};

use super::error::SchemaError;
use super::input::{Input, same_text, token_text};
use super::lists::{add_ints, add_refs};
use super::message::Message;
use super::names::refused_field;
use super::number::Number;
use super::single::{fields_of, set_number};
use cps_model::{Listed, Objective};
use cps_textproto::{Field, Node};
use std::alloc::Global;

/// The fields of this message that CP-SAT has and that are not served: each is refused as unsupported.
const UNSUPPORTED: [&[u8]; 4] = [
    b"scaling_was_exact",
    b"integer_before_offset",
    b"integer_after_offset",
    b"integer_scaling_factor",
];

/// What was read so far of an objective.
#[derive(Drop)]
pub struct ObjectiveParts {
    pub vars: Vec<i32>,
    pub coeffs: Vec<i64>,
    pub offset: Option<i64>,
    pub scaling: Option<i64>,
    pub domain: Vec<i64>,
}

/// Reads a field of an objective.
fn add_field(input: &Input, parts: &mut ObjectiveParts, field: &Field) -> Result<(), SchemaError>
    ensures passes { OnOk result ((before : List (List ℕ))
        → IsGivenObjective parts.old.offset parts.old.scaling before →
        Passes (written_of input.now) objective_message before field.now
        × IsGivenObjective parts.new.offset parts.new.scaling
        (token_text (written_of input.now) field.now.name ∷ before)) }
    ensures read { OnOk result ((rest : Tree) →
        objective_from (written_of input.now) parts.old (field_then field.now rest)
        ≡ objective_from (written_of input.now) parts.new rest) }
    ensures err { IfErr result (λ e. (before : List (List ℕ))
        → IsGivenObjective parts.old.offset parts.old.scaling before →
        Stops (written_of input.now) objective_message before field.now e) }
{
    let name = token_text(input, field.name as usize);
    if same_text(name, b"vars") {
        add_refs(input, &mut parts.vars, field)
    } else if same_text(name, b"coeffs") {
        add_ints(input, &mut parts.coeffs, field)
    } else if same_text(name, b"offset") {
        set_number(input, Number::Exact, &mut parts.offset, field)
    } else if same_text(name, b"scaling_factor") {
        set_number(input, Number::Exact, &mut parts.scaling, field)
    } else if same_text(name, b"domain") {
        add_ints(input, &mut parts.domain, field)
    } else {
        Err(refused_field(input, &UNSUPPORTED, field.name))
    }
}

/// The scaling factor that a number gives: 0 counts as 1.
fn scaling_of(number: i64) -> i64
    ensures { result ≡ scaling_of number }
{
    if number == 0 { 1 } else { number }
}

/// The objective of these parts alone.
#[tactic(auto, using(crate::proofs::Objectives::first_number))]
fn objective_of(parts: ObjectiveParts) -> Objective
    ensures { (w : Written) → result ≡ objective_from w parts no_fields }
{
    let ObjectiveParts {
        vars,
        coeffs,
        offset,
        scaling,
        domain,
    } = parts;
    Objective {
        vars: Listed::from_vec(vars),
        coeffs: Listed::from_vec(coeffs),
        offset: offset.unwrap_or(0),
        scaling: scaling_of(scaling.unwrap_or(0)),
        domain: Listed::from_vec(domain),
    }
}

/// The objective that a message gives.
fn read_objective(alloc: Global, input: &Input, node: &Node) -> Result<Objective, SchemaError>
    ensures accepted { IfOk result
        (λ _. fields_fault (written_of input.now) objective_message [] (tree_of node.now) ≡ None) }
    ensures reading { IfOk result (λ objective. objective ≡ read_objective (written_of input.now) (tree_of node.now)) }
    ensures err { IfErr result (Refuses
        (fields_fault (written_of input.now) objective_message [] (tree_of node.now))) }
{
    let mut parts = ObjectiveParts {
        vars: Vec::new(alloc),
        coeffs: Vec::new(alloc),
        offset: None,
        scaling: None,
        domain: Vec::new(alloc),
    };
    for field in fields_of(node) {
        add_field(input, &mut parts, field)?;
    }
    Ok(objective_of(parts))
}

impl Message for Objective {
    ghost use Rattle.cps_schema.specs.Tables.{objective_message};
    ghost use Rattle.cps_schema.specs.Readings.{read_objective};

    ghost fields = { objective_message };

    ghost reads = { read_objective };

    fn read(alloc: Global, input: &Input, node: &Node) -> Result<Self, SchemaError> {
        read_objective(alloc, input, node)
    }
}
