//! The model's own message, and the two public readings of a document.
//!
//! `model_with` takes the table of closed fields as an argument, so that what is printed can be proved to read back
//! whatever is closed; `model_of` uses the table `CLOSED`. The parts that are read so far stand in one struct, from
//! which the model is made in the end. Nothing is judged here but the form of the fields: whether references name
//! variables, and every other rule of a valid model, is asked of the model as a whole.
ghost use Rattle.std.specs.Prelude.{◌≡◌, ◌++◌, ℕ, List, [], ◌∷◌, true, Some, None, map, is_some, OnOk, IfOk, IfErr, option_to_list};
ghost use Rattle.cps_textproto.specs.Trees.{Tree, no_fields, tree_of, values_of};
ghost use Rattle.cps_model.specs.declared.model.CpModel.{CpModel};
ghost use Rattle.cps_schema.specs.Written.{Written, written, written_with, token_text};
ghost use Rattle.cps_schema.specs.Inputs.{written_of, names_of};
ghost use Rattle.cps_schema.specs.Tables.{model_message, variable_message, constraint_message, objective_message, hint_message, message, number};
ghost use Rattle.cps_schema.specs.Faults.{values_fault, fields_fault};
ghost use Rattle.cps_schema.specs.Readings.{ReadsAs, value_numbers, value_messages, read_variable, read_constraint, read_objective, read_hint, read_model};
ghost use Rattle.cps_schema.specs.Answers.{Refuses, IsSchemaRefusal, GivesModel};
ghost use Rattle.cps_schema.specs.Steps.{field_then, Passes, Stops, SinglePasses, SingleStops, ClosablePasses, ClosableStops};
ghost use Rattle.cps_schema.specs.Slots.{AreGivenSlots};
ghost use Rattle.cps_schema.specs.Parts.{model_from, model_slots};
ghost use Rattle.cps_schema.specs.Open.{closed_names, OpenKinds, OpenAssumptions};

use super::closed::CLOSED;
use super::error::SchemaError;
use super::input::{Input, same_text, token_text};
use super::lists::add_refs;
use super::message::{add_messages, set_once};
use super::names::{is_given, refused_field};
use super::number::Number;
use super::single::fields_of;
use super::text::{name_or_empty, set_name};
use cps_lex::Token;
use cps_model::{
    Constraint, CpModel, FaultName, Hint, Listed, Objective, Strategy, Text, Variable,
};
use cps_textproto::{Field, Node};
use std::alloc::Global;

/// The fields of this message that CP-SAT has and that are not served: each is refused as unsupported.
const UNSUPPORTED: [&[u8]; 2] = [b"floating_point_objective", b"symmetry"];

/// What was read so far of a model.
#[derive(Drop)]
pub struct ModelParts {
    pub name: Option<Text>,
    pub variables: Vec<Variable>,
    pub constraints: Vec<Constraint>,
    pub objective: Option<Objective>,
    pub strategies: Vec<Strategy>,
    pub hint: Option<Hint>,
    pub assumptions: Vec<i32>,
}

/// Adds the assumptions of a field, unless the field is closed.
fn add_assumptions(input: &Input, list: &mut Vec<i32>, field: &Field) -> Result<(), SchemaError>
    ensures passes { OnOk result (ClosablePasses (written_of input.now) field.now (number Number.Int32)) }
    ensures added { OnOk result (list.new.items
        ≡ list.old.items ++ value_numbers (written_of input.now) (values_of field.now.items)) }
    ensures err { IfErr result (ClosableStops (written_of input.now) field.now (number Number.Int32)) }
{
    let token = field.name as usize;
    if is_given(input.closed, token_text(input, token)) {
        return Err(SchemaError::Fault {
            name: FaultName::Unsupported,
            token,
        });
    }
    add_refs(input, list, field)
}

/// Reads a field of a model.
fn add_field(
    alloc: Global,
    input: &Input,
    parts: &mut ModelParts,
    field: &Field,
) -> Result<(), SchemaError>
    ensures passes { OnOk result ((before : List (List ℕ)) → AreGivenSlots (model_slots parts.old) before →
        Passes (written_of input.now) model_message before field.now
        × AreGivenSlots (model_slots parts.new) (token_text (written_of input.now) field.now.name ∷ before)) }
    ensures read { OnOk result ((rest : Tree) →
        model_from (written_of input.now) parts.old (field_then field.now rest)
        ≡ model_from (written_of input.now) parts.new rest) }
    ensures err { IfErr result (λ e. (before : List (List ℕ)) → AreGivenSlots (model_slots parts.old) before →
        Stops (written_of input.now) model_message before field.now e) }
{
    let name = token_text(input, field.name as usize);
    if same_text(name, b"name") {
        set_name(alloc, input, &mut parts.name, field)
    } else if same_text(name, b"variables") {
        add_messages(alloc, input, &mut parts.variables, field)
    } else if same_text(name, b"constraints") {
        add_messages(alloc, input, &mut parts.constraints, field)
    } else if same_text(name, b"objective") {
        set_once(alloc, input, &mut parts.objective, field)
    } else if same_text(name, b"search_strategy") {
        add_messages(alloc, input, &mut parts.strategies, field)
    } else if same_text(name, b"solution_hint") {
        set_once(alloc, input, &mut parts.hint, field)
    } else if same_text(name, b"assumptions") {
        add_assumptions(input, &mut parts.assumptions, field)
    } else {
        Err(refused_field(input, &UNSUPPORTED, field.name))
    }
}

/// The model of these parts alone.
#[tactic(auto, using(crate::proofs::ModelFields::first_objective, crate::proofs::ModelFields::first_hint))]
fn model_of_parts(alloc: Global, parts: ModelParts) -> CpModel
    ensures { (w : Written) → result ≡ model_from w parts no_fields }
{
    let ModelParts {
        name,
        variables,
        constraints,
        objective,
        strategies,
        hint,
        assumptions,
    } = parts;
    CpModel {
        name: name_or_empty(alloc, name),
        variables: Listed::from_vec(variables),
        constraints: Listed::from_vec(constraints),
        objective,
        strategies: Listed::from_vec(strategies),
        hint,
        assumptions: Listed::from_vec(assumptions),
    }
}

/// The model that a document's fields give.
fn read_model(alloc: Global, input: &Input, node: &Node) -> Result<CpModel, SchemaError>
    ensures accepted { IfOk result
        (λ _. fields_fault (written_of input.now) model_message [] (tree_of node.now) ≡ None) }
    ensures reading { IfOk result (λ model. model ≡ read_model (written_of input.now) (tree_of node.now)) }
    ensures err { IfErr result (Refuses (fields_fault (written_of input.now) model_message [] (tree_of node.now))) }
{
    let mut parts = ModelParts {
        name: None,
        variables: Vec::new(alloc),
        constraints: Vec::new(alloc),
        objective: None,
        strategies: Vec::new(alloc),
        hint: None,
        assumptions: Vec::new(alloc),
    };
    for field in fields_of(node) {
        add_field(alloc, input, &mut parts, field)?;
    }
    Ok(model_of_parts(alloc, parts))
}

/// The model of a document, given the names of the fields that are closed, its bytes, its tokens and its tree.
pub fn model_with(
    alloc: Global,
    closed: &[&[u8]],
    bytes: &[u8],
    tokens: &[Token],
    node: &Node,
) -> Result<CpModel, SchemaError>
    ensures ok { IfOk result (λ model. ReadsAs (written_with (names_of closed.now) bytes.now tokens.now)
        (tree_of node.now) model) }
    ensures kinds { IfOk result (λ model. OpenKinds (names_of closed.now) model) }
    ensures assumptions { IfOk result (λ model. OpenAssumptions (names_of closed.now) model) }
    ensures err { IfErr result (IsSchemaRefusal (written_with (names_of closed.now) bytes.now tokens.now)
        (tree_of node.now)) }

    // A document that has a model is read as it, unless memory runs out.
    ensures only { (model : CpModel)
        → ReadsAs (written_with (names_of closed.now) bytes.now tokens.now) (tree_of node.now) model
        → GivesModel result model }
{
    let input = Input {
        bytes,
        tokens,
        closed,
    };
    read_model(alloc, &input, node)
}

/// The model of a document, given its bytes, its tokens and its tree. The fields of `CLOSED` are refused.
pub fn model_of(
    alloc: Global,
    bytes: &[u8],
    tokens: &[Token],
    node: &Node,
) -> Result<CpModel, SchemaError>
    ensures ok { IfOk result (λ model. ReadsAs (written bytes.now tokens.now) (tree_of node.now) model) }
    ensures kinds { IfOk result (λ model. OpenKinds closed_names model) }
    ensures assumptions { IfOk result (λ model. OpenAssumptions closed_names model) }
    ensures err { IfErr result (IsSchemaRefusal (written bytes.now tokens.now) (tree_of node.now)) }

    // A document that has a model is read as it, unless memory runs out.
    ensures only { (model : CpModel) → ReadsAs (written bytes.now tokens.now) (tree_of node.now) model
        → GivesModel result model }
{
    model_with(alloc, &CLOSED, bytes, tokens, node)
}
