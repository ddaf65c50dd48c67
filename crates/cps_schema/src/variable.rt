//! Variables.
ghost use Rattle.std.specs.Prelude.{◌≡◌, ℕ, List, [], ◌∷◌, ◌++◌, None, Some, map, OnOk, IfOk, IfErr};
ghost use Rattle.cps_textproto.specs.Trees.{Tree, no_fields, tree_of, values_of};
ghost use Rattle.cps_schema.specs.Written.{Written, token_text};
ghost use Rattle.cps_schema.specs.Inputs.{written_of};
ghost use Rattle.cps_schema.specs.Tables.{variable_message, message};
ghost use Rattle.cps_schema.specs.Faults.{fields_fault, values_fault};
ghost use Rattle.cps_schema.specs.Readings.{value_messages, read_variable};
ghost use Rattle.cps_schema.specs.Values.{nested_trees, trees_fault};
ghost use Rattle.cps_schema.specs.Answers.{Refuses};
ghost use Rattle.cps_schema.specs.Steps.{field_then, Passes, Stops};
ghost use Rattle.cps_schema.specs.Slots.{AreGivenSlots};
ghost use Rattle.cps_schema.specs.Parts.{variable_from, variable_slots};

use super::error::SchemaError;
use super::input::{Input, same_text, token_text};
use super::lists::add_ints;
use super::message::Message;
use super::names::refused_field;
use super::single::fields_of;
use super::text::{name_or_empty, set_name};
use cps_model::{Listed, Text, Variable};
use cps_textproto::{Field, Node};
use std::alloc::Global;

/// The fields of this message that CP-SAT has and that are not served: each is refused as unsupported.
const UNSUPPORTED: [&[u8]; 0] = [];

/// What was read so far of a variable.
#[derive(Drop)]
pub struct VariableParts {
    pub name: Option<Text>,
    pub domain: Vec<i64>,
}

/// Reads a field of a variable.
fn add_field(
    alloc: Global,
    input: &Input,
    parts: &mut VariableParts,
    field: &Field,
) -> Result<(), SchemaError>
    ensures passes { OnOk result ((before : List (List ℕ)) → AreGivenSlots (variable_slots parts.old) before →
        Passes (written_of input.now) variable_message before field.now
        × AreGivenSlots (variable_slots parts.new) (token_text (written_of input.now) field.now.name ∷ before)) }
    ensures read { OnOk result ((rest : Tree) →
        variable_from (written_of input.now) parts.old (field_then field.now rest)
        ≡ variable_from (written_of input.now) parts.new rest) }
    ensures err { IfErr result (λ e. (before : List (List ℕ)) → AreGivenSlots (variable_slots parts.old) before →
        Stops (written_of input.now) variable_message before field.now e) }
{
    let name = token_text(input, field.name as usize);
    if same_text(name, b"name") {
        set_name(alloc, input, &mut parts.name, field)
    } else if same_text(name, b"domain") {
        add_ints(input, &mut parts.domain, field)
    } else {
        Err(refused_field(input, &UNSUPPORTED, field.name))
    }
}

/// The variable of these parts alone.
fn variable_of(alloc: Global, parts: VariableParts) -> Variable
    ensures { (w : Written) → result ≡ variable_from w parts no_fields }
{
    let VariableParts { name, domain } = parts;
    Variable {
        name: name_or_empty(alloc, name),
        domain: Listed::from_vec(domain),
    }
}

/// The variable that a message gives.
fn read_variable(alloc: Global, input: &Input, node: &Node) -> Result<Variable, SchemaError>
    ensures accepted { IfOk result
        (λ _. fields_fault (written_of input.now) variable_message [] (tree_of node.now) ≡ None) }
    ensures reading { IfOk result (λ variable. variable ≡ read_variable (written_of input.now) (tree_of node.now)) }
    ensures err { IfErr result (Refuses (fields_fault (written_of input.now) variable_message [] (tree_of node.now))) }
{
    let mut parts = VariableParts {
        name: None,
        domain: Vec::new(alloc),
    };
    for field in fields_of(node) {
        add_field(alloc, input, &mut parts, field)?;
    }
    Ok(variable_of(alloc, parts))
}

impl Message for Variable {
    ghost use Rattle.cps_schema.specs.Tables.{variable_message};
    ghost use Rattle.cps_schema.specs.Readings.{read_variable};

    ghost fields = { variable_message };

    ghost reads = { read_variable };

    fn read(alloc: Global, input: &Input, node: &Node) -> Result<Self, SchemaError> {
        read_variable(alloc, input, node)
    }
}
