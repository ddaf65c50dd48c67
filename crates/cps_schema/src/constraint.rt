//! Constraints.
ghost use Rattle.std.specs.Prelude.{◌≡◌, ℕ, List, [], ◌∷◌, ◌++◌, None, Some, map, OnOk, IfOk, IfErr};
ghost use Rattle.cps_textproto.specs.Trees.{Tree, no_fields, tree_of, values_of};
ghost use Rattle.cps_schema.specs.Written.{Written, token_text};
ghost use Rattle.cps_schema.specs.Inputs.{written_of};
ghost use Rattle.cps_schema.specs.Tables.{constraint_message, message};
ghost use Rattle.cps_schema.specs.Faults.{fields_fault, values_fault};
ghost use Rattle.cps_schema.specs.Readings.{value_messages, read_constraint};
ghost use Rattle.cps_schema.specs.Values.{nested_trees, trees_fault};
ghost use Rattle.cps_schema.specs.Answers.{Refuses};
ghost use Rattle.cps_schema.specs.Steps.{field_then, Passes, Stops};
ghost use Rattle.cps_schema.specs.Parts.{constraint_from, IsConstraintGiven};

use super::error::SchemaError;
use super::input::{Input, same_text, token_text};
use super::kind::{GivenKind, kind_named, set_kind};
use super::lists::add_refs;
use super::message::Message;
use super::names::refused_field;
use super::single::fields_of;
use super::text::{name_or_empty, set_name};
use cps_model::{Constraint, Kind, Listed, Text};
use cps_textproto::{Field, Node};
use std::alloc::Global;

/// The fields of this message that CP-SAT has and that are not served: each is refused as unsupported.
const UNSUPPORTED: [&[u8]; 2] = [b"routes", b"dummy_constraint"];

/// What was read so far of a constraint.
#[derive(Drop)]
pub struct ConstraintParts {
    pub name: Option<Text>,
    pub enforcement: Vec<i32>,
    pub given: Option<GivenKind>,
}

/// Reads a field of a constraint.
fn add_field(
    alloc: Global,
    input: &Input,
    parts: &mut ConstraintParts,
    field: &Field,
) -> Result<(), SchemaError>
    ensures passes { OnOk result ((before : List (List ℕ)) → IsConstraintGiven parts.old before →
        Passes (written_of input.now) constraint_message before field.now
        × IsConstraintGiven parts.new (token_text (written_of input.now) field.now.name ∷ before)) }
    ensures read { OnOk result ((rest : Tree) →
        constraint_from (written_of input.now) parts.old (field_then field.now rest)
        ≡ constraint_from (written_of input.now) parts.new rest) }
    ensures err { IfErr result (λ e. (before : List (List ℕ)) → IsConstraintGiven parts.old before →
        Stops (written_of input.now) constraint_message before field.now e) }
{
    let name = token_text(input, field.name as usize);
    if same_text(name, b"name") {
        set_name(alloc, input, &mut parts.name, field)
    } else if same_text(name, b"enforcement_literal") {
        add_refs(input, &mut parts.enforcement, field)
    } else if let Some(kind) = kind_named(name) {
        set_kind(alloc, input, &mut parts.given, kind, field)
    } else {
        Err(refused_field(input, &UNSUPPORTED, field.name))
    }
}

/// The constraint of these parts alone.
fn constraint_of(alloc: Global, parts: ConstraintParts) -> Constraint
    ensures { (w : Written) → result ≡ constraint_from w parts no_fields }
{
    let ConstraintParts {
        name,
        enforcement,
        given,
    } = parts;
    Constraint {
        name: name_or_empty(alloc, name),
        enforcement: Listed::from_vec(enforcement),
        kind: match given {
            Some(given) => given.kind,
            None => Kind::Empty,
        },
    }
}

/// The constraint that a message gives.
fn read_constraint(alloc: Global, input: &Input, node: &Node) -> Result<Constraint, SchemaError>
    ensures accepted { IfOk result
        (λ _. fields_fault (written_of input.now) constraint_message [] (tree_of node.now) ≡ None) }
    ensures reading { IfOk result
        (λ constraint. constraint ≡ read_constraint (written_of input.now) (tree_of node.now)) }
    ensures err { IfErr result (Refuses
        (fields_fault (written_of input.now) constraint_message [] (tree_of node.now))) }
{
    let mut parts = ConstraintParts {
        name: None,
        enforcement: Vec::new(alloc),
        given: None,
    };
    for field in fields_of(node) {
        match add_field(alloc, input, &mut parts, field) {
            Ok(()) => {}
            Err(error) => return Err(error),
        }
    }
    Ok(constraint_of(alloc, parts))
}

impl Message for Constraint {
    ghost use Rattle.cps_schema.specs.Tables.{constraint_message};
    ghost use Rattle.cps_schema.specs.Readings.{read_constraint};

    ghost fields = { constraint_message };

    ghost reads = { read_constraint };

    fn read(alloc: Global, input: &Input, node: &Node) -> Result<Self, SchemaError> {
        read_constraint(alloc, input, node)
    }
}
