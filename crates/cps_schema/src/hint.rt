//! Hints.
ghost use Rattle.std.specs.Prelude.{◌≡◌, ℕ, List, [], None, OnOk, IfOk, IfErr};
ghost use Rattle.cps_textproto.specs.Trees.{Tree, tree_of};
ghost use Rattle.cps_schema.specs.Inputs.{written_of};
ghost use Rattle.cps_schema.specs.Tables.{hint_message};
ghost use Rattle.cps_schema.specs.Faults.{fields_fault};
ghost use Rattle.cps_schema.specs.Readings.{read_hint};
ghost use Rattle.cps_schema.specs.Answers.{Refuses};
ghost use Rattle.cps_schema.specs.Steps.{field_then, Passes, Stops};
ghost use Rattle.cps_schema.specs.Parts.{hint_from};

use super::error::SchemaError;
use super::input::{Input, same_text, token_text};
use super::lists::{add_ints, add_refs};
use super::message::Message;
use super::names::refused_field;
use super::single::fields_of;
use cps_model::{Hint, Listed};
use cps_textproto::{Field, Node};
use std::alloc::Global;

/// The fields of this message that CP-SAT has and that are not served: each is refused as unsupported.
const UNSUPPORTED: [&[u8]; 0] = [];

/// What was read so far of a hint.
#[derive(Drop)]
pub struct HintParts {
    pub vars: Vec<i32>,
    pub values: Vec<i64>,
}

/// Reads a field of a hint.
fn add_field(input: &Input, parts: &mut HintParts, field: &Field) -> Result<(), SchemaError>
    ensures passes { OnOk result ((before : List (List ℕ))
        → Passes (written_of input.now) hint_message before field.now) }
    ensures read { OnOk result ((rest : Tree) →
        hint_from (written_of input.now) parts.old (field_then field.now rest)
        ≡ hint_from (written_of input.now) parts.new rest) }
    ensures err { IfErr result (λ e. (before : List (List ℕ))
        → Stops (written_of input.now) hint_message before field.now e) }
{
    let name = token_text(input, field.name as usize);
    if same_text(name, b"vars") {
        add_refs(input, &mut parts.vars, field)
    } else if same_text(name, b"values") {
        add_ints(input, &mut parts.values, field)
    } else {
        Err(refused_field(input, &UNSUPPORTED, field.name))
    }
}

/// The hint that a message gives.
fn read_hint(alloc: Global, input: &Input, node: &Node) -> Result<Hint, SchemaError>
    ensures accepted { IfOk result
        (λ _. fields_fault (written_of input.now) hint_message [] (tree_of node.now) ≡ None) }
    ensures reading { IfOk result (λ hint. hint ≡ read_hint (written_of input.now) (tree_of node.now)) }
    ensures err { IfErr result (Refuses (fields_fault (written_of input.now) hint_message [] (tree_of node.now))) }
{
    let mut parts = HintParts {
        vars: Vec::new(alloc),
        values: Vec::new(alloc),
    };
    for field in fields_of(node) {
        add_field(input, &mut parts, field)?;
    }
    let HintParts { vars, values } = parts;
    Ok(Hint {
        vars: Listed::from_vec(vars),
        values: Listed::from_vec(values),
    })
}

impl Message for Hint {
    ghost use Rattle.cps_schema.specs.Tables.{hint_message};
    ghost use Rattle.cps_schema.specs.Readings.{read_hint};

    ghost fields = { hint_message };

    ghost reads = { read_hint };

    fn read(alloc: Global, input: &Input, node: &Node) -> Result<Self, SchemaError> {
        read_hint(alloc, input, node)
    }
}
