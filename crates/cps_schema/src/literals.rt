//! The literals of a Boolean constraint.
ghost use Rattle.std.specs.Prelude.{◌≡◌, ℕ, List, [], ◌++◌, None, OnOk, IfOk, IfErr, codes};
ghost use Rattle.cps_textproto.specs.Trees.{Tree, tree_of};
ghost use Rattle.cps_schema.specs.Inputs.{written_of};
ghost use Rattle.cps_schema.specs.Tables.{literals_message};
ghost use Rattle.cps_schema.specs.Faults.{fields_fault};
ghost use Rattle.cps_schema.specs.Readings.{numbers};
ghost use Rattle.cps_schema.specs.Answers.{Refuses};
ghost use Rattle.cps_schema.specs.Steps.{field_then, Passes, Stops};

use super::error::SchemaError;
use super::input::{Input, same_text, token_text};
use super::lists::add_refs;
use super::names::refused_field;
use super::single::fields_of;
use cps_model::Listed;
use cps_textproto::{Field, Node};
use std::alloc::Global;

/// The fields of this message that CP-SAT has and that are not served: each is refused as unsupported.
const UNSUPPORTED: [&[u8]; 0] = [];

/// Reads a field of a list of literals.
fn add_field(input: &Input, literals: &mut Vec<i32>, field: &Field) -> Result<(), SchemaError>
    ensures passes { OnOk result ((before : List (List ℕ))
        → Passes (written_of input.now) literals_message before field.now) }
    ensures read { OnOk result ((rest : Tree) →
        literals.old.items ++ numbers (written_of input.now) (codes "literals") (field_then field.now rest)
        ≡ literals.new.items ++ numbers (written_of input.now) (codes "literals") rest) }
    ensures err { IfErr result (λ e. (before : List (List ℕ))
        → Stops (written_of input.now) literals_message before field.now e) }
{
    if same_text(token_text(input, field.name as usize), b"literals") {
        add_refs(input, literals, field)
    } else {
        Err(refused_field(input, &UNSUPPORTED, field.name))
    }
}

/// The literals that a message gives.
pub(crate) fn read_literals(
    alloc: Global,
    input: &Input,
    node: &Node,
) -> Result<Listed<i32>, SchemaError>
    ensures accepted { IfOk result
        (λ _. fields_fault (written_of input.now) literals_message [] (tree_of node.now) ≡ None) }
    ensures reading { IfOk result
        (λ literals. literals ≡ numbers (written_of input.now) (codes "literals") (tree_of node.now)) }
    ensures err { IfErr result (Refuses (fields_fault (written_of input.now) literals_message [] (tree_of node.now))) }
{
    let mut literals = Vec::new(alloc);
    for field in fields_of(node) {
        add_field(input, &mut literals, field)?;
    }
    Ok(Listed::from_vec(literals))
}
