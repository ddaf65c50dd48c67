//! Linear constraints.
ghost use Rattle.std.specs.Prelude.{◌≡◌, ℕ, List, [], None, OnOk, IfOk, IfErr};
ghost use Rattle.cps_textproto.specs.Trees.{Tree, tree_of};
ghost use Rattle.cps_schema.specs.Inputs.{written_of};
ghost use Rattle.cps_schema.specs.Tables.{linear_message};
ghost use Rattle.cps_schema.specs.Faults.{fields_fault};
ghost use Rattle.cps_schema.specs.Readings.{read_linear};
ghost use Rattle.cps_schema.specs.Answers.{Refuses};
ghost use Rattle.cps_schema.specs.Steps.{field_then, Passes, Stops};
ghost use Rattle.cps_schema.specs.Parts.{linear_from};

use super::error::SchemaError;
use super::input::{Input, same_text, token_text};
use super::lists::{add_ints, add_refs};
use super::names::refused_field;
use super::single::fields_of;
use cps_model::{Kind, Listed};
use cps_textproto::{Field, Node};
use std::alloc::Global;

/// The fields of this message that CP-SAT has and that are not served: each is refused as unsupported.
const UNSUPPORTED: [&[u8]; 0] = [];

/// What was read so far of a linear constraint.
#[derive(Drop)]
pub struct LinearParts {
    pub vars: Vec<i32>,
    pub coeffs: Vec<i64>,
    pub domain: Vec<i64>,
}

/// Reads a field of a linear constraint.
fn add_field(input: &Input, parts: &mut LinearParts, field: &Field) -> Result<(), SchemaError>
    ensures passes { OnOk result ((before : List (List ℕ))
        → Passes (written_of input.now) linear_message before field.now) }
    ensures read { OnOk result ((rest : Tree) →
        linear_from (written_of input.now) parts.old (field_then field.now rest)
        ≡ linear_from (written_of input.now) parts.new rest) }
    ensures err { IfErr result (λ e. (before : List (List ℕ))
        → Stops (written_of input.now) linear_message before field.now e) }
{
    let name = token_text(input, field.name as usize);
    if same_text(name, b"vars") {
        add_refs(input, &mut parts.vars, field)
    } else if same_text(name, b"coeffs") {
        add_ints(input, &mut parts.coeffs, field)
    } else if same_text(name, b"domain") {
        add_ints(input, &mut parts.domain, field)
    } else {
        Err(refused_field(input, &UNSUPPORTED, field.name))
    }
}

/// The linear constraint that a message gives.
pub(crate) fn read_linear(alloc: Global, input: &Input, node: &Node) -> Result<Kind, SchemaError>
    ensures accepted { IfOk result
        (λ _. fields_fault (written_of input.now) linear_message [] (tree_of node.now) ≡ None) }
    ensures reading { IfOk result (λ kind. kind ≡ read_linear (written_of input.now) (tree_of node.now)) }
    ensures err { IfErr result (Refuses (fields_fault (written_of input.now) linear_message [] (tree_of node.now))) }
{
    let mut parts = LinearParts {
        vars: Vec::new(alloc),
        coeffs: Vec::new(alloc),
        domain: Vec::new(alloc),
    };
    for field in fields_of(node) {
        add_field(input, &mut parts, field)?;
    }
    let LinearParts {
        vars,
        coeffs,
        domain,
    } = parts;
    Ok(Kind::Linear {
        vars: Listed::from_vec(vars),
        coeffs: Listed::from_vec(coeffs),
        domain: Listed::from_vec(domain),
    })
}
