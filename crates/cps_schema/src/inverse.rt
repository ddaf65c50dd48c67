//! Inverse lists.
ghost use Rattle.std.specs.Prelude.{◌≡◌, [], None, IfOk, IfErr};
ghost use Rattle.cps_textproto.specs.Trees.{tree_of};
ghost use Rattle.cps_schema.specs.Inputs.{written_of};
ghost use Rattle.cps_schema.specs.Tables.{inverse_message};
ghost use Rattle.cps_schema.specs.Faults.{fields_fault};
ghost use Rattle.cps_schema.specs.Readings.{read_inverse};
ghost use Rattle.cps_schema.specs.Answers.{Refuses};

use super::error::SchemaError;
use super::gather::Contents::References;
use super::gather::Takes::Many;
use super::gather::{Line, gather};
use super::input::Input;
use super::taking::next_references;
use cps_model::Kind;
use cps_textproto::Node;
use std::alloc::Global;

const FIELDS: [Line; 2] = [
    Line(b"f_direct", Many(References)),
    Line(b"f_inverse", Many(References)),
];

/// The two lists that a message gives.
pub(crate) fn read_inverse(alloc: Global, input: &Input, node: &Node) -> Result<Kind, SchemaError>
    ensures accepted { IfOk result
        (λ _. fields_fault (written_of input.now) inverse_message [] (tree_of node.now) ≡ None) }
    ensures reading { IfOk result (λ kind. kind ≡ read_inverse (written_of input.now) (tree_of node.now)) }
    ensures err { IfErr result (Refuses (fields_fault (written_of input.now) inverse_message [] (tree_of node.now))) }
{
    let mut slots = match gather(alloc, input, &FIELDS, node) {
        Ok(slots) => slots,
        Err(error) => return Err(error),
    };
    Ok(Kind::Inverse {
        direct: next_references(alloc, &mut slots),
        inverse: next_references(alloc, &mut slots),
    })
}
