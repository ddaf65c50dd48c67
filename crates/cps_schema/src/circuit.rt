//! Circuits.
ghost use Rattle.std.specs.Prelude.{◌≡◌, [], None, IfOk, IfErr};
ghost use Rattle.cps_textproto.specs.Trees.{tree_of};
ghost use Rattle.cps_schema.specs.Inputs.{written_of};
ghost use Rattle.cps_schema.specs.Tables.{circuit_message};
ghost use Rattle.cps_schema.specs.Faults.{fields_fault};
ghost use Rattle.cps_schema.specs.Readings.{read_circuit};
ghost use Rattle.cps_schema.specs.Answers.{Refuses};

use super::error::SchemaError;
use super::gather::Contents::References;
use super::gather::Takes::Many;
use super::gather::{Line, gather};
use super::input::Input;
use super::taking::next_references;
use cps_model::Kind;
use cps_textproto::Node;
use std::alloc::Global;

const FIELDS: [Line; 3] = [
    Line(b"tails", Many(References)),
    Line(b"heads", Many(References)),
    Line(b"literals", Many(References)),
];

/// The circuit that a message gives.
pub(crate) fn read_circuit(alloc: Global, input: &Input, node: &Node) -> Result<Kind, SchemaError>
    ensures accepted { IfOk result
        (λ _. fields_fault (written_of input.now) circuit_message [] (tree_of node.now) ≡ None) }
    ensures reading { IfOk result (λ kind. kind ≡ read_circuit (written_of input.now) (tree_of node.now)) }
    ensures err { IfErr result (Refuses (fields_fault (written_of input.now) circuit_message [] (tree_of node.now))) }
{
    let mut slots = match gather(alloc, input, &FIELDS, node) {
        Ok(slots) => slots,
        Err(error) => return Err(error),
    };
    Ok(Kind::Circuit {
        tails: next_references(alloc, &mut slots),
        heads: next_references(alloc, &mut slots),
        literals: next_references(alloc, &mut slots),
    })
}
