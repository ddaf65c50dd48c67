//! Intervals with demands and a capacity.
ghost use Rattle.std.specs.Prelude.{◌≡◌, [], None, IfOk, IfErr};
ghost use Rattle.cps_textproto.specs.Trees.{tree_of};
ghost use Rattle.cps_schema.specs.Inputs.{written_of};
ghost use Rattle.cps_schema.specs.Tables.{cumulative_message};
ghost use Rattle.cps_schema.specs.Faults.{fields_fault};
ghost use Rattle.cps_schema.specs.Readings.{read_cumulative};
ghost use Rattle.cps_schema.specs.Answers.{Refuses};

use super::error::SchemaError;
use super::gather::Contents::{Expressions, References};
use super::gather::Takes::{Many, One};
use super::gather::{Line, gather};
use super::input::Input;
use super::taking::{next_expression, next_expressions, next_references};
use cps_model::Kind;
use cps_textproto::Node;
use std::alloc::Global;

const FIELDS: [Line; 3] = [
    Line(b"capacity", One(Expressions)),
    Line(b"intervals", Many(References)),
    Line(b"demands", Many(Expressions)),
];

/// The capacity, the intervals and the demands that a message gives.
pub(crate) fn read_cumulative(
    alloc: Global,
    input: &Input,
    node: &Node,
) -> Result<Kind, SchemaError>
    ensures accepted { IfOk result
        (λ _. fields_fault (written_of input.now) cumulative_message [] (tree_of node.now) ≡ None) }
    ensures reading { IfOk result (λ kind. kind ≡ read_cumulative (written_of input.now) (tree_of node.now)) }
    ensures err { IfErr result (Refuses
        (fields_fault (written_of input.now) cumulative_message [] (tree_of node.now))) }
{
    let mut slots = match gather(alloc, input, &FIELDS, node) {
        Ok(slots) => slots,
        Err(error) => return Err(error),
    };
    Ok(Kind::Cumulative {
        capacity: next_expression(alloc, &mut slots),
        intervals: next_references(alloc, &mut slots),
        demands: next_expressions(alloc, &mut slots),
    })
}
