//! Intervals.
ghost use Rattle.std.specs.Prelude.{◌≡◌, [], None, IfOk, IfErr};
ghost use Rattle.cps_textproto.specs.Trees.{tree_of};
ghost use Rattle.cps_schema.specs.Inputs.{written_of};
ghost use Rattle.cps_schema.specs.Tables.{interval_message};
ghost use Rattle.cps_schema.specs.Faults.{fields_fault};
ghost use Rattle.cps_schema.specs.Readings.{read_interval};
ghost use Rattle.cps_schema.specs.Answers.{Refuses};

use super::error::SchemaError;
use super::gather::Contents::Expressions;
use super::gather::Takes::One;
use super::gather::{Line, gather};
use super::input::Input;
use super::taking::next_expression;
use cps_model::Kind;
use cps_textproto::Node;
use std::alloc::Global;

const FIELDS: [Line; 3] = [
    Line(b"start", One(Expressions)),
    Line(b"end", One(Expressions)),
    Line(b"size", One(Expressions)),
];

/// The interval that a message gives.
pub(crate) fn read_interval(alloc: Global, input: &Input, node: &Node) -> Result<Kind, SchemaError>
    ensures accepted { IfOk result
        (λ _. fields_fault (written_of input.now) interval_message [] (tree_of node.now) ≡ None) }
    ensures reading { IfOk result (λ kind. kind ≡ read_interval (written_of input.now) (tree_of node.now)) }
    ensures err { IfErr result (Refuses (fields_fault (written_of input.now) interval_message [] (tree_of node.now))) }
{
    let mut slots = match gather(alloc, input, &FIELDS, node) {
        Ok(slots) => slots,
        Err(error) => return Err(error),
    };
    Ok(Kind::Interval {
        start: next_expression(alloc, &mut slots),
        end: next_expression(alloc, &mut slots),
        size: next_expression(alloc, &mut slots),
    })
}
