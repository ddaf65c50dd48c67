//! Reservoirs.
ghost use Rattle.std.specs.Prelude.{◌≡◌, [], None, IfOk, IfErr};
ghost use Rattle.cps_textproto.specs.Trees.{tree_of};
ghost use Rattle.cps_schema.specs.Inputs.{written_of};
ghost use Rattle.cps_schema.specs.Tables.{reservoir_message};
ghost use Rattle.cps_schema.specs.Faults.{fields_fault};
ghost use Rattle.cps_schema.specs.Readings.{read_reservoir};
ghost use Rattle.cps_schema.specs.Answers.{Refuses};

use super::error::SchemaError;
use super::gather::Contents::{Expressions, Numbers, References};
use super::gather::Takes::{Many, One};
use super::gather::{Line, gather};
use super::input::Input;
use super::taking::{next_expressions, next_number, next_references};
use cps_model::Kind;
use cps_textproto::Node;
use std::alloc::Global;

const FIELDS: [Line; 5] = [
    Line(b"min_level", One(Numbers)),
    Line(b"max_level", One(Numbers)),
    Line(b"time_exprs", Many(Expressions)),
    Line(b"level_changes", Many(Expressions)),
    Line(b"active_literals", Many(References)),
];

/// The reservoir that a message gives.
pub(crate) fn read_reservoir(alloc: Global, input: &Input, node: &Node) -> Result<Kind, SchemaError>
    ensures accepted { IfOk result
        (λ _. fields_fault (written_of input.now) reservoir_message [] (tree_of node.now) ≡ None) }
    ensures reading { IfOk result (λ kind. kind ≡ read_reservoir (written_of input.now) (tree_of node.now)) }
    ensures err { IfErr result (Refuses
        (fields_fault (written_of input.now) reservoir_message [] (tree_of node.now))) }
{
    let mut slots = match gather(alloc, input, &FIELDS, node) {
        Ok(slots) => slots,
        Err(error) => return Err(error),
    };
    Ok(Kind::Reservoir {
        min: next_number(&mut slots),
        max: next_number(&mut slots),
        times: next_expressions(alloc, &mut slots),
        changes: next_expressions(alloc, &mut slots),
        active: next_references(alloc, &mut slots),
    })
}
