//! Tables.
ghost use Rattle.std.specs.Prelude.{◌≡◌, [], None, IfOk, IfErr};
ghost use Rattle.cps_textproto.specs.Trees.{tree_of};
ghost use Rattle.cps_schema.specs.Inputs.{written_of};
ghost use Rattle.cps_schema.specs.Tables.{table_message};
ghost use Rattle.cps_schema.specs.Faults.{fields_fault};
ghost use Rattle.cps_schema.specs.Readings.{read_table};
ghost use Rattle.cps_schema.specs.Answers.{Refuses};

use super::error::SchemaError;
use super::form::Form::{Newer, Older};
use super::gather::Contents::{Expressions, Numbers, References, Truths};
use super::gather::Takes::{Many, ManyOf, One};
use super::gather::{Line, gather};
use super::input::Input;
use super::taking::{next_expressions_of_a_form, next_numbers, next_truth};
use cps_model::Kind;
use cps_textproto::Node;
use std::alloc::Global;

const FIELDS: [Line; 4] = [
    Line(b"exprs", ManyOf(Newer, Expressions)),
    Line(b"vars", ManyOf(Older, References)),
    Line(b"values", Many(Numbers)),
    Line(b"negated", One(Truths)),
];

/// The table that a message gives.
pub(crate) fn read_table(alloc: Global, input: &Input, node: &Node) -> Result<Kind, SchemaError>
    ensures accepted { IfOk result
        (λ _. fields_fault (written_of input.now) table_message [] (tree_of node.now) ≡ None) }
    ensures reading { IfOk result (λ kind. kind ≡ read_table (written_of input.now) (tree_of node.now)) }
    ensures err { IfErr result (Refuses (fields_fault (written_of input.now) table_message [] (tree_of node.now))) }
{
    let mut slots = match gather(alloc, input, &FIELDS, node) {
        Ok(slots) => slots,
        Err(error) => return Err(error),
    };
    Ok(Kind::Table {
        exprs: next_expressions_of_a_form(alloc, &mut slots),
        values: next_numbers(alloc, &mut slots),
        negated: next_truth(&mut slots),
    })
}
