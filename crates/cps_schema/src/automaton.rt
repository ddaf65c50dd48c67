//! Automata.
ghost use Rattle.std.specs.Prelude.{◌≡◌, [], None, IfOk, IfErr};
ghost use Rattle.cps_textproto.specs.Trees.{tree_of};
ghost use Rattle.cps_schema.specs.Inputs.{written_of};
ghost use Rattle.cps_schema.specs.Tables.{automaton_message};
ghost use Rattle.cps_schema.specs.Faults.{fields_fault};
ghost use Rattle.cps_schema.specs.Readings.{read_automaton};
ghost use Rattle.cps_schema.specs.Answers.{Refuses};

use super::error::SchemaError;
use super::form::Form::{Newer, Older};
use super::gather::Contents::{Expressions, Numbers, References};
use super::gather::Takes::{Many, ManyOf, One};
use super::gather::{Line, gather};
use super::input::Input;
use super::taking::{next_expressions_of_a_form, next_number, next_numbers};
use cps_model::Kind;
use cps_textproto::Node;
use std::alloc::Global;

const FIELDS: [Line; 7] = [
    Line(b"starting_state", One(Numbers)),
    Line(b"final_states", Many(Numbers)),
    Line(b"transition_tail", Many(Numbers)),
    Line(b"transition_head", Many(Numbers)),
    Line(b"transition_label", Many(Numbers)),
    Line(b"exprs", ManyOf(Newer, Expressions)),
    Line(b"vars", ManyOf(Older, References)),
];

/// The automaton that a message gives.
pub(crate) fn read_automaton(alloc: Global, input: &Input, node: &Node) -> Result<Kind, SchemaError>
    ensures accepted { IfOk result
        (λ _. fields_fault (written_of input.now) automaton_message [] (tree_of node.now) ≡ None) }
    ensures reading { IfOk result (λ kind. kind ≡ read_automaton (written_of input.now) (tree_of node.now)) }
    ensures err { IfErr result (Refuses
        (fields_fault (written_of input.now) automaton_message [] (tree_of node.now))) }
{
    let mut slots = match gather(alloc, input, &FIELDS, node) {
        Ok(slots) => slots,
        Err(error) => return Err(error),
    };
    Ok(Kind::Automaton {
        start: next_number(&mut slots),
        finals: next_numbers(alloc, &mut slots),
        tails: next_numbers(alloc, &mut slots),
        heads: next_numbers(alloc, &mut slots),
        labels: next_numbers(alloc, &mut slots),
        exprs: next_expressions_of_a_form(alloc, &mut slots),
    })
}
