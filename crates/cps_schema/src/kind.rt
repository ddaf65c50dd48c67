//! The kinds of constraints: which field of a constraint gives which kind.
//!
//! A kind that is read has a name (`KindName`), from which its field's name, its message and its reading follow. So a
//! further kind adds a line to each match and no path of its own. A field's name is compared with that of each kind in
//! turn: a constraint has one such field, so a table of names would save little.
ghost use Rattle.std.specs.Prelude.{◌≡◌, ◌++◌, [], ◌∷◌, false, true, Some, None, map, is_some, OnOk, IfOk, IfErr};
ghost use Rattle.std.specs.Option.{option_or};
ghost use Rattle.std.specs.List.{find};
ghost use Rattle.std.specs.Str.{bytes_eq};
ghost use Rattle.cps_textproto.specs.Trees.{tree_of, values_of};
ghost use Rattle.cps_schema.specs.Inputs.{written_of, single_fault};
ghost use Rattle.cps_schema.specs.Written.{token_text};
ghost use Rattle.cps_schema.specs.Tables.{message, is_given};
ghost use Rattle.cps_schema.specs.Kinds.{field_name, message_of, kind_named};
ghost use Rattle.cps_schema.specs.Faults.{fields_fault};
ghost use Rattle.cps_schema.specs.Readings.{value_messages, read_kind};
ghost use Rattle.cps_schema.specs.Answers.{Refuses};
ghost use Rattle.cps_schema.specs.Steps.{KindPasses, KindStops};
ghost use Rattle.cps_schema.specs.Parts.{kind_list, is_given_as};

use super::all_diff::read_all_diff;
use super::argument::{read_int_div, read_int_mod, read_int_prod, read_lin_max};
use super::automaton::read_automaton;
use super::boxes::read_boxes;
use super::circuit::read_circuit;
use super::cumulative::read_cumulative;
use super::element::read_element;
use super::error::SchemaError;
use super::input::{Input, same_text, token_text};
use super::interval::read_interval;
use super::intervals::read_intervals;
use super::inverse::read_inverse;
use super::linear::read_linear;
use super::literals::read_literals;
use super::names::is_given;
use super::reservoir::read_reservoir;
use super::single::single_message;
use super::table::read_table;
use cps_model::{FaultName, Kind};
use cps_textproto::{Field, Node};
use std::alloc::Global;

/// The kinds that are read.
#[derive(Clone, Copy)]
pub enum KindName {
    BoolOr,
    BoolAnd,
    AtMostOne,
    ExactlyOne,
    BoolXor,
    IntDiv,
    IntMod,
    IntProd,
    LinMax,
    Linear,
    AllDiff,
    Element,
    Circuit,
    Table,
    Interval,
    NoOverlap,
    Cumulative,
    Automaton,
    Inverse,
    Reservoir,
    NoOverlap2d,
}

const KINDS: [KindName; 21] = [
    KindName::BoolOr,
    KindName::BoolAnd,
    KindName::AtMostOne,
    KindName::ExactlyOne,
    KindName::BoolXor,
    KindName::IntDiv,
    KindName::IntMod,
    KindName::IntProd,
    KindName::LinMax,
    KindName::Linear,
    KindName::AllDiff,
    KindName::Element,
    KindName::Circuit,
    KindName::Table,
    KindName::Interval,
    KindName::NoOverlap,
    KindName::Cumulative,
    KindName::Automaton,
    KindName::Inverse,
    KindName::Reservoir,
    KindName::NoOverlap2d,
];

/// A kind that was read.
#[derive(Drop)]
pub struct GivenKind {
    pub name: KindName,
    pub kind: Kind,
}

/// The name of the field that gives a kind.
fn field_name(kind: KindName) -> &'static [u8]
    ensures { result.now ≡ field_name kind }
{
    match kind {
        KindName::BoolOr => b"bool_or",
        KindName::BoolAnd => b"bool_and",
        KindName::AtMostOne => b"at_most_one",
        KindName::ExactlyOne => b"exactly_one",
        KindName::BoolXor => b"bool_xor",
        KindName::IntDiv => b"int_div",
        KindName::IntMod => b"int_mod",
        KindName::IntProd => b"int_prod",
        KindName::LinMax => b"lin_max",
        KindName::Linear => b"linear",
        KindName::AllDiff => b"all_diff",
        KindName::Element => b"element",
        KindName::Circuit => b"circuit",
        KindName::Table => b"table",
        KindName::Interval => b"interval",
        KindName::NoOverlap => b"no_overlap",
        KindName::Cumulative => b"cumulative",
        KindName::Automaton => b"automaton",
        KindName::Inverse => b"inverse",
        KindName::Reservoir => b"reservoir",
        KindName::NoOverlap2d => b"no_overlap_2d",
    }
}

/// The first of these kinds that a field of this name gives. `None` if none of them has it.
fn find_named(kinds: &[KindName], name: &[u8]) -> Option<KindName>
    ensures { result ≡ find (λ kind. bytes_eq name.now (field_name kind)) kinds.now }
{
    for kind in kinds {
        if same_text(name, field_name(*kind)) {
            return Some(*kind);
        }
    }
    None
}

/// The kind that a field of this name gives. `None` if no kind has this name.
pub(crate) fn kind_named(name: &[u8]) -> Option<KindName>
    ensures { result ≡ kind_named name.now }
{
    find_named(&KINDS, name)
}

/// Whether the kind that was read before is of this name.
fn is_given_as(given: &Option<GivenKind>, name: KindName) -> bool
    ensures { result ≡ is_given_as given.now name }
{
    match given {
        Some(given) => same_text(field_name(name), field_name(given.name)),
        None => false,
    }
}

/// The message of a field of a kind, which must be the first such field of its constraint.
fn kind_message<'a>(
    input: &Input,
    given: &Option<GivenKind>,
    name: KindName,
    field: &'a Field,
) -> Result<&'a Node, SchemaError>
    ensures unclosed { IfOk result
        (λ _. is_given (written_of input.now).closed (token_text (written_of input.now) field.now.name) ≡ false) }
    ensures different { IfOk result (λ _. is_given_as given.now name ≡ false) }
    ensures first { IfOk result (λ _. is_some given.now ≡ false) }
    ensures messages { IfOk result (λ node. value_messages (values_of field.now.items) ≡ tree_of node.now ∷ []) }
    ensures inner { IfOk result (λ node. single_fault (written_of input.now) (message (message_of name)) field.now
        ≡ option_or (fields_fault (written_of input.now) (message_of name) [] (tree_of node.now)) None) }
    ensures err { IfErr result (KindStops (written_of input.now) field.now (message_of name)
        (is_given_as given.now name) (is_some given.now)) }
{
    let token = field.name as usize;
    if is_given(input.closed, token_text(input, token)) {
        return Err(SchemaError::Fault {
            name: FaultName::Unsupported,
            token,
        });
    }
    if is_given_as(given, name) {
        return Err(SchemaError::Fault {
            name: FaultName::Repeated,
            token,
        });
    }
    if given.is_some() {
        return Err(SchemaError::Fault {
            name: FaultName::TwoKinds,
            token,
        });
    }
    single_message(input, field)
}

/// The kind of this name that a message gives.
fn read_kind(alloc: Global, input: &Input, name: KindName, node: &Node) -> Result<Kind, SchemaError>
    ensures accepted { IfOk result
        (λ _. fields_fault (written_of input.now) (message_of name) [] (tree_of node.now) ≡ None) }
    ensures reading { IfOk result (λ kind. kind ≡ read_kind (written_of input.now) name (tree_of node.now)) }
    ensures err { IfErr result (Refuses
        (fields_fault (written_of input.now) (message_of name) [] (tree_of node.now))) }
{
    match name {
        KindName::BoolOr => read_literals(alloc, input, node).map(Kind::BoolOr),
        KindName::BoolAnd => read_literals(alloc, input, node).map(Kind::BoolAnd),
        KindName::AtMostOne => read_literals(alloc, input, node).map(Kind::AtMostOne),
        KindName::ExactlyOne => read_literals(alloc, input, node).map(Kind::ExactlyOne),
        KindName::BoolXor => read_literals(alloc, input, node).map(Kind::BoolXor),
        KindName::IntDiv => read_int_div(alloc, input, node),
        KindName::IntMod => read_int_mod(alloc, input, node),
        KindName::IntProd => read_int_prod(alloc, input, node),
        KindName::LinMax => read_lin_max(alloc, input, node),
        KindName::Linear => read_linear(alloc, input, node),
        KindName::AllDiff => read_all_diff(alloc, input, node),
        KindName::Element => read_element(alloc, input, node),
        KindName::Circuit => read_circuit(alloc, input, node),
        KindName::Table => read_table(alloc, input, node),
        KindName::Interval => read_interval(alloc, input, node),
        KindName::NoOverlap => read_intervals(alloc, input, node).map(Kind::NoOverlap),
        KindName::Cumulative => read_cumulative(alloc, input, node),
        KindName::Automaton => read_automaton(alloc, input, node),
        KindName::Inverse => read_inverse(alloc, input, node),
        KindName::Reservoir => read_reservoir(alloc, input, node),
        KindName::NoOverlap2d => read_boxes(alloc, input, node),
    }
}

/// Reads a field of a kind, which must be the first such field of its constraint.
#[tactic(auto, using(crate::proofs::Steps::kind_passes, crate::proofs::Steps::kind_stops))]
pub(crate) fn set_kind(
    alloc: Global,
    input: &Input,
    given: &mut Option<GivenKind>,
    name: KindName,
    field: &Field,
) -> Result<(), SchemaError>
    ensures passes { OnOk result (KindPasses (written_of input.now) field.now (message_of name)
        (is_given_as given.old name) (is_some given.old)) }
    ensures added { OnOk result (kind_list given.new
        ≡ kind_list given.old ++ map (read_kind (written_of input.now) name)
        (value_messages (values_of field.now.items))) }
    ensures none { OnOk result (is_some given.old ≡ false) }
    ensures set { OnOk result (is_given_as given.new name ≡ true) }
    ensures err { IfErr result (KindStops (written_of input.now) field.now (message_of name)
        (is_given_as given.old name) (is_some given.old)) }
{
    let node = kind_message(input, given, name, field)?;
    match read_kind(alloc, input, name, node) {
        Ok(kind) => {
            *given = Some(GivenKind { name, kind });
            Ok(())
        }
        Err(error) => Err(error),
    }
}
