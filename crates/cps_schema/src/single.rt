//! The values of fields that take one, and the messages of those that take any number.
//!
//! A field holds scalars or messages, in a list or not, and what a table wants of it is asked here in one place: a list
//! where one value is taken is refused at its bracket, messages where scalars are taken at the first of them, and the
//! other way round. A single field that stands twice is refused as repeated: it is not read as the last of the two.
ghost use Rattle.std.specs.Prelude.{◌≡◌, ◌++◌, [], ◌∷◌, true, false, Some, None, is_some, OnOk, IfOk, IfErr, IfSome, IfNone, option_to_list};
ghost use Rattle.std.specs.Option.{option_or};
ghost use Rattle.cps_textproto.specs.declared.tree.Items.TheVariants as Items;
ghost use Rattle.cps_textproto.specs.Trees.{tree_of, field_list, values_of, range_values, nested_value, no_values, scalar_value};
ghost use Rattle.cps_schema.specs.declared.number.Number.{Number};
ghost use Rattle.cps_schema.specs.Written.{Written};
ghost use Rattle.cps_schema.specs.Inputs.{written_of, single_fault};
ghost use Rattle.cps_schema.specs.Tables.{Message, number, truth, message};
ghost use Rattle.cps_schema.specs.Faults.{bracket, is_alone, values_fault, fields_fault};
ghost use Rattle.cps_schema.specs.Readings.{value_numbers, value_messages};
ghost use Rattle.cps_schema.specs.Answers.{Refuses};
ghost use Rattle.cps_schema.specs.Steps.{SinglePasses, SingleStops};
ghost use Rattle.cps_schema.specs.Values.{value_of, trees_of, trees_fault};

use super::error::SchemaError;
use super::input::{Input, same_text, token_text};
use super::number::{Number, number_at};
use cps_model::FaultName;
use cps_textproto::{Field, Item, Items, Nested, Node, TokenRange};

/// The fields of a message.
#[tactic(auto, using(cps_textproto::proofs::Views::tree_of_node))]
pub(crate) fn fields_of(node: &Node) -> &[Field]
    ensures { field_list result.now ≡ tree_of node.now }
{
    node.fields.as_slice()
}

/// The token of the `[` of a field's list.
#[tactic(auto, unfolding(crate::specs::Faults::bracket))]
pub(crate) fn bracket(input: &Input, name: u32) -> usize
    ensures { result ≡ bracket (written_of input.now) name }
{
    let name = name as usize;
    if same_text(token_text(input, name + 1), b":") {
        name + 2
    } else {
        name + 1
    }
}

/// The fault of a value of another type than the field's, at its first token.
pub(crate) fn wrong_kind(token: usize) -> SchemaError
    ensures { result ≡ SchemaError.Fault FaultName.WrongKind token }
{
    SchemaError::Fault {
        name: FaultName::WrongKind,
        token,
    }
}

/// A value: a scalar, or a message with the token that opens it.
pub(crate) enum Value<'a> {
    Scalar(TokenRange),
    Message(u32, &'a Node),
}

/// The scalar of a list of one. `None` if the list has another length.
#[tactic(auto, using(crate::proofs::Values::not_alone))]
fn only(token_ranges: &[TokenRange]) -> Option<TokenRange>
    ensures none { IfNone result (is_alone false (range_values token_ranges.now) ≡ false) }
    ensures some { IfSome result (λ token_range. range_values token_ranges.now
        ≡ scalar_value token_range.first token_range.end no_values) }
{
    if token_ranges.len() == 1 {
        Some(token_ranges[0])
    } else {
        None
    }
}

/// The message of a list of one. `None` if the list has another length.
#[tactic(auto, using(cps_textproto::proofs::Views::values_of_messages, crate::proofs::Values::no_lone_message))]
fn only_message(list: &Vec<Nested>) -> Option<&Nested>
    ensures none { IfNone result (is_alone false (values_of (Items.Messages list.now)) ≡ false) }
    ensures some { IfSome result (λ nested. values_of (Items.Messages list.now) ≡ nested_value nested.now no_values) }
{
    if list.len() == 1 {
        Some(&list[0])
    } else {
        None
    }
}

/// The one value of a field. `None` if the field has a list.
#[tactic(auto, using(cps_textproto::proofs::Views::nested_parts))]
pub(crate) fn alone(field: &Field) -> Option<Value<'_>>
    ensures none { IfNone result (is_alone field.now.list (values_of field.now.items) ≡ false) }
    ensures outside { IfSome result (λ _. field.now.list ≡ false) }
    ensures value { IfSome result (λ v. values_of field.now.items ≡ value_of v) }
{
    if field.list {
        return None;
    }
    match &field.items {
        Items::One(Item::Scalar { first, end }) => Some(Value::Scalar(TokenRange {
            first: *first,
            end: *end,
        })),
        Items::One(Item::Message { first, node }) => Some(Value::Message(*first, node)),
        Items::Scalars(token_ranges) => match only(token_ranges) {
            Some(token_range) => Some(Value::Scalar(token_range)),
            None => None,
        },
        Items::Messages(list) => match only_message(list) {
            Some(nested) => Some(Value::Message(nested.first, &nested.node)),
            None => None,
        },
    }
}

/// The number of a field that takes one.
pub(crate) fn single_number(input: &Input, kind: Number, field: &Field) -> Result<i64, SchemaError>
    ensures fault { IfOk result (λ _. single_fault (written_of input.now) (number kind) field.now ≡ None) }
    ensures value { IfOk result (λ z. value_numbers (written_of input.now) (values_of field.now.items) ≡ z ∷ []) }
    ensures err { IfErr result (Refuses (single_fault (written_of input.now) (number kind) field.now)) }
{
    match alone(field) {
        Some(Value::Scalar(token_range)) => match number_at(input, kind, token_range.first) {
            Ok(value) => Ok(value),
            Err(name) => Err(SchemaError::Fault {
                name,
                token: token_range.first as usize,
            }),
        },
        Some(Value::Message(first, _)) => Err(wrong_kind(first as usize)),
        None => Err(wrong_kind(bracket(input, field.name))),
    }
}

/// Reads the number of a single field, which may not have been read before.
pub(crate) fn set_number(
    input: &Input,
    kind: Number,
    slot: &mut Option<i64>,
    field: &Field,
) -> Result<(), SchemaError>
    ensures passes { OnOk result (SinglePasses (written_of input.now) field.now (number kind) (is_some slot.old)) }
    ensures added { OnOk result (option_to_list slot.new
        ≡ option_to_list slot.old ++ value_numbers (written_of input.now) (values_of field.now.items)) }
    ensures some { OnOk result (is_some slot.new ≡ true) }
    ensures err { IfErr result (SingleStops (written_of input.now) field.now (number kind) (is_some slot.old)) }
{
    if slot.is_some() {
        return Err(SchemaError::Fault {
            name: FaultName::Repeated,
            token: field.name as usize,
        });
    }
    match single_number(input, kind, field) {
        Ok(value) => {
            *slot = Some(value);
            Ok(())
        }
        Err(error) => Err(error),
    }
}

/// The message of a field that takes one.
pub(crate) fn single_message<'a>(input: &Input, field: &'a Field) -> Result<&'a Node, SchemaError>
    ensures messages { IfOk result (λ node. value_messages (values_of field.now.items) ≡ tree_of node.now ∷ []) }
    ensures inner { IfOk result (λ node. (m : Message) →
        single_fault (written_of input.now) (message m) field.now
        ≡ option_or (fields_fault (written_of input.now) m [] (tree_of node.now)) None) }
    ensures err { IfErr result (λ e. (m : Message)
        → Refuses (single_fault (written_of input.now) (message m) field.now) e) }
{
    match alone(field) {
        Some(Value::Message(_, node)) => Ok(node),
        Some(Value::Scalar(token_range)) => Err(wrong_kind(token_range.first as usize)),
        None => Err(wrong_kind(bracket(input, field.name))),
    }
}

/// Refuses the first of these messages, where scalars are taken. An empty list is not wrong.
#[tactic(auto, using(cps_textproto::proofs::Views::values_of_messages, crate::proofs::Values::first_message))]
pub(crate) fn no_messages(messages: &Vec<Nested>) -> Result<(), SchemaError>
    ensures none { OnOk result (values_of (Items.Messages messages.now) ≡ no_values) }
    ensures err { IfErr result (λ e. (w : Written) (type : Number)
        → Refuses (values_fault w (Some (number type)) (values_of (Items.Messages messages.now))) e) }
    ensures truths { IfErr result
        (λ e. (w : Written) → Refuses (values_fault w (Some truth) (values_of (Items.Messages messages.now))) e) }
{
    match messages.first() {
        None => Ok(()),
        Some(nested) => Err(wrong_kind(nested.first as usize)),
    }
}

/// The messages of a field: one, or those of a list.
pub(crate) enum Messages<'a> {
    One(&'a Node),
    List(&'a [Nested]),
}

/// Refuses the first of these scalars, where messages are taken. An empty list is not wrong.
fn no_scalars(token_ranges: &[TokenRange]) -> Result<(), SchemaError>
    ensures none { OnOk result (range_values token_ranges.now ≡ no_values) }
    ensures err { IfErr result (λ e. (w : Written) (m : Message)
        → Refuses (values_fault w (Some (message m)) (range_values token_ranges.now)) e) }
{
    match token_ranges.first() {
        None => Ok(()),
        Some(token_range) => Err(wrong_kind(token_range.first as usize)),
    }
}

/// The messages of a field that takes any number.
#[tactic(auto, using(cps_textproto::proofs::Views::values_of_messages, crate::proofs::Values::listed_messages, crate::proofs::Values::listed_fault))]
pub(crate) fn messages_of(field: &Field) -> Result<Messages<'_>, SchemaError>
    ensures messages { IfOk result (λ ms. value_messages (values_of field.now.items) ≡ trees_of ms) }
    ensures inner { IfOk result (λ ms. (w : Written) (m : Message) →
        values_fault w (Some (message m)) (values_of field.now.items) ≡ trees_fault w m (trees_of ms)) }
    ensures err { IfErr result (λ e. (w : Written) (m : Message)
        → Refuses (values_fault w (Some (message m)) (values_of field.now.items)) e) }
{
    match &field.items {
        Items::One(Item::Message { node, .. }) => Ok(Messages::One(node)),
        Items::One(Item::Scalar { first, .. }) => Err(wrong_kind(*first as usize)),
        Items::Scalars(token_ranges) => match no_scalars(token_ranges) {
            Ok(()) => Ok(Messages::List(&[])),
            Err(error) => Err(error),
        },
        Items::Messages(list) => Ok(Messages::List(list)),
    }
}
