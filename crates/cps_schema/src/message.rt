//! Messages: what each is read as, and the fields that take one message or any number of them.
ghost use Rattle.std.specs.Prelude.{◌≡◌, ◌++◌, [], ◌∷◌, true, None, Some, map, is_some, OnOk, IfOk, IfErr, option_to_list};
ghost use Rattle.cps_textproto.specs.Trees.{Tree, tree_of, values_of};
ghost use Rattle.cps_schema.specs.Written.{Written};
ghost use Rattle.cps_schema.specs.Inputs.{written_of};
ghost use Rattle.cps_schema.specs.Tables as tables;
ghost use Rattle.cps_schema.specs.Faults.{fields_fault, values_fault};
ghost use Rattle.cps_schema.specs.Readings.{value_messages};
ghost use Rattle.cps_schema.specs.Values.{nested_trees, trees_fault};
ghost use Rattle.cps_schema.specs.Answers.{Refuses};
ghost use Rattle.cps_schema.specs.Steps.{SinglePasses, SingleStops};

use super::error::SchemaError;
use super::input::Input;
use super::single::{Messages, messages_of, single_message};
use cps_model::FaultName;
use cps_textproto::{Field, Nested, Node};
use std::alloc::Global;

/// What a message is read as.
pub(crate) trait Message: Sized + Drop {
    // The message.
    ghost fields: { tables.Message };

    // What its fields give.
    ghost reads: { Written → Tree → Self };

    /// What the fields of a message give, or the first that is refused.
    fn read(alloc: Global, input: &Input, node: &Node) -> Result<Self, SchemaError>
        ensures accepted { IfOk result (λ _. fields_fault (written_of input.now) fields [] (tree_of node.now) ≡ None) }
        ensures reading { IfOk result (λ value. value ≡ reads (written_of input.now) (tree_of node.now)) }
        ensures err { IfErr result (Refuses (fields_fault (written_of input.now) fields [] (tree_of node.now))) };
}

/// Adds what a message gives.
fn add_message<M: Message>(
    alloc: Global,
    input: &Input,
    values: &mut Vec<M>,
    node: &Node,
) -> Result<(), SchemaError>
    ensures fault { OnOk result (fields_fault (written_of input.now) M.fields [] (tree_of node.now) ≡ None) }
    ensures added { OnOk result (values.new.items
        ≡ values.old.items ++ M.reads (written_of input.now) (tree_of node.now) ∷ []) }
    ensures err { IfErr result (Refuses (fields_fault (written_of input.now) M.fields [] (tree_of node.now))) }
{
    match M::read(alloc, input, node) {
        Ok(value) => {
            values.push(value)?;
            Ok(())
        }
        Err(error) => Err(error),
    }
}

/// Adds what the messages of a list give.
fn add_listed<M: Message>(
    alloc: Global,
    input: &Input,
    values: &mut Vec<M>,
    list: &[Nested],
) -> Result<(), SchemaError>
    ensures fault { OnOk result (trees_fault (written_of input.now) M.fields (nested_trees list.now) ≡ None) }
    ensures added { OnOk result (values.new.items
        ≡ values.old.items ++ map (M.reads (written_of input.now)) (nested_trees list.now)) }
    ensures err { IfErr result (Refuses (trees_fault (written_of input.now) M.fields (nested_trees list.now))) }
{
    for nested in list {
        add_message(alloc, input, values, &nested.node)?;
    }
    Ok(())
}

/// Adds what the messages of a field give.
pub(crate) fn add_messages<M: Message>(
    alloc: Global,
    input: &Input,
    values: &mut Vec<M>,
    field: &Field,
) -> Result<(), SchemaError>
    ensures fault { OnOk result (values_fault (written_of input.now) (Some (tables.message M.fields))
        (values_of field.now.items) ≡ None) }
    ensures added { OnOk result (values.new.items
        ≡ values.old.items ++ map (M.reads (written_of input.now)) (value_messages (values_of field.now.items))) }
    ensures err { IfErr result (Refuses
        (values_fault (written_of input.now) (Some (tables.message M.fields)) (values_of field.now.items))) }
{
    match messages_of(field) {
        Ok(Messages::One(node)) => add_message(alloc, input, values, node),
        Ok(Messages::List(list)) => add_listed(alloc, input, values, list),
        Err(error) => Err(error),
    }
}

/// Reads what the message of a single field gives, which may not have been read before.
#[tactic(auto, using(crate::proofs::Steps::single_passes, crate::proofs::Steps::single_stops))]
pub(crate) fn set_once<M: Message>(
    alloc: Global,
    input: &Input,
    slot: &mut Option<M>,
    field: &Field,
) -> Result<(), SchemaError>
    ensures passes { OnOk result (SinglePasses (written_of input.now) field.now (tables.message M.fields)
        (is_some slot.old)) }
    ensures added { OnOk result (option_to_list slot.new
        ≡ option_to_list slot.old ++ map (M.reads (written_of input.now))
        (value_messages (values_of field.now.items))) }
    ensures some { OnOk result (is_some slot.new ≡ true) }
    ensures err { IfErr result (SingleStops (written_of input.now) field.now (tables.message M.fields)
        (is_some slot.old)) }
{
    if slot.is_some() {
        return Err(SchemaError::Fault {
            name: FaultName::Repeated,
            token: field.name as usize,
        });
    }
    match single_message(input, field) {
        Ok(node) => match M::read(alloc, input, node) {
            Ok(value) => {
                *slot = Some(value);
                Ok(())
            }
            Err(error) => Err(error),
        },
        Err(error) => Err(error),
    }
}
