//! The numbers of repeated fields.
//!
//! A field adds its numbers behind those of the fields before it, whether it has one or a list. The first field makes
//! room for exactly its own, so that a list which one field gives has no room to spare; later ones let it grow.
ghost use Rattle.std.specs.Prelude.{◌≡◌, ◌++◌, [], ◌∷◌, Some, None, OnOk, IfErr};
ghost use Rattle.cps_textproto.specs.Trees.{range_values, values_of};
ghost use Rattle.cps_schema.specs.declared.number.Number.TheVariants.{Int64, Int32};
ghost use Rattle.cps_schema.specs.Written.{number_at};
ghost use Rattle.cps_schema.specs.Inputs.{written_of};
ghost use Rattle.cps_schema.specs.Numbers.{number_fault};
ghost use Rattle.cps_schema.specs.Tables.{number};
ghost use Rattle.cps_schema.specs.Faults.{refused_at, values_fault};
ghost use Rattle.cps_schema.specs.Readings.{value_numbers};
ghost use Rattle.cps_schema.specs.Answers.{Refuses};

use super::error::SchemaError;
use super::input::Input;
use super::number::{Number, int32_at, number_at};
use super::single::no_messages;
use cps_model::FaultName;
use cps_textproto::{Field, Item, Items, TokenRange};
use std::alloc::AllocError;

/// Makes room for so many items in a list that has none.
fn make_room<T: Drop>(list: &mut Vec<T>, count: usize) -> Result<(), AllocError>
    ensures { list.new.items ≡ list.old.items }
{
    if list.is_empty() {
        list.reserve_exact(count)?;
    }
    Ok(())
}

/// Adds the number of the scalar at token `first`.
fn add_int(input: &Input, list: &mut Vec<i64>, first: u32) -> Result<(), SchemaError>
    ensures fault { OnOk result (number_fault (written_of input.now) Int64 first ≡ None) }
    ensures added { OnOk result (list.new.items ≡ list.old.items ++ number_at (written_of input.now) first ∷ []) }
    ensures err { IfErr result (Refuses (refused_at first (number_fault (written_of input.now) Int64 first))) }
{
    match number_at(input, Number::Int64, first) {
        Ok(value) => {
            list.push(value)?;
            Ok(())
        }
        Err(name) => Err(SchemaError::Fault {
            name,
            token: first as usize,
        }),
    }
}

/// Adds the numbers of the scalars of a list.
fn add_int_ranges(
    input: &Input,
    list: &mut Vec<i64>,
    token_ranges: &[TokenRange],
) -> Result<(), SchemaError>
    ensures fault { OnOk result (values_fault (written_of input.now) (Some (number Int64))
        (range_values token_ranges.now)
        ≡ None) }
    ensures added { OnOk result (list.new.items
        ≡ list.old.items ++ value_numbers (written_of input.now) (range_values token_ranges.now)) }
    ensures err { IfErr result (Refuses
        (values_fault (written_of input.now) (Some (number Int64)) (range_values token_ranges.now))) }
{
    make_room(list, token_ranges.len())?;
    for token_range in token_ranges {
        add_int(input, list, token_range.first)?;
    }
    Ok(())
}

/// Adds the numbers of a field.
pub(crate) fn add_ints(input: &Input, list: &mut Vec<i64>, field: &Field) -> Result<(), SchemaError>
    ensures fault { OnOk result (values_fault (written_of input.now) (Some (number Int64)) (values_of field.now.items)
        ≡ None) }
    ensures added { OnOk result (list.new.items
        ≡ list.old.items ++ value_numbers (written_of input.now) (values_of field.now.items)) }
    ensures err { IfErr result (Refuses
        (values_fault (written_of input.now) (Some (number Int64)) (values_of field.now.items))) }
{
    match &field.items {
        Items::One(Item::Scalar { first, .. }) => {
            make_room(list, 1)?;
            add_int(input, list, *first)
        }
        Items::One(Item::Message { first, .. }) => Err(SchemaError::Fault {
            name: FaultName::WrongKind,
            token: *first as usize,
        }),
        Items::Scalars(token_ranges) => add_int_ranges(input, list, token_ranges),
        Items::Messages(messages) => no_messages(messages),
    }
}

/// Adds the reference of the scalar at token `first`.
fn add_ref(input: &Input, list: &mut Vec<i32>, first: u32) -> Result<(), SchemaError>
    ensures fault { OnOk result (number_fault (written_of input.now) Int32 first ≡ None) }
    ensures added { OnOk result (list.new.items ≡ list.old.items ++ number_at (written_of input.now) first ∷ []) }
    ensures err { IfErr result (Refuses (refused_at first (number_fault (written_of input.now) Int32 first))) }
{
    match int32_at(input, first) {
        Ok(value) => {
            list.push(value)?;
            Ok(())
        }
        Err(name) => Err(SchemaError::Fault {
            name,
            token: first as usize,
        }),
    }
}

/// Adds the references of the scalars of a list.
fn add_ref_ranges(
    input: &Input,
    list: &mut Vec<i32>,
    token_ranges: &[TokenRange],
) -> Result<(), SchemaError>
    ensures fault { OnOk result (values_fault (written_of input.now) (Some (number Int32))
        (range_values token_ranges.now)
        ≡ None) }
    ensures added { OnOk result (list.new.items
        ≡ list.old.items ++ value_numbers (written_of input.now) (range_values token_ranges.now)) }
    ensures err { IfErr result (Refuses
        (values_fault (written_of input.now) (Some (number Int32)) (range_values token_ranges.now))) }
{
    make_room(list, token_ranges.len())?;
    for token_range in token_ranges {
        add_ref(input, list, token_range.first)?;
    }
    Ok(())
}

/// Adds the references of a field.
pub(crate) fn add_refs(input: &Input, list: &mut Vec<i32>, field: &Field) -> Result<(), SchemaError>
    ensures fault { OnOk result (values_fault (written_of input.now) (Some (number Int32)) (values_of field.now.items)
        ≡ None) }
    ensures added { OnOk result (list.new.items
        ≡ list.old.items ++ value_numbers (written_of input.now) (values_of field.now.items)) }
    ensures err { IfErr result (Refuses
        (values_fault (written_of input.now) (Some (number Int32)) (values_of field.now.items))) }
{
    match &field.items {
        Items::One(Item::Scalar { first, .. }) => {
            make_room(list, 1)?;
            add_ref(input, list, *first)
        }
        Items::One(Item::Message { first, .. }) => Err(SchemaError::Fault {
            name: FaultName::WrongKind,
            token: *first as usize,
        }),
        Items::Scalars(token_ranges) => add_ref_ranges(input, list, token_ranges),
        Items::Messages(messages) => no_messages(messages),
    }
}
