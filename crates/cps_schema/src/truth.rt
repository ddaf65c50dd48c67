//! Truth values.
ghost use Rattle.std.specs.Prelude.{◌≡◌, ◌++◌, [], ◌∷◌, ◌||◌, false, Some, None, OnOk, IfErr, codes};
ghost use Rattle.std.specs.Option.{unwrap_or};
ghost use Rattle.std.specs.Str.{bytes_eq};
ghost use Rattle.cps_textproto.specs.Trees.{range_values, values_of};
ghost use Rattle.cps_schema.specs.Inputs.{written_of};
ghost use Rattle.cps_schema.specs.Truths.{truth_named, truth_numbered, truth_of, truth_at};
ghost use Rattle.cps_schema.specs.Tables.{truth};
ghost use Rattle.cps_schema.specs.Faults.{refused_at, truth_fault, values_fault};
ghost use Rattle.cps_schema.specs.Readings.{value_truths};
ghost use Rattle.cps_schema.specs.Answers.{Refuses};

use super::error::SchemaError;
use super::input::{Input, same_text, token_kind, token_text};
use super::number::size_of;
use super::single::{no_messages, wrong_kind};
use cps_lex::TokenKind;
use cps_textproto::{Field, Item, Items, TokenRange};

/// Whether a word names what is true.
fn names_true(name: &[u8]) -> bool
    ensures { result ≡ (bytes_eq name.now (codes "true") || bytes_eq name.now (codes "True")
        || bytes_eq name.now (codes "t")) }
{
    same_text(name, b"true") || same_text(name, b"True") || same_text(name, b"t")
}

/// Whether a word names what is false.
fn names_false(name: &[u8]) -> bool
    ensures { result ≡ (bytes_eq name.now (codes "false") || bytes_eq name.now (codes "False")
        || bytes_eq name.now (codes "f")) }
{
    same_text(name, b"false") || same_text(name, b"False") || same_text(name, b"f")
}

/// The truth value that a word names. `None` if it names none.
fn truth_named(name: &[u8]) -> Option<bool>
    ensures { result ≡ truth_named name.now }
{
    if names_true(name) {
        Some(true)
    } else if names_false(name) {
        Some(false)
    } else {
        None
    }
}

/// The truth value of a number: 1 is true, 0 is false, and no other number is one.
fn truth_numbered(size: Option<u64>) -> Option<bool>
    ensures { result ≡ truth_numbered size }
{
    match size {
        Some(1) => Some(true),
        Some(0) => Some(false),
        _ => None,
    }
}

/// The truth value that a token of this kind gives, if it gives one.
#[tactic(auto, using(crate::proofs::TruthValues::capped_truth))]
fn truth_of(kind: TokenKind, text: &[u8]) -> Option<bool>
    ensures { result ≡ truth_of (Some kind) text.now }
{
    match kind {
        TokenKind::Identifier => truth_named(text),
        TokenKind::Decimal | TokenKind::Octal | TokenKind::Hexadecimal => {
            truth_numbered(size_of(kind, text))
        }
        TokenKind::Float | TokenKind::Text | TokenKind::Sign => None,
    }
}

/// The truth value that the scalar at token `first` gives, if it gives one.
#[tactic(auto, unfolding(crate::specs::Truths::truth_at))]
fn truth_at(input: &Input, first: u32) -> Option<bool>
    ensures { result ≡ truth_at (written_of input.now) first }
{
    match token_kind(input, first as usize) {
        Some(kind) => truth_of(kind, token_text(input, first as usize)),
        None => None,
    }
}

/// Adds the truth value of the scalar at token `first`.
fn add_truth(input: &Input, list: &mut Vec<bool>, first: u32) -> Result<(), SchemaError>
    ensures fault { OnOk result (truth_fault (truth_at (written_of input.now) first) ≡ None) }
    ensures added { OnOk result (list.new.items
        ≡ list.old.items ++ unwrap_or (truth_at (written_of input.now) first) false ∷ []) }
    ensures err { IfErr result (Refuses (refused_at first (truth_fault (truth_at (written_of input.now) first)))) }
{
    match truth_at(input, first) {
        Some(value) => {
            list.push(value)?;
            Ok(())
        }
        None => Err(wrong_kind(first as usize)),
    }
}

/// Adds the truth values of the scalars of a list.
fn add_truth_ranges(
    input: &Input,
    list: &mut Vec<bool>,
    token_ranges: &[TokenRange],
) -> Result<(), SchemaError>
    ensures fault { OnOk result (values_fault (written_of input.now) (Some truth) (range_values token_ranges.now)
        ≡ None) }
    ensures added { OnOk result (list.new.items
        ≡ list.old.items ++ value_truths (written_of input.now) (range_values token_ranges.now)) }
    ensures err { IfErr result (Refuses
        (values_fault (written_of input.now) (Some truth) (range_values token_ranges.now))) }
{
    for token_range in token_ranges {
        add_truth(input, list, token_range.first)?;
    }
    Ok(())
}

/// Adds the truth values of a field.
pub(crate) fn add_truths(
    input: &Input,
    list: &mut Vec<bool>,
    field: &Field,
) -> Result<(), SchemaError>
    ensures fault { OnOk result (values_fault (written_of input.now) (Some truth) (values_of field.now.items) ≡ None) }
    ensures added { OnOk result (list.new.items
        ≡ list.old.items ++ value_truths (written_of input.now) (values_of field.now.items)) }
    ensures err { IfErr result (Refuses
        (values_fault (written_of input.now) (Some truth) (values_of field.now.items))) }
{
    match &field.items {
        Items::One(Item::Scalar { first, .. }) => add_truth(input, list, *first),
        Items::One(Item::Message { first, .. }) => Err(wrong_kind(*first as usize)),
        Items::Scalars(token_ranges) => add_truth_ranges(input, list, token_ranges),
        Items::Messages(messages) => no_messages(messages),
    }
}
