//! The texts that scalars write.
ghost use Rattle.std.specs.Prelude.{◌≡◌, ◌++◌, [], ◌∷◌, true, false, Some, None, is_some, OnOk, IfOk, IfErr, IfSome, IfNone, option_to_list};
ghost use Rattle.std.specs.List.{list_all, flat_map};
ghost use Rattle.std.specs.Str.{is_utf8};
ghost use Rattle.cps_textproto.specs.Trees.{values_of};
ghost use Rattle.cps_schema.specs.Inputs.{written_of, single_fault};
ghost use Rattle.cps_schema.specs.Texts.{scalar_tokens, is_string, string_value, text_at};
ghost use Rattle.cps_schema.specs.Tables.{text};
ghost use Rattle.cps_schema.specs.Faults.{refused_at, text_fault};
ghost use Rattle.cps_schema.specs.Readings.{first_or, value_texts};
ghost use Rattle.cps_schema.specs.Steps.{SinglePasses, SingleStops};
ghost use Rattle.cps_schema.specs.Answers.{Refuses};

use super::error::SchemaError;
use super::input::{Input, span_text};
use super::single::{Value, alone, bracket, wrong_kind};
use cps_lex::{Token, TokenKind, push_text};
use cps_model::{FaultName, Text};
use cps_textproto::{Field, TokenRange};
use std::alloc::{AllocError, Global};

/// The tokens of a scalar.
fn scalar_tokens<'a>(input: &Input<'a>, token_range: TokenRange) -> &'a [Token]
    ensures { result.now ≡ scalar_tokens (written_of input.now) token_range.first token_range.end }
{
    let tokens = input.tokens;
    let rest = &tokens[(token_range.first as usize).min(tokens.len())..];
    let count = (token_range.end as usize).saturating_sub(token_range.first as usize);
    &rest[..count.min(rest.len())]
}

fn is_string(token: Token) -> bool
    ensures { result ≡ is_string token }
{
    match token.kind {
        TokenKind::Text => true,
        _ => false,
    }
}

fn are_strings(tokens: &[Token]) -> bool
    ensures { result ≡ list_all is_string tokens.now }
{
    for token in tokens {
        if !is_string(*token) {
            return false;
        }
    }
    true
}

/// The bytes of strings, joined.
fn joined(alloc: Global, bytes: &[u8], tokens: &[Token]) -> Result<Vec<u8>, AllocError>
    ensures { IfOk result (λ v. v.items ≡ flat_map (string_value bytes.now) tokens.now) }
{
    let mut value = Vec::new(alloc);
    for token in tokens {
        let text = span_text(bytes, token.start as usize, token.end as usize);
        // What a string denotes is no longer than what stands between its quotes.
        value.reserve(text.len().saturating_sub(2))?;
        push_text(text, &mut value)?;
    }
    Ok(value)
}

/// These bytes as a text. `None` if they are not UTF-8.
fn utf8_text(bytes: Vec<u8>) -> Option<Text>
    ensures same { IfSome result (λ t. t ≡ bytes.items) }
    ensures good { IfSome result (λ t. is_utf8 bytes.items ≡ true) }
    ensures none { IfNone result (is_utf8 bytes.items ≡ false) }
{
    match String::from_utf8(bytes) {
        Ok(text) => Some(Text::from_string(text)),
        Err(_) => None,
    }
}

/// The text that a scalar writes.
#[tactic(auto, unfolding(crate::specs::Texts::text_at))]
fn text_at(alloc: Global, input: &Input, token_range: TokenRange) -> Result<Text, SchemaError>
    ensures ok { IfOk result (λ t. text_at (written_of input.now) token_range.first token_range.end ≡ Some t) }
    ensures err { IfErr result (Refuses
        (refused_at token_range.first
        (text_fault (text_at (written_of input.now) token_range.first token_range.end)))) }
{
    let tokens = scalar_tokens(input, token_range);
    if !are_strings(tokens) {
        return Err(wrong_kind(token_range.first as usize));
    }
    let bytes = joined(alloc, input.bytes, tokens)?;
    match utf8_text(bytes) {
        Some(text) => Ok(text),
        None => Err(wrong_kind(token_range.first as usize)),
    }
}

/// The text of a field that takes one.
pub(crate) fn single_text(alloc: Global, input: &Input, field: &Field) -> Result<Text, SchemaError>
    ensures fault { IfOk result (λ _. single_fault (written_of input.now) text field.now ≡ None) }
    ensures value { IfOk result (λ t. value_texts (written_of input.now) (values_of field.now.items) ≡ t ∷ []) }
    ensures err { IfErr result (Refuses (single_fault (written_of input.now) text field.now)) }
{
    match alone(field) {
        Some(Value::Scalar(token_range)) => text_at(alloc, input, token_range),
        Some(Value::Message(first, _)) => Err(wrong_kind(first as usize)),
        None => Err(wrong_kind(bracket(input, field.name))),
    }
}

/// Reads the name that a message gives, which may not have been read before.
pub(crate) fn set_name(
    alloc: Global,
    input: &Input,
    slot: &mut Option<Text>,
    field: &Field,
) -> Result<(), SchemaError>
    ensures passes { OnOk result (SinglePasses (written_of input.now) field.now text (is_some slot.old)) }
    ensures added { OnOk result (option_to_list slot.new
        ≡ option_to_list slot.old ++ value_texts (written_of input.now) (values_of field.now.items)) }
    ensures some { OnOk result (is_some slot.new ≡ true) }
    ensures err { IfErr result (SingleStops (written_of input.now) field.now text (is_some slot.old)) }
{
    if slot.is_some() {
        return Err(SchemaError::Fault {
            name: FaultName::Repeated,
            token: field.name as usize,
        });
    }
    match single_text(alloc, input, field) {
        Ok(name) => {
            *slot = Some(name);
            Ok(())
        }
        Err(error) => Err(error),
    }
}

/// The name that was read, or the empty one if there was none.
pub(crate) fn name_or_empty(alloc: Global, name: Option<Text>) -> Text
    ensures { result ≡ first_or [] (option_to_list name ++ []) }
{
    match name {
        Some(name) => name,
        None => Text::new(alloc),
    }
}
