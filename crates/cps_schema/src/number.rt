//! The numbers that scalars are worth.
//!
//! A token is read as a size of 64 bits, which stops at the greatest, and the sign and the type then decide whether it
//! fits: so no length of digits overflows. Numbers that are doubles in CP-SAT's messages take floats too, as far as
//! these are whole (`float`), and no octal or hexadecimal numbers. What is wrong with a token is told apart: the wrong
//! kind of token, a number out of its range, a number that is not whole.
ghost use Rattle.std.specs.Prelude.{◌≡◌, ◌^◌, ◌≤◌, pos, neg_ℤ, Some, IsTrue, IfOk, IfErr};
ghost use Rattle.std.specs.Option.{option_map};
ghost use Rattle.cps_schema.specs.Digits.{capped};
ghost use Rattle.cps_schema.specs.Written.{token_size, number_at, is_negative};
ghost use Rattle.cps_schema.specs.Inputs.{written_of};
ghost use Rattle.cps_schema.specs.Numbers.{fits, limit, misfit, word_fault, other_base_fault, float_fault, token_fault, fitted, number_fault};

use super::digits::{decimal_value, digits_after};
use super::float::float_value;
use super::input::{Input, behind, same_text, token_kind, token_text};
use cps_lex::TokenKind;
use cps_model::FaultName;

/// Up to this magnitude a double counts by ones.
const EXACT_LIMIT: u64 = 1 << 53;

/// How many bytes `0x` has, which stand in front of a hexadecimal number's digits.
const HEXADECIMAL_PREFIX: u64 = 2;

/// A type of numbers.
#[derive(Clone, Copy)]
pub enum Number {
    Int64,
    Int32,
    /// A whole number of magnitude at most 2^53, up to which a double counts by ones.
    Exact,
}

/// The greatest magnitude of a number of the type, among those below 0 or the others.
fn limit(number: Number, negative: bool) -> u64
    ensures { result ≡ limit number negative }
{
    match number {
        Number::Int64 => i64::MAX as u64 + negative as u64,
        Number::Int32 => i32::MAX as u64 + negative as u64,
        Number::Exact => EXACT_LIMIT,
    }
}

/// The number of this size below 0.
fn negated(size: u64) -> i64
    requires { size ≤ 2 ^ 63 }
    ensures { result ≡ neg_ℤ (pos size) }
{
    if size == 0 { 0 } else { -1 - (size - 1) as i64 }
}

/// The number of this size and sign. `None` if the type does not have it.
#[tactic(auto, using(crate::proofs::Decimals::fits_signed))]
fn in_type(number: Number, negative: bool, size: u64) -> Option<i64>
    ensures { result ≡ fitted number negative (Some size) }
{
    if size > limit(number, negative) {
        None
    } else if negative {
        Some(negated(size))
    } else {
        Some(size as i64)
    }
}

/// Whether a `-` stands in front of the scalar at token `first`.
#[tactic(auto, unfolding(crate::specs::Written::is_negative))]
pub(crate) fn is_negative(input: &Input, first: u32) -> bool
    ensures { result ≡ is_negative (written_of input.now) first }
{
    same_text(token_text(input, first as usize), b"-")
}

/// The whole number that a token of this kind writes, or the greatest of 64 bits where it is greater, if it writes one.
pub(crate) fn size_of(kind: TokenKind, text: &[u8]) -> Option<u64>
    ensures { result ≡ option_map capped (token_size (Some kind) text.now) }
{
    match kind {
        TokenKind::Decimal => Some(decimal_value(text)),
        TokenKind::Octal => Some(digits_after(8, 0, text)),
        TokenKind::Hexadecimal => Some(digits_after(16, 0, behind(text, HEXADECIMAL_PREFIX))),
        TokenKind::Float => float_value(text),
        TokenKind::Identifier | TokenKind::Text | TokenKind::Sign => None,
    }
}

/// The whole number that a token writes behind its sign, if it writes one and the type has it.
pub(crate) fn whole_number(
    number: Number,
    negative: bool,
    kind: TokenKind,
    text: &[u8],
) -> Option<i64>
    ensures { result ≡ fitted number negative (token_size (Some kind) text.now) }
{
    match size_of(kind, text) {
        Some(size) => in_type(number, negative, size),
        None => None,
    }
}

/// What is wrong with a token of this kind, whatever it writes. `None` if its kind is right.
fn token_fault(number: Number, kind: TokenKind) -> Option<FaultName>
    ensures { result ≡ token_fault number kind }
{
    match kind {
        TokenKind::Decimal => None,
        TokenKind::Octal | TokenKind::Hexadecimal => other_base_fault(number),
        TokenKind::Float => float_fault(number),
        TokenKind::Identifier => Some(word_fault(number)),
        TokenKind::Text | TokenKind::Sign => Some(FaultName::WrongKind),
    }
}

/// The number that the scalar at token `first` is worth, if the type has it.
#[tactic(auto, unfolding(crate::specs::Numbers::number_fault, crate::specs::Written::number_at, crate::specs::Written::size_at))]
pub(crate) fn number_at(input: &Input, number: Number, first: u32) -> Result<i64, FaultName>
    ensures fault { IfOk result (λ _. number_fault (written_of input.now) number first ≡ None) }
    ensures value { IfOk result (λ z. z ≡ number_at (written_of input.now) first) }
    ensures fits { IfOk result (λ z. IsTrue (fits number z)) }
    ensures err { IfErr result (λ name. number_fault (written_of input.now) number first ≡ Some name) }
{
    let negative = is_negative(input, first);
    let token = first as usize + negative as usize;
    let Some(kind) = token_kind(input, token) else {
        return Err(FaultName::WrongKind);
    };
    if let Some(name) = token_fault(number, kind) {
        return Err(name);
    }
    match whole_number(number, negative, kind, token_text(input, token)) {
        Some(value) => Ok(value),
        None => Err(misfit(number)),
    }
}

/// The number as one of 32 bits.
#[tactic(auto, unfolding(crate::specs::Numbers::fits))]
fn narrow(value: i64) -> i32
    requires { IsTrue (fits Number.Int32 value) }
    ensures { result ≡ value }
{
    value as i32
}

/// The number of 32 bits that the scalar at token `first` is worth.
pub(crate) fn int32_at(input: &Input, first: u32) -> Result<i32, FaultName>
    ensures fault { IfOk result (λ _. number_fault (written_of input.now) Number.Int32 first ≡ None) }
    ensures value { IfOk result (λ z. z ≡ number_at (written_of input.now) first) }
    ensures err { IfErr result (λ name. number_fault (written_of input.now) Number.Int32 first ≡ Some name) }
{
    match number_at(input, Number::Int32, first) {
        Ok(value) => Ok(narrow(value)),
        Err(name) => Err(name),
    }
}

/// What is wrong with a number outside the type.
fn misfit(number: Number) -> FaultName
    ensures { result ≡ misfit number }
{
    match number {
        Number::Int64 | Number::Int32 => FaultName::OutOfRange,
        Number::Exact => FaultName::NotWhole,
    }
}

/// What is wrong with a word as a number of the type.
fn word_fault(number: Number) -> FaultName
    ensures { result ≡ word_fault number }
{
    match number {
        Number::Int64 | Number::Int32 => FaultName::WrongKind,
        Number::Exact => FaultName::NotWhole,
    }
}

/// What is wrong with an octal or hexadecimal number as one of the type.
fn other_base_fault(number: Number) -> Option<FaultName>
    ensures { result ≡ other_base_fault number }
{
    match number {
        Number::Int64 | Number::Int32 => None,
        Number::Exact => Some(FaultName::WrongKind),
    }
}

/// What is wrong with a float as a number of the type.
fn float_fault(number: Number) -> Option<FaultName>
    ensures { result ≡ float_fault number }
{
    match number {
        Number::Int64 | Number::Int32 => Some(FaultName::WrongKind),
        Number::Exact => None,
    }
}
