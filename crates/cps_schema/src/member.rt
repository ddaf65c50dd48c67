//! The members of enums, by name or by number.
//!
//! The names of each enum stand in a list in the order of their numbers, so both ways of writing a member come to a
//! number, from which the member is made. CP-SAT's `SELECT_RANDOM_HALF` is known but not taken, since it would leave a
//! choice to chance, and is refused as unsupported; every other unknown name is of the wrong kind.
ghost use Rattle.std.specs.Prelude.{◌≡◌, ◌++◌, [], ◌∷◌, true, Some, None, is_some, map, OnOk, IfOk, IfErr, option_to_list};
ghost use Rattle.cps_textproto.specs.Trees.{values_of};
ghost use Rattle.cps_schema.specs.Inputs.{written_of, single_fault, names_of};
ghost use Rattle.cps_schema.specs.Members.{member_names, place_from, is_known_member, name_refusal, member_named, member_numbered, member_of, member_at, choose_of, select_of};
ghost use Rattle.cps_schema.specs.Tables.{member};
ghost use Rattle.cps_schema.specs.Readings.{value_members};
ghost use Rattle.cps_schema.specs.Answers.{Refuses};
ghost use Rattle.cps_schema.specs.Steps.{SinglePasses, SingleStops};

use super::error::SchemaError;
use super::input::{Input, same_text, token_kind, token_text};
use super::number::{Number, is_negative, whole_number};
use super::single::{Value, alone, bracket, wrong_kind};
use cps_lex::TokenKind;
use cps_model::{Choose, FaultName, Select};
use cps_textproto::Field;

/// An enum whose members are given by name or number.
#[derive(Clone, Copy)]
pub enum Enum {
    /// Which variable a strategy takes.
    VariableSelection,
    /// Which value it tries.
    DomainReduction,
}

const CHOOSE_NAMES: [&[u8]; 5] = [
    b"CHOOSE_FIRST",
    b"CHOOSE_LOWEST_MIN",
    b"CHOOSE_HIGHEST_MAX",
    b"CHOOSE_MIN_DOMAIN_SIZE",
    b"CHOOSE_MAX_DOMAIN_SIZE",
];

const SELECT_NAMES: [&[u8]; 5] = [
    b"SELECT_MIN_VALUE",
    b"SELECT_MAX_VALUE",
    b"SELECT_LOWER_HALF",
    b"SELECT_UPPER_HALF",
    b"SELECT_MEDIAN_VALUE",
];

/// The number of the last member, of either enum.
const LAST_MEMBER: i64 = 4;

/// The place of a name among names. `None` if it is not one of them.
fn place_of(names: &[&[u8]], name: &[u8]) -> Option<usize>
    ensures { result ≡ place_from 0 (names_of names.now) name.now }
{
    for (i, known) in names.iter().enumerate() {
        if same_text(name, known) {
            return Some(i);
        }
    }
    None
}

/// The place of a name among those of an enum's members. `None` if no member has it.
fn member_place(kind: Enum, name: &[u8]) -> Option<usize>
    ensures { result ≡ place_from 0 (member_names kind) name.now }
{
    match kind {
        Enum::VariableSelection => place_of(&CHOOSE_NAMES, name),
        Enum::DomainReduction => place_of(&SELECT_NAMES, name),
    }
}

/// Whether the name is that of a member that is known but not taken.
fn is_known_member(kind: Enum, name: &[u8]) -> bool
    ensures { result ≡ is_known_member kind name.now }
{
    match kind {
        Enum::VariableSelection => false,
        Enum::DomainReduction => same_text(name, b"SELECT_RANDOM_HALF"),
    }
}

/// What is wrong with a word that names no member.
fn name_refusal(kind: Enum, name: &[u8]) -> FaultName
    ensures { result ≡ name_refusal kind name.now }
{
    if is_known_member(kind, name) {
        FaultName::Unsupported
    } else {
        FaultName::WrongKind
    }
}

/// The number of the member with a name. A word behind `-` names none.
fn member_named(kind: Enum, negative: bool, name: &[u8]) -> Result<usize, FaultName>
    ensures { result ≡ member_named kind negative name.now }
{
    if negative {
        return Err(FaultName::WrongKind);
    }
    match member_place(kind, name) {
        Some(place) => Ok(place),
        None => Err(name_refusal(kind, name)),
    }
}

/// The number of the member that a whole number gives.
fn member_numbered(number: Option<i64>) -> Result<usize, FaultName>
    ensures { result ≡ member_numbered number }
{
    match number {
        Some(n) => {
            if n < 0 || n > LAST_MEMBER {
                Err(FaultName::OutOfRange)
            } else {
                Ok(n as usize)
            }
        }
        None => Err(FaultName::OutOfRange),
    }
}

/// The number of the member that a token of this kind gives behind a sign.
fn member_of(kind: Enum, negative: bool, token: TokenKind, text: &[u8]) -> Result<usize, FaultName>
    ensures { result ≡ member_of kind negative (Some token) text.now }
{
    match token {
        TokenKind::Identifier => member_named(kind, negative, text),
        TokenKind::Decimal | TokenKind::Octal | TokenKind::Hexadecimal => {
            member_numbered(whole_number(Number::Int32, negative, token, text))
        }
        TokenKind::Float | TokenKind::Text | TokenKind::Sign => Err(FaultName::WrongKind),
    }
}

/// The number of the member that the scalar at token `first` gives.
#[tactic(auto, unfolding(crate::specs::Members::member_at))]
fn member_at(input: &Input, kind: Enum, first: u32) -> Result<usize, FaultName>
    ensures { result ≡ member_at (written_of input.now) kind first }
{
    let negative = is_negative(input, first);
    let at = first as usize + negative as usize;
    match token_kind(input, at) {
        Some(token) => member_of(kind, negative, token, token_text(input, at)),
        None => Err(FaultName::WrongKind),
    }
}

/// The number of the member of a field that takes one.
fn single_member(input: &Input, kind: Enum, field: &Field) -> Result<usize, SchemaError>
    ensures fault { IfOk result (λ _. single_fault (written_of input.now) (member kind) field.now ≡ None) }
    ensures value { IfOk result (λ n. value_members (written_of input.now) kind (values_of field.now.items) ≡ n ∷ []) }
    ensures err { IfErr result (Refuses (single_fault (written_of input.now) (member kind) field.now)) }
{
    match alone(field) {
        Some(Value::Scalar(token_range)) => match member_at(input, kind, token_range.first) {
            Ok(number) => Ok(number),
            Err(name) => Err(SchemaError::Fault {
                name,
                token: token_range.first as usize,
            }),
        },
        Some(Value::Message(first, _)) => Err(wrong_kind(first as usize)),
        None => Err(wrong_kind(bracket(input, field.name))),
    }
}

/// The way of choosing a variable by its number.
fn choose_of(number: usize) -> Choose
    ensures { result ≡ choose_of number }
{
    match number {
        0 => Choose::First,
        1 => Choose::LowestMin,
        2 => Choose::HighestMax,
        3 => Choose::MinDomainSize,
        _ => Choose::MaxDomainSize,
    }
}

/// The way of choosing a value by its number.
fn select_of(number: usize) -> Select
    ensures { result ≡ select_of number }
{
    match number {
        0 => Select::MinValue,
        1 => Select::MaxValue,
        2 => Select::LowerHalf,
        3 => Select::UpperHalf,
        _ => Select::MedianValue,
    }
}

/// Reads how a strategy chooses a variable, which may not have been read before.
#[tactic(auto, using(crate::proofs::Steps::single_passes, crate::proofs::Steps::single_stops))]
pub(crate) fn set_choose(
    input: &Input,
    slot: &mut Option<Choose>,
    field: &Field,
) -> Result<(), SchemaError>
    ensures passes { OnOk result (SinglePasses (written_of input.now) field.now (member Enum.VariableSelection)
        (is_some slot.old)) }
    ensures added { OnOk result (option_to_list slot.new
        ≡ option_to_list slot.old ++ map choose_of
        (value_members (written_of input.now) Enum.VariableSelection (values_of field.now.items))) }
    ensures some { OnOk result (is_some slot.new ≡ true) }
    ensures err { IfErr result (SingleStops (written_of input.now) field.now (member Enum.VariableSelection)
        (is_some slot.old)) }
{
    if slot.is_some() {
        return Err(SchemaError::Fault {
            name: FaultName::Repeated,
            token: field.name as usize,
        });
    }
    match single_member(input, Enum::VariableSelection, field) {
        Ok(number) => {
            *slot = Some(choose_of(number));
            Ok(())
        }
        Err(error) => Err(error),
    }
}

/// Reads how a strategy chooses a value, which may not have been read before.
#[tactic(auto, using(crate::proofs::Steps::single_passes, crate::proofs::Steps::single_stops))]
pub(crate) fn set_select(
    input: &Input,
    slot: &mut Option<Select>,
    field: &Field,
) -> Result<(), SchemaError>
    ensures passes { OnOk result (SinglePasses (written_of input.now) field.now (member Enum.DomainReduction)
        (is_some slot.old)) }
    ensures added { OnOk result (option_to_list slot.new
        ≡ option_to_list slot.old ++ map select_of
        (value_members (written_of input.now) Enum.DomainReduction (values_of field.now.items))) }
    ensures some { OnOk result (is_some slot.new ≡ true) }
    ensures err { IfErr result (SingleStops (written_of input.now) field.now (member Enum.DomainReduction)
        (is_some slot.old)) }
{
    if slot.is_some() {
        return Err(SchemaError::Fault {
            name: FaultName::Repeated,
            token: field.name as usize,
        });
    }
    match single_member(input, Enum::DomainReduction, field) {
        Ok(number) => {
            *slot = Some(select_of(number));
            Ok(())
        }
        Err(error) => Err(error),
    }
}
