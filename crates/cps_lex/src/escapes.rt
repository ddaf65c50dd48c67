//! The bytes of a string one by one: a table says where each leads, and what it completes of the
//! bytes that the string denotes.
//!
//! Octal and hexadecimal digits are taken greedily. So an escape that could have a digit more is
//! whole with the byte behind it, and a third octal digit that takes the value above 255 leads nowhere.
ghost use Rattle.std.specs.Prelude.{◌≡◌};
ghost use Rattle.cps_lex.specs.Escapes.{simple_escape, octal_with, hex_with, code_with, character_of, behind_piece, behind_value, behind_backslash, behind_octal_one, behind_octal_two, behind_hex_mark, behind_hex_one, with_code, behind_unicode, step, is_closed};

use super::bytes::{hex_value, is_hex_digit, is_octal_digit, is_x};

/// What stands before a byte of a string.
#[derive(Clone, Copy)]
pub enum Place {
    /// The opening quote, a byte that stands for itself, or a whole escape.
    Inside,
    /// A backslash.
    Backslash,
    /// A backslash and an octal digit of this value.
    OctalOne(u8),
    /// A backslash and two octal digits of this value.
    OctalTwo(u8),
    /// `\x` or `\X`.
    HexMark,
    /// `\x` or `\X` and a hexadecimal digit of this value.
    HexOne(u8),
    /// `\u` or `\U`, with the number of digits still to come, and the value of those that came.
    Unicode(u8, u32),
    /// The quote that closes the string.
    Closed,
}

/// The bytes of a string's value that a byte of its text completes.
#[derive(Clone, Copy)]
pub enum Denoted {
    Nothing,
    One(u8),
    /// The value of an escape that ends before the byte, and the byte.
    Two(u8, u8),
    /// A character, in UTF-8.
    Character(char),
}

/// Where a byte leads, and what it completes; nowhere, where no string goes on.
#[tactic(auto, unfolding(crate::specs::Escapes::step))]
pub(crate) fn step(quote: u8, place: Place, byte: u8) -> Option<(Place, Denoted)>
    ensures { result ≡ step quote place byte }
{
    match place {
        Place::Inside => behind_piece(quote, byte),
        Place::Backslash => behind_backslash(byte),
        Place::OctalOne(value) => behind_octal_one(value, quote, byte),
        Place::OctalTwo(value) => behind_octal_two(value, quote, byte),
        Place::HexMark => behind_hex_mark(byte),
        Place::HexOne(value) => behind_hex_one(value, quote, byte),
        Place::Unicode(left, value) => behind_unicode(left, value, byte),
        Place::Closed => None,
    }
}

pub(crate) fn is_closed(place: Place) -> bool
    ensures { result ≡ is_closed place }
{
    match place {
        Place::Closed => true,
        _ => false,
    }
}

#[tactic(auto, unfolding(crate::specs::Escapes::behind_piece))]
fn behind_piece(quote: u8, byte: u8) -> Option<(Place, Denoted)>
    ensures { result ≡ behind_piece quote byte }
{
    if byte == quote {
        return Some((Place::Closed, Denoted::Nothing));
    }
    if byte == b'\\' {
        return Some((Place::Backslash, Denoted::Nothing));
    }
    if byte == b'\n' {
        return None;
    }
    Some((Place::Inside, Denoted::One(byte)))
}

/// Behind an escape of this value that may end, and does.
#[tactic(auto, unfolding(crate::specs::Escapes::behind_value))]
fn behind_value(value: u8, quote: u8, byte: u8) -> Option<(Place, Denoted)>
    ensures { result ≡ behind_value value quote byte }
{
    if byte == quote {
        return Some((Place::Closed, Denoted::One(value)));
    }
    if byte == b'\\' {
        return Some((Place::Backslash, Denoted::One(value)));
    }
    if byte == b'\n' {
        return None;
    }
    Some((Place::Inside, Denoted::Two(value, byte)))
}

#[tactic(auto, unfolding(crate::specs::Escapes::behind_backslash))]
fn behind_backslash(byte: u8) -> Option<(Place, Denoted)>
    ensures { result ≡ behind_backslash byte }
{
    if is_octal_digit(byte) {
        return Some((Place::OctalOne(hex_value(byte)), Denoted::Nothing));
    }
    if is_x(byte) {
        return Some((Place::HexMark, Denoted::Nothing));
    }
    if byte == b'u' {
        return Some((Place::Unicode(4, 0), Denoted::Nothing));
    }
    if byte == b'U' {
        return Some((Place::Unicode(8, 0), Denoted::Nothing));
    }
    match simple_escape(byte) {
        Some(value) => Some((Place::Inside, Denoted::One(value))),
        None => None,
    }
}

#[tactic(auto, unfolding(crate::specs::Escapes::behind_octal_one))]
fn behind_octal_one(value: u8, quote: u8, byte: u8) -> Option<(Place, Denoted)>
    ensures { result ≡ behind_octal_one value quote byte }
{
    if !is_octal_digit(byte) {
        return behind_value(value, quote, byte);
    }
    match octal_with(value, byte) {
        Some(both) => Some((Place::OctalTwo(both), Denoted::Nothing)),
        None => None,
    }
}

#[tactic(auto, unfolding(crate::specs::Escapes::behind_octal_two))]
fn behind_octal_two(value: u8, quote: u8, byte: u8) -> Option<(Place, Denoted)>
    ensures { result ≡ behind_octal_two value quote byte }
{
    if !is_octal_digit(byte) {
        return behind_value(value, quote, byte);
    }
    match octal_with(value, byte) {
        Some(all) => Some((Place::Inside, Denoted::One(all))),
        None => None,
    }
}

#[tactic(auto, unfolding(crate::specs::Escapes::behind_hex_mark))]
fn behind_hex_mark(byte: u8) -> Option<(Place, Denoted)>
    ensures { result ≡ behind_hex_mark byte }
{
    if !is_hex_digit(byte) {
        return None;
    }
    Some((Place::HexOne(hex_value(byte)), Denoted::Nothing))
}

#[tactic(auto, unfolding(crate::specs::Escapes::behind_hex_one))]
fn behind_hex_one(value: u8, quote: u8, byte: u8) -> Option<(Place, Denoted)>
    ensures { result ≡ behind_hex_one value quote byte }
{
    if !is_hex_digit(byte) {
        return behind_value(value, quote, byte);
    }
    match hex_with(value, byte) {
        Some(both) => Some((Place::Inside, Denoted::One(both))),
        None => None,
    }
}

#[tactic(auto, unfolding(crate::specs::Escapes::behind_unicode))]
fn behind_unicode(left: u8, value: u32, byte: u8) -> Option<(Place, Denoted)>
    ensures { result ≡ behind_unicode left value byte }
{
    if !is_hex_digit(byte) {
        return None;
    }
    match code_with(value, byte) {
        Some(code) => with_code(left, code),
        None => None,
    }
}

/// The value with a digit of a character, of which `left` were to come.
#[tactic(auto, unfolding(crate::specs::Escapes::with_code))]
fn with_code(left: u8, code: u32) -> Option<(Place, Denoted)>
    ensures { result ≡ with_code left code }
{
    if left > 1 {
        return Some((Place::Unicode(left - 1, code), Denoted::Nothing));
    }
    match character_of(code) {
        Some(character) => Some((Place::Inside, Denoted::Character(character))),
        None => None,
    }
}

#[tactic(auto, unfolding(crate::specs::Escapes::character_of))]
fn character_of(code: u32) -> Option<char>
    ensures { result ≡ character_of code }
{
    char::from_u32(code)
}

/// What a backslash and this byte denote.
#[tactic(auto, unfolding(crate::specs::Escapes::simple_escape))]
fn simple_escape(byte: u8) -> Option<u8>
    ensures { result ≡ simple_escape byte }
{
    match byte {
        b'a' => Some(7),
        b'b' => Some(8),
        b'f' => Some(12),
        b'n' => Some(b'\n'),
        b'r' => Some(b'\r'),
        b't' => Some(b'\t'),
        b'v' => Some(11),
        b'?' | b'\\' | b'\'' | b'"' => Some(byte),
        _ => None,
    }
}

/// The value of octal digits with one more, where it is at most 255.
#[tactic(auto, unfolding(crate::specs::Escapes::octal_with))]
fn octal_with(value: u8, byte: u8) -> Option<u8>
    ensures { result ≡ octal_with value byte }
{
    let with = 8 * u16::from(value) + u16::from(hex_value(byte));
    if with > 255 {
        return None;
    }
    Some(with as u8)
}

/// The value of hexadecimal digits with one more, where it is at most 255.
#[tactic(auto, unfolding(crate::specs::Escapes::hex_with))]
fn hex_with(value: u8, byte: u8) -> Option<u8>
    ensures { result ≡ hex_with value byte }
{
    let with = 16 * u16::from(value) + u16::from(hex_value(byte));
    if with > 255 {
        return None;
    }
    Some(with as u8)
}

/// The value of a character's digits with one more, where it is at most 10FFFF.
#[tactic(auto, unfolding(crate::specs::Escapes::code_with))]
fn code_with(value: u32, byte: u8) -> Option<u32>
    ensures { result ≡ code_with value byte }
{
    let with = 16 * u64::from(value) + u64::from(hex_value(byte));
    if with > 0x10FFFF {
        return None;
    }
    Some(with as u32)
}
