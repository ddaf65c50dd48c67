//! The number at the front of some bytes.
//!
//! All bytes that may belong to a number are taken, and then the forms are tried on that text: a
//! number that a further such byte follows is none.
ghost use Rattle.std.specs.Prelude.{◌≡◌, ◌∷◌, ◌==◌, if◌then◌else◌, ◌≤◌, length};
ghost use Rattle.std.specs.List.{list_all};
ghost use Rattle.cps_lex.specs.Bytes.{is_digit, is_octal_digit, is_hex_digit};
ghost use Rattle.cps_lex.specs.Forms.{number_kind, is_decimal, is_octal, is_hexadecimal, is_float, is_nothing, some_pass};
ghost use Rattle.cps_lex.specs.Scan.{number_at, run_of, has_signs};

use super::bytes::{
    belongs_to_number, is_digit, is_exponent_mark, is_hex_digit, is_number_start, is_octal_digit,
    is_x,
};
use super::float::is_float_rest;
use super::types::TokenKind;

/// The number that begins with `first`, and its length.
#[tactic(auto, unfolding(crate::specs::Scan::number_at))]
pub(crate) fn number_at(first: u8, after: &[u8]) -> Option<(TokenKind, usize)>
    ensures { result ≡ number_at first after.now }
{
    let length = run_of(after);
    match number_kind(first, &after[..length]) {
        Some(kind) => Some((kind, 1 + length)),
        None => None,
    }
}

/// How many bytes at the front may belong to a number, behind its first byte.
fn run_of(rest: &[u8]) -> usize
    ensures value { result ≡ run_of rest.now }
    ensures within { result ≤ length rest.now }
{
    let signs = has_signs(rest);
    let mut marked = false;
    for (i, byte) in rest.iter().enumerate() {
        if !belongs_to_number(marked, *byte) {
            return i;
        }
        marked = signs && is_exponent_mark(*byte);
    }
    rest.len()
}

/// A sign may stand behind an `e`, which is a digit where an `x` is next.
fn has_signs(rest: &[u8]) -> bool
    ensures { result ≡ has_signs rest.now }
{
    match rest {
        [] => true,
        [byte, ..] => !is_x(*byte),
    }
}

/// The kind of number that the whole text is.
fn number_kind(first: u8, more: &[u8]) -> Option<TokenKind>
    ensures { result ≡ number_kind (first ∷ more.now) }
{
    if is_decimal(first, more) {
        return Some(TokenKind::Decimal);
    }
    if is_octal(first, more) {
        return Some(TokenKind::Octal);
    }
    if is_hexadecimal(first, more) {
        return Some(TokenKind::Hexadecimal);
    }
    if is_float(first, more) {
        return Some(TokenKind::Float);
    }
    None
}

fn is_decimal(first: u8, more: &[u8]) -> bool
    ensures { result ≡ is_decimal (first ∷ more.now) }
{
    is_digit(first) && are_further_digits(first, more)
}

fn are_further_digits(first: u8, more: &[u8]) -> bool
    ensures { result ≡ (if first == 48 then is_nothing more.now else list_all is_digit more.now) }
{
    if first == b'0' {
        return is_nothing(more);
    }
    for byte in more {
        if !is_digit(*byte) {
            return false;
        }
    }
    true
}

fn is_octal(first: u8, more: &[u8]) -> bool
    ensures { result ≡ is_octal (first ∷ more.now) }
{
    first == b'0' && are_octal_digits(more)
}

fn are_octal_digits(bytes: &[u8]) -> bool
    ensures { result ≡ some_pass is_octal_digit bytes.now }
{
    if is_nothing(bytes) {
        return false;
    }
    for byte in bytes {
        if !is_octal_digit(*byte) {
            return false;
        }
    }
    true
}

fn is_hexadecimal(first: u8, more: &[u8]) -> bool
    ensures { result ≡ is_hexadecimal (first ∷ more.now) }
{
    let [mark, digits @ ..] = more else {
        return false;
    };
    first == b'0' && is_x(*mark) && are_hex_digits(digits)
}

fn are_hex_digits(bytes: &[u8]) -> bool
    ensures { result ≡ some_pass is_hex_digit bytes.now }
{
    if is_nothing(bytes) {
        return false;
    }
    for byte in bytes {
        if !is_hex_digit(*byte) {
            return false;
        }
    }
    true
}

fn is_float(first: u8, more: &[u8]) -> bool
    ensures { result ≡ is_float (first ∷ more.now) }
{
    is_number_start(first) && is_float_rest(first, more)
}

fn is_nothing(bytes: &[u8]) -> bool
    ensures { result ≡ is_nothing bytes.now }
{
    match bytes {
        [] => true,
        _ => false,
    }
}
