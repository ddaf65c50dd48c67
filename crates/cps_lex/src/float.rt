//! Floats, byte by byte: a table says which part of a float a byte belongs to behind another part.
ghost use Rattle.std.specs.Prelude.{◌≡◌};
ghost use Rattle.cps_lex.specs.Floats.{next_part, may_be_last, float_from, start_of};

use super::bytes::{is_digit, is_exponent_mark, is_float_suffix, is_plus_or_minus};

/// The part of a float that its last byte so far belongs to.
#[derive(Clone, Copy)]
pub enum Part {
    /// The digit 0 alone.
    Zero,
    /// Digits that begin with another one.
    Whole,
    /// A point in front.
    Point,
    /// The point behind digits, and the digits behind a point.
    Fraction,
    /// The `e` of an exponent.
    Mark,
    /// The sign of an exponent.
    Signed,
    /// The digits of an exponent.
    Exponent,
    /// The `f` at the end.
    Suffix,
}

/// The rest of a float that begins with `first`, a digit or a point.
pub(crate) fn is_float_rest(first: u8, rest: &[u8]) -> bool
    ensures { result ≡ float_from (start_of first) rest.now }
{
    ends_float(start_of(first), rest)
}

fn start_of(first: u8) -> Part
    ensures { result ≡ start_of first }
{
    if first == b'.' {
        return Part::Point;
    }
    if first == b'0' {
        return Part::Zero;
    }
    Part::Whole
}

/// The bytes are the rest of a float, behind this part of it.
fn ends_float(start: Part, bytes: &[u8]) -> bool
    ensures { result ≡ float_from start bytes.now }
{
    let mut part = start;
    for byte in bytes {
        let Some(next) = next_part(part, *byte) else {
            return false;
        };
        part = next;
    }
    may_be_last(part)
}

fn next_part(part: Part, byte: u8) -> Option<Part>
    ensures { result ≡ next_part part byte }
{
    match part {
        Part::Zero => behind_whole(byte),
        Part::Whole => {
            if is_digit(byte) {
                return Some(Part::Whole);
            }
            behind_whole(byte)
        }
        Part::Point => is_digit(byte).then_some(Part::Fraction),
        Part::Fraction => {
            if is_digit(byte) {
                return Some(Part::Fraction);
            }
            if is_exponent_mark(byte) {
                return Some(Part::Mark);
            }
            is_float_suffix(byte).then_some(Part::Suffix)
        }
        Part::Mark => {
            if is_plus_or_minus(byte) {
                return Some(Part::Signed);
            }
            is_digit(byte).then_some(Part::Exponent)
        }
        Part::Signed => is_digit(byte).then_some(Part::Exponent),
        Part::Exponent => {
            if is_digit(byte) {
                return Some(Part::Exponent);
            }
            is_float_suffix(byte).then_some(Part::Suffix)
        }
        Part::Suffix => None,
    }
}

/// What may follow the digits of a decimal.
fn behind_whole(byte: u8) -> Option<Part>
    ensures { result ≡ next_part Part.Zero byte }
{
    if byte == b'.' {
        return Some(Part::Fraction);
    }
    if is_exponent_mark(byte) {
        return Some(Part::Mark);
    }
    if is_float_suffix(byte) {
        return Some(Part::Suffix);
    }
    None
}

fn may_be_last(part: Part) -> bool
    ensures { result ≡ may_be_last part }
{
    match part {
        Part::Fraction | Part::Exponent | Part::Suffix => true,
        _ => false,
    }
}
