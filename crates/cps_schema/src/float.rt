//! Floats that are whole numbers.
//!
//! A float is read by moving its point: the digits before it are a whole number, and all others must be 0. So no
//! arithmetic of floats is used, and no digit is rounded away. Where an exponent is great only its size is compared
//! with the count of digits.
ghost use Rattle.std.specs.Prelude.{◌≡◌, ◌*◌, ◌^◌, ◌≤◌, ◌&&◌, ◌++◌, length, take, drop};
ghost use Rattle.std.specs.Option.{option_map};
ghost use Rattle.std.specs.List.{list_all, prefix_len};
ghost use Rattle.cps_lex.specs.Bytes.{is_digit};
ghost use Rattle.cps_schema.specs.Digits.{digits_after, decimal_value, capped};
ghost use Rattle.cps_schema.specs.Floats.{leading_digits, past_digits, past_point, past_mark, is_minus, past_sign, whole_digits, fraction_digits, exponent_text, exponent_size, moved, is_zero, with_point, float_value};

use super::digits::{decimal_value, digits_after};
use super::input::{behind, front};

/// A number that is not 0 has more than 64 bits with this many zeros behind it.
const MANY_ZEROS: u64 = 20;

#[tactic(auto, unfolding(cps_lex::specs::Bytes::is_digit))]
fn is_digit(byte: u8) -> bool
    ensures { result ≡ is_digit byte }
{
    byte.is_ascii_digit()
}

/// How many digits stand at the front.
fn digit_count(text: &[u8]) -> usize
    ensures value { result ≡ prefix_len is_digit text.now }
    ensures within { result ≤ length text.now }
{
    for (i, byte) in text.iter().enumerate() {
        if !is_digit(*byte) {
            return i;
        }
    }
    text.len()
}

/// The digits at the front.
fn leading_digits(text: &[u8]) -> &[u8]
    ensures { result.now ≡ leading_digits text.now }
{
    &text[..digit_count(text)]
}

/// What follows the digits at the front.
#[tactic(auto, using(std::proofs::lemmas::List::take_rest))]
fn past_digits(text: &[u8]) -> &[u8]
    ensures { result.now ≡ past_digits text.now }
{
    &text[digit_count(text)..]
}

/// What follows a point, where one is in front.
fn past_point(text: &[u8]) -> &[u8]
    ensures { result.now ≡ past_point text.now }
{
    let [first, rest @ ..] = text else {
        return text;
    };
    if *first == b'.' { rest } else { text }
}

/// What follows the mark of an exponent; empty if there is none.
fn past_mark(text: &[u8]) -> &[u8]
    ensures { result.now ≡ past_mark text.now }
{
    let [first, rest @ ..] = text else {
        return text;
    };
    if *first == b'e' || *first == b'E' {
        rest
    } else {
        &[]
    }
}

fn is_minus(exponent: &[u8]) -> bool
    ensures { result ≡ is_minus exponent.now }
{
    let [first, ..] = exponent else {
        return false;
    };
    *first == b'-'
}

fn past_sign(exponent: &[u8]) -> &[u8]
    ensures { result.now ≡ past_sign exponent.now }
{
    let [first, rest @ ..] = exponent else {
        return exponent;
    };
    if *first == b'-' || *first == b'+' {
        rest
    } else {
        exponent
    }
}

/// The digits before the point.
#[tactic(auto, unfolding(crate::specs::Floats::whole_digits))]
fn whole_digits(text: &[u8]) -> &[u8]
    ensures { result.now ≡ whole_digits text.now }
{
    leading_digits(text)
}

/// The digits behind it.
#[tactic(auto, unfolding(crate::specs::Floats::fraction_digits))]
fn fraction_digits(text: &[u8]) -> &[u8]
    ensures { result.now ≡ fraction_digits text.now }
{
    leading_digits(past_point(past_digits(text)))
}

/// The exponent with its sign.
#[tactic(auto, unfolding(crate::specs::Floats::exponent_text))]
fn exponent_text(text: &[u8]) -> &[u8]
    ensures { result.now ≡ exponent_text text.now }
{
    past_mark(past_digits(past_point(past_digits(text))))
}

/// The size of an exponent, or the greatest number of 64 bits where it is greater.
fn exponent_size(exponent: &[u8]) -> u64
    ensures { result ≡ capped (exponent_size exponent.now) }
{
    decimal_value(leading_digits(past_sign(exponent)))
}

/// How many digits stand before the point once the exponent has moved it, cut off in the same way.
fn moved(digits: u64, exponent: &[u8]) -> u64
    ensures { result ≡ capped (moved digits exponent.now) }
{
    let size = exponent_size(exponent);
    if is_minus(exponent) {
        digits.saturating_sub(size)
    } else {
        digits.saturating_add(size)
    }
}

fn are_zeros(digits: &[u8]) -> bool
    ensures { result ≡ list_all is_zero digits.now }
{
    for digit in digits {
        if *digit != b'0' {
            return false;
        }
    }
    true
}

/// The number with `zeros` zeros behind it, or the greatest of 64 bits if it is greater.
#[tactic(auto, using(crate::proofs::Floats::zero_more))]
fn with_zeros(number: u64, zeros: u64) -> u64
    ensures { result ≡ capped (number * 10 ^ zeros) }
{
    let mut value = number;
    for _ in 0..zeros.min(MANY_ZEROS) {
        value = value.saturating_mul(10);
    }
    value
}

/// The digits behind the point are 0, in both texts.
fn are_zeros_behind(place: u64, in_fraction: u64, whole: &[u8], fraction: &[u8]) -> bool
    ensures { result ≡ (list_all is_zero (drop place whole.now) && list_all is_zero (drop in_fraction fraction.now)) }
{
    are_zeros(behind(whole, place)) && are_zeros(behind(fraction, in_fraction))
}

/// The number that the digits before the point write, or the greatest of 64 bits where it is greater.
fn number_before(place: u64, in_fraction: u64, whole: &[u8], fraction: &[u8]) -> u64
    ensures { result ≡ capped (digits_after 10 (decimal_value (take place whole.now)) (take in_fraction fraction.now)) }
{
    digits_after(
        10,
        decimal_value(front(whole, place)),
        front(fraction, in_fraction),
    )
}

/// The number that the first `place` digits of two texts write, or the greatest of 64 bits where it is greater, if the
/// others are 0. Zeros stand for digits that there are not.
fn with_point(place: u64, whole: &[u8], fraction: &[u8]) -> Option<u64>
    ensures { result ≡ option_map capped (with_point place (whole.now ++ fraction.now)) }
{
    let in_fraction = place.saturating_sub(whole.len() as u64);
    if are_zeros_behind(place, in_fraction, whole, fraction) {
        let number = number_before(place, in_fraction, whole, fraction);
        let zeros = in_fraction.saturating_sub(fraction.len() as u64);
        Some(with_zeros(number, zeros))
    } else {
        None
    }
}

/// The whole number that a float writes, or the greatest of 64 bits where it is greater, if it writes one.
#[tactic(auto, unfolding(crate::specs::Floats::float_value), using(crate::proofs::Floats::place_capped, crate::proofs::Floats::digits_within))]
pub(crate) fn float_value(text: &[u8]) -> Option<u64>
    ensures { result ≡ option_map capped (float_value text.now) }
{
    let whole = whole_digits(text);
    let place = moved(whole.len() as u64, exponent_text(text));
    with_point(place, whole, fraction_digits(text))
}
