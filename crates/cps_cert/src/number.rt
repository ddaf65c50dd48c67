//! Numbers as a log writes them: decimals without a needless sign or zero.
ghost use Rattle.std.specs.Prelude.{◌≡◌, ◌≢◌, ◌↔◌, ◌<◌, ◌≤◌, ◌^◌, ℕ, ℤ, IsTrue, MatchOption};
ghost use Rattle.std.specs.Fmt.{decimal, signed_decimal};
ghost use Rattle.cps_log.specs.Subjects.{IsNear};
ghost use Rattle.cps_log.specs.Fitting.{FitsVariable};

use cps_subjects::FARTHEST;
use itoa::{Buffer, Integer};
use std::str;

/// Whether a word is what is written of a number.
pub(crate) fn is_written<N: Integer>(word: &[u8], number: N) -> bool
    ensures { IsTrue result ↔ (word.now ≡ N.text number) }
{
    let mut buffer = Buffer::new();
    buffer.format(number).as_bytes() == word
}

/// The number that a word is, if it is one of magnitude at most 2^62.
pub(crate) fn number_of(word: &[u8]) -> Option<i64>
    ensures { MatchOption result ((z : ℤ) → IsNear z → word.now ≢ signed_decimal z)
        (λ z. IsNear z × (word.now ≡ signed_decimal z)) }
{
    let Ok(text) = str::from_utf8(word) else {
        return None;
    };
    let Ok(number) = text.parse::<i64>() else {
        return None;
    };
    if number.unsigned_abs() <= FARTHEST && is_written(word, number) {
        Some(number)
    } else {
        None
    }
}

/// The number from 0 on that a word is, if it has 32 bits.
pub(crate) fn natural_of(word: &[u8]) -> Option<u32>
    ensures { MatchOption result ((n : ℕ) → n < 2 ^ 32 → word.now ≢ decimal n)
        (λ n. word.now ≡ decimal n) }
{
    let Ok(text) = str::from_utf8(word) else {
        return None;
    };
    let Ok(number) = text.parse::<u32>() else {
        return None;
    };
    if is_written(word, number) {
        Some(number)
    } else {
        None
    }
}

/// The variable that a word is: a number from 0 on that has 31 bits.
pub(crate) fn variable_of(word: &[u8]) -> Option<i32>
    ensures { MatchOption result ((r : ℤ) → FitsVariable r → word.now ≢ signed_decimal r)
        (λ r. FitsVariable r × (word.now ≡ signed_decimal r)) }
{
    let Ok(text) = str::from_utf8(word) else {
        return None;
    };
    let Ok(number) = text.parse::<i32>() else {
        return None;
    };
    if number >= 0 && is_written(word, number) {
        Some(number)
    } else {
        None
    }
}
