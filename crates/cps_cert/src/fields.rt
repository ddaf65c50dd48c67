//! The lines of a response: a text alone, or the name of a field and a number.
ghost use Rattle.std.specs.Prelude.{◌≡◌, ◌≢◌, ◌↔◌, ◌++◌, ℕ, ℤ, List, IsTrue, MatchOption};
ghost use Rattle.std.specs.Fmt.{signed_decimal};
ghost use Rattle.cps_log.specs.Subjects.{IsNear};

use crate::number::{is_written, number_of};

/// Whether a line is a text.
pub(crate) fn is_text(line: &[u8], text: &str) -> bool
    ensures { IsTrue result ↔ (line.now ≡ text.now) }
{
    line == text.as_bytes()
}

/// What stands behind a field's name, if a line begins with it.
pub(crate) fn behind<'a>(line: &'a [u8], field: &str) -> Option<&'a [u8]>
    ensures { MatchOption result ((word : List ℕ) → line.now ≢ field.now ++ word)
        (λ word. line.now ≡ field.now ++ word.now) }
{
    line.strip_prefix(field.as_bytes())
}

/// The number behind a field's name, if a line is both and the number is of magnitude at most 2^62.
pub(crate) fn number_behind(line: &[u8], field: &str) -> Option<i64>
    ensures { MatchOption result ((z : ℤ) → IsNear z → line.now ≢ field.now ++ signed_decimal z)
        (λ z. IsNear z × (line.now ≡ field.now ++ signed_decimal z)) }
{
    let Some(word) = behind(line, field) else {
        return None;
    };
    let Some(number) = number_of(word) else {
        return None;
    };
    Some(number)
}

/// Whether a line is a field's name and a number.
pub(crate) fn shows_number(line: &[u8], field: &str, number: i128) -> bool
    ensures { IsTrue result ↔ (line.now ≡ field.now ++ signed_decimal number) }
{
    match behind(line, field) {
        Some(word) => is_written(word, number),
        None => false,
    }
}
