//! A text in quotes.
ghost use Rattle.std.specs.Prelude.{◌≡◌, ◌++◌, OnOk, string_bytes};
ghost use Rattle.std.specs.List.{flat_map};
ghost use Rattle.cps_print.specs.Layout.{text_of, value_line};
ghost use Rattle.cps_print.specs.Quoting.{octal, escaped, in_quotes};
ghost use Rattle.cps_print.specs.Fields.{text_field};

use crate::layout::put_start;
use std::alloc::AllocError;

/// Appends a byte as three octal digits.
fn put_octal(text: &mut String, byte: u8) -> Result<(), AllocError>
    ensures { OnOk result (string_bytes text.new ≡ string_bytes text.old ++ octal byte) }
{
    text.push('\\')?;
    text.push(char::from(b'0' + byte / 64))?;
    text.push(char::from(b'0' + byte / 8 % 8))?;
    text.push(char::from(b'0' + byte % 8))
}

/// Appends a byte of a text in quotes.
#[tactic(auto, unfolding(crate::specs::Quoting::escaped))]
fn put_escaped(text: &mut String, byte: u8) -> Result<(), AllocError>
    ensures { OnOk result (string_bytes text.new ≡ string_bytes text.old ++ escaped byte) }
{
    match byte {
        b'\n' => text.push_str("\\n"),
        b'\r' => text.push_str("\\r"),
        b'\t' => text.push_str("\\t"),
        b'"' => text.push_str("\\\""),
        b'\'' => text.push_str("\\'"),
        b'\\' => text.push_str("\\\\"),
        b' '..=b'~' => text.push(char::from(byte)),
        _ => put_octal(text, byte),
    }
}

/// Appends a text in quotes.
#[tactic(auto, unfolding(crate::specs::Quoting::in_quotes))]
fn put_quoted(text: &mut String, bytes: &[u8]) -> Result<(), AllocError>
    ensures { OnOk result (string_bytes text.new ≡ string_bytes text.old ++ in_quotes bytes.now) }
{
    text.push_str("\"")?;
    for byte in bytes {
        put_escaped(text, *byte)?;
    }
    text.push_str("\"")
}

/// Appends the line of a text.
#[tactic(auto, unfolding(crate::specs::Layout::value_line))]
fn put_text_line(text: &mut String, level: usize, name: &str, value: &str) -> Result<(), AllocError>
    ensures { OnOk result (string_bytes text.new
        ≡ string_bytes text.old ++ value_line level name.now (in_quotes value.now)) }
{
    put_start(text, level, name)?;
    text.push_str(": ")?;
    put_quoted(text, value.as_bytes())?;
    text.push_str("\n")
}

/// Appends the line of a text, unless the text is empty.
#[tactic(auto, using(crate::proofs::Lines::text_lines))]
pub fn put_text_field(
    text: &mut String,
    level: usize,
    name: &str,
    value: &str,
) -> Result<(), AllocError>
    ensures { OnOk result (string_bytes text.new
        ≡ string_bytes text.old ++ text_of level (text_field name.now value.now)) }
{
    if value.is_empty() {
        return Ok(());
    }
    put_text_line(text, level, name, value)
}
