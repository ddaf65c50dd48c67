//! The lines of a message, appended to a text.
ghost use Rattle.std.specs.Prelude.{◌≡◌, ◌++◌, OnOk, string_bytes};
ghost use Rattle.std.specs.List.{flat_map};
ghost use Rattle.std.specs.Fmt.{signed_decimal};
ghost use Rattle.cps_print.specs.Layout.{text_of, indent, start_of, value_line, behind_comma, list_lines, opening, closing};
ghost use Rattle.cps_print.specs.Fields.{number_field, word_field};

use itoa::{Buffer, Integer};
use std::alloc::AllocError;

/// Appends a number.
pub fn put_number<N: Integer>(text: &mut String, value: N) -> Result<(), AllocError>
    ensures { OnOk result (string_bytes text.new ≡ string_bytes text.old ++ N.text value) }
{
    let mut buffer = Buffer::new();
    text.push_str(buffer.format(value))
}

/// Appends the blanks in front of a line, two for each level.
#[tactic(auto, using(crate::proofs::Lines::indents))]
fn put_indent(text: &mut String, level: usize) -> Result<(), AllocError>
    ensures { OnOk result (string_bytes text.new ≡ string_bytes text.old ++ indent level) }
{
    for _ in 0..level {
        text.push_str("  ")?;
    }
    Ok(())
}

/// Appends a field's name with the blanks in front of it.
#[tactic(auto, unfolding(crate::specs::Layout::start_of))]
pub fn put_start(text: &mut String, level: usize, name: &str) -> Result<(), AllocError>
    ensures { OnOk result (string_bytes text.new ≡ string_bytes text.old ++ start_of level name.now) }
{
    put_indent(text, level)?;
    text.push_str(name)
}

/// Appends a line with what is written of a field's value.
#[tactic(auto, unfolding(crate::specs::Layout::value_line))]
fn put_value_line(
    text: &mut String,
    level: usize,
    name: &str,
    value: &str,
) -> Result<(), AllocError>
    ensures { OnOk result (string_bytes text.new ≡ string_bytes text.old ++ value_line level name.now value.now) }
{
    put_start(text, level, name)?;
    text.push_str(": ")?;
    text.push_str(value)?;
    text.push_str("\n")
}

/// Appends the line of a number, unless the number is 0.
#[tactic(auto, using(crate::proofs::Lines::number_lines))]
pub fn put_number_field(
    text: &mut String,
    level: usize,
    name: &str,
    value: i64,
) -> Result<(), AllocError>
    ensures { OnOk result (string_bytes text.new
        ≡ string_bytes text.old ++ text_of level (number_field name.now value)) }
{
    if value == 0 {
        return Ok(());
    }
    let mut buffer = Buffer::new();
    put_value_line(text, level, name, buffer.format(value))
}

/// Appends the line of a word, unless the word is empty.
#[tactic(auto, using(crate::proofs::Lines::word_lines))]
pub fn put_word_field(
    text: &mut String,
    level: usize,
    name: &str,
    word: &str,
) -> Result<(), AllocError>
    ensures { OnOk result (string_bytes text.new
        ≡ string_bytes text.old ++ text_of level (word_field name.now word.now)) }
{
    if word.is_empty() {
        return Ok(());
    }
    put_value_line(text, level, name, word)
}

/// Appends numbers, each after a comma.
fn put_behind_commas<N: Integer>(text: &mut String, values: &[N]) -> Result<(), AllocError>
    ensures { OnOk result (string_bytes text.new ≡ string_bytes text.old ++ flat_map (behind_comma N.text) values.now) }
{
    for value in values {
        text.push_str(", ")?;
        put_number(text, *value)?;
    }
    Ok(())
}

/// Appends the line of a list of numbers, unless the list is empty.
#[tactic(auto, unfolding(crate::specs::Layout::value_line))]
pub fn put_list_field<N: Integer>(
    text: &mut String,
    level: usize,
    name: &str,
    values: &[N],
) -> Result<(), AllocError>
    ensures { OnOk result (string_bytes text.new
        ≡ string_bytes text.old ++ list_lines N.text level name.now values.now) }
{
    let Some((first, others)) = values.split_first() else {
        return Ok(());
    };
    put_start(text, level, name)?;
    text.push_str(": [")?;
    put_number(text, *first)?;
    put_behind_commas(text, others)?;
    text.push_str("]\n")
}

/// Appends the line on which a message begins.
#[tactic(auto, unfolding(crate::specs::Layout::opening))]
pub fn open_message(text: &mut String, level: usize, name: &str) -> Result<(), AllocError>
    ensures { OnOk result (string_bytes text.new ≡ string_bytes text.old ++ opening level name.now) }
{
    put_start(text, level, name)?;
    text.push_str(" {\n")
}

/// Appends the line on which a message ends.
#[tactic(auto, unfolding(crate::specs::Layout::closing))]
pub fn close_message(text: &mut String, level: usize) -> Result<(), AllocError>
    ensures { OnOk result (string_bytes text.new ≡ string_bytes text.old ++ closing level) }
{
    put_indent(text, level)?;
    text.push_str("}\n")
}
