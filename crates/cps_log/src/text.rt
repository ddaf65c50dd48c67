//! The lines of a log, appended to a text.
ghost use Rattle.std.specs.Prelude.{◌≡◌, ◌++◌, ◌<◌, ◌^◌, OnOk, IfOk, string_bytes};
ghost use Rattle.std.specs.Fmt.{decimal, signed_decimal};
ghost use Rattle.cps_log.specs.Writing.{behind_blank, op_text, atom_word, clause_text, terms_text, sum_text, item_line, log_text};

use crate::item::LogItem;
use cps_literal::{Atom, Op};
use cps_model::LinearExpr;
use itoa::{Buffer, Integer};
use std::alloc::{AllocError, Global};

/// Appends a blank and a number.
fn put_number<N: Integer>(text: &mut String, number: N) -> Result<(), AllocError>
    ensures { OnOk result (string_bytes text.new ≡ string_bytes text.old ++ behind_blank (N.text number)) }
{
    text.push_str(" ")?;
    let mut buffer = Buffer::new();
    text.push_str(buffer.format(number))
}

/// An operator as it is written.
fn op_text(op: Op) -> &'static str
    ensures { result.now ≡ op_text op }
{
    match op {
        Op::Le => "<=",
        Op::Ge => ">=",
        Op::Eq => "=",
        Op::Ne => "!=",
    }
}

/// Appends a blank and an atom.
fn put_atom(text: &mut String, atom: Atom) -> Result<(), AllocError>
    ensures { OnOk result (string_bytes text.new ≡ string_bytes text.old ++ behind_blank (atom_word atom)) }
{
    put_number(text, atom.subject)?;
    text.push_str(op_text(atom.op))?;
    let mut buffer = Buffer::new();
    text.push_str(buffer.format(atom.value))
}

/// Appends the atoms of a clause, each behind a blank.
fn put_clause(text: &mut String, clause: &[Atom]) -> Result<(), AllocError>
    ensures { OnOk result (string_bytes text.new ≡ string_bytes text.old ++ clause_text clause.now) }
{
    for atom in clause {
        put_atom(text, *atom)?;
    }
    Ok(())
}

/// Appends a variable and its coefficient.
fn put_term(text: &mut String, variable: i32, coefficient: i64) -> Result<(), AllocError>
    ensures { OnOk result (string_bytes text.new ≡ string_bytes text.old
        ++ (behind_blank (signed_decimal variable) ++ behind_blank (signed_decimal coefficient))) }
{
    put_number(text, variable)?;
    put_number(text, coefficient)
}

/// Appends each variable of a sum with its coefficient.
fn put_terms(text: &mut String, vars: &[i32], coeffs: &[i64]) -> Result<(), AllocError>
    ensures { OnOk result (string_bytes text.new ≡ string_bytes text.old ++ terms_text vars.now coeffs.now) }
{
    for place in 0..vars.len().min(coeffs.len()) {
        put_term(text, vars[place], coeffs[place])?;
    }
    Ok(())
}

/// Appends the offset and the terms of a sum.
fn put_sum(text: &mut String, sum: &LinearExpr) -> Result<(), AllocError>
    ensures { OnOk result (string_bytes text.new ≡ string_bytes text.old ++ sum_text sum.now) }
{
    put_number(text, sum.offset)?;
    put_terms(text, sum.vars.as_slice(), sum.coeffs.as_slice())
}

/// Appends a letter, a number and a clause.
fn put_numbered(
    text: &mut String,
    letter: &str,
    number: u32,
    clause: &[Atom],
) -> Result<(), AllocError>
    ensures { OnOk result (string_bytes text.new ≡ string_bytes text.old
        ++ (letter.now ++ (behind_blank (decimal number) ++ clause_text clause.now))) }
{
    text.push_str(letter)?;
    put_number(text, number)?;
    put_clause(text, clause)
}

/// Appends an item, without a line feed.
fn put_item(text: &mut String, item: &LogItem) -> Result<(), AllocError>
    ensures { OnOk result (string_bytes text.new ≡ string_bytes text.old ++ item_line item.now) }
{
    match item {
        LogItem::Sum(sum) => {
            text.push_str("s")?;
            put_sum(text, sum)
        }
        LogItem::Reason { constraint, clause } => {
            put_numbered(text, "e", *constraint, clause.as_slice())
        }
        LogItem::Objective(clause) => {
            text.push_str("o")?;
            put_clause(text, clause.as_slice())
        }
        LogItem::Ends { subject, clause } => put_numbered(text, "t", *subject, clause.as_slice()),
        LogItem::Assumed(assumption) => {
            text.push_str("a")?;
            put_number(text, *assumption)
        }
        LogItem::Learnt(clause) => {
            text.push_str("l")?;
            put_clause(text, clause.as_slice())
        }
    }
}

/// The lines of a log, one for each item, each ended by a line feed.
pub fn log_text(alloc: Global, items: &[LogItem]) -> Result<String, AllocError>
    ensures { IfOk result (λ text. string_bytes text ≡ log_text items.now) }
{
    let mut text = String::new(alloc);
    for item in items {
        put_item(&mut text, item)?;
        text.push_str("\n")?;
    }
    Ok(text)
}
