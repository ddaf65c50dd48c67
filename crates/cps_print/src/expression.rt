//! The lines of expressions.
ghost use Rattle.std.specs.Prelude.{◌≡◌, ◌++◌, ◌+◌, ◌^◌, ◌<◌, OnOk, map, string_bytes};
ghost use Rattle.std.specs.List.{flat_map};
ghost use Rattle.cps_model.specs.Values.{reference_expression};
ghost use Rattle.cps_print.specs.Layout.{text_of};
ghost use Rattle.cps_print.specs.Fields.{message_field};
ghost use Rattle.cps_print.specs.Expressions.{printed_expression, is_empty_expression, expression_field};

use crate::layout::{close_message, open_message, put_list_field, put_number_field};
use cps_model::{Exprs, LinearExpr};
use std::alloc::AllocError;

/// Whether an expression has no term and the offset 0.
fn is_empty_expression(expression: &LinearExpr) -> bool
    ensures { result ≡ is_empty_expression expression.now }
{
    expression.vars.is_empty() && expression.coeffs.is_empty() && expression.offset == 0
}

/// Appends an expression, as one of several.
fn put_expression(
    text: &mut String,
    level: usize,
    name: &str,
    expression: &LinearExpr,
) -> Result<(), AllocError>
    requires { level < 2 ^ 32 }
    ensures { OnOk result (string_bytes text.new ≡ string_bytes text.old
        ++ text_of level (message_field name.now (printed_expression expression.now))) }
{
    open_message(text, level, name)?;
    put_list_field(text, level + 1, "vars", expression.vars.as_slice())?;
    put_list_field(text, level + 1, "coeffs", expression.coeffs.as_slice())?;
    put_number_field(text, level + 1, "offset", expression.offset)?;
    close_message(text, level)
}

/// Appends expressions, also those that are empty.
pub fn put_expressions(
    text: &mut String,
    level: usize,
    name: &str,
    expressions: &[LinearExpr],
) -> Result<(), AllocError>
    requires { level < 2 ^ 32 }
    ensures { OnOk result (string_bytes text.new ≡ string_bytes text.old
        ++ flat_map (λ e. text_of level (message_field name.now (printed_expression e))) expressions.now) }
{
    for expression in expressions {
        put_expression(text, level, name, expression)?;
    }
    Ok(())
}

/// Appends a reference as an expression, as one of several.
fn put_reference(
    text: &mut String,
    level: usize,
    name: &str,
    reference: i32,
) -> Result<(), AllocError>
    requires { level < 2 ^ 32 }
    ensures { OnOk result (string_bytes text.new ≡ string_bytes text.old
        ++ text_of level (message_field name.now (printed_expression (reference_expression reference)))) }
{
    open_message(text, level, name)?;
    put_list_field(text, level + 1, "vars", &[reference])?;
    put_list_field(text, level + 1, "coeffs", &[1i64])?;
    close_message(text, level)
}

/// Appends references as expressions.
fn put_references(
    text: &mut String,
    level: usize,
    name: &str,
    references: &[i32],
) -> Result<(), AllocError>
    requires { level < 2 ^ 32 }
    ensures { OnOk result (string_bytes text.new ≡ string_bytes text.old
        ++ flat_map (λ e. text_of level (message_field name.now (printed_expression e)))
        (map reference_expression references.now)) }
{
    for reference in references {
        put_reference(text, level, name, *reference)?;
    }
    Ok(())
}

/// Appends expressions, also those that are empty, where some may be plain references.
pub fn put_all(text: &mut String, level: usize, name: &str, exprs: &Exprs) -> Result<(), AllocError>
    requires { level < 2 ^ 32 }
    ensures { OnOk result (string_bytes text.new ≡ string_bytes text.old
        ++ flat_map (λ e. text_of level (message_field name.now (printed_expression e))) exprs.now) }
{
    let (written, references) = exprs.parts();
    put_expressions(text, level, name, written)?;
    put_references(text, level, name, references)
}

/// Appends a single expression, unless it is empty.
#[tactic(auto, using(crate::proofs::Lines::expression_lines))]
pub fn put_expression_field(
    text: &mut String,
    level: usize,
    name: &str,
    expression: &LinearExpr,
) -> Result<(), AllocError>
    requires { level < 2 ^ 32 }
    ensures { OnOk result (string_bytes text.new ≡ string_bytes text.old
        ++ text_of level (expression_field name.now expression.now)) }
{
    if is_empty_expression(expression) {
        return Ok(());
    }
    put_expression(text, level, name, expression)
}
