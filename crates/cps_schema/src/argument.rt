//! A target and expressions.
ghost use Rattle.std.specs.Prelude.{◌≡◌, [], None, IfOk, IfErr, codes};
ghost use Rattle.cps_textproto.specs.Trees.{tree_of};
ghost use Rattle.cps_schema.specs.Inputs.{written_of};
ghost use Rattle.cps_schema.specs.Tables.{linear_argument_message};
ghost use Rattle.cps_schema.specs.Faults.{fields_fault};
ghost use Rattle.cps_schema.specs.Readings.{the_expression, expressions, read_int_div, read_int_mod, read_int_prod, read_lin_max};
ghost use Rattle.cps_schema.specs.Answers.{Refuses};

use super::error::SchemaError;
use super::gather::Contents::Expressions;
use super::gather::Takes::{Many, One};
use super::gather::{Line, gather};
use super::input::Input;
use super::taking::{next_expression, next_expressions};
use cps_model::{Kind, LinearExpr, Listed};
use cps_textproto::Node;
use std::alloc::Global;

const FIELDS: [Line; 2] = [
    Line(b"target", One(Expressions)),
    Line(b"exprs", Many(Expressions)),
];

/// A target and expressions.
struct Argument {
    pub target: LinearExpr,
    pub exprs: Listed<LinearExpr>,
}

/// The target and the expressions that a message gives.
fn read_argument(alloc: Global, input: &Input, node: &Node) -> Result<Argument, SchemaError>
    ensures accepted { IfOk result
        (λ _. fields_fault (written_of input.now) linear_argument_message [] (tree_of node.now) ≡ None) }
    ensures target { IfOk result (λ argument. argument.target
        ≡ the_expression (written_of input.now) (codes "target") (tree_of node.now)) }
    ensures exprs { IfOk result (λ argument. argument.exprs
        ≡ expressions (written_of input.now) (codes "exprs") (tree_of node.now)) }
    ensures err { IfErr result (Refuses
        (fields_fault (written_of input.now) linear_argument_message [] (tree_of node.now))) }
{
    let mut slots = match gather(alloc, input, &FIELDS, node) {
        Ok(slots) => slots,
        Err(error) => return Err(error),
    };
    Ok(Argument {
        target: next_expression(alloc, &mut slots),
        exprs: next_expressions(alloc, &mut slots),
    })
}

/// The quotient that a message gives.
pub(crate) fn read_int_div(alloc: Global, input: &Input, node: &Node) -> Result<Kind, SchemaError>
    ensures accepted { IfOk result
        (λ _. fields_fault (written_of input.now) linear_argument_message [] (tree_of node.now) ≡ None) }
    ensures reading { IfOk result (λ kind. kind ≡ read_int_div (written_of input.now) (tree_of node.now)) }
    ensures err { IfErr result (Refuses
        (fields_fault (written_of input.now) linear_argument_message [] (tree_of node.now))) }
{
    let Argument { target, exprs } = read_argument(alloc, input, node)?;
    Ok(Kind::IntDiv { target, exprs })
}

/// The remainder that a message gives.
pub(crate) fn read_int_mod(alloc: Global, input: &Input, node: &Node) -> Result<Kind, SchemaError>
    ensures accepted { IfOk result
        (λ _. fields_fault (written_of input.now) linear_argument_message [] (tree_of node.now) ≡ None) }
    ensures reading { IfOk result (λ kind. kind ≡ read_int_mod (written_of input.now) (tree_of node.now)) }
    ensures err { IfErr result (Refuses
        (fields_fault (written_of input.now) linear_argument_message [] (tree_of node.now))) }
{
    let Argument { target, exprs } = read_argument(alloc, input, node)?;
    Ok(Kind::IntMod { target, exprs })
}

/// The product that a message gives.
pub(crate) fn read_int_prod(alloc: Global, input: &Input, node: &Node) -> Result<Kind, SchemaError>
    ensures accepted { IfOk result
        (λ _. fields_fault (written_of input.now) linear_argument_message [] (tree_of node.now) ≡ None) }
    ensures reading { IfOk result (λ kind. kind ≡ read_int_prod (written_of input.now) (tree_of node.now)) }
    ensures err { IfErr result (Refuses
        (fields_fault (written_of input.now) linear_argument_message [] (tree_of node.now))) }
{
    let Argument { target, exprs } = read_argument(alloc, input, node)?;
    Ok(Kind::IntProd { target, exprs })
}

/// The maximum that a message gives.
pub(crate) fn read_lin_max(alloc: Global, input: &Input, node: &Node) -> Result<Kind, SchemaError>
    ensures accepted { IfOk result
        (λ _. fields_fault (written_of input.now) linear_argument_message [] (tree_of node.now) ≡ None) }
    ensures reading { IfOk result (λ kind. kind ≡ read_lin_max (written_of input.now) (tree_of node.now)) }
    ensures err { IfErr result (Refuses
        (fields_fault (written_of input.now) linear_argument_message [] (tree_of node.now))) }
{
    let Argument { target, exprs } = read_argument(alloc, input, node)?;
    Ok(Kind::LinMax { target, exprs })
}
