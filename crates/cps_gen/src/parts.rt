//! Parts of which models are made. None has a name.
ghost use Rattle.std.specs.Prelude.{◌≡◌, ◌*◌, ◌<◌, ◌≤◌, ◌^◌, IfOk, replicate};
ghost use Rattle.cps_gen.specs.Parts.{references, up_to, fixed, moved, in_force, least_of, model_of};

use cps_model::{
    Constraint, CpModel, Ints, Kind, LinearExpr, Listed, Objective, Refs, Text, Variable,
};
use std::alloc::{AllocError, Global};

/// References to the first `count` variables.
pub(crate) fn references(alloc: Global, count: u32) -> Result<Refs, AllocError>
    requires { count < 2 ^ 31 }
    ensures { IfOk result (λ refs. refs ≡ references count) }
{
    let mut refs = Vec::new(alloc);
    for number in 0..count {
        refs.push(number as i32)?;
    }
    Ok(Listed::from_vec(refs))
}

/// `count` variables, each with the values from 0 to `greatest`.
pub(crate) fn variables(
    alloc: Global,
    count: u32,
    greatest: u32,
) -> Result<Listed<Variable>, AllocError>
    ensures { IfOk result (λ vs. vs ≡ replicate count (up_to greatest)) }
{
    let mut variables = Vec::new(alloc);
    for _ in 0..count {
        variables.push(variable(alloc, greatest)?)?;
    }
    Ok(Listed::from_vec(variables))
}

/// A variable with values from 0 to the greatest.
fn variable(alloc: Global, greatest: u32) -> Result<Variable, AllocError>
    ensures { IfOk result (λ v. v ≡ up_to greatest) }
{
    Ok(Variable {
        name: Text::new(alloc),
        domain: Listed::from_vec(vec![in alloc; 0, i64::from(greatest)]?),
    })
}

/// A number as an expression.
pub(crate) fn fixed(alloc: Global, offset: u32) -> LinearExpr
    ensures { result ≡ fixed offset }
{
    LinearExpr {
        vars: Listed::new(alloc),
        coeffs: Listed::new(alloc),
        offset: i64::from(offset),
    }
}

/// The value of a variable, moved on by an offset.
pub(crate) fn moved(alloc: Global, variable: u32, offset: u32) -> Result<LinearExpr, AllocError>
    requires { variable < 2 ^ 31 }
    ensures { IfOk result (λ e. e ≡ moved variable offset) }
{
    Ok(LinearExpr {
        vars: Listed::from_vec(vec![in alloc; variable as i32]?),
        coeffs: Listed::from_vec(vec![in alloc; 1]?),
        offset: i64::from(offset),
    })
}

/// A constraint that is always in force.
pub(crate) fn in_force(alloc: Global, kind: Kind) -> Constraint
    ensures { result ≡ in_force kind }
{
    Constraint {
        name: Text::new(alloc),
        enforcement: Listed::new(alloc),
        kind,
    }
}

/// The objective that a sum is least, shown times the scaling.
pub(crate) fn least_of(alloc: Global, vars: Refs, coeffs: Ints, scaling: i64) -> Objective
    ensures { result ≡ least_of vars coeffs scaling }
{
    Objective {
        vars,
        coeffs,
        offset: 0,
        scaling,
        domain: Listed::new(alloc),
    }
}

/// A model without strategies, hint and assumptions.
pub(crate) fn model_of(
    alloc: Global,
    variables: Listed<Variable>,
    constraints: Listed<Constraint>,
    objective: Objective,
) -> CpModel
    ensures { result ≡ model_of variables constraints objective }
{
    CpModel {
        name: Text::new(alloc),
        variables,
        constraints,
        objective: Some(objective),
        strategies: Listed::new(alloc),
        hint: None,
        assumptions: Listed::new(alloc),
    }
}

/// How many places a grid of `size` rows and columns has.
pub(crate) fn square(size: u32) -> u32
    requires { size ≤ 60 }
    ensures value { result ≡ size * size }
    ensures few { result ≤ 3600 }
{
    size * size
}
