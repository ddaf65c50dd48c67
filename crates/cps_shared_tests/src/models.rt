//! The models of the worked runs.
ghost use Rattle.std.specs.Prelude.{◌≡◌, length, IfOk, IsTrue};
ghost use Rattle.cps_port.specs.Incumbents.{IsAttained};
ghost use Rattle.cps_shared_tests.specs.Worked.{the_variable, IsMinimised, at_least_two, IsAtLeastTwo, any_of_nine, IsNine};

use cps_eval::{objective, satisfies};
use cps_model::{Constraint, CpModel, Ints, Kind, Listed, Objective, Refs, Text, Variable};
use cps_validate::ValidModel;
use std::alloc::{AllocError, Global};

fn ints(alloc: Global, items: &[i64]) -> Result<Ints, AllocError>
    ensures { IfOk result (λ list. list ≡ items.now) }
{
    Ok(Ints::from_vec(items.to_vec(alloc)?))
}

fn refs(alloc: Global, items: &[i32]) -> Result<Refs, AllocError>
    ensures { IfOk result (λ list. list ≡ items.now) }
{
    Ok(Refs::from_vec(items.to_vec(alloc)?))
}

fn variable(alloc: Global, high: i64) -> Result<Variable, AllocError> {
    Ok(Variable {
        name: Text::new(alloc),
        domain: ints(alloc, &[0, high])?,
    })
}

/// Variables from 0 to each of `greatest`.
fn variables(alloc: Global, greatest: &[i64]) -> Result<Listed<Variable>, AllocError>
    ensures { IfOk result (λ list. length list ≡ length greatest.now) }
{
    let mut variables = Vec::new(alloc);
    for high in greatest {
        let variable = variable(alloc, *high)?;
        variables.push(variable)?;
    }
    Ok(Listed::from_vec(variables))
}

fn the_variable(alloc: Global) -> Result<Objective, AllocError>
    ensures { IfOk result (λ o. o ≡ the_variable) }
{
    Ok(Objective {
        vars: refs(alloc, &[0])?,
        coeffs: ints(alloc, &[1])?,
        offset: 0,
        scaling: 1,
        domain: Ints::new(alloc),
    })
}

/// One variable, 0..10, which is the objective.
pub fn minimised(alloc: Global) -> Result<CpModel, AllocError>
    ensures { IfOk result IsMinimised }
{
    let objective = the_variable(alloc)?;
    let variables = variables(alloc, &[10])?;
    Ok(CpModel {
        name: Text::new(alloc),
        variables,
        constraints: Listed::new(alloc),
        objective: Some(objective),
        strategies: Listed::new(alloc),
        hint: None,
        assumptions: Refs::new(alloc),
    })
}

/// The variable is at least 2.
fn at_least_two(alloc: Global) -> Result<Constraint, AllocError>
    ensures { IfOk result (λ c. c ≡ at_least_two) }
{
    Ok(Constraint {
        name: Text::new(alloc),
        enforcement: Refs::new(alloc),
        kind: Kind::Linear {
            vars: refs(alloc, &[0])?,
            coeffs: ints(alloc, &[1])?,
            domain: ints(alloc, &[2, i64::MAX])?,
        },
    })
}

/// One variable, 0..10, which is the objective, and at least 2.
pub fn minimised_from_two(alloc: Global) -> Result<CpModel, AllocError>
    ensures { IfOk result IsAtLeastTwo }
{
    let objective = the_variable(alloc)?;
    let variables = variables(alloc, &[10])?;
    let constraints = vec![in alloc; at_least_two(alloc)?]?;
    Ok(CpModel {
        name: Text::new(alloc),
        variables,
        constraints: Listed::from_vec(constraints),
        objective: Some(objective),
        strategies: Listed::new(alloc),
        hint: None,
        assumptions: Refs::new(alloc),
    })
}

/// One of nine variables is 1.
fn any_of_nine(alloc: Global) -> Result<Constraint, AllocError>
    ensures { IfOk result (λ c. c ≡ any_of_nine) }
{
    Ok(Constraint {
        name: Text::new(alloc),
        enforcement: Refs::new(alloc),
        kind: Kind::BoolOr(refs(alloc, &[0, 1, 2, 3, 4, 5, 6, 7, 8])?),
    })
}

/// Nine variables, 0..1, of which at least one is 1.
pub fn nine(alloc: Global) -> Result<CpModel, AllocError>
    ensures { IfOk result IsNine }
{
    let constraints = vec![in alloc; any_of_nine(alloc)?]?;
    let variables = variables(alloc, &[1; 9])?;
    Ok(CpModel {
        name: Text::new(alloc),
        variables,
        constraints: Listed::from_vec(constraints),
        objective: None,
        strategies: Listed::new(alloc),
        hint: None,
        assumptions: Refs::new(alloc),
    })
}

/// Whether the value is a solution of a model with one variable, and its objective.
pub fn is_attained(alloc: Global, model: &ValidModel, value: i64) -> Result<bool, AllocError>
    ensures { IfOk result (λ found. IsTrue found → IsAttained model.now value) }
{
    let values = [value];
    if model.model().variables.len() != 1 || !satisfies(alloc, model, &values)? {
        return Ok(false);
    }
    Ok(objective(model, &values) == value)
}
