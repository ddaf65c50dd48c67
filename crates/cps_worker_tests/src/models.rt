//! Three variables: no two of them equal, or one of the first two not 0. Two variables without constraints, and a hint.
ghost use Rattle.std.specs.Prelude.{◌≡◌, All, IfOk, true};
ghost use Rattle.cps_kinds.specs.Kinds.{is_propagated, AreAllPropagated};

use cps_model::{Constraint, CpModel, Hint, Ints, Kind, Listed, Objective, Refs, Text, Variable};
use cps_validate::{ValidModel, ValidateError, validate};
use std::alloc::{AllocError, Global};

fn ints(alloc: Global, items: &[i64]) -> Result<Ints, AllocError> {
    Ok(Ints::from_vec(items.to_vec(alloc)?))
}

fn refs(alloc: Global, items: &[i32]) -> Result<Refs, AllocError> {
    Ok(Refs::from_vec(items.to_vec(alloc)?))
}

fn variable(alloc: Global, greatest: i64) -> Result<Variable, AllocError> {
    Ok(Variable {
        name: Text::new(alloc),
        domain: ints(alloc, &[0, greatest])?,
    })
}

/// So many variables from 0 on.
fn variables(alloc: Global, count: usize, greatest: i64) -> Result<Listed<Variable>, AllocError> {
    let mut variables = Vec::new(alloc);
    for _ in 0..count {
        let variable = variable(alloc, greatest)?;
        variables.push(variable)?;
    }
    Ok(Listed::from_vec(variables))
}

/// Two variables are not equal: their difference is from 1 to `greatest` or from its opposite to -1.
fn differ(alloc: Global, pair: &[i32; 2], greatest: i64) -> Result<Constraint, AllocError>
    ensures { IfOk result (λ c. is_propagated c.kind ≡ true) }
{
    let least = greatest.saturating_neg();
    Ok(Constraint {
        name: Text::new(alloc),
        enforcement: Refs::new(alloc),
        kind: Kind::Linear {
            vars: refs(alloc, pair)?,
            coeffs: ints(alloc, &[1, -1])?,
            domain: ints(alloc, &[least, -1, 1, greatest])?,
        },
    })
}

fn all_differ(alloc: Global, greatest: i64) -> Result<Listed<Constraint>, AllocError>
    ensures { IfOk result (All (λ c. is_propagated c.kind ≡ true)) }
{
    let mut constraints = Vec::new(alloc);
    for pair in [[0, 1], [0, 2], [1, 2]].iter() {
        constraints.push(differ(alloc, pair, greatest)?)?;
    }
    Ok(Listed::from_vec(constraints))
}

/// The sum of the three variables.
pub fn sum(alloc: Global) -> Result<Objective, AllocError> {
    Ok(Objective {
        vars: refs(alloc, &[0, 1, 2])?,
        coeffs: ints(alloc, &[1, 1, 1])?,
        offset: 0,
        scaling: 1,
        domain: Ints::new(alloc),
    })
}

/// Three variables from 0 to `greatest`, no two of them equal, and an objective.
pub fn three(
    alloc: Global,
    greatest: i64,
    objective: Option<Objective>,
) -> Result<ValidModel, ValidateError>
    ensures kinds { IfOk result AreAllPropagated }
{
    let constraints = all_differ(alloc, greatest)?;
    let variables = variables(alloc, 3, greatest)?;
    let model = CpModel {
        name: Text::new(alloc),
        variables,
        constraints,
        objective,
        strategies: Listed::new(alloc),
        hint: None,
        assumptions: Refs::new(alloc),
    };
    validate(alloc, model)
}

/// One of the first two variables is 1.
fn one_of_two(alloc: Global) -> Result<Listed<Constraint>, AllocError>
    ensures { IfOk result (All (λ c. is_propagated c.kind ≡ true)) }
{
    let mut constraints = Vec::new(alloc);
    constraints.push(Constraint {
        name: Text::new(alloc),
        enforcement: Refs::new(alloc),
        kind: Kind::BoolOr(refs(alloc, &[0, 1])?),
    })?;
    Ok(Listed::from_vec(constraints))
}

/// The sum of the first two variables, so many times.
fn sum_of_two(alloc: Global, times: i64) -> Result<Objective, AllocError> {
    Ok(Objective {
        vars: refs(alloc, &[0, 1])?,
        coeffs: ints(alloc, &[times, times])?,
        offset: 0,
        scaling: 1,
        domain: Ints::new(alloc),
    })
}

/// Three variables that are 0 or 1, one of the first two is 1, and the sum of these two is to be least.
pub fn pair(alloc: Global) -> Result<ValidModel, ValidateError>
    ensures kinds { IfOk result AreAllPropagated }
{
    let constraints = one_of_two(alloc)?;
    let variables = variables(alloc, 3, 1)?;
    let objective = sum_of_two(alloc, 1)?;
    let model = CpModel {
        name: Text::new(alloc),
        variables,
        constraints,
        objective: Some(objective),
        strategies: Listed::new(alloc),
        hint: None,
        assumptions: Refs::new(alloc),
    };
    validate(alloc, model)
}

/// The hint that the first two variables are 8 and 5.
fn eight_and_five(alloc: Global) -> Result<Hint, AllocError> {
    Ok(Hint {
        vars: refs(alloc, &[0, 1])?,
        values: ints(alloc, &[8, 5])?,
    })
}

/// Two variables from 0 to 9 that are hinted to be 8 and 5, and their sum is to be greatest.
pub fn hinted(alloc: Global) -> Result<ValidModel, ValidateError>
    ensures kinds { IfOk result AreAllPropagated }
{
    let variables = variables(alloc, 2, 9)?;
    let objective = sum_of_two(alloc, -1)?;
    let hint = eight_and_five(alloc)?;
    let model = CpModel {
        name: Text::new(alloc),
        variables,
        constraints: Listed::new(alloc),
        objective: Some(objective),
        strategies: Listed::new(alloc),
        hint: Some(hint),
        assumptions: Refs::new(alloc),
    };
    validate(alloc, model)
}
