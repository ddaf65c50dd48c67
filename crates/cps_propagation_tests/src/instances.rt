//! The instances of a model that says nothing, of one with a clause and of one with a strategy.
//!
//! Looked at are the numbers of subjects and tasks, the ends of the domains, and which expressions of a strategy have a
//! subject of their own. The strategy has expressions in both forms, which no text can give, so its model is built here.
use crate::reading::valid_model;
use crate::stores::at_most;
use cps_instance::{Body, Instance};
use cps_model::{Choose, CpModel, Exprs, LinearExpr, Listed, Select, Strategy, Text, Variable};
use cps_validate::{ValidModel, validate};
use std::alloc::{AllocError, Global};
use std::test::Fail;

/// How many variables, subjects and tasks an instance has.
fn sizes_of(instance: &Instance) -> [usize; 3] {
    [
        instance.variable_count(),
        instance.domains().len(),
        instance.tasks().len(),
    ]
}

/// Defines the sum of no term and 5. The number of its subject.
fn define_constant(instance: &mut Instance) -> Option<u32> {
    if instance.domains().len() > 1000 {
        return None;
    }
    instance.define(&[], 5).ok()
}

/// The sizes of an instance, whether its model makes no assumptions, and with the sum of no term and 5 the number of
/// that sum's subject and the sizes.
#[derive(Clone, Copy)]
struct Grown {
    first: [usize; 3],
    is_unassumed: bool,
    subject: Option<u32>,
    then: [usize; 3],
}

fn grow(alloc: Global, model: &ValidModel) -> Result<Grown, AllocError> {
    let mut instance = Instance::of(alloc, model)?;
    Ok(Grown {
        first: sizes_of(&instance),
        is_unassumed: instance.assumptions().is_empty(),
        subject: define_constant(&mut instance),
        then: sizes_of(&instance),
    })
}

#[test]
fn instance_of_an_empty_model(rt: HostRuntime) -> Result<(), Fail> {
    let model = valid_model(&rt, rt.alloc(), "")?;
    let grown = grow(rt.alloc(), &model)?;
    assert!(rt; grown.first == [0, 0, 2]);
    assert!(rt; grown.is_unassumed);
    assert!(rt; grown.subject == Some(0));
    assert!(rt; grown.then == [0, 1, 3]);
    Ok(())
}

/// Whether the first task is that the only variable is at most 0.
fn begins_with_the_clause(instance: &Instance) -> bool {
    let Some(task) = instance.tasks().first() else {
        return false;
    };
    let Body::BoolOr(atoms) = &task.body else {
        return false;
    };
    task.enforcement.is_empty() && atoms.as_slice() == [at_most(0, 0)].as_slice()
}

/// The sizes of an instance, and whether its first task is the clause.
fn posted(alloc: Global, model: &ValidModel) -> Result<([usize; 3], bool), AllocError> {
    let instance = Instance::of(alloc, model)?;
    Ok((sizes_of(&instance), begins_with_the_clause(&instance)))
}

/// A variable of the values 0 and 1, and the clause that it is not 1.
const CLAUSE: &str = "variables { domain: [0, 1] } constraints { bool_or { literals: -1 } }";

#[test]
fn instance_of_a_clause(rt: HostRuntime) -> Result<(), Fail> {
    let model = valid_model(&rt, rt.alloc(), CLAUSE)?;
    assert!(rt; posted(rt.alloc(), &model)? == ([1, 1, 3], true));
    Ok(())
}

/// Adds a variable with the values from one number to another.
fn push_variable(
    alloc: Global,
    variables: &mut Vec<Variable>,
    low: i64,
    high: i64,
) -> Result<(), AllocError> {
    let domain = Vec::from_slice(alloc, &[low, high])?;
    variables.push(Variable {
        name: Text::new(alloc),
        domain: Listed::from_vec(domain),
    })?;
    Ok(())
}

/// A sum of variables with these references and coefficients.
struct Sum {
    vars: &'static [i32],
    coeffs: &'static [i64],
    offset: i64,
}

fn expr_of(alloc: Global, sum: &Sum) -> Result<LinearExpr, AllocError> {
    let vars = Vec::from_slice(alloc, sum.vars)?;
    let coeffs = Vec::from_slice(alloc, sum.coeffs)?;
    Ok(LinearExpr {
        vars: Listed::from_vec(vars),
        coeffs: Listed::from_vec(coeffs),
        offset: sum.offset,
    })
}

fn exprs_of(alloc: Global, sums: &[Sum]) -> Result<Vec<LinearExpr>, AllocError> {
    let mut exprs = Vec::new(alloc);
    for sum in sums {
        let expr = expr_of(alloc, sum)?;
        exprs.push(expr)?;
    }
    Ok(exprs)
}

/// Over two variables: one of them, the opposite of the other, its double, it with an offset, and both; behind them
/// come references to it alone and to the opposite of the first.
static EXPRESSIONS: [Sum; 5] = [
    Sum {
        vars: &[1],
        coeffs: &[1],
        offset: 0,
    },
    Sum {
        vars: &[-1],
        coeffs: &[1],
        offset: 0,
    },
    Sum {
        vars: &[0],
        coeffs: &[2],
        offset: 0,
    },
    Sum {
        vars: &[0],
        coeffs: &[1],
        offset: 5,
    },
    Sum {
        vars: &[0, 1],
        coeffs: &[1, 1],
        offset: 0,
    },
];

/// A strategy over these.
fn strategy(alloc: Global) -> Result<Strategy, AllocError> {
    let references = Vec::from_slice(alloc, &[0, -2])?;
    let exprs = exprs_of(alloc, &EXPRESSIONS)?;
    Ok(Strategy {
        exprs: Exprs::of(exprs, references),
        choose: Choose::LowestMin,
        select: Select::MaxValue,
    })
}

fn one_strategy(alloc: Global) -> Result<Listed<Strategy>, AllocError> {
    let strategy = strategy(alloc)?;
    Ok(Listed::from_vec(vec![in alloc; strategy]?))
}

/// Variables with the values 0 to 1 and 2 to 5.
fn two_variables(alloc: Global) -> Result<Listed<Variable>, AllocError> {
    let mut variables = Vec::new(alloc);
    push_variable(alloc, &mut variables, 0, 1)?;
    push_variable(alloc, &mut variables, 2, 5)?;
    Ok(Listed::from_vec(variables))
}

/// These variables and the strategy.
fn steered_model(alloc: Global) -> Result<CpModel, AllocError> {
    let variables = two_variables(alloc)?;
    let strategies = one_strategy(alloc)?;
    Ok(CpModel {
        name: Text::new(alloc),
        variables,
        constraints: Listed::new(alloc),
        objective: None,
        strategies,
        hint: None,
        assumptions: Listed::new(alloc),
    })
}

/// The least and the greatest value of each subject.
fn ends_of(alloc: Global, instance: &Instance) -> Result<Vec<(i64, i64)>, AllocError> {
    let mut ends = Vec::new(alloc);
    for domain in instance.domains() {
        ends.push((domain.min(), domain.max()))?;
    }
    Ok(ends)
}

/// Whether the subjects have these least and greatest values.
fn has_ends(alloc: Global, instance: &Instance, ends: &[(i64, i64)]) -> Result<bool, AllocError> {
    let found = ends_of(alloc, instance)?;
    Ok(found.as_slice() == ends)
}

/// Whether there is one strategy, over these subjects, which chooses and selects as the one above.
fn is_steered_over(instance: &Instance, subjects: &[u32]) -> bool {
    match instance.steering() {
        [steering] => {
            steering.subjects.as_slice() == subjects
                && steering.choose == Choose::LowestMin
                && steering.select == Select::MaxValue
        }
        _ => false,
    }
}

static STEERED_SUBJECTS: [u32; 7] = [1, 2, 3, 4, 5, 0, 6];

static ENDS: [(i64, i64); 7] = [(0, 1), (2, 5), (-1, 0), (0, 2), (5, 6), (2, 6), (-5, -2)];

/// Whether the strategy is over sums of its own where an expression is no variable, whether these have the ends that
/// they are to have, and how many tasks there are.
fn steered(alloc: Global, model: &ValidModel) -> Result<(bool, bool, usize), AllocError> {
    let instance = Instance::of(alloc, model)?;
    let has_ends = has_ends(alloc, &instance, &ENDS)?;
    let is_steered = is_steered_over(&instance, &STEERED_SUBJECTS);
    Ok((is_steered, has_ends, instance.tasks().len()))
}

fn steered_of_model(alloc: Global) -> Option<(bool, bool, usize)> {
    let valid = validate(alloc, steered_model(alloc).ok()?).ok()?;
    steered(alloc, &valid).ok()
}

#[test]
fn strategies_define_sums(rt: HostRuntime) {
    assert_eq!(rt; steered_of_model(rt.alloc()), Some((true, true, 7)));
}
