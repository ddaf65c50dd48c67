//! Documents, read as models: what each field gives.
//!
//! A row is a text and the shape of the model that it gives; each shape is one test on the model's fields. Defaults,
//! older forms and numbers written in several ways have rows of their own.
use crate::reading::model;
use cps_model::{Choose, Constraint, CpModel, Kind, Objective, Select, Strategy, Variable};
use std::alloc::Global;
use std::process::Abort;
use std::test::Fail;

fn is_variable(variable: &Variable, domain: &[i64]) -> bool {
    variable.name.as_str().is_empty() && variable.domain.as_slice() == domain
}

fn is_bool_or(constraint: &Constraint, enforcement: &[i32], literals: &[i32]) -> bool {
    match &constraint.kind {
        Kind::BoolOr(read) => {
            constraint.enforcement.as_slice() == enforcement && read.as_slice() == literals
        }
        _ => false,
    }
}

fn is_empty(constraint: &Constraint) -> bool {
    matches!(constraint.kind, Kind::Empty)
}

fn is_linear(constraint: &Constraint, refs: &[i32], factors: &[i64], bounds: &[i64]) -> bool {
    match &constraint.kind {
        Kind::Linear {
            vars,
            coeffs,
            domain,
        } => {
            vars.as_slice() == refs && coeffs.as_slice() == factors && domain.as_slice() == bounds
        }
        _ => false,
    }
}

fn is_objective(objective: &Objective, refs: &[i32], factors: &[i64], bounds: &[i64]) -> bool {
    objective.vars.as_slice() == refs
        && objective.coeffs.as_slice() == factors
        && objective.domain.as_slice() == bounds
}

fn are_variables(model: &CpModel) -> bool {
    match model.variables.as_slice() {
        [first, second] => {
            is_variable(first, &[0, -1, i64::MAX])
                && is_variable(second, &[])
                && model.objective.is_none()
        }
        _ => false,
    }
}

/// Whether a constraint is of this kind over these literals.
fn is_over(constraint: &Constraint, name: &str, literals: &[i32]) -> bool {
    match &constraint.kind {
        Kind::BoolAnd(read) => name == "bool_and" && read.as_slice() == literals,
        Kind::AtMostOne(read) => name == "at_most_one" && read.as_slice() == literals,
        Kind::ExactlyOne(read) => name == "exactly_one" && read.as_slice() == literals,
        Kind::BoolXor(read) => name == "bool_xor" && read.as_slice() == literals,
        _ => false,
    }
}

fn are_constraints(model: &CpModel) -> bool {
    match model.constraints.as_slice() {
        [first, second, third, every, most, one, odd] => {
            is_bool_or(first, &[0, i32::MIN], &[i32::MAX])
                && is_empty(second)
                && is_linear(third, &[0, 1], &[-3], &[i64::MIN])
                && is_over(every, "bool_and", &[1, -2])
                && is_over(most, "at_most_one", &[3])
                && is_over(one, "exactly_one", &[4, 4])
                && is_over(odd, "bool_xor", &[])
        }
        _ => false,
    }
}

fn has_offset(model: &CpModel, offset: i64) -> bool {
    match &model.objective {
        Some(objective) => objective.offset == offset,
        None => false,
    }
}

fn is_scaled(model: &CpModel) -> bool {
    match &model.objective {
        Some(objective) => {
            is_objective(objective, &[5], &[7], &[2, 3])
                && objective.offset == -9007199254740992
                && objective.scaling == 1
        }
        None => false,
    }
}

fn are_whole_numbers(model: &CpModel) -> bool {
    match model.variables.as_slice() {
        [variable] => is_variable(variable, &[15, 31, 31, -16, -15, 0, i64::MAX, i64::MIN]),
        _ => false,
    }
}

fn are_names(model: &CpModel) -> bool {
    match model.variables.as_slice() {
        [variable] => variable.name.as_str() == "x\u{e4}" && model.name.as_str() == "m\n",
        _ => false,
    }
}

/// A strategy chooses so.
fn chooses(strategy: &Strategy, choose: Choose, select: Select) -> bool {
    strategy.choose == choose && strategy.select == select
}

/// A strategy has one expression, of these references, coefficients and offset.
fn has_expr(strategy: &Strategy, refs: &[i32], factors: &[i64], offset: i64) -> bool {
    match strategy.exprs.parts() {
        ([expr], []) => {
            expr.vars.as_slice() == refs
                && expr.coeffs.as_slice() == factors
                && expr.offset == offset
        }
        ([], [reference]) => {
            refs == [*reference].as_slice() && factors == [1].as_slice() && offset == 0
        }
        _ => false,
    }
}

fn is_steered(model: &CpModel) -> bool {
    match (model.strategies.as_slice(), &model.hint) {
        ([older, newer], Some(hint)) => {
            chooses(older, Choose::First, Select::MaxValue)
                && has_expr(older, &[-3], &[1], 0)
                && chooses(newer, Choose::MaxDomainSize, Select::MinValue)
                && has_expr(newer, &[1], &[2], -15)
                && hint.vars.as_slice() == [0, 1].as_slice()
                && hint.values.as_slice() == [4, -5].as_slice()
        }
        _ => false,
    }
}

fn has_members(model: &CpModel, choose: Choose, select: Select) -> bool {
    match model.strategies.as_slice() {
        [strategy] => chooses(strategy, choose, select) && has_expr(strategy, &[], &[], 0),
        _ => false,
    }
}

/// What a model of the tables below is.
#[derive(Clone, Copy)]
enum Shape {
    Variables,
    Constraints,
    Scaled,
    Offset(i64),
    WholeNumbers,
    Names,
    Steered,
    Members(Choose, Select),
}

fn has_shape(model: &CpModel, shape: Shape) -> bool {
    match shape {
        Shape::Variables => are_variables(model),
        Shape::Constraints => are_constraints(model),
        Shape::Scaled => is_scaled(model),
        Shape::Offset(offset) => has_offset(model, offset),
        Shape::WholeNumbers => are_whole_numbers(model),
        Shape::Names => are_names(model),
        Shape::Steered => is_steered(model),
        Shape::Members(choose, select) => has_members(model, choose, select),
    }
}

/// Asserts that a text is read as a model that is so.
fn assert_shape(rt: &impl Abort, alloc: Global, text: &str, shape: Shape) -> Result<(), Fail> {
    let model = model(rt, alloc, text)?;
    assert!(rt; has_shape(&model, shape), "{text}");
    Ok(())
}

/// Texts, each with what its model is.
static MODELS: [(&str, Shape); 6] = [
    (
        "variables { domain: [0, - 1] domain: 9223372036854775807; domain: [ ] } variables { } variables: [ ]",
        Shape::Variables,
    ),
    (
        "constraints { enforcement_literal: [0, -2147483648] bool_or { literals: 2147483647 } } constraints { } \
         constraints { linear: { vars: 0 vars: [1], coeffs: -3, domain: -9223372036854775808 } } \
         constraints { bool_and { literals: [1, -2] } } constraints { at_most_one { literals: 3 } } \
         constraints { exactly_one { literals: [4, 4] } } constraints { bool_xor { } }",
        Shape::Constraints,
    ),
    (
        "objective { coeffs: 7 offset: -9007199254740992 scaling_factor: 0 domain: [2, 3] vars: 5 }",
        Shape::Scaled,
    ),
    (
        "variables { domain: [017, 0x1F, 0X1f, -0x10, -017, 00, 0x7fffffffffffffff, -0x8000000000000000] }",
        Shape::WholeNumbers,
    ),
    (
        "variables { name: 'x' \"\\303\" \"\\244\" } name: \"m\\n\" constraints { name: \"\" }",
        Shape::Names,
    ),
    (
        "search_strategy { variables: -3 domain_reduction_strategy: SELECT_MAX_VALUE } \
         search_strategy { variable_selection_strategy: 0x4 exprs { vars: 1 coeffs: 2 offset: -017 } domain_reduction_strategy: -0 } \
         solution_hint { values: [4, -5] vars: 0 vars: 1 }",
        Shape::Steered,
    ),
];

fn assert_models(rt: &impl Abort, alloc: Global, rows: &[(&str, Shape)]) -> Result<(), Fail> {
    for (text, shape) in rows {
        assert_shape(rt, alloc, text, *shape)?;
    }
    Ok(())
}

#[test]
fn reads_models(rt: HostRuntime) -> Result<(), Fail> {
    assert_models(&rt, rt.alloc(), &MODELS)
}

/// Strategies that are written by names, each with what it chooses and selects.
static MEMBERS: [(&str, Choose, Select); 5] = [
    (
        "search_strategy { exprs { } variable_selection_strategy: CHOOSE_FIRST domain_reduction_strategy: SELECT_MIN_VALUE }",
        Choose::First,
        Select::MinValue,
    ),
    (
        "search_strategy { exprs { } variable_selection_strategy: CHOOSE_LOWEST_MIN domain_reduction_strategy: SELECT_MAX_VALUE }",
        Choose::LowestMin,
        Select::MaxValue,
    ),
    (
        "search_strategy { exprs { } variable_selection_strategy: CHOOSE_HIGHEST_MAX domain_reduction_strategy: SELECT_LOWER_HALF }",
        Choose::HighestMax,
        Select::LowerHalf,
    ),
    (
        "search_strategy { exprs { } variable_selection_strategy: CHOOSE_MIN_DOMAIN_SIZE domain_reduction_strategy: SELECT_UPPER_HALF }",
        Choose::MinDomainSize,
        Select::UpperHalf,
    ),
    (
        "search_strategy { exprs { } variable_selection_strategy: CHOOSE_MAX_DOMAIN_SIZE domain_reduction_strategy: SELECT_MEDIAN_VALUE }",
        Choose::MaxDomainSize,
        Select::MedianValue,
    ),
];

fn assert_members(
    rt: &impl Abort,
    alloc: Global,
    rows: &[(&str, Choose, Select)],
) -> Result<(), Fail> {
    for (text, choose, select) in rows {
        assert_shape(rt, alloc, text, Shape::Members(*choose, *select))?;
    }
    Ok(())
}

#[test]
fn reads_members(rt: HostRuntime) -> Result<(), Fail> {
    assert_members(&rt, rt.alloc(), &MEMBERS)
}

/// Objectives, each with its offset.
static OFFSETS: [(&str, i64); 12] = [
    ("objective { offset: 1e5 }", 100000),
    ("objective { offset: 1500e-2 }", 15),
    ("objective { offset: 0.10e1f }", 1),
    ("objective { offset: 0e99999999999 }", 0),
    ("objective { offset: -0.0 }", 0),
    ("objective { offset: 0.0e-99999999999999999999 }", 0),
    ("objective { offset: 9007199254740992.0 }", 9007199254740992),
    (
        "objective { offset: -9.007199254740992E+15 }",
        -9007199254740992,
    ),
    (
        "objective { offset: 9007199254740992000e-3 }",
        9007199254740992,
    ),
    ("objective { offset: 7f }", 7),
    ("objective { offset: .5e1 }", 5),
    ("objective { offset: - 12.F }", -12),
];

fn assert_offsets(rt: &impl Abort, alloc: Global, rows: &[(&str, i64)]) -> Result<(), Fail> {
    for (text, offset) in rows {
        assert_shape(rt, alloc, text, Shape::Offset(*offset))?;
    }
    Ok(())
}

#[test]
fn reads_objectives(rt: HostRuntime) -> Result<(), Fail> {
    assert_offsets(&rt, rt.alloc(), &OFFSETS)
}
