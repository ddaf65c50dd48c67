//! Models against the rules of a valid model.
use crate::reading::model;
use crate::rows::assert_so;
use cps_model::Place;
use cps_validate::{ValidateError, validate};
use std::alloc::Global;
use std::process::Abort;
use std::test::Fail;

/// The rule that a model breaks first, with its place; `None` if it is valid.
pub fn broken(rt: &impl Abort, alloc: Global, text: &str) -> Result<Option<(u8, Place)>, Fail> {
    match validate(alloc, model(rt, alloc, text)?) {
        Ok(_) => Ok(None),
        Err(ValidateError::Invalid { rule, place }) => Ok(Some((rule, place))),
        Err(error) => Err(Fail::from(error)),
    }
}

/// Models of one or two variables, one clause and assumptions, each with the rule that it breaks first.
static MODELS: [(&str, Option<(u8, Place)>); 11] = [
    (
        "variables { domain: [0, -1] } constraints { bool_or { literals: 0 } } assumptions: 0",
        Some((1, Place::Variable(0))),
    ),
    (
        "variables { domain: [0, 4611686018427387904] } constraints { bool_or { literals: 0 } } assumptions: 0",
        Some((2, Place::Variable(0))),
    ),
    (
        "variables { domain: [0, 1] } constraints { bool_or { literals: 5 } } assumptions: 0",
        Some((3, Place::Constraint(0))),
    ),
    (
        "variables { domain: [0, 2] } constraints { bool_or { literals: 0 } } assumptions: 0",
        Some((4, Place::Constraint(0))),
    ),
    (
        "variables { domain: [0, 1] } constraints { bool_or { literals: 0 } } assumptions: 9",
        Some((3, Place::Assumption(0))),
    ),
    (
        "variables { domain: [0, 1] } variables { domain: [0, 2] } assumptions: [0, -2]",
        Some((4, Place::Assumption(1))),
    ),
    (
        "variables { domain: [0, 1] } constraints { bool_or { literals: 0 } } assumptions: -1",
        None,
    ),
    (
        "variables { domain: [0, 1] } variables { domain: [0, 2] } assumptions: 0",
        None,
    ),
    (
        "variables { domain: [0, 1] } variables { domain: [0, 2] } assumptions: -1",
        None,
    ),
    (
        "variables { domain: [0, 1] } variables { domain: [0, 2] } assumptions: 1",
        Some((4, Place::Assumption(0))),
    ),
    (
        "variables { domain: [0, 1] } variables { domain: [0, 2] } assumptions: 2",
        Some((3, Place::Assumption(0))),
    ),
];

fn assert_broken(
    rt: &impl Abort,
    alloc: Global,
    text: &str,
    wanted: Option<(u8, Place)>,
) -> Result<(), Fail> {
    assert_so(rt, text, broken(rt, alloc, text)? == wanted);
    Ok(())
}

fn assert_models(
    rt: &impl Abort,
    alloc: Global,
    rows: &[(&str, Option<(u8, Place)>)],
) -> Result<(), Fail> {
    for (text, wanted) in rows {
        assert_broken(rt, alloc, text, *wanted)?;
    }
    Ok(())
}

#[test]
fn variables_and_literals(rt: HostRuntime) -> Result<(), Fail> {
    assert_models(&rt, rt.alloc(), &MODELS)
}

/// Two variables 0..2^31.
const WIDE: &str = "variables { domain: [0, 2147483648] } variables { domain: [0, 2147483648] }";

/// Sums of two variables 0..2^31, by their coefficients and domain, each with the rule that it breaks first.
static SUMS: [(&str, Option<(u8, Place)>); 4] = [
    (
        "coeffs: [1] domain: [0, 0]",
        Some((5, Place::Constraint(0))),
    ),
    (
        "coeffs: [1073741824, 1073741824] domain: [0, 0]",
        Some((6, Place::Constraint(0))),
    ),
    (
        "coeffs: [1073741824, 1073741823] domain: [1, 0]",
        Some((7, Place::Constraint(0))),
    ),
    ("coeffs: [1073741824, 1073741823] domain: [0, 0]", None),
];

fn assert_sum(
    rt: &impl Abort,
    alloc: Global,
    fields: &str,
    wanted: Option<(u8, Place)>,
) -> Result<(), Fail> {
    let text = format!(in alloc; "{WIDE} constraints {{ linear {{ vars: [0, 1] {fields} }} }}")?;
    assert_broken(rt, alloc, text.as_str(), wanted)
}

fn assert_sums(
    rt: &impl Abort,
    alloc: Global,
    rows: &[(&str, Option<(u8, Place)>)],
) -> Result<(), Fail> {
    for (fields, wanted) in rows {
        assert_sum(rt, alloc, fields, *wanted)?;
    }
    Ok(())
}

#[test]
fn sums(rt: HostRuntime) -> Result<(), Fail> {
    assert_sums(&rt, rt.alloc(), &SUMS)
}
