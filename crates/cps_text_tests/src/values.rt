//! Assignments of small models: which are solutions, what the others violate first, and what the objective is.
//!
//! Rows are worked out by hand from the rules of meaning. That the first violated place is the first in the order of
//! domains, constraints, objective and assumptions has rows in which several places fail.
use crate::reading::{model, valid_model};
use cps_eval::{display_value, first_violated, objective, objective_start, satisfies};
use cps_model::{CpModel, Place};
use cps_validate::ValidModel;
use std::alloc::Global;
use std::process::Abort;
use std::test::Fail;

/// Asserts that an assignment violates this place first, or that it is a solution if that is `None`.
fn assert_place(
    rt: &impl Abort,
    alloc: Global,
    model: &ValidModel,
    values: &[i64],
    place: Option<Place>,
) -> Result<(), Fail> {
    assert!(rt; values.len() == model.model().variables.len());
    let answers = (
        satisfies(alloc, model, values)?,
        first_violated(alloc, model, values)?,
    );
    assert_eq!(rt; answers, (place.is_none(), place), "at {values:?}");
    Ok(())
}

/// Assignments, each with the place that it violates first.
type Places = &'static [(&'static [i64], Option<Place>)];

fn assert_places_of(
    rt: &impl Abort,
    alloc: Global,
    model: &ValidModel,
    rows: Places,
) -> Result<(), Fail> {
    for (values, place) in rows {
        assert_place(rt, alloc, model, values, *place)?;
    }
    Ok(())
}

/// Asserts what assignments of a text's model violate first.
fn assert_places(rt: &impl Abort, alloc: Global, text: &str, rows: Places) -> Result<(), Fail> {
    let model = valid_model(rt, alloc, text)?;
    assert_places_of(rt, alloc, &model, rows)
}

/// Two variables 0..1.
const BITS: &str = "variables { domain: [0, 1] } variables { domain: [0, 1] }";

/// Asserts whether a constraint over two variables 0..1 holds.
fn assert_holds(
    rt: &impl Abort,
    alloc: Global,
    constraint: &str,
    values: &[i64],
    holds: bool,
) -> Result<(), Fail> {
    let text = format!(in alloc; "{BITS} constraints {{ {constraint} }}")?;
    let model = valid_model(rt, alloc, text.as_str())?;
    let place = if holds {
        None
    } else {
        Some(Place::Constraint(0))
    };
    assert_place(rt, alloc, &model, values, place)
}

/// Literals with values of two variables, and whether some, all, at most one, exactly one and an odd number are true.
static LITERALS: [(&str, [i64; 2], [bool; 5]); 4] = [
    ("[0, 1]", [0, 0], [false, false, true, false, false]),
    ("[0, 1]", [0, 1], [true, false, true, true, true]),
    ("[0, -2]", [0, 1], [false, false, true, false, false]),
    ("[0, 0]", [1, 0], [true, true, false, false, false]),
];

static KINDS: [&str; 5] = [
    "bool_or",
    "bool_and",
    "at_most_one",
    "exactly_one",
    "bool_xor",
];

/// Asserts of which kinds a constraint over these literals holds.
fn assert_literals(
    rt: &impl Abort,
    alloc: Global,
    literals: &str,
    values: &[i64],
    holds: &[bool],
) -> Result<(), Fail> {
    for (kind, holds) in KINDS.iter().zip(holds.iter()) {
        let constraint = format!(in alloc; "{kind} {{ literals: {literals} }}")?;
        assert_holds(rt, alloc, constraint.as_str(), values, *holds)?;
    }
    Ok(())
}

fn assert_all_literals(
    rt: &impl Abort,
    alloc: Global,
    rows: &[(&str, [i64; 2], [bool; 5])],
) -> Result<(), Fail> {
    for (literals, values, holds) in rows {
        assert_literals(rt, alloc, literals, values, holds)?;
    }
    Ok(())
}

#[test]
fn literals_hold(rt: HostRuntime) -> Result<(), Fail> {
    assert_all_literals(&rt, rt.alloc(), &LITERALS)
}

/// Values of two variables, each with whether the sum below holds of them.
static SUMS: [([i64; 2], bool); 3] = [([1, 0], false), ([1, 1], true), ([0, 1], false)];

fn assert_sums(rt: &impl Abort, alloc: Global, rows: &[([i64; 2], bool)]) -> Result<(), Fail> {
    let sum = "linear { vars: [0, -2] coeffs: [1, 2] domain: [-1, 0] }";
    for (values, holds) in rows {
        assert_holds(rt, alloc, sum, values, *holds)?;
    }
    Ok(())
}

#[test]
fn sums_hold(rt: HostRuntime) -> Result<(), Fail> {
    assert_sums(&rt, rt.alloc(), &SUMS)
}

/// The second variable is assumed false, and the first enforces what never holds.
const PARTS: &str = "variables { domain: [0, 1] } variables { domain: [0, 1] } \
    constraints { enforcement_literal: 0 bool_or { } } assumptions: -2";

static PARTS_PLACES: [(&[i64], Option<Place>); 4] = [
    (&[0, 0], None),
    (&[1, 2], Some(Place::Variable(1))),
    (&[1, 1], Some(Place::Constraint(0))),
    (&[0, 1], Some(Place::Assumption(0))),
];

#[test]
fn parts_fail_in_order(rt: HostRuntime) -> Result<(), Fail> {
    assert_places(&rt, rt.alloc(), PARTS, &PARTS_PLACES)
}

/// The first variable's value is minimised, to 0 alone, and the second is assumed false.
const WEIGHED: &str = "variables { domain: [0, 1] } variables { domain: [0, 1] } \
    objective { vars: 0 coeffs: 1 domain: [0, 0] } assumptions: -2";

static WEIGHED_PLACES: [(&[i64], Option<Place>); 4] = [
    (&[0, 0], None),
    (&[1, 0], Some(Place::Objective)),
    (&[0, 1], Some(Place::Assumption(0))),
    (&[1, 1], Some(Place::Objective)),
];

#[test]
fn objectives_fail_before_assumptions(rt: HostRuntime) -> Result<(), Fail> {
    assert_places(&rt, rt.alloc(), WEIGHED, &WEIGHED_PLACES)
}

/// Three variables 0..2, no two of them equal, with the least sum.
const ORDERS: &str =
    "variables { domain: [0, 2] } variables { domain: [0, 2] } variables { domain: [0, 2] } \
    constraints { linear { vars: [0, 1] coeffs: [1, -1] domain: [-2, -1, 1, 2] } } \
    constraints { linear { vars: [0, 2] coeffs: [1, -1] domain: [-2, -1, 1, 2] } } \
    constraints { linear { vars: [1, 2] coeffs: [1, -1] domain: [-2, -1, 1, 2] } } \
    objective { vars: [0, 1, 2] coeffs: [1, 1, 1] }";

static ORDERS_PLACES: [(&[i64], Option<Place>); 4] = [
    (&[0, 0, 1], Some(Place::Constraint(0))),
    (&[1, 0, 1], Some(Place::Constraint(1))),
    (&[0, 1, 1], Some(Place::Constraint(2))),
    (&[2, 0, 1], None),
];

#[test]
fn first_constraint_that_fails_is_named(rt: HostRuntime) -> Result<(), Fail> {
    assert_places(&rt, rt.alloc(), ORDERS, &ORDERS_PLACES)
}

/// Of two variables 0..10, -3 times the first and -2 times the second are minimised, to a sum from -12 on.
const SCORED: &str = "variables { domain: [0, 10] } variables { domain: [0, 10] } \
    objective { vars: [0, 1] coeffs: [-3, -2] domain: [-12, 9223372036854775807] scaling_factor: -1 }";

static SCORED_PLACES: [(&[i64], Option<Place>); 2] = [
    (&[4, 0], None),
    (&[4, 1], Some(Place::Objective)),
];

#[test]
fn objectives_fail_behind_constraints(rt: HostRuntime) -> Result<(), Fail> {
    assert_places(&rt, rt.alloc(), SCORED, &SCORED_PLACES)
}

/// Asserts where the objective starts, and what it is at a solution.
fn assert_objective(
    rt: &impl Abort,
    alloc: Global,
    model: &ValidModel,
    solution: &[i64],
    wanted: [i64; 2],
) -> Result<(), Fail> {
    assert!(rt; solution.len() == model.model().variables.len());
    assert!(rt; satisfies(alloc, model, solution)?);
    assert!(rt; [objective_start(model), objective(model, solution)] == wanted);
    Ok(())
}

#[test]
fn objectives_have_values(rt: HostRuntime) -> Result<(), Fail> {
    let model = valid_model(&rt, rt.alloc(), SCORED)?;
    assert_objective(&rt, rt.alloc(), &model, &[4, 0], [-50, -12])
}

/// Asserts what is shown of an objective's sum.
fn assert_shown(rt: &impl Abort, model: &CpModel, sum: i64, wanted: i128) {
    match &model.objective {
        Some(objective) => {
            assert!(rt; objective.offset.unsigned_abs() <= 1 << 53);
            assert!(rt; objective.scaling.unsigned_abs() <= 1 << 53);
            assert!(rt; display_value(model, sum) == wanted);
        }
        None => assert!(rt; false, "no objective"),
    }
}

/// Objectives, each with a sum and what is shown of it.
static SHOWN: [(&str, i64, i128); 4] = [
    ("objective { scaling_factor: -1 }", -12, 12),
    ("objective { offset: 100 scaling_factor: -1 }", 0, -100),
    (
        "objective { offset: 100 scaling_factor: -1 }",
        i64::MIN,
        9223372036854775708,
    ),
    (
        "objective { offset: 100 scaling_factor: -1 }",
        i64::MAX,
        -9223372036854775907,
    ),
];

fn assert_objective_shown(
    rt: &impl Abort,
    alloc: Global,
    text: &str,
    sum: i64,
    wanted: i128,
) -> Result<(), Fail> {
    let model = model(rt, alloc, text)?;
    assert_shown(rt, &model, sum, wanted);
    Ok(())
}

fn assert_objectives_shown(
    rt: &impl Abort,
    alloc: Global,
    rows: &[(&str, i64, i128)],
) -> Result<(), Fail> {
    for (text, sum, wanted) in rows {
        assert_objective_shown(rt, alloc, text, *sum, *wanted)?;
    }
    Ok(())
}

#[test]
fn objectives_are_shown(rt: HostRuntime) -> Result<(), Fail> {
    assert_objectives_shown(&rt, rt.alloc(), &SHOWN)
}
