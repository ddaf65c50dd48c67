//! The texts of responses, the two lines for an input that is no valid model, and the line of a verdict.
//!
//! A test for each status, with objectives that are scaled and moved, up to the bound whose shown value has the most
//! digits. Lines and their order follow from the printed form of a response.
ghost use Rattle.std.specs.Prelude.{◌≡◌, [], IfOk};
ghost use Rattle.cps_print.specs.Responses.{HasShowableLimits, IsSolved, HasFiniteBound};

use crate::rows::assert_text;
use cps_model::{Bound, CpModel, FaultName, Ints, Listed, Objective, Place, Refs, Status, Text};
use cps_print::{Fault, Response, fault_text, refused_text, response_text, verified_text};
use std::alloc::{AllocError, Global};
use std::process::Abort;
use std::test::Fail;

fn refs(alloc: Global, items: &[i32]) -> Result<Refs, AllocError>
    ensures { IfOk result (λ list. list ≡ items.now) }
{
    Ok(Listed::from_vec(Vec::from_slice(alloc, items)?))
}

fn ints(alloc: Global, items: &[i64]) -> Result<Ints, AllocError>
    ensures { IfOk result (λ list. list ≡ items.now) }
{
    Ok(Listed::from_vec(Vec::from_slice(alloc, items)?))
}

/// A model of an objective alone.
fn minimised(
    alloc: Global,
    vars: &[i32],
    coeffs: &[i64],
    offset: i64,
    scaling: i64,
) -> Result<CpModel, AllocError>
    ensures { IfOk result (λ m. m.objective
        ≡ Some record { vars = vars.now; coeffs = coeffs.now; offset = offset; scaling = scaling; domain = [] }) }
{
    Ok(CpModel {
        name: Text::new(alloc),
        variables: Listed::new(alloc),
        constraints: Listed::new(alloc),
        objective: Some(Objective {
            vars: refs(alloc, vars)?,
            coeffs: ints(alloc, coeffs)?,
            offset,
            scaling,
            domain: Listed::new(alloc),
        }),
        strategies: Listed::new(alloc),
        hint: None,
        assumptions: Listed::new(alloc),
    })
}

/// A response with a solution.
fn solved(alloc: Global, status: Status, values: &[i64], lower: i64) -> Result<Response, AllocError>
    ensures { IfOk result (λ r. r ≡ record {
      status = status;
      solution = Some values.now;
      lower = Bound.At lower;
      core = [];
    }) }
{
    Ok(Response {
        status,
        solution: Some(ints(alloc, values)?),
        lower: Bound::At(lower),
        core: Listed::new(alloc),
    })
}

/// Asserts that this is the text of a response.
fn assert_response(
    rt: &impl Abort,
    alloc: Global,
    model: &CpModel,
    response: &Response,
    wanted: &str,
) -> Result<(), Fail>
    requires showable { HasShowableLimits model.now.objective }
    requires solved { IsSolved model.now.objective response.now.status response.now.solution }
    requires bounded { HasFiniteBound response.now.status response.now.lower }
{
    let text = response_text(alloc, model, response)?;
    assert_text(rt, wanted, &text, wanted);
    Ok(())
}

const OPTIMAL: &str =
    "status: OPTIMAL\nsolution: 4\nsolution: 0\nobjective_value: 12\nbest_objective_bound: 12\n";

#[test]
fn optimal(rt: HostRuntime) -> Result<(), Fail> {
    let alloc = rt.alloc();
    let model = minimised(alloc, &[0, 1], &[-3, -2], 0, -1)?;
    let response = solved(alloc, Status::Optimal, &[4, 0], -12)?;
    assert_response(&rt, alloc, &model, &response, OPTIMAL)
}

const FEASIBLE: &str =
    "status: FEASIBLE\nsolution: 0\nsolution: 1\nsolution: 2\nobjective_value: 3\nbest_objective_bound: 0\n";

#[test]
fn constant(rt: HostRuntime) -> Result<(), Fail> {
    let alloc = rt.alloc();
    let model = minimised(alloc, &[], &[], 100, -1)?;
    let response = solved(alloc, Status::Optimal, &[], 0)?;
    assert_response(
        &rt,
        alloc,
        &model,
        &response,
        "status: OPTIMAL\nobjective_value: -100\nbest_objective_bound: -100\n",
    )
}

#[test]
fn feasible(rt: HostRuntime) -> Result<(), Fail> {
    let alloc = rt.alloc();
    let model = minimised(alloc, &[0, 1, 2], &[1, 1, 1], 0, 1)?;
    let response = solved(alloc, Status::Feasible, &[0, 1, 2], 0)?;
    assert_response(&rt, alloc, &model, &response, FEASIBLE)
}

#[test]
fn unknown(rt: HostRuntime) -> Result<(), Fail> {
    let alloc = rt.alloc();
    let model = minimised(alloc, &[0], &[1], 0, 1)?;
    let unknown = Response {
        status: Status::Unknown,
        solution: None,
        lower: Bound::At(-5),
        core: Listed::new(alloc),
    };
    assert_response(
        &rt,
        alloc,
        &model,
        &unknown,
        "status: UNKNOWN\nbest_objective_bound: -5\n",
    )
}

#[test]
fn lowest_bound(rt: HostRuntime) -> Result<(), Fail> {
    let alloc = rt.alloc();
    let model = minimised(alloc, &[], &[], -100, -1)?;
    let unknown = Response {
        status: Status::Unknown,
        solution: None,
        lower: Bound::At(i64::MIN),
        core: Listed::new(alloc),
    };
    assert_response(
        &rt,
        alloc,
        &model,
        &unknown,
        "status: UNKNOWN\nbest_objective_bound: 9223372036854775908\n",
    )
}

/// Asserts what is written of a model that is infeasible because of these assumptions.
fn assert_infeasible(
    rt: &impl Abort,
    alloc: Global,
    core: &[i32],
    wanted: &str,
) -> Result<(), Fail> {
    let infeasible = Response {
        status: Status::Infeasible,
        solution: None,
        lower: Bound::Infinite,
        core: refs(alloc, core)?,
    };
    let model = minimised(alloc, &[0], &[1], 0, 1)?;
    assert_response(rt, alloc, &model, &infeasible, wanted)
}

/// Assumptions, each with what is written of a model that is infeasible because of them.
static CORES: [(&[i32], &str); 2] = [
    (&[], "status: INFEASIBLE\n"),
    (
        &[0, -1],
        "status: INFEASIBLE\nsufficient_assumptions_for_infeasibility: 0\n\
         sufficient_assumptions_for_infeasibility: -1\n",
    ),
];

fn assert_cores(rt: &impl Abort, alloc: Global, rows: &[(&[i32], &str)]) -> Result<(), Fail> {
    for (core, wanted) in rows {
        assert_infeasible(rt, alloc, core, wanted)?;
    }
    Ok(())
}

#[test]
fn infeasible(rt: HostRuntime) -> Result<(), Fail> {
    assert_cores(&rt, rt.alloc(), &CORES)
}

/// Asserts that this is the second line for a fault.
fn assert_fault(rt: &impl Abort, alloc: Global, fault: &Fault, cause: &str) -> Result<(), Fail> {
    let text = fault_text(alloc, fault)?;
    let wanted = format!(in alloc; "status: MODEL_INVALID\n# {cause}\n")?;
    assert_text(rt, cause, &text, &wanted);
    Ok(())
}

/// Faults, each with its cause.
static FAULTS: [(Fault, &str); 5] = [
    (Fault::Text { byte: 21 }, "text fault at byte 21"),
    (
        Fault::Field {
            name: FaultName::UnknownField,
            byte: 12,
        },
        "field fault UnknownField at byte 12",
    ),
    (
        Fault::Field {
            name: FaultName::Repeated,
            byte: 22,
        },
        "field fault Repeated at byte 22",
    ),
    (
        Fault::Field {
            name: FaultName::NotWhole,
            byte: 20,
        },
        "field fault NotWhole at byte 20",
    ),
    (Fault::TooLong, "input longer than 67108864 bytes"),
];

fn assert_faults(rt: &impl Abort, alloc: Global, rows: &[(Fault, &str)]) -> Result<(), Fail> {
    for (fault, cause) in rows {
        assert_fault(rt, alloc, fault, cause)?;
    }
    Ok(())
}

#[test]
fn faults(rt: HostRuntime) -> Result<(), Fail> {
    assert_faults(&rt, rt.alloc(), &FAULTS)
}

/// Rules and places where they are broken, each with its cause.
static PLACES: [(u8, Place, &str); 7] = [
    (2, Place::Variable(0), "invalid V2 at variable 0"),
    (15, Place::Constraint(0), "invalid V15 at constraint 0"),
    (18, Place::Model, "invalid V18 at model"),
    (3, Place::Objective, "invalid V3 at objective"),
    (5, Place::Strategy(2), "invalid V5 at strategy 2"),
    (17, Place::Hint, "invalid V17 at hint"),
    (4, Place::Assumption(1), "invalid V4 at assumption 1"),
];

fn assert_places(rt: &impl Abort, alloc: Global, rows: &[(u8, Place, &str)]) -> Result<(), Fail> {
    for (rule, place, cause) in rows {
        let fault = Fault::Rule {
            rule: *rule,
            place: *place,
        };
        assert_fault(rt, alloc, &fault, cause)?;
    }
    Ok(())
}

#[test]
fn places(rt: HostRuntime) -> Result<(), Fail> {
    assert_places(&rt, rt.alloc(), &PLACES)
}

#[test]
fn verdicts(rt: HostRuntime) -> Result<(), Fail> {
    let verified = verified_text(rt.alloc())?;
    assert_text(&rt, "verified", &verified, "verified\n");
    let refused = refused_text(rt.alloc(), 18_446_744_073_709_551_615)?;
    let wanted = "not verified at line 18446744073709551615\n";
    assert_text(&rt, "refused", &refused, wanted);
    Ok(())
}
