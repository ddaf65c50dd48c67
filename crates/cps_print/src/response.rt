//! The text of a response.
//!
//! The status comes first, then a solution value by value, then what is said of the objective, and for an infeasible
//! model the assumptions that are to blame. Values of the objective are shown with offset and scaling factor, in 128
//! bits, since each of both may be as far as 2^53 from 0. Names and order of the lines are those of the fields of
//! CP-SAT's response; its statistics of the search are left out, as no part of a response knows them.
ghost use Rattle.std.specs.Prelude.{◌≡◌, ◌++◌, IsTrue, OnOk, IfOk, codes, string_bytes};
ghost use Rattle.std.specs.List.{flat_map};
ghost use Rattle.std.specs.Fmt.{signed_decimal};
ghost use Rattle.cps_model.specs.Ready.{is_ready_objective};
ghost use Rattle.cps_print.specs.Responses.{status_name, line_of, solution_line, solution_lines, shown_solution, shown_lower, value_lines, bound_lines, objective_lines, answer_lines, response_text, HasLimits, HasShowableLimits, IsSummable, IsSolved, IsFinite, HasFiniteBound};

use crate::layout::put_number;
use crate::objective::{shown_value, sum_of};
use cps_model::{Bound, CpModel, Ints, Objective, Refs, Status};
use itoa::Integer;
use std::alloc::{AllocError, Global};

/// What is answered to a model. A solution has one value per variable.
#[derive(Drop)]
pub struct Response {
    pub status: Status,
    pub solution: Option<Ints>,
    /// A bound on the objective's sum from below.
    pub lower: Bound,
    /// Of an infeasible model assumptions that no free assignment makes all true; there may be none where it is
    /// infeasible without them.
    pub core: Refs,
}

/// The word for a status.
pub fn status_name(status: Status) -> &'static str
    ensures { result.now ≡ status_name status }
{
    match status {
        Status::Optimal => "OPTIMAL",
        Status::Feasible => "FEASIBLE",
        Status::Infeasible => "INFEASIBLE",
        Status::Unknown => "UNKNOWN",
    }
}

/// Appends the line of a number.
pub fn put_line<N: Integer>(text: &mut String, field: &str, value: N) -> Result<(), AllocError>
    ensures { OnOk result (string_bytes text.new ≡ string_bytes text.old ++ line_of field.now (N.text value)) }
{
    text.push_str(field)?;
    text.push_str(": ")?;
    put_number(text, value)?;
    text.push_str("\n")
}

/// Appends a line for each value of a solution.
fn put_values(text: &mut String, values: &[i64]) -> Result<(), AllocError>
    ensures { OnOk result (string_bytes text.new ≡ string_bytes text.old ++ flat_map solution_line values.now) }
{
    for value in values {
        put_line(text, "solution", *value)?;
    }
    Ok(())
}

/// Appends a line for each reference.
fn put_references(text: &mut String, field: &str, references: &[i32]) -> Result<(), AllocError>
    ensures { OnOk result (string_bytes text.new ≡ string_bytes text.old
        ++ flat_map (λ reference. line_of field.now (signed_decimal reference)) references.now) }
{
    for reference in references {
        put_line(text, field, *reference)?;
    }
    Ok(())
}

/// Appends the objective's value at a solution.
pub fn put_objective_value(
    text: &mut String,
    objective: &Objective,
    values: &[i64],
) -> Result<(), AllocError>
    requires limits { HasLimits objective.now }
    requires ready { IsTrue (is_ready_objective values.now (Some objective.now)) }
    ensures { OnOk result (string_bytes text.new
        ≡ string_bytes text.old ++ value_lines objective.now (Some values.now)) }
{
    let sum = sum_of(
        objective.vars.as_slice(),
        objective.coeffs.as_slice(),
        values,
    );
    put_line(text, "objective_value", shown_value(objective, sum))
}

/// Appends the lower bound.
fn put_lower(text: &mut String, objective: &Objective, lower: Bound) -> Result<(), AllocError>
    requires limits { HasLimits objective.now }
    requires finite { IsFinite lower }
    ensures { OnOk result (string_bytes text.new ≡ string_bytes text.old ++ bound_lines objective.now lower) }
{
    match lower {
        Bound::At(lower) => put_line(
            text,
            "best_objective_bound",
            shown_value(objective, i128::from(lower)),
        ),
        Bound::Infinite => Ok(()),
    }
}

/// Appends a solution, and what is said of the objective.
fn put_solution(
    text: &mut String,
    objective: &Option<Objective>,
    solution: &Option<Ints>,
    lower: Bound,
) -> Result<(), AllocError>
    requires showable { HasShowableLimits objective.now }
    requires solved { IsSummable objective.now solution.now }
    requires finite { IsFinite lower }
    ensures { OnOk result (string_bytes text.new ≡ string_bytes text.old
        ++ (solution_lines solution.now ++ objective_lines objective.now solution.now lower)) }
{
    let Some(solution) = solution else {
        return Ok(());
    };
    put_values(text, solution.as_slice())?;
    let Some(objective) = objective else {
        return Ok(());
    };
    put_objective_value(text, objective, solution.as_slice())?;
    put_lower(text, objective, lower)
}

/// Appends what is said of the objective if there is no solution.
fn put_bound(
    text: &mut String,
    objective: &Option<Objective>,
    lower: Bound,
) -> Result<(), AllocError>
    requires showable { HasShowableLimits objective.now }
    requires finite { IsFinite lower }
    ensures { OnOk result (string_bytes text.new ≡ string_bytes text.old ++ objective_lines objective.now None lower) }
{
    match objective {
        Some(objective) => put_lower(text, objective, lower),
        None => Ok(()),
    }
}

/// Appends all but the status.
fn put_answer(text: &mut String, model: &CpModel, response: &Response) -> Result<(), AllocError>
    requires showable { HasShowableLimits model.now.objective }
    requires solved { IsSolved model.now.objective response.now.status response.now.solution }
    requires bounded { HasFiniteBound response.now.status response.now.lower }
    ensures { OnOk result (string_bytes text.new ≡ string_bytes text.old ++ answer_lines model.now response.now) }
{
    match response.status {
        Status::Optimal => put_solution(text, &model.objective, &response.solution, response.lower),
        Status::Feasible => put_solution(
            text,
            &model.objective,
            &response.solution,
            response.lower,
        ),
        Status::Infeasible => put_references(
            text,
            "sufficient_assumptions_for_infeasibility",
            response.core.as_slice(),
        ),
        Status::Unknown => put_bound(text, &model.objective, response.lower),
    }
}

/// The text of a response to a model. An optimal and a feasible response have a solution, at which the model's
/// objective can be summed up, and every response but an infeasible one has a lower bound. An infeasible one has its
/// core.
pub fn response_text(
    alloc: Global,
    model: &CpModel,
    response: &Response,
) -> Result<String, AllocError>
    requires showable { HasShowableLimits model.now.objective }
    requires solved { IsSolved model.now.objective response.now.status response.now.solution }
    requires bounded { HasFiniteBound response.now.status response.now.lower }
    ensures { IfOk result (λ text. string_bytes text ≡ response_text model.now response.now) }
{
    let mut text = String::from_str(alloc, "status: ")?;
    text.push_str(status_name(response.status))?;
    text.push_str("\n")?;
    put_answer(&mut text, model, response)?;
    Ok(text)
}
