//! What is said of a model that was generated and solved.
ghost use Rattle.std.specs.Prelude.{◌≡◌, ◌++◌, OnOk, IfOk, codes, string_bytes};
ghost use Rattle.cps_print.specs.Responses.{status_name, line_of, HasShowableLimits};
ghost use Rattle.cps_print.specs.Demonstrations.{best_line, demo_text, IsReadySolution};

use crate::response::{put_line, put_objective_value, status_name};
use cps_model::{CpModel, Ints, Objective, Status};
use std::alloc::{AllocError, Global};

/// The last line if there is no solution or no objective.
const NO_VALUE: &str = "objective_value: none\n";

/// Appends the line of the objective at a solution.
fn put_best(
    text: &mut String,
    objective: &Option<Objective>,
    solution: &Option<Ints>,
) -> Result<(), AllocError>
    requires showable { HasShowableLimits objective.now }
    requires ready { IsReadySolution objective.now solution.now }
    ensures { OnOk result (string_bytes text.new ≡ string_bytes text.old ++ best_line objective.now solution.now) }
{
    let Some(objective) = objective else {
        return text.push_str(NO_VALUE);
    };
    match solution {
        Some(solution) => put_objective_value(text, objective, solution.as_slice()),
        None => text.push_str(NO_VALUE),
    }
}

/// Appends the line of a status.
fn put_status(text: &mut String, status: Status) -> Result<(), AllocError>
    ensures { OnOk result (string_bytes text.new
        ≡ string_bytes text.old ++ line_of (codes "status") (status_name status)) }
{
    text.push_str("status: ")?;
    text.push_str(status_name(status))?;
    text.push_str("\n")
}

/// The four lines of a demonstration: how many variables and constraints the model has, the status, and the objective
/// at the solution.
pub fn demo_text(
    alloc: Global,
    model: &CpModel,
    status: Status,
    solution: &Option<Ints>,
) -> Result<String, AllocError>
    requires showable { HasShowableLimits model.now.objective }
    requires ready { IsReadySolution model.now.objective solution.now }
    ensures { IfOk result (λ text. string_bytes text ≡ demo_text model.now status solution.now) }
{
    let mut text = String::new(alloc);
    put_line(&mut text, "variables", model.variables.len())?;
    put_line(&mut text, "constraints", model.constraints.len())?;
    put_status(&mut text, status)?;
    put_best(&mut text, &model.objective, solution)?;
    Ok(text)
}
