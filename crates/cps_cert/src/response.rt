//! The lines of a response, judged one after another.
//!
//! An optimal response lists the values of a solution, and then the objective twice, as the value and as the bound. An
//! infeasible one lists assumptions of the model. Behind either begins the log that is to show the claim.
ghost use Rattle.std.specs.Prelude.{◌≡◌, ◌++◌, ◌∷◌, [], IfOk, MatchOption, Contains};
ghost use Rattle.cps_model.specs.Solutions.{IsSolution};
ghost use Rattle.cps_cert.specs.Lines.{Phase as PhaseOf, at_status, in_solution, in_core, phase_of_solution, IsBehindValues};
ghost use Rattle.cps_cert.specs.ResponsePhases.{phase_of, phase_of_next, HasNear, HasNearOptimum, IsJudged};

use crate::claim::Claim;
use crate::fields::{is_text, number_behind, shows_number};
use crate::shown::shown_value;
use cps_eval::{objective, satisfies};
use cps_model::{Ints, Refs};
use cps_validate::ValidModel;
use std::alloc::{AllocError, Global};

/// What stands next of a response.
#[derive(Drop)]
pub(crate) enum ResponsePhase {
    /// The status.
    AtStatus,
    /// A further value of a solution.
    InSolution(Ints),
    /// The objective's value, which is shown as a number of its own.
    AtObjective { shown: i128, optimum: i64 },
    /// The bound on the objective.
    AtBound { shown: i128, optimum: i64 },
    /// The mark of the log, behind a solution with this objective.
    AtLog(i64),
    /// A further assumption, or the mark of the log.
    InCore(Refs),
}

/// What stands behind a line of a response.
#[derive(Drop)]
pub(crate) enum NextPhase {
    /// A further line of the response.
    Response(ResponsePhase),
    /// The first item of the log.
    Log(Claim),
}

/// What stands behind a whole solution.
fn behind_solution(model: &ValidModel, values: &[i64]) -> ResponsePhase
    requires { IsSolution model.now values.now }
    ensures next { phase_of result ≡ phase_of_solution model.now values.now }
    ensures near { HasNearOptimum result }
{
    let optimum = objective(model, values);
    match &model.model().objective {
        Some(objective) => ResponsePhase::AtObjective {
            shown: shown_value(objective, optimum),
            optimum,
        },
        None => ResponsePhase::AtLog(optimum),
    }
}

/// What stands behind some values: a further one, or what is shown of a whole solution. `None` if they are no solution.
fn behind_values(
    alloc: Global,
    model: &ValidModel,
    values: Ints,
) -> Result<Option<NextPhase>, AllocError>
    ensures next { IfOk result (λ o. MatchOption o ((next : PhaseOf) → ¬ IsBehindValues model.now values next)
        (λ next. IsBehindValues model.now values (phase_of_next next))) }
    ensures near { IfOk result HasNear }
{
    let count = model.model().variables.len();
    if values.len() < count {
        return Ok(Some(NextPhase::Response(ResponsePhase::InSolution(values))));
    }
    if values.len() == count && satisfies(alloc, model, values.as_slice())? {
        Ok(Some(NextPhase::Response(behind_solution(model, values.as_slice()))))
    } else {
        Ok(None)
    }
}

/// Judges the status.
fn take_status(
    alloc: Global,
    model: &ValidModel,
    line: &[u8],
) -> Result<Option<NextPhase>, AllocError>
    ensures next { IfOk result (IsJudged model.now at_status line.now) }
    ensures near { IfOk result HasNear }
{
    if is_text(line, "status: OPTIMAL") {
        return behind_values(alloc, model, Ints::new(alloc));
    }
    if is_text(line, "status: INFEASIBLE") {
        Ok(Some(NextPhase::Response(ResponsePhase::InCore(Refs::new(alloc)))))
    } else {
        Ok(None)
    }
}

/// A list with a further value, in the memory of the list.
fn with_value(values: Ints, value: i64) -> Result<Ints, AllocError>
    ensures { IfOk result (λ longer. longer ≡ values ++ value ∷ []) }
{
    let mut longer = values.into_vec();
    longer.push(value)?;
    Ok(Ints::from_vec(longer))
}

/// Judges the value behind others.
fn take_value(
    alloc: Global,
    model: &ValidModel,
    values: Ints,
    line: &[u8],
) -> Result<Option<NextPhase>, AllocError>
    ensures next { IfOk result (IsJudged model.now (in_solution values) line.now) }
    ensures near { IfOk result HasNear }
{
    let Some(value) = number_behind(line, "solution: ") else {
        return Ok(None);
    };
    let longer = with_value(values, value)?;
    behind_values(alloc, model, longer)
}

/// The reference that a number is, if it is listed.
fn listed(references: &[i32], number: i64) -> Option<i32>
    ensures { MatchOption result (¬ Contains references.now number)
        (λ reference. (reference ≡ number) × Contains references.now number) }
{
    for reference in references {
        if i64::from(*reference) == number {
            return Some(*reference);
        }
    }
    None
}

/// A list with a further literal, in the memory of the list.
fn with_literal(literals: Refs, literal: i32) -> Result<Refs, AllocError>
    ensures { IfOk result (λ longer. longer ≡ literals ++ literal ∷ []) }
{
    let mut longer = literals.into_vec();
    longer.push(literal)?;
    Ok(Refs::from_vec(longer))
}

/// Judges the line behind some assumptions.
fn take_assumption(
    model: &ValidModel,
    literals: Refs,
    line: &[u8],
) -> Result<Option<NextPhase>, AllocError>
    ensures next { IfOk result (IsJudged model.now (in_core literals) line.now) }
    ensures near { IfOk result HasNear }
{
    if is_text(line, "%log") {
        return Ok(Some(NextPhase::Log(Claim::Infeasible(literals))));
    }
    let Some(number) = number_behind(line, "sufficient_assumptions_for_infeasibility: ") else {
        return Ok(None);
    };
    let Some(literal) = listed(model.model().assumptions.as_slice(), number) else {
        return Ok(None);
    };
    let longer = with_literal(literals, literal)?;
    Ok(Some(NextPhase::Response(ResponsePhase::InCore(longer))))
}

/// Judges the next line of a response. `None` if it is not accepted.
pub(crate) fn take_line(
    alloc: Global,
    model: &ValidModel,
    phase: ResponsePhase,
    line: &[u8],
) -> Result<Option<NextPhase>, AllocError>
    requires { HasNearOptimum phase }
    ensures next { IfOk result (IsJudged model.now (phase_of phase) line.now) }
    ensures near { IfOk result HasNear }
{
    match phase {
        ResponsePhase::AtStatus => take_status(alloc, model, line),
        ResponsePhase::InSolution(values) => take_value(alloc, model, values, line),
        ResponsePhase::AtObjective { shown, optimum } => {
            let next = NextPhase::Response(ResponsePhase::AtBound { shown, optimum });
            Ok(shows_number(line, "objective_value: ", shown).then_some(next))
        }
        ResponsePhase::AtBound { shown, optimum } => {
            let next = NextPhase::Response(ResponsePhase::AtLog(optimum));
            Ok(shows_number(line, "best_objective_bound: ", shown).then_some(next))
        }
        ResponsePhase::AtLog(optimum) => {
            let next = NextPhase::Log(Claim::Optimal(optimum));
            Ok(is_text(line, "%log").then_some(next))
        }
        ResponsePhase::InCore(literals) => take_assumption(model, literals, line),
    }
}
