//! A model that keeps every rule, and the one function that makes it.
//!
//! The type carries the proof: whoever has a `ValidModel` knows that its model is valid, and nothing is tested twice.
//! `validate` takes the model by value, since a model that is refused is of no further use. Faults are looked for part
//! by part in the order in which they are named, and the first one ends the search.
ghost use Rattle.std.specs.Prelude.{◌≡◌, ◌≤◌, ◌<◌, ◌^◌, IfOk, IfErr, length, option_map};
ghost use Rattle.cps_model.specs.Validity.{most_items, variable_fault, constraint_fault, strategy_fault, assumption_fault, first_faulty, first_invalid, IsValid};
ghost use Rattle.cps_validate.specs.Numbers.{with_number};
ghost use Rattle.cps_validate.specs.Refusals.{IsRefusalOf};

use crate::places::{
    assumption_fault, constraint_fault, hint_fault, objective_fault, strategy_fault, variable_fault,
};
use crate::rule::Rule;
use crate::size::size_fault;
use cps_model::{Constraint, CpModel, Place, Strategy, Variable};
use std::alloc::{AllocError, Global};
use std::marker::Model;
use thiserror::Error;

/// A model that keeps every rule. Contracts see it as the model that it keeps.
pub struct ValidModel {
    model: CpModel,
}

// Written out, so that crates above do not prove it anew.
impl Drop for ValidModel {
    fn drop(self) {
        let ValidModel { model: _model } = self;
    }
}

impl Model for ValidModel {
    ghost use Rattle.cps_model.specs.declared.model.CpModel.{CpModel};
    ghost use Rattle.cps_model.specs.Validity.{IsValid};

    ghost Value = { CpModel };

    ghost view = { λ v. v.model };

    ghost invariant = { λ v. IsValid v.model };
}

impl ValidModel {
    /// The model, of which the caller learns here that it keeps every rule.
    pub fn model(&self) -> &CpModel
        ensures same { result.now ≡ self.now }
        ensures valid { IsValid result.now }
    {
        &self.model
    }
}

/// Why a model is refused.
#[derive(Debug, Drop, Error)]
pub enum ValidateError {
    /// The rule that is broken first, by number, and the place where it is broken.
    #[error("rule {rule} is broken")]
    Invalid { rule: u8, place: Place },
    #[error("out of memory")]
    OutOfMemory,
}

impl From<AllocError> for ValidateError {
    ghost use Rattle.std.specs.Prelude.{◌≡◌};
    ghost use Rattle.cps_validate.specs.declared.valid.ValidateError.TheVariants.{OutOfMemory};

    ghost from_gives = { λ _ e. e ≡ OutOfMemory };

    fn from(_: AllocError) -> Self {
        ValidateError::OutOfMemory
    }
}

/// The first variable that breaks a rule.
fn variables_fault(variables: &[Variable]) -> Option<(Rule, Place)>
    requires { length variables.now ≤ most_items }
    ensures { option_map with_number result ≡ first_faulty variable_fault Place.Variable 0 variables.now }
{
    for (i, variable) in variables.iter().enumerate() {
        if let Some(rule) = variable_fault(variable) {
            return Some((rule, Place::Variable(i as u32)));
        }
    }
    None
}

/// The first constraint that breaks a rule.
fn constraints_fault(
    alloc: Global,
    variables: &[Variable],
    constraints: &[Constraint],
) -> Result<Option<(Rule, Place)>, AllocError>
    requires { length constraints.now ≤ most_items }
    ensures { IfOk result (λ fault. option_map with_number fault
        ≡ first_faulty (constraint_fault variables.now constraints.now) Place.Constraint 0 constraints.now) }
{
    for (i, constraint) in constraints.iter().enumerate() {
        if let Some(rule) = constraint_fault(alloc, variables, constraints, constraint)? {
            return Ok(Some((rule, Place::Constraint(i as u32))));
        }
    }
    Ok(None)
}

/// The first strategy that breaks a rule.
fn strategies_fault(variables: &[Variable], strategies: &[Strategy]) -> Option<(Rule, Place)>
    requires { length strategies.now < 2 ^ 32 }
    ensures { option_map with_number result ≡ first_faulty (strategy_fault variables.now) Place.Strategy 0 strategies.now }
{
    for (i, strategy) in strategies.iter().enumerate() {
        if let Some(rule) = strategy_fault(variables, strategy) {
            return Some((rule, Place::Strategy(i as u32)));
        }
    }
    None
}

/// The first assumption that breaks a rule.
fn assumptions_fault(variables: &[Variable], assumptions: &[i32]) -> Option<(Rule, Place)>
    requires { length assumptions.now < 2 ^ 32 }
    ensures { option_map with_number result ≡ first_faulty (assumption_fault variables.now) Place.Assumption 0 assumptions.now }
{
    for (i, literal) in assumptions.iter().enumerate() {
        if let Some(rule) = assumption_fault(variables, *literal) {
            return Some((rule, Place::Assumption(i as u32)));
        }
    }
    None
}

/// The rule that is broken first, with its place.
fn first_invalid(alloc: Global, model: &CpModel) -> Result<Option<(Rule, Place)>, AllocError>
    ensures { IfOk result (λ fault. option_map with_number fault ≡ first_invalid model.now) }
{
    if let Some(rule) = size_fault(model) {
        return Ok(Some((rule, Place::Model)));
    }
    let variables = model.variables.as_slice();
    if let Some(fault) = variables_fault(variables) {
        return Ok(Some(fault));
    }
    if let Some(fault) = constraints_fault(alloc, variables, model.constraints.as_slice())? {
        return Ok(Some(fault));
    }
    if let Some(rule) = objective_fault(variables, &model.objective) {
        return Ok(Some((rule, Place::Objective)));
    }
    if let Some(fault) = strategies_fault(variables, model.strategies.as_slice()) {
        return Ok(Some(fault));
    }
    if let Some(rule) = hint_fault(alloc, variables, &model.hint)? {
        return Ok(Some((rule, Place::Hint)));
    }
    Ok(assumptions_fault(variables, model.assumptions.as_slice()))
}

/// Keeps a model that breaks no rule, and refuses every other, with the rule that is broken first. A refused model is
/// dropped. `OutOfMemory` comes only if an allocation failed.
pub fn validate(alloc: Global, model: CpModel) -> Result<ValidModel, ValidateError>
    ensures ok { IfOk result (λ v. (v ≡ model) × IsValid model) }
    ensures err { IfErr result (λ e. IsRefusalOf e model) }
{
    match first_invalid(alloc, &model)? {
        None => Ok(ValidModel { model }),
        Some((rule, place)) => Err(ValidateError::Invalid {
            rule: rule.number(),
            place,
        }),
    }
}
