//! The canonical text of a model.
//!
//! A function for each message, in the order of the fields of the format. Each appends to one text, so that no part is
//! copied, and writing the finished text takes no further memory. Values that the format leaves out are left out here,
//! by the same words by which the specification lays a message out.
ghost use Rattle.std.specs.Prelude.{◌≡◌, ℕ, List, ◌++◌, IfOk, OnOk, codes, string_bytes};
ghost use Rattle.std.specs.List.{flat_map};
ghost use Rattle.cps_print.specs.Layout.{text_of};
ghost use Rattle.cps_print.specs.Fields.{list_field, message_field, repeated_field};
ghost use Rattle.cps_print.specs.Models.{printed_variable, printed_constraint, scaling_field, printed_objective, objective_field, choose_name, select_name, printed_strategy, printed_hint, hint_field, model_text};
ghost use Rattle.cps_print.specs.ReadBack.{IsReadWith};

use crate::expression::put_all;
use crate::kind::put_kind;
use crate::layout::{
    close_message, open_message, put_list_field, put_number_field, put_word_field,
};
use crate::quoting::put_text_field;
use cps_model::{Choose, Constraint, CpModel, Hint, Objective, Select, Strategy, Variable};
use std::alloc::{AllocError, Global};

#[tactic(auto, using(crate::proofs::Lines::layout))]
fn put_variable(text: &mut String, variable: &Variable) -> Result<(), AllocError>
    ensures { OnOk result (string_bytes text.new ≡ string_bytes text.old
        ++ text_of 0 (message_field (codes "variables") (printed_variable variable.now))) }
{
    open_message(text, 0, "variables")?;
    put_text_field(text, 1, "name", variable.name.as_str())?;
    put_list_field(text, 1, "domain", variable.domain.as_slice())?;
    close_message(text, 0)
}

fn put_variables(text: &mut String, variables: &[Variable]) -> Result<(), AllocError>
    ensures { OnOk result (string_bytes text.new ≡ string_bytes text.old
        ++ flat_map (λ v. text_of 0 (message_field (codes "variables") (printed_variable v))) variables.now) }
{
    for variable in variables {
        put_variable(text, variable)?;
    }
    Ok(())
}

#[tactic(auto, using(crate::proofs::Lines::layout))]
fn put_constraint(text: &mut String, constraint: &Constraint) -> Result<(), AllocError>
    ensures { OnOk result (string_bytes text.new ≡ string_bytes text.old
        ++ text_of 0 (message_field (codes "constraints") (printed_constraint constraint.now))) }
{
    open_message(text, 0, "constraints")?;
    put_text_field(text, 1, "name", constraint.name.as_str())?;
    put_list_field(
        text,
        1,
        "enforcement_literal",
        constraint.enforcement.as_slice(),
    )?;
    put_kind(text, &constraint.kind)?;
    close_message(text, 0)
}

fn put_constraints(text: &mut String, constraints: &[Constraint]) -> Result<(), AllocError>
    ensures { OnOk result (string_bytes text.new ≡ string_bytes text.old
        ++ flat_map (λ c. text_of 0 (message_field (codes "constraints") (printed_constraint c))) constraints.now) }
{
    for constraint in constraints {
        put_constraint(text, constraint)?;
    }
    Ok(())
}

/// Appends the scaling factor, unless it is 1.
#[tactic(auto, using(crate::proofs::Lines::scaling))]
fn put_scaling(text: &mut String, scaling: i64) -> Result<(), AllocError>
    ensures { OnOk result (string_bytes text.new ≡ string_bytes text.old ++ text_of 1 (scaling_field scaling)) }
{
    if scaling == 1 {
        return Ok(());
    }
    put_number_field(text, 1, "scaling_factor", scaling)
}

#[tactic(auto, using(crate::proofs::Lines::layout))]
fn put_objective(text: &mut String, objective: &Objective) -> Result<(), AllocError>
    ensures { OnOk result (string_bytes text.new ≡ string_bytes text.old
        ++ text_of 0 (message_field (codes "objective") (printed_objective objective.now))) }
{
    open_message(text, 0, "objective")?;
    put_list_field(text, 1, "vars", objective.vars.as_slice())?;
    put_list_field(text, 1, "coeffs", objective.coeffs.as_slice())?;
    put_number_field(text, 1, "offset", objective.offset)?;
    put_scaling(text, objective.scaling)?;
    put_list_field(text, 1, "domain", objective.domain.as_slice())?;
    close_message(text, 0)
}

/// The word for a choice of variables. It is empty for the default, which is not written.
fn choose_name(choose: Choose) -> &'static str
    ensures { result.now ≡ choose_name choose }
{
    match choose {
        Choose::First => "",
        Choose::LowestMin => "CHOOSE_LOWEST_MIN",
        Choose::HighestMax => "CHOOSE_HIGHEST_MAX",
        Choose::MinDomainSize => "CHOOSE_MIN_DOMAIN_SIZE",
        Choose::MaxDomainSize => "CHOOSE_MAX_DOMAIN_SIZE",
    }
}

/// The word for a choice of values. It is empty for the default, which is not written.
fn select_name(select: Select) -> &'static str
    ensures { result.now ≡ select_name select }
{
    match select {
        Select::MinValue => "",
        Select::MaxValue => "SELECT_MAX_VALUE",
        Select::LowerHalf => "SELECT_LOWER_HALF",
        Select::UpperHalf => "SELECT_UPPER_HALF",
        Select::MedianValue => "SELECT_MEDIAN_VALUE",
    }
}

#[tactic(auto, using(crate::proofs::Lines::layout))]
fn put_strategy(text: &mut String, strategy: &Strategy) -> Result<(), AllocError>
    ensures { OnOk result (string_bytes text.new ≡ string_bytes text.old
        ++ text_of 0 (message_field (codes "search_strategy") (printed_strategy strategy.now))) }
{
    open_message(text, 0, "search_strategy")?;
    put_all(text, 1, "exprs", &strategy.exprs)?;
    put_word_field(
        text,
        1,
        "variable_selection_strategy",
        choose_name(strategy.choose),
    )?;
    put_word_field(
        text,
        1,
        "domain_reduction_strategy",
        select_name(strategy.select),
    )?;
    close_message(text, 0)
}

fn put_strategies(text: &mut String, strategies: &[Strategy]) -> Result<(), AllocError>
    ensures { OnOk result (string_bytes text.new ≡ string_bytes text.old
        ++ flat_map (λ s. text_of 0 (message_field (codes "search_strategy") (printed_strategy s))) strategies.now) }
{
    for strategy in strategies {
        put_strategy(text, strategy)?;
    }
    Ok(())
}

#[tactic(auto, using(crate::proofs::Lines::layout))]
fn put_hint(text: &mut String, hint: &Hint) -> Result<(), AllocError>
    ensures { OnOk result (string_bytes text.new ≡ string_bytes text.old
        ++ text_of 0 (message_field (codes "solution_hint") (printed_hint hint.now))) }
{
    open_message(text, 0, "solution_hint")?;
    put_list_field(text, 1, "vars", hint.vars.as_slice())?;
    put_list_field(text, 1, "values", hint.values.as_slice())?;
    close_message(text, 0)
}

/// Appends the objective, if there is one.
#[tactic(auto, using(crate::proofs::Lines::layout))]
fn put_objective_field(text: &mut String, objective: &Option<Objective>) -> Result<(), AllocError>
    ensures { OnOk result (string_bytes text.new ≡ string_bytes text.old ++ text_of 0 (objective_field objective.now)) }
{
    match objective {
        Some(objective) => put_objective(text, objective),
        None => Ok(()),
    }
}

/// Appends the hint, if there is one.
#[tactic(auto, using(crate::proofs::Lines::layout))]
fn put_hint_field(text: &mut String, hint: &Option<Hint>) -> Result<(), AllocError>
    ensures { OnOk result (string_bytes text.new ≡ string_bytes text.old ++ text_of 0 (hint_field hint.now)) }
{
    match hint {
        Some(hint) => put_hint(text, hint),
        None => Ok(()),
    }
}

/// The canonical text of a model.
#[tactic(auto, using(crate::proofs::Lines::layout))]
pub fn model_text(alloc: Global, model: &CpModel) -> Result<String, AllocError>
    ensures text { IfOk result (λ text. string_bytes text ≡ model_text model.now) }

    // If some document is read as this model, its canonical text is read as this model too, whatever fields are closed.
    ensures back { (closed : List (List ℕ)) (bytes : List ℕ) → IsReadWith closed bytes model.now
        → IfOk result (λ text. IsReadWith closed (string_bytes text) model.now) }
{
    let mut text = String::new(alloc);
    put_text_field(&mut text, 0, "name", model.name.as_str())?;
    put_variables(&mut text, model.variables.as_slice())?;
    put_constraints(&mut text, model.constraints.as_slice())?;
    put_objective_field(&mut text, &model.objective)?;
    put_strategies(&mut text, model.strategies.as_slice())?;
    put_hint_field(&mut text, &model.hint)?;
    put_list_field(&mut text, 0, "assumptions", model.assumptions.as_slice())?;
    Ok(text)
}
