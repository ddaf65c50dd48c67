//! The answers of the commands that generate a model. They read nothing.
ghost use Rattle.std.specs.Prelude.{◌≡◌, IfOk, IsTrue};
ghost use Rattle.cps_gen.specs.Families.{is_in_range};
ghost use Rattle.cps_kinds.specs.Kinds.{AreAllPropagated};
ghost use Rattle.cps_print.specs.Responses.{HasShowableLimits};
ghost use Rattle.cps_program.specs.Answers.{model_of, demo_options, Generates, Demonstrates};

use crate::answer::{Answer, text_answer};
use crate::exits::DONE;
use cps_command::Recipe;
use cps_gen::generate;
use cps_model::Text;
use cps_options::Options;
use cps_portfolio::solve_interleaved;
use cps_print::{demo_text, model_text};
use cps_validate::{ValidModel, ValidateError, validate};
use std::alloc::{AllocError, Global};

/// The answer of `gen`: the canonical text of the model.
pub fn gen_answer(alloc: Global, recipe: &Recipe) -> Result<Answer, AllocError>
    requires { IsTrue (is_in_range recipe.now.family recipe.now.size) }
    ensures { IfOk result (Generates recipe.now) }
{
    let model = generate(alloc, recipe.family, recipe.size, recipe.seed)?;
    let text = model_text(alloc, &model)?;
    Ok(text_answer(DONE, text))
}

/// The model as a valid one, which it is.
fn valid_model(alloc: Global, recipe: &Recipe) -> Result<ValidModel, AllocError>
    requires { IsTrue (is_in_range recipe.now.family recipe.now.size) }
    ensures stated { IfOk result (λ m. m ≡ model_of recipe.now) }
    ensures showable { IfOk result (λ m. HasShowableLimits m.objective) }
    ensures kinds { IfOk result AreAllPropagated }
{
    let model = generate(alloc, recipe.family, recipe.size, recipe.seed)?;
    match validate(alloc, model) {
        Ok(model) => Ok(model),
        // What is generated keeps every rule (`generate`).
        Err(ValidateError::Invalid { .. }) => unreachable!(),
        Err(ValidateError::OutOfMemory) => Err(AllocError),
    }
}

/// The options of a demonstration.
fn demo_options(seed: u64) -> Options
    ensures { result ≡ demo_options seed }
{
    Options {
        workers: 4,
        conflicts: 10_000,
        seed,
        interleave: true,
        gap: 0,
        log: false,
    }
}

/// The answer of `demo`: what came of solving the model, with its seed for the turns too.
pub fn demo_answer(alloc: Global, recipe: &Recipe) -> Result<Answer, AllocError>
    requires { IsTrue (is_in_range recipe.now.family recipe.now.size) }
    ensures { IfOk result (Demonstrates recipe.now) }
{
    let model = valid_model(alloc, recipe)?;
    let options = demo_options(recipe.seed);
    let outcome = solve_interleaved(alloc, &model, &options)?;
    let text = demo_text(alloc, model.model(), outcome.status, &outcome.solution)?;
    Ok(Answer {
        exit: DONE,
        outcome: Some(outcome),
        text: Text::from_string(text),
    })
}
