//! The answer to a command line and an input, before it is written.
//!
//! Each command that reads has a function that takes its model from the input and one that answers the model; the
//! faults of an input have one answer for all commands, and so have words that are no command. The commands that
//! generate a model are answered in `generation`, `solve` in `solving`, and `check` in `checking`. The text is complete
//! before anything is written, so a run that runs out of memory writes nothing.
ghost use Rattle.std.specs.Prelude.{◌≡◌, ◌≤◌, ℕ, List, IfOk, IsTrue, length, string_bytes};
ghost use Rattle.cps_print.specs.Faults.{fault_text};
ghost use Rattle.cps_print.specs.Models.{model_text};
ghost use Rattle.cps_print.specs.ReadBack.{IsReadAs};
ghost use Rattle.cps_program.specs.Inputs.{most_bytes, IsModelText, IsInput};
ghost use Rattle.cps_program.specs.Answers.{usage_text, valid_text, IsText, IsFaultText, Validates, Prints, AnswersInput, Does, IsCommandInRange};

use crate::checking::check_input;
use crate::exits::{BAD_INPUT, BAD_WORDS, DONE};
use crate::generation::{demo_answer, gen_answer};
use crate::input::{InputError, read_model, valid_model_of};
use crate::solving::solve_input;
use cps_command::Command;
use cps_model::{CpModel, Text};
use cps_outer::{Gate, Host};
use cps_portfolio::Outcome;
use cps_print::{Fault, fault_text, model_text};
use std::alloc::{AllocError, Global};
use std::sync::Wait;
use std::thread::Threads;

/// An exit status with the text that goes with it, and the outcome where a model was solved.
#[derive(Drop)]
pub struct Answer {
    pub exit: u8,
    pub outcome: Option<Outcome>,
    pub text: Text,
}

/// A text with no outcome.
pub fn text_answer(exit: u8, text: String) -> Answer
    ensures { IsText exit (string_bytes text) result }
{
    Answer {
        exit,
        outcome: None,
        text: Text::from_string(text),
    }
}

/// The answer to words that have no command.
pub fn usage_answer(alloc: Global) -> Result<Answer, AllocError>
    ensures { IfOk result (IsText 2 usage_text) }
{
    let text = String::from_str(
        alloc,
        "usage: cpsolve solve|validate|print|gen|demo|check\n",
    )?;
    Ok(text_answer(BAD_WORDS, text))
}

/// The answer to an input that has a fault.
pub fn fault_answer(alloc: Global, fault: &Fault) -> Result<Answer, AllocError>
    ensures { IfOk result (IsText 1 (fault_text fault.now)) }
{
    Ok(text_answer(BAD_INPUT, fault_text(alloc, fault)?))
}

/// The answer to an input that could not be read as a model.
pub fn input_error_answer(alloc: Global, input_error: InputError) -> Result<Answer, AllocError>
    ensures { IfOk result (IsFaultText input_error) }
{
    match input_error {
        InputError::Fault(fault) => fault_answer(alloc, &fault),
        InputError::OutOfMemory => Err(AllocError),
    }
}

/// The answer of `validate` to a valid model.
fn valid_answer(alloc: Global) -> Result<Answer, AllocError>
    ensures { IfOk result (IsText 0 valid_text) }
{
    Ok(text_answer(DONE, String::from_str(alloc, "valid\n")?))
}

/// The answer of `validate` to an input that is not too long.
fn validate_input(alloc: Global, bytes: &[u8]) -> Result<Answer, AllocError>
    requires { length bytes.now ≤ most_bytes }
    ensures { IfOk result (AnswersInput IsInput Validates bytes.now) }
{
    match valid_model_of(alloc, bytes) {
        Ok(_model) => valid_answer(alloc),
        Err(input_error) => input_error_answer(alloc, input_error),
    }
}

/// The answer of `print` to a model.
fn print_answer(alloc: Global, model: &CpModel) -> Result<Answer, AllocError>
    ensures canonical { IfOk result (IsText 0 (model_text model.now)) }
    ensures back { (bytes : List ℕ) → IsReadAs bytes model.now
        → IfOk result (λ answer. IsReadAs answer.text model.now) }
{
    let text = model_text(alloc, model)?;
    Ok(text_answer(DONE, text))
}

/// The answer of `print` to an input that is not too long. It tests no rule.
fn print_input(alloc: Global, bytes: &[u8]) -> Result<Answer, AllocError>
    requires { length bytes.now ≤ most_bytes }
    ensures { IfOk result (AnswersInput IsModelText Prints bytes.now) }
{
    match read_model(alloc, bytes) {
        Ok(model) => print_answer(alloc, &model),
        Err(input_error) => input_error_answer(alloc, input_error),
    }
}

/// What a command answers to an input that is not too long. A command that generates a model looks at none.
pub fn command_answer<R: Threads + Wait + Sync, G: Gate + Sync>(
    host: &Host<'_, R, G>,
    command: Command,
    bytes: &[u8],
) -> Result<Answer, AllocError>
    requires short { length bytes.now ≤ most_bytes }
    requires range { IsCommandInRange command }
    ensures { IfOk result (Does command bytes.now) }
{
    match command {
        Command::Solve(options) => solve_input(host, &options, bytes),
        Command::Validate => validate_input(host.alloc, bytes),
        Command::Print => print_input(host.alloc, bytes),
        Command::Gen(recipe) => gen_answer(host.alloc, &recipe),
        Command::Demo(recipe) => demo_answer(host.alloc, &recipe),
        Command::Check => check_input(host.alloc, bytes),
    }
}
