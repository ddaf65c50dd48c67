//! The answer of `solve`: a response, and behind it the log of its proof where one is asked for.
ghost use Rattle.std.specs.Prelude.{◌≡◌, ◌≤◌, IfOk, IsTrue, length, string_bytes, is_some};
ghost use Rattle.cps_print.specs.Responses.{HasShowableLimits};
ghost use Rattle.cps_kinds.specs.Kinds.{AreAllPropagated};
ghost use Rattle.cps_options.specs.Ranges.{AreInRange};
ghost use Rattle.cps_crew.specs.Logs.{log_of};
ghost use Rattle.cps_crew.specs.Outcomes.{IsGoodOutcome};
ghost use Rattle.cps_portfolio.specs.Workers.{IsDrawnRun};
ghost use Rattle.cps_program.specs.Inputs.{most_bytes, IsInput};
ghost use Rattle.cps_program.specs.Answers.{AnswersInput, Solves};
ghost use Rattle.cps_program.specs.Logs.{log_lines, log_section};

use crate::answer::{Answer, input_error_answer};
use crate::exits::DONE;
use crate::input::valid_model_of;
use cps_log::{LogItem, log_text};
use cps_model::Text;
use cps_options::Options;
use cps_outer::{Gate, Host};
use cps_portfolio::{Outcome, solve, solve_interleaved};
use cps_print::{Response, response_text};
use cps_validate::ValidModel;
use std::alloc::{AllocError, Global};
use std::sync::Wait;
use std::thread::Threads;

/// The outcome of workers that search a model in threads, or in turns if the options say so. A worker that keeps a log
/// is the only one, and takes turns.
fn search_outcome<R: Threads + Wait + Sync, G: Gate + Sync>(
    host: &Host<'_, R, G>,
    model: &ValidModel,
    options: &Options,
) -> Result<Outcome, AllocError>
    requires range { AreInRange options.now }
    requires kinds { AreAllPropagated model.now }
    ensures good { IfOk result (IsGoodOutcome model.now options.now) }
    ensures drawn { IsTrue options.now.interleave → IfOk result (λ o. IsDrawnRun model.now options.now 4096 o.ends) }
{
    if options.interleave || options.log {
        solve_interleaved(host.alloc, model, options)
    } else {
        solve(host.rt, host.alloc, model, options, host.gate)
    }
}

/// The items of a log, a line each, between the line that begins a log and the one that ends it.
fn log_lines(alloc: Global, items: &[LogItem]) -> Result<String, AllocError>
    ensures { IfOk result (λ text. string_bytes text ≡ log_lines items.now) }
{
    let mut text = String::from_str(alloc, "%log\n")?;
    let lines = log_text(alloc, items)?;
    text.push_str(lines.as_str())?;
    text.push_str("%end\n")?;
    Ok(text)
}

/// What stands behind the response of an outcome: the lines of its log, and nothing where it has none.
fn log_section(alloc: Global, outcome: &Outcome) -> Result<String, AllocError>
    ensures { IfOk result (λ text. string_bytes text ≡ log_section (log_of outcome.now.ends)) }
{
    match outcome.log() {
        Some(items) => log_lines(alloc, items),
        None => Ok(String::new(alloc)),
    }
}

/// The answer of `solve` to a valid model. A response owns its solution and its core, so the outcome gives them to it
/// and takes them back when the text is made.
fn solve_answer<R: Threads + Wait + Sync, G: Gate + Sync>(
    host: &Host<'_, R, G>,
    model: &ValidModel,
    options: &Options,
) -> Result<Answer, AllocError>
    requires showable { HasShowableLimits model.now.objective }
    requires kinds { AreAllPropagated model.now }
    requires range { AreInRange options.now }
    ensures { IfOk result (Solves options.now model.now) }
{
    let outcome = search_outcome(host, model, options)?;
    let log = log_section(host.alloc, &outcome)?;
    let Outcome {
        status,
        solution,
        upper,
        lower,
        core,
        ends,
    } = outcome;
    let response = Response {
        status,
        solution,
        lower,
        core,
    };
    let mut text = response_text(host.alloc, model.model(), &response)?;
    text.push_str(log.as_str())?;
    let Response { solution, core, .. } = response;
    Ok(Answer {
        exit: DONE,
        outcome: Some(Outcome {
            status,
            solution,
            upper,
            lower,
            core,
            ends,
        }),
        text: Text::from_string(text),
    })
}

/// The answer of `solve` to an input that is not too long.
pub fn solve_input<R: Threads + Wait + Sync, G: Gate + Sync>(
    host: &Host<'_, R, G>,
    options: &Options,
    bytes: &[u8],
) -> Result<Answer, AllocError>
    requires short { length bytes.now ≤ most_bytes }
    requires range { AreInRange options.now }
    ensures { IfOk result (AnswersInput IsInput (Solves options.now) bytes.now) }
{
    match valid_model_of(host.alloc, bytes) {
        Ok(model) => solve_answer(host, &model, options),
        Err(input_error) => input_error_answer(host.alloc, input_error),
    }
}
