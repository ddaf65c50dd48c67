//! The answer of `check`: whether a response to a model is verified by the log of its proof.
ghost use Rattle.std.specs.Prelude.{◌≤◌, ◌<◌, ◌^◌, ◌+◌, IfOk, length};
ghost use Rattle.cps_cert.specs.Parts.{feed_count};
ghost use Rattle.cps_program.specs.Inputs.{most_bytes};
ghost use Rattle.cps_program.specs.Answers.{Checks, ChecksInput};

use crate::answer::{Answer, input_error_answer, text_answer};
use crate::exits::{DONE, NOT_VERIFIED};
use crate::input::valid_model_of;
use cps_cert::{SplitInput, Verdict, check, split};
use cps_print::{refused_text, verified_text};
use cps_validate::ValidModel;
use std::alloc::{AllocError, Global};

/// The answer to a response with its log, the first line of which has this number in the input.
fn check_answer(
    alloc: Global,
    model: &ValidModel,
    response: &[u8],
    first_line: u64,
) -> Result<Answer, AllocError>
    requires { first_line + feed_count response.now < 2 ^ 64 }
    ensures { IfOk result (Checks response.now first_line model.now) }
{
    match check(alloc, model, response, first_line)? {
        Verdict::Verified => Ok(text_answer(DONE, verified_text(alloc)?)),
        Verdict::Refused { line } => Ok(text_answer(NOT_VERIFIED, refused_text(alloc, line)?)),
    }
}

/// The answer of `check` to an input that is not too long.
pub fn check_input(alloc: Global, bytes: &[u8]) -> Result<Answer, AllocError>
    requires { length bytes.now ≤ most_bytes }
    ensures { IfOk result (ChecksInput bytes.now) }
{
    let SplitInput {
        model,
        response,
        first_line,
    } = split(bytes);
    match valid_model_of(alloc, model) {
        Ok(model) => check_answer(alloc, &model, response, first_line),
        Err(input_error) => input_error_answer(alloc, input_error),
    }
}
