//! Logs that `solve` writes, and what `check` says of them.
use crate::known_answers::{PRODUCTION, THREE_DIFFERENT, THREE_IN_THREE, THREE_IN_TWO};
use crate::running::{Given, Seen, run, unhindered};
use std::alloc::{AllocError, Global};
use std::process::Abort;
use std::sync::Wait;
use std::test::Fail;
use std::thread::Threads;

/// Words that ask for a log.
const LOGGED: [&str; 4] = ["solve", "--workers", "1", "--log"];

/// A model's text, the line between it and a response, and the response.
fn input_of(alloc: Global, model: &str, response: &[u8]) -> Result<Vec<u8>, AllocError> {
    let mut input = Vec::from_slice(alloc, model.as_bytes())?;
    input.extend_from_slice(b"\n%response\n")?;
    input.extend_from_slice(response)?;
    Ok(input)
}

/// What `check` says of what `solve` writes with a log.
fn check_own_log<R: Threads + Wait + Sync>(
    rt: &R,
    alloc: Global,
    words: &[&str],
    model: &str,
) -> Result<Seen, AllocError> {
    let solved = run(rt, alloc, &unhindered(words, model))?;
    let input = input_of(alloc, model, solved.text.as_slice())?;
    let checking = Given {
        input: &input,
        ..unhindered(&["check"], "")
    };
    run(rt, alloc, &checking)
}

fn assert_verified<R: Threads + Wait + Sync + Abort>(
    rt: &R,
    alloc: Global,
    models: &[&'static str],
) -> Result<(), Fail> {
    for model in models {
        let seen = check_own_log(rt, alloc, &LOGGED, model)?;
        assert!(rt; seen.is(0, false, "verified\n"), "at {model}");
    }
    Ok(())
}

#[test]
fn logs_are_verified(rt: HostRuntime) -> Result<(), Fail> {
    let models = [THREE_DIFFERENT, THREE_IN_TWO, THREE_IN_THREE, PRODUCTION];
    assert_verified(&rt, rt.alloc(), &models)
}

/// What is written is the response, and a log between its marks. Such a response claims nothing, so `check` refuses the
/// line of its status.
#[test]
fn an_undecided_response_has_an_open_log(rt: HostRuntime) -> Result<(), Fail> {
    let words = ["solve", "--workers", "1", "--log", "--conflicts", "0"];
    let seen = run(&rt, rt.alloc(), &unhindered(&words, THREE_IN_TWO))?;
    let text = seen.text.as_slice();
    assert!(rt; seen.exit == 0 && text.starts_with(b"status: UNKNOWN\n%log\n"));
    assert!(rt; text.ends_with(b"\n%end\n") && !text.ends_with(b"\nl\n%end\n"));
    let seen = check_own_log(&rt, rt.alloc(), &words, THREE_IN_TWO)?;
    assert!(rt; seen.is(6, false, "not verified at line 3\n"));
    Ok(())
}

/// Whether a sink that takes one byte a call, of which one call fails, holds what came before that call.
fn holds_prefix<R: Threads + Wait + Sync>(
    rt: &R,
    alloc: Global,
    text: &[u8],
    call: usize,
) -> Result<bool, AllocError> {
    let failing_writes = [call];
    let failing = Given {
        at_once: 1,
        failing_writes: &failing_writes,
        ..unhindered(&LOGGED, THREE_IN_TWO)
    };
    let seen = run(rt, alloc, &failing)?;
    Ok(seen.exit == 4 && seen.has_outcome && text.get(..call) == Some(seen.text.as_slice()))
}

#[test]
fn each_write_of_a_log_fails(rt: HostRuntime) -> Result<(), Fail> {
    let whole = run(&rt, rt.alloc(), &unhindered(&LOGGED, THREE_IN_TWO))?;
    for call in 0..whole.text.len() {
        let holds = holds_prefix(&rt, rt.alloc(), whole.text.as_slice(), call)?;
        assert!(rt; holds, "{call}");
    }
    Ok(())
}
