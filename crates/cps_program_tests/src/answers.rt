//! Whole runs of the program: the exit, whether there is an outcome, and every byte that is written.
use crate::known_answers::{
    BEGINNINGS, Beginning, CHECKS, COMMANDS, Checking, FAULTY_WORDS, INPUTS, LINES, Line,
    PRODUCTION, READINGS, Reading,
};
use crate::running::{Given, assert_solved, run, run_unread, unhindered};
use std::alloc::Global;
use std::process::Abort;
use std::sync::Wait;
use std::test::Fail;
use std::thread::Threads;

#[test]
fn inputs_have_their_answers(rt: HostRuntime) -> Result<(), Fail> {
    assert_solved(&rt, rt.alloc(), &INPUTS)
}

fn assert_read<R: Threads + Wait + Sync + Abort>(
    rt: &R,
    alloc: Global,
    rows: &[Reading],
) -> Result<(), Fail> {
    for row in rows {
        let seen = run(rt, alloc, &unhindered(&[row.command], row.input))?;
        assert!(rt;
            seen.is(row.exit, false, row.text),
            "{} at {}",
            row.command,
            row.input
        );
    }
    Ok(())
}

#[test]
fn readings_have_their_answers(rt: HostRuntime) -> Result<(), Fail> {
    assert_read(&rt, rt.alloc(), &READINGS)
}

fn assert_checked<R: Threads + Wait + Sync + Abort>(
    rt: &R,
    alloc: Global,
    rows: &[Checking],
) -> Result<(), Fail> {
    for row in rows {
        let input = format!(in alloc; "{}{}", row.model, row.response)?;
        let seen = run(rt, alloc, &unhindered(&["check"], &input))?;
        assert!(rt; seen.is(row.exit, false, row.text), "at {input}");
    }
    Ok(())
}

#[test]
fn responses_have_their_verdicts(rt: HostRuntime) -> Result<(), Fail> {
    assert_checked(&rt, rt.alloc(), &CHECKS)
}

fn assert_lines<R: Threads + Wait + Sync + Abort>(
    rt: &R,
    alloc: Global,
    rows: &[Line],
) -> Result<(), Fail> {
    for row in rows {
        let seen = run(rt, alloc, &unhindered(row.words, row.input))?;
        assert!(rt; seen.is(0, true, row.text), "at {}", row.input);
    }
    Ok(())
}

#[test]
fn lines_have_their_answers(rt: HostRuntime) -> Result<(), Fail> {
    assert_lines(&rt, rt.alloc(), &LINES)
}

/// The words are judged before the source is read.
fn assert_usage<R: Threads + Wait + Sync + Abort>(
    rt: &R,
    alloc: Global,
    rows: &[&'static [&'static str]],
) -> Result<(), Fail> {
    let usage = "usage: cpsolve solve|validate|print|gen|demo|check\n";
    for words in rows {
        let seen = run_unread(rt, alloc, words)?;
        assert!(rt; seen.is(2, false, usage));
    }
    Ok(())
}

#[test]
fn words_without_a_command_have_the_usage_line(rt: HostRuntime) -> Result<(), Fail> {
    assert_usage(&rt, rt.alloc(), &FAULTY_WORDS)
}

#[test]
fn a_second_read_fails(rt: HostRuntime) -> Result<(), Fail> {
    for command in COMMANDS.iter() {
        let words = [*command];
        let cut_off = Given {
            pieces: &[100],
            failing_reads: &[1],
            ..unhindered(&words, PRODUCTION)
        };
        let seen = run(&rt, rt.alloc(), &cut_off)?;
        assert!(rt; seen.is(3, false, ""), "{command}");
    }
    Ok(())
}

fn assert_held<R: Threads + Wait + Sync + Abort>(
    rt: &R,
    alloc: Global,
    rows: &[Beginning],
) -> Result<(), Fail> {
    for row in rows {
        let full = Given {
            at_once: 3,
            failing_writes: &[1],
            ..unhindered(row.words, row.input)
        };
        let seen = run(rt, alloc, &full)?;
        assert!(rt; seen.is(4, row.has_outcome, row.held), "at {}", row.held);
    }
    Ok(())
}

#[test]
fn a_second_write_fails(rt: HostRuntime) -> Result<(), Fail> {
    assert_held(&rt, rt.alloc(), &BEGINNINGS)
}
