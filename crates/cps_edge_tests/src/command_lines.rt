//! Words with the commands that they are.
//!
//! Tables stand as text, so that many rows cost one function: words with the command that they are, as `Debug` shows it,
//! and words that are no command. The rows follow from the table of commands and the ranges of its options.
use cps_command::command_of;
use std::alloc::{AllocError, Global};
use std::process::Abort;
use std::test::Fail;

/// Words, each with the command that they are.
static COMMANDS: [(&str, &str); 19] = [
    (
        "cpsolve solve",
        "Some(Solve(Options { workers: 4, conflicts: 10000, seed: 1, interleave: false, gap: 0, log: false }))",
    ),
    (
        "x solve --workers 1 --conflicts 0",
        "Some(Solve(Options { workers: 1, conflicts: 0, seed: 1, interleave: false, gap: 0, log: false }))",
    ),
    (
        "cpsolve solve --conflicts 7 --workers 16",
        "Some(Solve(Options { workers: 16, conflicts: 7, seed: 1, interleave: false, gap: 0, log: false }))",
    ),
    (
        "cpsolve solve --conflicts=1000000000",
        "Some(Solve(Options { workers: 4, conflicts: 1000000000, seed: 1, interleave: false, gap: 0, log: false }))",
    ),
    (
        "cpsolve solve --interleave --seed 7",
        "Some(Solve(Options { workers: 4, conflicts: 10000, seed: 7, interleave: true, gap: 0, log: false }))",
    ),
    (
        "cpsolve solve --seed=18446744073709551615",
        "Some(Solve(Options { workers: 4, conflicts: 10000, seed: 18446744073709551615, interleave: false, gap: 0, log: false }))",
    ),
    (
        "cpsolve solve --gap 3 --conflicts 0",
        "Some(Solve(Options { workers: 4, conflicts: 0, seed: 1, interleave: false, gap: 3, log: false }))",
    ),
    (
        "cpsolve solve --gap=9223372036854775807",
        "Some(Solve(Options { workers: 4, conflicts: 10000, seed: 1, interleave: false, gap: 9223372036854775807, log: false }))",
    ),
    (
        "cpsolve solve --log --workers 1",
        "Some(Solve(Options { workers: 1, conflicts: 10000, seed: 1, interleave: false, gap: 0, log: true }))",
    ),
    (
        "cpsolve solve --workers=1 --gap 0 --interleave --log",
        "Some(Solve(Options { workers: 1, conflicts: 10000, seed: 1, interleave: true, gap: 0, log: true }))",
    ),
    ("cpsolve validate", "Some(Validate)"),
    ("x validate", "Some(Validate)"),
    ("cpsolve print", "Some(Print)"),
    ("x print", "Some(Print)"),
    (
        "cpsolve gen knapsack 100 3",
        "Some(Gen(Recipe { family: Knapsack, size: 100, seed: 3 }))",
    ),
    (
        "x gen tour 60 18446744073709551615",
        "Some(Gen(Recipe { family: Tour, size: 60, seed: 18446744073709551615 }))",
    ),
    (
        "cpsolve demo jobshop 16 0",
        "Some(Demo(Recipe { family: Jobshop, size: 16, seed: 0 }))",
    ),
    ("cpsolve check", "Some(Check)"),
    ("x check", "Some(Check)"),
];

/// Each line has words that are no command. The last one has none.
static OTHERS: &str = "\
    cpsolve gen tour 1 5\n\
    cpsolve gen tour 61 5\n\
    cpsolve gen jobshop 0 5\n\
    cpsolve gen jobshop 17 5\n\
    cpsolve gen knapsack 0 5\n\
    cpsolve gen knapsack 10001 5\n\
    cpsolve gen knapsack 4294967297 5\n\
    cpsolve demo tour 1 5\n\
    cpsolve gen rosters 5 5\n\
    cpsolve gen 5 tour 5\n\
    cpsolve gen tour 5 -1\n\
    cpsolve gen tour 5\n\
    cpsolve gen tour 5 5 5\n\
    cpsolve gen tour 5 --seed 5\n\
    cpsolve demo\n\
    cpsolve demo --help\n\
    cpsolve solve --conflicts 1000000001\n\
    cpsolve solve --conflicts 18446744073709551616\n\
    cpsolve solve --conflicts -1\n\
    cpsolve solve --conflicts\n\
    cpsolve solve --conflicts 1 --conflicts 2\n\
    cpsolve solve --workers 0\n\
    cpsolve solve --workers 17\n\
    cpsolve solve --seed 18446744073709551616\n\
    cpsolve solve --interleave=true\n\
    cpsolve solve --interleave true\n\
    cpsolve solve --interleave --interleave\n\
    cpsolve solve --gap 9223372036854775808\n\
    cpsolve solve --gap 18446744073709551616\n\
    cpsolve solve --gap -1\n\
    cpsolve solve --gap\n\
    cpsolve solve --gap 1 --gap 2\n\
    cpsolve solve --log\n\
    cpsolve solve --log --workers 2\n\
    cpsolve solve --log --workers 1 --gap 1\n\
    cpsolve solve --log=true --workers 1\n\
    cpsolve solve --workers 1 --log --log\n\
    cpsolve solve x\n\
    cpsolve solve --help\n\
    cpsolve validate x\n\
    cpsolve validate --interleave\n\
    cpsolve validate --gap 0\n\
    cpsolve validate --help\n\
    cpsolve print x\n\
    cpsolve print --conflicts 1\n\
    cpsolve print validate\n\
    cpsolve prints\n\
    cpsolve check x\n\
    cpsolve check --seed 1\n\
    cpsolve check --help\n\
    cpsolve checks\n\
    cpsolve help print\n\
    cpsolve --version\n\
    cpsolve\n\
    \n\
";

/// The words of a line.
fn words_of(alloc: Global, line: &str) -> Result<Vec<String>, AllocError> {
    let mut words = Vec::new(alloc);
    for word in line.split_ascii_whitespace() {
        words.push(String::from_str(alloc, word)?)?;
    }
    Ok(words)
}

/// Asserts that the words of a line are this command, as `Debug` shows it.
fn assert_command(rt: &impl Abort, alloc: Global, line: &str, wanted: &str) -> Result<(), Fail> {
    let words = words_of(alloc, line)?;
    let command = command_of(alloc, &words)?;
    let shown = format!(in alloc; "{command:?}")?;
    assert_eq!(rt; shown.as_str(), wanted, "{line}");
    Ok(())
}

fn assert_commands(rt: &impl Abort, alloc: Global, rows: &[(&str, &str)]) -> Result<(), Fail> {
    for (line, wanted) in rows {
        assert_command(rt, alloc, line, wanted)?;
    }
    Ok(())
}

#[test]
fn words_are_their_commands(rt: HostRuntime) -> Result<(), Fail> {
    assert_commands(&rt, rt.alloc(), &COMMANDS)
}

fn assert_no_commands(rt: &impl Abort, alloc: Global, lines: &str) -> Result<(), Fail> {
    for line in lines.lines() {
        assert_command(rt, alloc, line, "None")?;
    }
    Ok(())
}

#[test]
fn other_words_are_no_command(rt: HostRuntime) -> Result<(), Fail> {
    assert_no_commands(&rt, rt.alloc(), OTHERS)
}
