//! One run of the program, over a source and a sink in memory.
use crate::known_answers::Solving;
use cps_outer::{Gate, MemorySink, MemorySource, OpenGate};
use cps_program::{Ran, solve_main};
use std::alloc::{AllocError, Global};
use std::process::Abort;
use std::sync::Wait;
use std::test::Fail;
use std::thread::Threads;

/// What a run is handed: the words behind the program's name, the input, and how the source and the sink behave. A call
/// number k of the source gives at most `pieces[k]` bytes, and the sink takes at most `at_once` bytes in a call.
#[derive(Clone, Copy)]
pub struct Given<'a> {
    pub words: &'a [&'a str],
    pub input: &'a [u8],
    pub pieces: &'a [usize],
    pub failing_reads: &'a [usize],
    pub at_once: usize,
    pub failing_writes: &'a [usize],
}

/// What came of a run.
#[derive(Drop)]
pub struct Seen {
    pub exit: u8,
    pub has_outcome: bool,
    pub text: Vec<u8>,
}

impl Seen {
    /// Whether the run ended with this exit, had an outcome or none, and wrote this text.
    pub fn is(&self, exit: u8, has_outcome: bool, text: &str) -> bool {
        self.exit == exit
            && self.has_outcome == has_outcome
            && self.text.as_slice() == text.as_bytes()
    }
}

/// A run with a source that gives a few bytes at first and a sink that takes a few at once, and neither fails.
pub fn unhindered<'a>(words: &'a [&'a str], input: &'a str) -> Given<'a> {
    Given {
        words,
        input: input.as_bytes(),
        pieces: &[7, 1],
        failing_reads: &[],
        at_once: 10,
        failing_writes: &[],
    }
}

/// The words of a command line.
fn words_of(alloc: Global, texts: &[&str]) -> Result<Vec<String>, AllocError> {
    let mut words = Vec::new(alloc);
    words.push(String::from_str(alloc, "cpsolve")?)?;
    for text in texts {
        words.push(String::from_str(alloc, text)?)?;
    }
    Ok(words)
}

fn source_of(alloc: Global, given: &Given) -> Result<MemorySource, AllocError> {
    Ok(MemorySource::new(
        Vec::from_slice(alloc, given.input)?,
        Vec::from_slice(alloc, given.pieces)?,
        Vec::from_slice(alloc, given.failing_reads)?,
    ))
}

fn sink_of(alloc: Global, given: &Given) -> Result<MemorySink, AllocError> {
    Ok(MemorySink::new(
        alloc,
        given.at_once,
        Vec::from_slice(alloc, given.failing_writes)?,
    ))
}

/// Runs the program on words, a source and a sink that are made for it.
fn run_over<R: Threads + Wait + Sync, G: Gate + Sync>(
    rt: &R,
    alloc: Global,
    given: &Given,
    sink: &mut MemorySink,
    gate: &G,
) -> Result<(u8, bool), AllocError> {
    let words = words_of(alloc, given.words)?;
    let mut source = source_of(alloc, given)?;
    let Ran { exit, outcome } = solve_main(rt, alloc, &words, &mut source, sink, gate);
    Ok((exit, outcome.is_some()))
}

/// Runs the program, with workers held at a gate.
pub fn run_at<R: Threads + Wait + Sync, G: Gate + Sync>(
    rt: &R,
    alloc: Global,
    given: &Given,
    gate: &G,
) -> Result<Seen, AllocError> {
    let mut sink = sink_of(alloc, given)?;
    let (exit, has_outcome) = run_over(rt, alloc, given, &mut sink, gate)?;
    Ok(Seen {
        exit,
        has_outcome,
        text: Vec::from_slice(alloc, sink.bytes())?,
    })
}

/// Runs the program.
pub fn run<R: Threads + Wait + Sync>(
    rt: &R,
    alloc: Global,
    given: &Given,
) -> Result<Seen, AllocError> {
    run_at(rt, alloc, given, &OpenGate)
}

/// What comes of words to which nothing is read: the first read would fail.
pub fn run_unread<R: Threads + Wait + Sync>(
    rt: &R,
    alloc: Global,
    words: &[&str],
) -> Result<Seen, AllocError> {
    let unreadable = Given {
        failing_reads: &[0],
        ..unhindered(words, "")
    };
    run(rt, alloc, &unreadable)
}

/// Asserts that each of these inputs has its answer.
pub fn assert_solved<R: Threads + Wait + Sync + Abort>(
    rt: &R,
    alloc: Global,
    rows: &[Solving],
) -> Result<(), Fail> {
    for row in rows {
        let seen = run(rt, alloc, &unhindered(&["solve"], row.input))?;
        assert!(rt;
            seen.is(row.exit, row.exit == 0, row.text),
            "at {}",
            row.input
        );
    }
    Ok(())
}
