//! Runs against a source and a sink that fail, and on texts that are cut off, too deep, too long or at the limits of
//! their numbers.
//!
//! The source hands out pieces of chosen sizes and fails at chosen calls, and the sink takes so many bytes at once: so
//! each read and each write fails in turn, and what was written before it is seen.
use crate::known_answers::{COMMANDS, PRODUCTION, PRODUCTION_TEXT, Solving};
use crate::running::{Given, Seen, assert_solved, run, unhindered};
use std::alloc::{AllocError, Global};
use std::process::Abort;
use std::sync::Wait;
use std::test::Fail;
use std::thread::Threads;

/// How many bytes the text has, and so many reads of one byte.
static ONE_BY_ONE: [usize; 300] = [1; 300];

#[test]
fn bytes_come_and_go_one_by_one(rt: HostRuntime) -> Result<(), Fail> {
    assert_eq!(rt; PRODUCTION.len(), ONE_BY_ONE.len());
    let slow = Given {
        pieces: &ONE_BY_ONE,
        at_once: 1,
        ..unhindered(&["solve"], PRODUCTION)
    };
    assert!(rt; run(&rt, rt.alloc(), &slow)?.is(0, true, PRODUCTION_TEXT));
    Ok(())
}

/// The last read is the one that finds the end.
#[test]
fn each_read_fails(rt: HostRuntime) -> Result<(), Fail> {
    for call in 0..=ONE_BY_ONE.len() {
        let failing_reads = [call];
        let failing = Given {
            pieces: &ONE_BY_ONE,
            failing_reads: &failing_reads,
            ..unhindered(&["solve"], PRODUCTION)
        };
        assert!(rt; run(&rt, rt.alloc(), &failing)?.is(3, false, ""), "{call}");
    }
    Ok(())
}

/// What a failed read cut off is not looked at: neither an empty text, nor one that has a fault.
#[test]
fn a_read_fails_before_the_text_is_judged(rt: HostRuntime) -> Result<(), Fail> {
    for command in COMMANDS.iter() {
        let words = [*command];
        for (input, call) in [("", 0), ("[", 0), ("[", 1)] {
            let failing_reads = [call];
            let failing = Given {
                failing_reads: &failing_reads,
                ..unhindered(&words, input)
            };
            assert!(rt;
                run(&rt, rt.alloc(), &failing)?.is(3, false, ""),
                "{command}"
            );
        }
    }
    Ok(())
}

/// Words, an input, and the text of which a sink takes a first part.
struct Written {
    words: &'static [&'static str],
    input: &'static str,
    text: &'static str,
    has_outcome: bool,
}

static WRITTEN: [Written; 8] = [
    Written {
        words: &["solve"],
        input: "",
        text: "status: OPTIMAL\n",
        has_outcome: true,
    },
    // No objective below 0 is left, and so nothing.
    Written {
        words: &["solve", "--workers", "1", "--log"],
        input: "",
        text: "status: OPTIMAL\n%log\no\nl\n%end\n",
        has_outcome: true,
    },
    Written {
        words: &["validate"],
        input: "",
        text: "valid\n",
        has_outcome: false,
    },
    Written {
        words: &["print"],
        input: "variables { domain: 7 }",
        text: "variables {\n  domain: [7]\n}\n",
        has_outcome: false,
    },
    Written {
        words: &["check"],
        input: "",
        text: "not verified at line 1\n",
        has_outcome: false,
    },
    Written {
        words: &["demo", "knapsack", "1", "7"],
        input: "",
        text: "variables: 1\nconstraints: 1\nstatus: OPTIMAL\nobjective_value: 0\n",
        has_outcome: true,
    },
    Written {
        words: &["solve"],
        input: "[",
        text: "status: MODEL_INVALID\n# text fault at byte 0\n",
        has_outcome: false,
    },
    Written {
        words: &["solves"],
        input: "",
        text: "usage: cpsolve solve|validate|print|gen|demo|check\n",
        has_outcome: false,
    },
];

/// Whether a sink that takes one byte a call, of which one call fails, holds what came before that call.
fn holds_what_came_before<R: Threads + Wait + Sync>(
    rt: &R,
    alloc: Global,
    row: &Written,
    call: usize,
) -> Result<bool, AllocError> {
    let failing_writes = [call];
    let failing = Given {
        at_once: 1,
        failing_writes: &failing_writes,
        ..unhindered(row.words, row.input)
    };
    let seen = run(rt, alloc, &failing)?;
    let held = row.text.as_bytes().get(..call);
    Ok(seen.exit == 4 && seen.has_outcome == row.has_outcome && held == Some(seen.text.as_slice()))
}

fn assert_each_write_fails<R: Threads + Wait + Sync + Abort>(
    rt: &R,
    alloc: Global,
    rows: &[Written],
) -> Result<(), Fail> {
    for row in rows {
        for call in 0..row.text.len() {
            let holds = holds_what_came_before(rt, alloc, row, call)?;
            assert!(rt; holds, "{call} of {}", row.text);
        }
    }
    Ok(())
}

#[test]
fn each_write_fails(rt: HostRuntime) -> Result<(), Fail> {
    assert_each_write_fails(&rt, rt.alloc(), &WRITTEN)
}

/// The lengths of the first parts of the text that end behind a whole message.
static WHOLE: [usize; 10] = [0, 29, 30, 59, 60, 148, 149, 237, 238, 300];

/// Whether so many bytes of the text are solved where they end behind a whole message, and are said to end too early
/// elsewhere.
fn is_cut_off_at<R: Threads + Wait + Sync>(
    rt: &R,
    alloc: Global,
    length: usize,
) -> Result<bool, AllocError> {
    let bytes = PRODUCTION.as_bytes();
    let cut_off = Given {
        input: bytes.get(..length).unwrap_or(bytes),
        ..unhindered(&["solve"], "")
    };
    let seen = run(rt, alloc, &cut_off)?;
    if WHOLE.contains(&length) {
        return Ok(seen.exit == 0 && seen.text.starts_with(b"status: OPTIMAL\n"));
    }
    let fault = format!(in alloc; "status: MODEL_INVALID\n# text fault at byte {length}\n")?;
    Ok(seen.is(1, false, &fault))
}

#[test]
fn texts_are_cut_off(rt: HostRuntime) -> Result<(), Fail> {
    for length in 0..=PRODUCTION.len() {
        assert!(rt; is_cut_off_at(&rt, rt.alloc(), length)?, "{length}");
    }
    Ok(())
}

/// Texts that no command takes, each with what is said of it.
static FAULTY: [(&str, &str); 5] = [
    // 33 messages, each in the one before
    (
        "a{a{a{a{a{a{a{a{\
         a{a{a{a{a{a{a{a{\
         a{a{a{a{a{a{a{a{\
         a{a{a{a{a{a{a{a{\
         a{",
        "status: MODEL_INVALID\n# text fault at byte 65\n",
    ),
    // 32 of them, as deep as a text may go
    (
        "a{a{a{a{a{a{a{a{\
         a{a{a{a{a{a{a{a{\
         a{a{a{a{a{a{a{a{\
         a{a{a{a{a{a{a{a{\
         }}}}}}}}}}}}}}}}\
         }}}}}}}}}}}}}}}}",
        "status: MODEL_INVALID\n# field fault UnknownField at byte 0\n",
    ),
    ("[", "status: MODEL_INVALID\n# text fault at byte 0\n"),
    (
        "variables { domain: [0, 1] } ]",
        "status: MODEL_INVALID\n# text fault at byte 29\n",
    ),
    (
        "variables { domain: [0, 9223372036854775808] }",
        "status: MODEL_INVALID\n# field fault OutOfRange at byte 24\n",
    ),
];

fn assert_faults<R: Threads + Wait + Sync + Abort>(
    rt: &R,
    alloc: Global,
    rows: &[(&'static str, &'static str)],
) -> Result<(), Fail> {
    for (input, text) in rows {
        for command in COMMANDS.iter() {
            let seen = run(rt, alloc, &unhindered(&[*command], input))?;
            assert!(rt; seen.is(1, false, text), "{command} at {input}");
        }
    }
    Ok(())
}

#[test]
fn texts_have_faults(rt: HostRuntime) -> Result<(), Fail> {
    assert_faults(&rt, rt.alloc(), &FAULTY)
}

/// The greatest numbers that a variable may have, under a sum that is as great, and under one that would be greater.
static GREATEST: [Solving; 2] = [
    Solving {
        input: "variables { domain: [-4611686018427387903, 4611686018427387903] } \
         constraints { linear { vars: [0] coeffs: [-1] domain: [4611686018427387903, 9223372036854775807] } }",
        exit: 0,
        text: "status: OPTIMAL\nsolution: -4611686018427387903\n",
    },
    Solving {
        input: "variables { domain: [-4611686018427387903, 4611686018427387903] } \
         constraints { linear { vars: [0] coeffs: [-2] domain: [4611686018427387903, 9223372036854775807] } }",
        exit: 1,
        text: "status: MODEL_INVALID\n# invalid V6 at constraint 0\n",
    },
];

#[test]
fn numbers_are_the_greatest(rt: HostRuntime) -> Result<(), Fail> {
    assert_solved(&rt, rt.alloc(), &GREATEST)
}

/// What is answered to so many spaces. The length is judged before the command works on the input, so one command
/// stands for all.
fn run_on_spaces<R: Threads + Wait + Sync>(
    rt: &R,
    alloc: Global,
    count: usize,
) -> Result<Seen, AllocError> {
    let spaces = vec![in alloc; b' '; count]?;
    let long = Given {
        input: &spaces,
        pieces: &[],
        ..unhindered(&["solve"], "")
    };
    run(rt, alloc, &long)
}

#[test]
fn an_input_is_as_long_as_it_may_be(rt: HostRuntime) -> Result<(), Fail> {
    let seen = run_on_spaces(&rt, rt.alloc(), 67_108_864)?;
    assert!(rt; seen.is(0, true, "status: OPTIMAL\n"));
    Ok(())
}

#[test]
fn an_input_is_too_long(rt: HostRuntime) -> Result<(), Fail> {
    let seen = run_on_spaces(&rt, rt.alloc(), 67_108_865)?;
    let text = "status: MODEL_INVALID\n# input longer than 67108864 bytes\n";
    assert!(rt; seen.is(1, false, text));
    Ok(())
}
