//! Assignments of models with intervals, each present if its literal is true: which are solutions.
//!
//! A row has intervals, one constraint on them, and for each choice of presence literals whether it is a solution. The
//! answers follow from the definition of the constraint, interval by interval.
use crate::kind_values::assert_solution;
use std::alloc::Global;
use std::fmt::Write;
use std::process::Abort;
use std::test::Fail;

/// Intervals from a start to an end for a size, and a constraint on them, with assignments of the intervals' literals
/// that satisfy all and others.
struct Row {
    intervals: &'static [[i64; 3]],
    constraint: &'static str,
    solutions: &'static [&'static [i64]],
    others: &'static [&'static [i64]],
}

/// An interval that is present has no size below 0.
static SIZES: [Row; 3] = [
    Row {
        intervals: &[[1, 3, 2]],
        constraint: "",
        solutions: &[&[1]],
        others: &[],
    },
    Row {
        intervals: &[[1, 1, 0]],
        constraint: "",
        solutions: &[&[1]],
        others: &[],
    },
    Row {
        intervals: &[[1, 0, -1]],
        constraint: "",
        solutions: &[&[0]],
        others: &[&[1]],
    },
];

/// Intervals do not overlap: with others inside them, of size 0 at an edge and inside, and one that is named twice.
static APART: [Row; 6] = [
    Row {
        intervals: &[[0, 5, 5], [5, 7, 2], [3, 3, 0]],
        constraint: "no_overlap { intervals: [0, 1, 2] }",
        solutions: &[&[1, 1, 0], &[0, 1, 1]],
        others: &[&[1, 0, 1]],
    },
    Row {
        intervals: &[[0, 5, 5], [5, 5, 0]],
        constraint: "no_overlap { intervals: [0, 1] }",
        solutions: &[&[1, 1]],
        others: &[],
    },
    Row {
        intervals: &[[0, 5, 5], [0, 0, 0]],
        constraint: "no_overlap { intervals: [0, 1] }",
        solutions: &[&[1, 1]],
        others: &[],
    },
    Row {
        intervals: &[[0, 5, 5], [3, 3, 0]],
        constraint: "no_overlap { intervals: [0, 1] }",
        solutions: &[],
        others: &[&[1, 1]],
    },
    Row {
        intervals: &[[0, 5, 5], [3, 3, 0]],
        constraint: "no_overlap { intervals: [1, 1] }",
        solutions: &[&[1, 1]],
        others: &[],
    },
    Row {
        intervals: &[[0, 5, 5], [3, 4, 1]],
        constraint: "no_overlap { intervals: [1, 1] }",
        solutions: &[],
        others: &[&[1, 1]],
    },
];

/// The intervals of loads of 2 each.
const LOADED: &[[i64; 3]] = &[[0, 3, 3], [2, 4, 2], [4, 5, 1]];

/// Loads stay within the capacity.
static LOADS: [Row; 4] = [
    Row {
        intervals: LOADED,
        constraint: "cumulative { capacity { offset: 3 } intervals: [0, 1, 2] \
            demands { offset: 2 } demands { offset: 2 } demands { offset: 2 } }",
        solutions: &[],
        others: &[&[1, 1, 1]],
    },
    Row {
        intervals: LOADED,
        constraint: "cumulative { capacity { offset: 4 } intervals: [0, 1, 2] \
            demands { offset: 2 } demands { offset: 2 } demands { offset: 2 } }",
        solutions: &[&[1, 1, 1]],
        others: &[],
    },
    Row {
        intervals: LOADED,
        constraint: "cumulative { capacity { offset: 2 } intervals: [0, 1, 2] \
            demands { offset: 2 } demands { offset: 2 } demands { offset: 2 } }",
        solutions: &[&[1, 0, 1], &[0, 1, 1]],
        others: &[],
    },
    Row {
        intervals: LOADED,
        constraint: "cumulative { capacity { offset: -1 } intervals: [0, 1, 2] \
            demands { offset: 2 } demands { offset: 2 } demands { offset: 2 } }",
        solutions: &[],
        others: &[&[0, 0, 0]],
    },
];

/// Boxes are apart one way, also one inside another, with and without area, unless an interval of it is absent.
static BOXES: [Row; 4] = [
    Row {
        intervals: &[[0, 2, 2], [0, 2, 2], [1, 3, 2], [1, 3, 2]],
        constraint: "no_overlap_2d { x_intervals: [0, 2] y_intervals: [1, 3] }",
        solutions: &[],
        others: &[&[1, 1, 1, 1]],
    },
    Row {
        intervals: &[[0, 2, 2], [0, 2, 2], [2, 4, 2], [1, 3, 2]],
        constraint: "no_overlap_2d { x_intervals: [0, 2] y_intervals: [1, 3] }",
        solutions: &[&[1, 1, 1, 1]],
        others: &[],
    },
    Row {
        intervals: &[[0, 5, 5], [0, 5, 5], [2, 2, 0], [2, 2, 0]],
        constraint: "no_overlap_2d { x_intervals: [0, 2] y_intervals: [1, 3] }",
        solutions: &[],
        others: &[&[1, 1, 1, 1]],
    },
    Row {
        intervals: &[[0, 5, 5], [0, 5, 5], [2, 3, 1], [2, 3, 1]],
        constraint: "no_overlap_2d { x_intervals: [0, 2] y_intervals: [1, 3] }",
        solutions: &[&[1, 1, 1, 0]],
        others: &[&[1, 1, 1, 1]],
    },
];

/// Appends an interval.
fn push_interval(text: &mut String, interval: &[i64; 3]) -> Result<(), Fail> {
    let [start, end, size] = interval;
    write!(
        text,
        "interval {{ start {{ offset: {start} }} end {{ offset: {end} }} size {{ offset: {size} }} }} }} "
    )?;
    Ok(())
}

/// Appends intervals, the one of number k present where variable k is 1.
fn push_intervals(text: &mut String, intervals: &[[i64; 3]]) -> Result<(), Fail> {
    for (literal, interval) in intervals.iter().enumerate() {
        write!(text, "constraints {{ enforcement_literal: {literal} ")?;
        push_interval(text, interval)?;
    }
    Ok(())
}

/// The text of the model of a row.
fn text_of(alloc: Global, row: &Row) -> Result<String, Fail> {
    let mut text = String::new(alloc);
    for _ in row.intervals {
        text.push_str("variables { domain: [0, 1] } ")?;
    }
    push_intervals(&mut text, row.intervals)?;
    text.push_str("constraints { ")?;
    text.push_str(row.constraint)?;
    text.push_str(" }")?;
    Ok(text)
}

/// Asserts of assignments of a text's model whether they are solutions.
fn assert_solutions(
    rt: &impl Abort,
    alloc: Global,
    text: &str,
    assignments: &[&[i64]],
    wanted: bool,
) -> Result<(), Fail> {
    for values in assignments {
        assert_solution(rt, alloc, text, values, wanted)?;
    }
    Ok(())
}

fn assert_rows(rt: &impl Abort, alloc: Global, rows: &[Row]) -> Result<(), Fail> {
    for row in rows {
        let text = text_of(alloc, row)?;
        assert_solutions(rt, alloc, &text, row.solutions, true)?;
        assert_solutions(rt, alloc, &text, row.others, false)?;
    }
    Ok(())
}

#[test]
fn intervals_have_their_solutions(rt: HostRuntime) -> Result<(), Fail> {
    assert_rows(&rt, rt.alloc(), &SIZES)?;
    assert_rows(&rt, rt.alloc(), &APART)?;
    assert_rows(&rt, rt.alloc(), &LOADS)?;
    assert_rows(&rt, rt.alloc(), &BOXES)
}
