//! Assignments of models of each kind: which are solutions.
//!
//! A row has constraints as text over variables of one domain, assignments that satisfy them, and others that do not;
//! so each kind is read, judged and evaluated in one line. The last table has each kind out of force, where it says
//! nothing.
use crate::reading::valid_model;
use cps_eval::satisfies;
use std::alloc::{AllocError, Global};
use std::process::Abort;
use std::test::Fail;

/// Constraints over variables of one domain, with assignments that satisfy them and others.
struct Row {
    domain: &'static str,
    constraints: &'static str,
    solutions: &'static [&'static [i64]],
    others: &'static [&'static [i64]],
}

const WIDE: &str = "[-9, 9]";

const BITS: &str = "[0, 1]";

/// Kinds that compute a number of others. Quotients are rounded towards zero, and a remainder has the sign of what is
/// divided.
static NUMBERS: [Row; 6] = [
    Row {
        domain: WIDE,
        constraints: "constraints { int_div { target { vars: 0 coeffs: 1 } exprs { vars: 1 coeffs: 1 } exprs { offset: 3 } } }",
        solutions: &[&[-2, -8], &[2, 8]],
        others: &[&[-3, -8]],
    },
    Row {
        domain: WIDE,
        constraints: "constraints { int_div { target { vars: 0 coeffs: 1 } exprs { vars: 1 coeffs: 1 } exprs { offset: -3 } } }",
        solutions: &[&[-2, 8], &[2, -8]],
        others: &[&[-3, 8], &[3, -8]],
    },
    Row {
        domain: WIDE,
        constraints: "constraints { int_mod { target { vars: 0 coeffs: 1 } exprs { vars: 1 coeffs: 1 } exprs { offset: 3 } } }",
        solutions: &[&[-2, -8], &[2, 8]],
        others: &[&[1, -8]],
    },
    Row {
        domain: WIDE,
        constraints: "constraints { int_prod { target { vars: 0 coeffs: 1 } exprs { vars: 1 coeffs: 1 } exprs { vars: 2 coeffs: 1 } } }",
        solutions: &[&[6, -2, -3], &[0, 0, 5]],
        others: &[&[5, 2, 3]],
    },
    Row {
        domain: WIDE,
        constraints: "constraints { int_prod { target { vars: 0 coeffs: 1 } } }",
        solutions: &[&[1]],
        others: &[&[0]],
    },
    Row {
        domain: WIDE,
        constraints: "constraints { lin_max { target { vars: 0 coeffs: 1 } exprs { vars: 1 coeffs: 1 } exprs { vars: 2 coeffs: 1 } } }",
        solutions: &[&[3, 1, 3]],
        others: &[&[4, 1, 3], &[1, 1, 3]],
    },
];

/// Kinds that look a number up, and values that all differ. A reference below 0 has its variable's value negated.
static LOOKUPS: [Row; 9] = [
    Row {
        domain: WIDE,
        constraints: "constraints { element { linear_index { vars: 0 coeffs: 1 } linear_target { vars: 1 coeffs: 1 } \
            exprs { vars: 2 coeffs: 1 } exprs { vars: 3 coeffs: 1 } } }",
        solutions: &[&[1, 7, 4, 7]],
        others: &[&[0, 7, 4, 7], &[2, 7, 7, 7], &[-1, 7, 7, 7]],
    },
    Row {
        domain: WIDE,
        constraints: "constraints { table { exprs { vars: 0 coeffs: 1 } exprs { vars: 1 coeffs: 1 } values: [1, 1, 2, 2, 2, 1] } }",
        solutions: &[&[2, 1]],
        others: &[&[1, 2]],
    },
    Row {
        domain: WIDE,
        constraints: "constraints { table { exprs { vars: 0 coeffs: 1 } exprs { vars: 1 coeffs: 1 } \
            values: [1, 1, 2, 2, 2, 1] negated: true } }",
        solutions: &[&[1, 2]],
        others: &[&[2, 1]],
    },
    Row {
        domain: WIDE,
        constraints: "constraints { table { exprs { vars: 0 coeffs: 1 } } }",
        solutions: &[],
        others: &[&[0]],
    },
    Row {
        domain: WIDE,
        constraints: "constraints { table { exprs { vars: 0 coeffs: 1 } negated: true } }",
        solutions: &[&[0]],
        others: &[],
    },
    Row {
        domain: WIDE,
        constraints: "constraints { table { } }",
        solutions: &[&[]],
        others: &[],
    },
    Row {
        domain: WIDE,
        constraints: "constraints { table { negated: true } }",
        solutions: &[&[]],
        others: &[],
    },
    Row {
        domain: WIDE,
        constraints: "constraints { all_diff { exprs { vars: 0 coeffs: 1 } exprs { vars: 1 coeffs: 1 } exprs { vars: 2 coeffs: 1 } } }",
        solutions: &[&[3, 1, 2]],
        others: &[&[3, 1, 3]],
    },
    Row {
        domain: WIDE,
        constraints: "constraints { all_diff { exprs { vars: 0 coeffs: 1 } exprs { vars: -1 coeffs: 1 } } }",
        solutions: &[&[3]],
        others: &[&[0]],
    },
];

/// Circuits: a triangle with a loop on each node, two pairs of arcs there and back with a way round all four nodes, two
/// arcs from node 0 to node 1 and one back, and no arcs. Then lists that invert each other.
static CIRCUITS: [Row; 6] = [
    Row {
        domain: BITS,
        constraints: "constraints { circuit { tails: [0, 1, 2, 0, 1, 2] heads: [1, 2, 0, 0, 1, 2] literals: [0, 1, 2, 3, 4, 5] } }",
        solutions: &[&[1, 1, 1, 0, 0, 0], &[0, 0, 0, 1, 1, 1]],
        others: &[
            &[1, 0, 0, 0, 1, 1],
            &[1, 1, 1, 1, 0, 0],
            &[0, 0, 0, 1, 1, 0],
        ],
    },
    Row {
        domain: BITS,
        constraints: "constraints { circuit { tails: [0, 1, 2, 3, 1, 3] heads: [1, 0, 3, 2, 2, 0] literals: [0, 1, 2, 3, 4, 5] } }",
        solutions: &[&[1, 0, 1, 0, 1, 1]],
        others: &[&[1, 1, 1, 1, 0, 0]],
    },
    Row {
        domain: BITS,
        constraints: "constraints { circuit { tails: [0, 0, 1] heads: [1, 1, 0] literals: [0, 1, 2] } }",
        solutions: &[&[1, 0, 1], &[0, 1, 1]],
        others: &[&[1, 1, 1]],
    },
    Row {
        domain: BITS,
        constraints: "constraints { circuit { } }",
        solutions: &[&[]],
        others: &[],
    },
    Row {
        domain: WIDE,
        constraints: "constraints { inverse { f_direct: [0, 1, 2] f_inverse: [3, 4, 5] } }",
        solutions: &[&[1, 2, 0, 2, 0, 1]],
        others: &[
            &[1, 2, 0, 1, 2, 0],
            &[0, 0, 1, 0, 2, 1],
            &[0, 1, 3, 0, 1, 3],
        ],
    },
    Row {
        domain: WIDE,
        constraints: "constraints { inverse { f_direct: [-1, 1] f_inverse: [2, 3] } }",
        solutions: &[&[-1, 0, 1, 0]],
        others: &[&[1, 0, 1, 0]],
    },
];

/// An automaton goes from 0 by 5 to 1 or to 2, from 1 by 6 to 0, and from 2 by 7 to 1, which is final. Without
/// positions it ends where it starts.
static AUTOMATA: [Row; 4] = [
    Row {
        domain: WIDE,
        constraints: "constraints { automaton { final_states: 1 transition_tail: [0, 1, 0, 2] transition_head: [1, 0, 2, 1] \
            transition_label: [5, 6, 5, 7] vars: [0, 1, 2] } }",
        solutions: &[&[5, 6, 5]],
        others: &[&[5, 7, 6], &[6, 5, 6], &[5, 6, 7]],
    },
    Row {
        domain: WIDE,
        constraints: "constraints { automaton { final_states: 1 transition_tail: [0, 1, 0, 2] transition_head: [1, 0, 2, 1] \
            transition_label: [5, 6, 5, 7] vars: [0, 1] } }",
        solutions: &[&[5, 7]],
        others: &[&[5, 6]],
    },
    Row {
        domain: WIDE,
        constraints: "constraints { automaton { starting_state: 1 final_states: 1 transition_tail: 0 transition_head: 1 \
            transition_label: 5 } }",
        solutions: &[&[]],
        others: &[],
    },
    Row {
        domain: WIDE,
        constraints: "constraints { automaton { final_states: 1 transition_tail: 0 transition_head: 1 transition_label: 5 } }",
        solutions: &[],
        others: &[&[]],
    },
];

/// The level of a reservoir is kept at each time; changes of one time add up; and where literals are listed, an event
/// whose literal is false changes nothing.
static LEVELS: [Row; 6] = [
    Row {
        domain: WIDE,
        constraints: "constraints { reservoir { max_level: 1 time_exprs { } time_exprs { vars: 0 coeffs: 1 } \
            level_changes { offset: 1 } level_changes { offset: -1 } } }",
        solutions: &[&[3], &[0]],
        others: &[&[-1]],
    },
    Row {
        domain: BITS,
        constraints: "constraints { reservoir { max_level: 1 time_exprs { offset: 4 } time_exprs { offset: 2 } \
            level_changes { offset: 1 } level_changes { offset: 1 } active_literals: [0, 1] } }",
        solutions: &[&[1, 0], &[0, 1]],
        others: &[&[1, 1]],
    },
    Row {
        domain: WIDE,
        constraints: "constraints { reservoir { max_level: 1 time_exprs { offset: 3 } time_exprs { offset: 3 } \
            level_changes { offset: 2 } level_changes { offset: -1 } } }",
        solutions: &[&[]],
        others: &[],
    },
    Row {
        domain: WIDE,
        constraints: "constraints { reservoir { max_level: 1 time_exprs { offset: 3 } time_exprs { offset: 3 } \
            level_changes { offset: -1 } level_changes { offset: 2 } } }",
        solutions: &[&[]],
        others: &[],
    },
    Row {
        domain: WIDE,
        constraints: "constraints { reservoir { max_level: 1 time_exprs { offset: 3 } time_exprs { offset: 3 } \
            level_changes { offset: 2 } level_changes { } } }",
        solutions: &[],
        others: &[&[]],
    },
    Row {
        domain: BITS,
        constraints: "constraints { reservoir { max_level: 1 time_exprs { offset: 3 } level_changes { offset: 5 } active_literals: 0 } }",
        solutions: &[&[0]],
        others: &[&[1]],
    },
];

/// The text of a model of a row with so many variables.
fn text_of(alloc: Global, row: &Row, count: usize) -> Result<String, AllocError> {
    let mut text = String::new(alloc);
    for _ in 0..count {
        text.push_str("variables { domain: ")?;
        text.push_str(row.domain)?;
        text.push_str(" } ")?;
    }
    text.push_str(row.constraints)?;
    Ok(text)
}

/// Whether values are a solution of the model of a text.
fn is_solution(rt: &impl Abort, alloc: Global, text: &str, values: &[i64]) -> Result<bool, Fail> {
    let model = valid_model(rt, alloc, text)?;
    assert!(rt; values.len() == model.model().variables.len());
    Ok(satisfies(alloc, &model, values)?)
}

/// Asserts whether values are a solution of the model of a text.
pub fn assert_solution(
    rt: &impl Abort,
    alloc: Global,
    text: &str,
    values: &[i64],
    wanted: bool,
) -> Result<(), Fail> {
    let found = is_solution(rt, alloc, text, values)?;
    assert!(rt; found == wanted, "{values:?} of {text}");
    Ok(())
}

/// Asserts of assignments of a row whether they are solutions.
fn assert_solutions(
    rt: &impl Abort,
    alloc: Global,
    row: &Row,
    assignments: &[&[i64]],
    wanted: bool,
) -> Result<(), Fail> {
    for values in assignments {
        let text = text_of(alloc, row, values.len())?;
        assert_solution(rt, alloc, &text, values, wanted)?;
    }
    Ok(())
}

fn assert_rows(rt: &impl Abort, alloc: Global, rows: &[Row]) -> Result<(), Fail> {
    for row in rows {
        assert_solutions(rt, alloc, row, row.solutions, true)?;
        assert_solutions(rt, alloc, row, row.others, false)?;
    }
    Ok(())
}

#[test]
fn kinds_have_their_solutions(rt: HostRuntime) -> Result<(), Fail> {
    assert_rows(&rt, rt.alloc(), &NUMBERS)?;
    assert_rows(&rt, rt.alloc(), &LOOKUPS)?;
    assert_rows(&rt, rt.alloc(), &CIRCUITS)?;
    assert_rows(&rt, rt.alloc(), &AUTOMATA)?;
    assert_rows(&rt, rt.alloc(), &LEVELS)
}

/// Kinds at numbers where they fail. Variable 1 is 1, and constraint 1 is an interval of size 1.
static FAILING: [&str; 14] = [
    "int_div { target { offset: 1 } exprs { offset: 4 } exprs { offset: 2 } }",
    "int_mod { target { offset: 1 } exprs { offset: 4 } exprs { offset: 2 } }",
    "int_prod { target { offset: 1 } exprs { offset: 4 } exprs { offset: 2 } }",
    "lin_max { target { offset: 1 } exprs { offset: 4 } exprs { offset: 2 } }",
    "element { linear_index { } linear_target { offset: 1 } exprs { offset: 4 } exprs { offset: 2 } }",
    "all_diff { exprs { offset: 4 } exprs { offset: 4 } }",
    "table { exprs { offset: 4 } exprs { offset: 4 } values: [4, 2] }",
    "reservoir { max_level: 1 time_exprs { offset: 4 } time_exprs { offset: 4 } level_changes { offset: 1 } level_changes { offset: 1 } }",
    "automaton { final_states: 0 transition_tail: 0 transition_head: 0 transition_label: 5 exprs { offset: 4 } exprs { offset: 4 } }",
    "no_overlap { intervals: [1, 1] }",
    "no_overlap_2d { x_intervals: [1, 1] y_intervals: [1, 1] }",
    "inverse { f_direct: [1, 1] f_inverse: [1, 1] }",
    "circuit { tails: [0, 0] heads: [1, 1] literals: [1, 1] }",
    "cumulative { capacity { offset: 1 } intervals: [1, 1] demands { offset: 1 } demands { offset: 1 } }",
];

/// Asserts that a constraint which is in force where variable 0 is 1 fails there, and says nothing elsewhere.
fn assert_free_out_of_force(rt: &impl Abort, alloc: Global, kind: &str) -> Result<(), Fail> {
    let text = format!(in alloc;
        "variables {{ domain: [0, 1] }} variables {{ domain: [0, 1] }} constraints {{ enforcement_literal: 0 {kind} }} \
         constraints {{ interval {{ end {{ offset: 1 }} size {{ offset: 1 }} }} }}"
    )?;
    assert_solution(rt, alloc, &text, &[1, 1], false)?;
    assert_solution(rt, alloc, &text, &[0, 1], true)
}

fn assert_all_free(rt: &impl Abort, alloc: Global, kinds: &[&str]) -> Result<(), Fail> {
    for kind in kinds {
        assert_free_out_of_force(rt, alloc, kind)?;
    }
    Ok(())
}

#[test]
fn kinds_are_free_out_of_force(rt: HostRuntime) -> Result<(), Fail> {
    assert_all_free(&rt, rt.alloc(), &FAILING)
}
