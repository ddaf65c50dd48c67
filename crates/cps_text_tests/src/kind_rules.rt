//! Models against the rules that single kinds have, and against those rules of all kinds that their lists and literals
//! keep. Each line of a table is the rule that a constraint breaks first, or `-`, the domains of the variables, and the
//! constraint, which is the first of its model.
use crate::rows::assert_so;
use crate::rules::broken;
use cps_model::Place;
use std::alloc::{AllocError, Global};
use std::process::Abort;
use std::test::Fail;

/// Divisors: no value of the domain gives 0. A reference below 0 is its variable negated, and two terms of one variable
/// are two.
const DIVISORS: &str = "\
8 | [-3, 3] | int_div { exprs { offset: 4 } exprs { vars: 0 coeffs: 1 } }
- | [-1, -1, 1, 1] | int_div { exprs { offset: 4 } exprs { vars: 0 coeffs: 1 } }
- | [-3, 3] | int_div { exprs { offset: 4 } exprs { vars: 0 coeffs: 2 offset: 1 } }
8 | [-3, 3] | int_div { exprs { offset: 4 } exprs { vars: 0 coeffs: 2 offset: -4 } }
- | [-3, 3] | int_div { exprs { offset: 4 } exprs { vars: 0 coeffs: 0 offset: 5 } }
8 | [-3, 3] | int_div { exprs { offset: 4 } exprs { vars: 0 coeffs: 0 } }
8 | [-3, 3] | int_div { exprs { offset: 4 } exprs { } }
8 | [3, 3] | int_div { exprs { offset: 4 } exprs { vars: -1 coeffs: 2 offset: 6 } }
- | [-3, -3] | int_div { exprs { offset: 4 } exprs { vars: -1 coeffs: 2 offset: 6 } }
8 | [-3, -3] | int_div { exprs { offset: 4 } exprs { vars: -1 coeffs: 1 offset: -3 } }
8 | [0, 3] | int_div { exprs { offset: 4 } exprs { vars: [0, 0] coeffs: [1, -1] offset: 1 } }
- | [0, 3] | int_div { exprs { offset: 4 } exprs { vars: [0, 0] coeffs: [1, 1] offset: 1 } }
";

/// Moduli are at least 1. Factors count for at least 1 each, and their product stays below the limit.
const FACTORS: &str = "\
9 | [0, 3] | int_mod { exprs { offset: 4 } exprs { vars: 0 coeffs: 1 } }
- | [1, 3] | int_mod { exprs { offset: 4 } exprs { vars: 0 coeffs: 1 } }
9 | [-3, -3] | int_mod { exprs { offset: 4 } exprs { vars: 0 coeffs: 1 } }
- | [-1, 1] and [2305843009213693952, 2305843009213693952] | int_prod { exprs { vars: 0 coeffs: 1 } exprs { vars: 1 coeffs: 1 } }
10 | [2147483648, 2147483648] and [2147483648, 2147483648] | int_prod { exprs { vars: 0 coeffs: 1 } exprs { vars: 1 coeffs: 1 } }
10 | [-2147483648, 0] and [2147483648, 2147483648] | int_prod { exprs { vars: 0 coeffs: 1 } exprs { vars: 1 coeffs: 1 } }
- | [0, 0] and [0, 4611686018427387903] | int_prod { exprs { vars: 0 coeffs: 1 } exprs { vars: 1 coeffs: 1 } }
";

/// How many expressions quotients, rests and greatest values have.
const OPERANDS: &str = "\
13 |  | int_div { }
13 |  | int_mod { }
13 |  | lin_max { }
13 |  | int_div { exprs { offset: 1 } }
13 |  | int_mod { exprs { offset: 1 } }
- |  | lin_max { exprs { offset: 1 } }
- |  | int_div { exprs { offset: 1 } exprs { offset: 1 } }
- |  | int_mod { exprs { offset: 1 } exprs { offset: 1 } }
- |  | lin_max { exprs { offset: 1 } exprs { offset: 1 } }
13 |  | int_div { exprs { offset: 1 } exprs { offset: 1 } exprs { offset: 1 } }
13 |  | int_mod { exprs { offset: 1 } exprs { offset: 1 } exprs { offset: 1 } }
- |  | lin_max { exprs { offset: 1 } exprs { offset: 1 } exprs { offset: 1 } }
";

/// Demands are not negative, and their rule comes before that of the indices. Only constraint 1 is an interval, and it
/// stands behind the one that names it.
const INTERVALS: &str = "\
11 | [-1, 1] | cumulative { capacity { } intervals: 1 demands { vars: 0 coeffs: 1 } }
- | [0, 1] | cumulative { capacity { } intervals: 1 demands { vars: 0 coeffs: 1 } }
11 | [-1, 1] | cumulative { capacity { } intervals: 9 demands { vars: 0 coeffs: 1 } }
12 | [0, 1] | cumulative { capacity { } intervals: 9 demands { vars: 0 coeffs: 1 } }
12 |  | no_overlap { intervals: -1 }
12 |  | no_overlap { intervals: 0 }
- |  | no_overlap { intervals: 1 }
12 |  | no_overlap { intervals: 2 }
12 |  | no_overlap { intervals: 3 }
12 |  | no_overlap_2d { x_intervals: -1 y_intervals: 1 }
12 |  | no_overlap_2d { x_intervals: 0 y_intervals: 1 }
- |  | no_overlap_2d { x_intervals: 1 y_intervals: 1 }
12 |  | no_overlap_2d { x_intervals: 2 y_intervals: 1 }
12 |  | no_overlap_2d { x_intervals: 3 y_intervals: 1 }
12 |  | no_overlap_2d { x_intervals: 1 y_intervals: -1 }
12 |  | no_overlap_2d { x_intervals: 1 y_intervals: 0 }
12 |  | no_overlap_2d { x_intervals: 1 y_intervals: 2 }
12 |  | no_overlap_2d { x_intervals: 1 y_intervals: 3 }
";

/// Rows of a table are whole, and there are none without columns. A circuit has arcs at each of its nodes.
const ARCS: &str = "\
- |  | table { }
14 |  | table { values: 1 }
- |  | table { exprs { offset: 1 } exprs { offset: 1 } values: [1, 1] }
5 |  | table { exprs { offset: 1 } exprs { offset: 1 } values: [1, 1, 1] }
- | [0, 1] and [0, 2] | circuit { tails: [0, 1] heads: [0, 1] literals: [0, 0] }
15 | [0, 1] and [0, 2] | circuit { tails: [0, 0] heads: [0, 0] literals: [0, 0] }
15 | [0, 1] and [0, 2] | circuit { tails: [0, -1] heads: [0, 1] literals: [0, 0] }
15 | [0, 1] and [0, 2] | circuit { tails: [0, 1] heads: [0, -1] literals: [0, 0] }
5 | [0, 1] and [0, 2] | circuit { tails: [0, 1] heads: [0] literals: [0, 0] }
5 | [0, 1] and [0, 2] | circuit { tails: [0, 1] heads: [0, 1] literals: [0] }
4 | [0, 1] and [0, 2] | circuit { tails: [0, 1] heads: [0, 1] literals: [0, 1] }
3 | [0, 1] and [0, 2] | circuit { tails: [0, 1] heads: [0, 1] literals: [0, 2] }
";

/// The level 0 is allowed.
const LEVELS: &str = "\
- | [0, 1] and [0, 2] | reservoir { time_exprs { } time_exprs { } level_changes { offset: 1 } level_changes { offset: 1 } }
19 | [0, 1] and [0, 2] | reservoir { min_level: 1 max_level: 2 time_exprs { } time_exprs { } level_changes { offset: 1 } level_changes { offset: 1 } }
19 | [0, 1] and [0, 2] | reservoir { min_level: -2 max_level: -1 time_exprs { } time_exprs { } level_changes { offset: 1 } level_changes { offset: 1 } }
5 | [0, 1] and [0, 2] | reservoir { time_exprs { } time_exprs { } level_changes { offset: 1 } }
5 | [0, 1] and [0, 2] | reservoir { time_exprs { } time_exprs { } level_changes { offset: 1 } level_changes { offset: 1 } active_literals: 0 }
- | [0, 1] and [0, 2] | reservoir { time_exprs { } time_exprs { } level_changes { offset: 1 } level_changes { offset: 1 } active_literals: [0, 0] }
4 | [0, 1] and [0, 2] | reservoir { time_exprs { } time_exprs { } level_changes { offset: 1 } level_changes { offset: 1 } active_literals: [0, 1] }
";

/// Lists of none, one and two beside lists of one, and those of transitions, each too long in turn.
const LISTS: &str = "\
5 |  | no_overlap_2d { y_intervals: 1 }
- |  | no_overlap_2d { x_intervals: 1 y_intervals: 1 }
5 |  | no_overlap_2d { x_intervals: [1, 1] y_intervals: 1 }
5 |  | cumulative { capacity { offset: 1 } demands { offset: 1 } }
- |  | cumulative { capacity { offset: 1 } intervals: 1 demands { offset: 1 } }
5 |  | cumulative { capacity { offset: 1 } intervals: [1, 1] demands { offset: 1 } }
5 | [0, 1] and [0, 1] | inverse { f_inverse: 0 }
- | [0, 1] and [0, 1] | inverse { f_direct: 1 f_inverse: 0 }
5 | [0, 1] and [0, 1] | inverse { f_direct: [1, 1] f_inverse: 0 }
- |  | automaton { final_states: 1 transition_tail: 1 transition_head: 1 transition_label: 1 exprs { offset: 1 } }
5 |  | automaton { final_states: 1 transition_tail: [1, 1] transition_head: 1 transition_label: 1 exprs { offset: 1 } }
5 |  | automaton { final_states: 1 transition_tail: 1 transition_head: [1, 1] transition_label: 1 exprs { offset: 1 } }
5 |  | automaton { final_states: 1 transition_tail: 1 transition_head: 1 transition_label: [1, 1] exprs { offset: 1 } }
";

/// The rule with the least number comes first.
const ORDERED: &str = "\
5 | [0, 1] | int_div { target { vars: 0 coeffs: 1 } exprs { vars: 0 } }
3 |  | enforcement_literal: 7 table { values: 1 }
";

static TABLES: [&str; 8] = [
    DIVISORS, FACTORS, OPERANDS, INTERVALS, ARCS, LEVELS, LISTS, ORDERED,
];

/// Appends variables of these domains.
fn push_variables(text: &mut String, domains: &str) -> Result<(), AllocError> {
    for domain in domains.split(" and ") {
        if !domain.is_empty() {
            text.push_str("variables { domain: ")?;
            text.push_str(domain)?;
            text.push_str(" } ")?;
        }
    }
    Ok(())
}

/// The text of a model with variables of these domains, a constraint, an interval and a constraint of no kind.
fn text_of(alloc: Global, domains: &str, constraint: &str) -> Result<String, AllocError> {
    let mut text = String::new(alloc);
    push_variables(&mut text, domains)?;
    text.push_str("constraints { ")?;
    text.push_str(constraint)?;
    text.push_str(" } constraints { interval { } } constraints { }")?;
    Ok(text)
}

/// Asserts that the constraint of a line breaks its rule.
fn assert_line(rt: &impl Abort, alloc: Global, line: &str) -> Result<(), Fail> {
    let (rule, rest) = line.split_once(" | ").ok_or("no domains")?;
    let (domains, constraint) = rest.split_once(" | ").ok_or("no constraint")?;
    let text = text_of(alloc, domains, constraint)?;
    let wanted = rule
        .parse::<u8>()
        .ok()
        .map(|rule| (rule, Place::Constraint(0)));
    assert_so(rt, line, broken(rt, alloc, &text)? == wanted);
    Ok(())
}

fn assert_lines(rt: &impl Abort, alloc: Global, lines: &str) -> Result<(), Fail> {
    for line in lines.lines() {
        assert_line(rt, alloc, line)?;
    }
    Ok(())
}

fn assert_tables(rt: &impl Abort, alloc: Global, tables: &[&str]) -> Result<(), Fail> {
    for table in tables {
        assert_lines(rt, alloc, table)?;
    }
    Ok(())
}

#[test]
fn kinds_keep_their_rules(rt: HostRuntime) -> Result<(), Fail> {
    assert_tables(&rt, rt.alloc(), &TABLES)
}
