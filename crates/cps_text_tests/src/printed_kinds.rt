//! Constraints of each kind, in an order of fields or a form that is not canonical, and what is written of them.
//!
//! The canonical text of each row follows from the printed form: newer fields, in the format's order, and nothing that
//! says nothing.
use crate::reading::model_of_kind;
use crate::rows::assert_text;
use cps_print::model_text;
use std::alloc::Global;
use std::process::Abort;
use std::test::Fail;

/// What is written of the model of one kind.
fn printed(rt: &impl Abort, alloc: Global, kind: &str) -> Result<String, Fail> {
    let model = model_of_kind(rt, alloc, kind)?;
    Ok(model_text(alloc, &model)?)
}

/// Asserts that this is what is written of a kind within its constraint.
fn assert_kind(rt: &impl Abort, alloc: Global, kind: &str, wanted: &str) -> Result<(), Fail> {
    let printed = printed(rt, alloc, kind)?;
    let wanted = format!(in alloc; "constraints {{\n{wanted}}}\n")?;
    assert_text(rt, kind, &printed, &wanted);
    Ok(())
}

/// Kinds, and what is written of each.
static KINDS: [(&str, &str); 25] = [
    ("", ""),
    ("bool_or { }", "  bool_or {\n  }\n"),
    (
        "bool_and { literals: 0 }",
        "  bool_and {\n    literals: [0]\n  }\n",
    ),
    (
        "at_most_one { literals: 0, literals: -1 }",
        "  at_most_one {\n    literals: [0, -1]\n  }\n",
    ),
    (
        "exactly_one { literals: -2 }",
        "  exactly_one {\n    literals: [-2]\n  }\n",
    ),
    (
        "bool_xor { literals: 0 }",
        "  bool_xor {\n    literals: [0]\n  }\n",
    ),
    (
        "int_div { exprs { vars: 1 coeffs: 1 } target { offset: -5 vars: 0 coeffs: 1 } exprs { offset: 2 } }",
        "  int_div {\n    target {\n      vars: [0]\n      coeffs: [1]\n      offset: -5\n    }\n    \
         exprs {\n      vars: [1]\n      coeffs: [1]\n    }\n    exprs {\n      offset: 2\n    }\n  }\n",
    ),
    // An empty target is left out, and an empty one of several expressions is written.
    (
        "int_mod { target { } exprs { coeffs: 1 vars: -1 } exprs { } }",
        "  int_mod {\n    exprs {\n      vars: [-1]\n      coeffs: [1]\n    }\n    exprs {\n    }\n  }\n",
    ),
    (
        "int_prod: { target: { offset: 1 } }",
        "  int_prod {\n    target {\n      offset: 1\n    }\n  }\n",
    ),
    (
        "lin_max { exprs: [{ vars: [0] coeffs: [1] }, { offset: 7 }] target { vars: 2 coeffs: 1 } }",
        "  lin_max {\n    target {\n      vars: [2]\n      coeffs: [1]\n    }\n    \
         exprs {\n      vars: [0]\n      coeffs: [1]\n    }\n    exprs {\n      offset: 7\n    }\n  }\n",
    ),
    (
        "element { exprs { vars: 1 coeffs: 1 } linear_target { offset: 7 } exprs { offset: 3 } linear_index { vars: 0 coeffs: 1 } }",
        "  element {\n    linear_index {\n      vars: [0]\n      coeffs: [1]\n    }\n    \
         linear_target {\n      offset: 7\n    }\n    \
         exprs {\n      vars: [1]\n      coeffs: [1]\n    }\n    exprs {\n      offset: 3\n    }\n  }\n",
    ),
    (
        "table { negated: true values: [1, -2] exprs { vars: 0 coeffs: 1 } exprs { offset: 4 } }",
        "  table {\n    exprs {\n      vars: [0]\n      coeffs: [1]\n    }\n    exprs {\n      offset: 4\n    }\n    \
         values: [1, -2]\n    negated: true\n  }\n",
    ),
    // A kind of which everything is left out is still written.
    ("table { negated: false }", "  table {\n  }\n"),
    (
        "all_diff { exprs [{ coeffs: 1 vars: 0 }, { offset: -3 }] }",
        "  all_diff {\n    exprs {\n      vars: [0]\n      coeffs: [1]\n    }\n    \
         exprs {\n      offset: -3\n    }\n  }\n",
    ),
    (
        "circuit { literals: [2, -1] heads: [1, 0] tails: 0 tails: 1 }",
        "  circuit {\n    tails: [0, 1]\n    heads: [1, 0]\n    literals: [2, -1]\n  }\n",
    ),
    (
        "interval { size { offset: 5 } end { offset: 5 vars: 0 coeffs: 1 } start { vars: 0 coeffs: 1 } }",
        "  interval {\n    start {\n      vars: [0]\n      coeffs: [1]\n    }\n    \
         end {\n      vars: [0]\n      coeffs: [1]\n      offset: 5\n    }\n    size {\n      offset: 5\n    }\n  }\n",
    ),
    (
        "no_overlap { intervals: 0 intervals: 2 }",
        "  no_overlap {\n    intervals: [0, 2]\n  }\n",
    ),
    (
        "cumulative { demands { vars: 4 coeffs: 1 } capacity { offset: 3 } intervals: [0, 1] demands { offset: 2 } }",
        "  cumulative {\n    capacity {\n      offset: 3\n    }\n    intervals: [0, 1]\n    \
         demands {\n      vars: [4]\n      coeffs: [1]\n    }\n    demands {\n      offset: 2\n    }\n  }\n",
    ),
    (
        "inverse { f_inverse: [2, 3] f_direct: [0, 1] }",
        "  inverse {\n    f_direct: [0, 1]\n    f_inverse: [2, 3]\n  }\n",
    ),
    // The state 0 to start in is left out.
    (
        "automaton { exprs { vars: 0 coeffs: 1 } transition_label: [5, -6] transition_head: [1, 2] transition_tail: [0, 1] \
         final_states: 1 starting_state: 0 exprs { offset: 5 } }",
        "  automaton {\n    final_states: [1]\n    transition_tail: [0, 1]\n    transition_head: [1, 2]\n    \
         transition_label: [5, -6]\n    exprs {\n      vars: [0]\n      coeffs: [1]\n    }\n    \
         exprs {\n      offset: 5\n    }\n  }\n",
    ),
    (
        "reservoir { active_literals: [2, -4] max_level: 4 min_level: -1 level_changes { vars: 1 coeffs: 1 } \
         level_changes { offset: -2 } time_exprs { vars: 0 coeffs: 1 } time_exprs { offset: 9 } }",
        "  reservoir {\n    min_level: -1\n    max_level: 4\n    \
         time_exprs {\n      vars: [0]\n      coeffs: [1]\n    }\n    time_exprs {\n      offset: 9\n    }\n    \
         level_changes {\n      vars: [1]\n      coeffs: [1]\n    }\n    level_changes {\n      offset: -2\n    }\n    \
         active_literals: [2, -4]\n  }\n",
    ),
    (
        "no_overlap_2d { y_intervals: [2, 3] x_intervals: [0, 1] }",
        "  no_overlap_2d {\n    x_intervals: [0, 1]\n    y_intervals: [2, 3]\n  }\n",
    ),
    // The older form of three kinds.
    (
        "element { vars: [1, 2] index: 0 target: -1 }",
        "  element {\n    linear_index {\n      vars: [0]\n      coeffs: [1]\n    }\n    \
         linear_target {\n      vars: [-1]\n      coeffs: [1]\n    }\n    \
         exprs {\n      vars: [1]\n      coeffs: [1]\n    }\n    \
         exprs {\n      vars: [2]\n      coeffs: [1]\n    }\n  }\n",
    ),
    (
        "table { negated: 1 values: 3 vars: 0 }",
        "  table {\n    exprs {\n      vars: [0]\n      coeffs: [1]\n    }\n    values: [3]\n    negated: true\n  }\n",
    ),
    (
        "automaton { vars: 3 final_states: 0 starting_state: 2 }",
        "  automaton {\n    starting_state: 2\n    final_states: [0]\n    \
         exprs {\n      vars: [3]\n      coeffs: [1]\n    }\n  }\n",
    ),
];

fn assert_kinds(rt: &impl Abort, alloc: Global, rows: &[(&str, &str)]) -> Result<(), Fail> {
    for (kind, wanted) in rows {
        assert_kind(rt, alloc, kind, wanted)?;
    }
    Ok(())
}

#[test]
fn kinds(rt: HostRuntime) -> Result<(), Fail> {
    assert_kinds(&rt, rt.alloc(), &KINDS)
}
