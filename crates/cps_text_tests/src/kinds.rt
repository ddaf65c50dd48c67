//! Documents with each kind of constraint and with assumptions that are read as models, and those that are refused.
//!
//! What was read is shown in a notation of its own, and not by the printer, which would make the same mistakes; a row
//! has the text and what it is to be.
use crate::reading::model_of_kind;
use crate::refusals::assert_refusals;
use crate::rows::assert_text;
use cps_model::{Exprs, Kind, LinearExpr, Listed};
use std::alloc::Global;
use std::fmt::Write;
use std::process::Abort;
use std::test::Fail;

/// Appends an expression: its references, its coefficients and its offset.
fn put_expression(text: &mut String, e: &LinearExpr) -> Result<(), Fail> {
    let (vars, coeffs, offset) = (e.vars.as_slice(), e.coeffs.as_slice(), e.offset);
    write!(text, "{vars:?}{coeffs:?}{offset}")?;
    Ok(())
}

/// Appends expressions, each with a semicolon behind it.
fn put_expressions(text: &mut String, list: &Listed<LinearExpr>) -> Result<(), Fail> {
    for e in list.as_slice() {
        put_expression(text, e)?;
        text.push_str(";")?;
    }
    Ok(())
}

/// Appends expressions of which some may be plain references, each with a semicolon behind it.
fn put_all(text: &mut String, exprs: &Exprs) -> Result<(), Fail> {
    let (written, references) = exprs.parts();
    for e in written {
        put_expression(text, e)?;
        text.push_str(";")?;
    }
    for reference in references {
        write!(text, "[{reference}][1]0;")?;
    }
    Ok(())
}

/// Appends what a kind of a target and expressions holds.
fn put_argument(
    text: &mut String,
    target: &LinearExpr,
    exprs: &Listed<LinearExpr>,
) -> Result<(), Fail> {
    put_expression(text, target)?;
    text.push_str(" of ")?;
    put_expressions(text, exprs)
}

/// Appends what a kind of lists and numbers holds.
fn put_lists(text: &mut String, kind: &Kind) -> Result<(), Fail> {
    match kind {
        Kind::Circuit {
            tails,
            heads,
            literals,
        } => {
            let (a, b, c) = (tails.as_slice(), heads.as_slice(), literals.as_slice());
            write!(text, "{a:?}{b:?}{c:?}")?;
        }
        Kind::NoOverlap(intervals) => {
            let a = intervals.as_slice();
            write!(text, "{a:?}")?;
        }
        Kind::Inverse { direct, inverse } => {
            let (a, b) = (direct.as_slice(), inverse.as_slice());
            write!(text, "{a:?}{b:?}")?;
        }
        Kind::NoOverlap2d { x, y } => {
            let (a, b) = (x.as_slice(), y.as_slice());
            write!(text, "{a:?}{b:?}")?;
        }
        _ => return Err(Fail::from("another kind")),
    }
    Ok(())
}

/// Appends what a kind of times holds.
fn put_times(text: &mut String, kind: &Kind) -> Result<(), Fail> {
    match kind {
        Kind::Interval { start, end, size } => {
            put_expression(text, start)?;
            text.push_str(" ")?;
            put_expression(text, end)?;
            text.push_str(" ")?;
            put_expression(text, size)
        }
        Kind::Cumulative {
            capacity,
            intervals,
            demands,
        } => {
            put_expression(text, capacity)?;
            let intervals = intervals.as_slice();
            write!(text, " {intervals:?} ")?;
            put_expressions(text, demands)
        }
        Kind::Reservoir {
            min,
            max,
            times,
            changes,
            active,
        } => {
            write!(text, "{min} {max} ")?;
            put_expressions(text, times)?;
            text.push_str(" ")?;
            put_expressions(text, changes)?;
            let active = active.as_slice();
            write!(text, " {active:?}")?;
            Ok(())
        }
        _ => put_lists(text, kind),
    }
}

/// Appends what a kind of values and their numbers holds.
fn put_lookups(text: &mut String, kind: &Kind) -> Result<(), Fail> {
    match kind {
        Kind::Element {
            index,
            target,
            exprs,
        } => {
            put_expression(text, index)?;
            text.push_str(" ")?;
            put_expression(text, target)?;
            text.push_str(" of ")?;
            put_all(text, exprs)
        }
        Kind::Table {
            exprs,
            values,
            negated,
        } => {
            put_all(text, exprs)?;
            let values = values.as_slice();
            write!(text, " {values:?} {negated}")?;
            Ok(())
        }
        Kind::Automaton {
            start,
            finals,
            tails,
            heads,
            labels,
            exprs,
        } => {
            let (a, b) = (finals.as_slice(), tails.as_slice());
            let (c, d) = (heads.as_slice(), labels.as_slice());
            write!(text, "{start} {a:?}{b:?}{c:?}{d:?} ")?;
            put_all(text, exprs)
        }
        _ => put_times(text, kind),
    }
}

/// Appends what a kind holds.
fn put_kind(text: &mut String, kind: &Kind) -> Result<(), Fail> {
    match kind {
        Kind::IntDiv { target, exprs } => put_argument(text, target, exprs),
        Kind::IntMod { target, exprs } => put_argument(text, target, exprs),
        Kind::IntProd { target, exprs } => put_argument(text, target, exprs),
        Kind::LinMax { target, exprs } => put_argument(text, target, exprs),
        Kind::AllDiff(exprs) => put_expressions(text, exprs),
        _ => put_lookups(text, kind),
    }
}

static ARITHMETIC: &str = "\
[0][1]0 of [1][2]3;[][]-4;: int_div { exprs { vars: 1 coeffs: 2 offset: 3 } target { vars: 0 coeffs: 1 } exprs { offset: -4 } }
[][]7 of : int_mod { target { offset: 7 } }
[][]0 of [2][1]0;: int_prod { exprs { vars: 2 coeffs: 1 } }
[-1][1]0 of [][]1;[][]2;: lin_max { target: { vars: [-1] coeffs: [1] } exprs: [ { offset: 1 }, { offset: 2 } ] }
[3][1]0;[][]5;: all_diff { exprs { vars: 3 coeffs: 1 } exprs { offset: 5 } }
";

static LISTS: &str = "\
[0][1]0 [1][1]0 of [][]5;[2][1]0;: element { linear_index { vars: 0 coeffs: 1 } \
linear_target { vars: 1 coeffs: 1 } exprs { offset: 5 } exprs { vars: 2 coeffs: 1 } }
[][]0 [][]0 of : element { }
[4][1]0 [5][1]0 of [6][1]0;[-8][1]0;: element { vars: 6 target: 5 vars: [-8] index: 4 }
[0][1]0 [0][1]0 of [1][1]0;: element { vars: [1] }
[0][1]0 [0][1]0 of : element { vars: [] }
[0][1]0 [2][1]0 of : element { target: 2 }
[0][1]0;[][]1; [7, 8] true: table { exprs { vars: 0 coeffs: 1 } values: [7, 8] exprs { offset: 1 } negated: true }
[0][1]0;[1][1]0; [-7] false: table { vars: [0, 1] values: -7 negated: f }
 [] true: table { negated: 0x1 }
 [] false: table { negated: 00 }
[0, 1][1, 0][2, -3]: circuit { literals: [2, -3] heads: [1, 0] tails: [0, 1] }
[0, 1][1, 0]: inverse { f_inverse: [1, 0] f_direct: 0 f_direct: 1 }
-1 [2][0][1][3] [5][1]0;: automaton { starting_state: -1 final_states: 2 transition_tail: 0 transition_head: 1 transition_label: 3 vars: 5 }
0 [][][][] [][]6;: automaton { exprs { offset: 6 } }
";

static TIMES: &str = "\
[0][1]0 [0][1]3 [][]3: interval { start { vars: 0 coeffs: 1 } end { vars: 0 coeffs: 1 offset: 3 } size { offset: 3 } }
[][]0 [][]0 [][]0: interval { }
[0, 2]: no_overlap { intervals: [0, 2] }
[][]9 [0, 1] [][]2;[3][1]0;: cumulative { demands { offset: 2 } intervals: [0, 1] demands { vars: 3 coeffs: 1 } capacity { offset: 9 } }
-1 4 [][]2; [][]-1; [0]: reservoir { min_level: -1 max_level: 4 time_exprs { offset: 2 } level_changes { offset: -1 } active_literals: 0 }
[0, 1][2, 3]: no_overlap_2d { x_intervals: [0, 1] y_intervals: 2 y_intervals: 3 }
";

/// What the kind that a field gives holds.
fn held(rt: &impl Abort, alloc: Global, field: &str) -> Result<String, Fail> {
    let model = model_of_kind(rt, alloc, field)?;
    let mut text = String::new(alloc);
    for constraint in model.constraints.as_slice() {
        put_kind(&mut text, &constraint.kind)?;
    }
    Ok(text)
}

/// Asserts that a line is what a kind holds, and the field that gives it.
fn assert_held(rt: &impl Abort, alloc: Global, line: &str) -> Result<(), Fail> {
    let (wanted, field) = line.split_once(": ").ok_or("no field")?;
    let held = held(rt, alloc, field)?;
    assert_text(rt, field, &held, wanted);
    Ok(())
}

fn assert_lines_held(rt: &impl Abort, alloc: Global, lines: &str) -> Result<(), Fail> {
    for line in lines.lines() {
        assert_held(rt, alloc, line)?;
    }
    Ok(())
}

#[test]
fn reads_kinds(rt: HostRuntime) -> Result<(), Fail> {
    assert_lines_held(&rt, rt.alloc(), ARITHMETIC)?;
    assert_lines_held(&rt, rt.alloc(), LISTS)?;
    assert_lines_held(&rt, rt.alloc(), TIMES)
}

static FAULTS: &str = "\
MixedForms at 41: constraints { element { linear_index { } vars: 0 } }
MixedForms at 33: constraints { element { index: 0 exprs { } } }
MixedForms at 34: constraints { element { vars: [ ] linear_target { } } }
MixedForms at 32: constraints { table { exprs { } vars: 0 } }
MixedForms at 34: constraints { automaton { vars: 0 exprs { } } }
Repeated at 33: constraints { element { index: 0 index: 1 } }
Repeated at 42: constraints { element { linear_target { } linear_target { } } }
Repeated at 36: constraints { table { negated: true negated: true } }
Repeated at 35: constraints { interval { start { } start { } } }
Repeated at 26: constraints { circuit { } circuit { } }
TwoKinds at 26: constraints { circuit { } table { } }
TwoKinds at 26: constraints { lin_max { } int_div { } }
WrongKind at 31: constraints { table { negated: 2 } }
WrongKind at 31: constraints { table { negated: -1 } }
WrongKind at 31: constraints { table { negated: - true } }
WrongKind at 31: constraints { table { negated: TRUE } }
WrongKind at 31: constraints { table { negated: 1.0 } }
WrongKind at 31: constraints { table { negated: \"t\" } }
WrongKind at 31: constraints { table { negated: [true] } }
WrongKind at 31: constraints { table { negated: { } } }
WrongKind at 31: constraints { element { index: [0] } }
WrongKind at 38: constraints { element { linear_index: 0 } }
WrongKind at 31: constraints { interval { start [ { } ] } }
WrongKind at 31: constraints { circuit { tails: { } } }
OutOfRange at 31: constraints { element { index: 2147483648 } }
OutOfRange at 42: constraints { automaton { starting_state: 9223372036854775808 } }
UnknownField at 25: constraints { interval { presence: 0 } }
Unsupported at 14: constraints { routes { } }
Unsupported at 14: constraints { dummy_constraint { } }
WrongKind at 12: assumptions { }
WrongKind at 13: assumptions: { }
WrongKind at 17: assumptions: [0, 1.0]
OutOfRange at 13: assumptions: 2147483648
Unsupported at 0: symmetry { }
";

#[test]
fn refuses_fields_of_kinds(rt: HostRuntime) -> Result<(), Fail> {
    assert_refusals(&rt, rt.alloc(), FAULTS)
}
