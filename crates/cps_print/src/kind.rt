//! The lines of what a constraint demands.
//!
//! A function for each message, and one match over the kinds that chooses it. Every function appends to one text, and
//! leaves out what says nothing, as the layout states it; kinds with one message (`BoolOr` to `BoolXor`, the arithmetic
//! ones) share a function and differ in the field's name. Fields of an older form are never written: what they say is
//! written in the newer one.
ghost use Rattle.std.specs.Prelude.{◌≡◌, ◌++◌, OnOk, codes, string_bytes};
ghost use Rattle.cps_print.specs.Layout.{text_of};
ghost use Rattle.cps_print.specs.Fields.{message_field};
ghost use Rattle.cps_print.specs.Kinds.{flag_name, printed_literals, printed_linear, printed_arithmetic, printed_element, printed_table, printed_all_diff, printed_circuit, printed_interval, printed_no_overlap, printed_cumulative, printed_inverse, printed_automaton, printed_reservoir, printed_no_overlap_2d, kind_field};

use crate::expression::{put_all, put_expression_field, put_expressions};
use crate::layout::{
    close_message, open_message, put_list_field, put_number_field, put_word_field,
};
use cps_model::{Exprs, Kind, LinearExpr};
use std::alloc::AllocError;

fn put_literals(text: &mut String, name: &str, literals: &[i32]) -> Result<(), AllocError>
    ensures { OnOk result (string_bytes text.new ≡ string_bytes text.old
        ++ text_of 1 (message_field name.now (printed_literals literals.now))) }
{
    open_message(text, 1, name)?;
    put_list_field(text, 2, "literals", literals)?;
    close_message(text, 1)
}

fn put_linear(
    text: &mut String,
    vars: &[i32],
    coeffs: &[i64],
    domain: &[i64],
) -> Result<(), AllocError>
    ensures { OnOk result (string_bytes text.new ≡ string_bytes text.old
        ++ text_of 1 (message_field (codes "linear") (printed_linear vars.now coeffs.now domain.now))) }
{
    open_message(text, 1, "linear")?;
    put_list_field(text, 2, "vars", vars)?;
    put_list_field(text, 2, "coeffs", coeffs)?;
    put_list_field(text, 2, "domain", domain)?;
    close_message(text, 1)
}

/// Appends a quotient, a remainder, a product or a greatest value.
fn put_arithmetic(
    text: &mut String,
    name: &str,
    target: &LinearExpr,
    exprs: &[LinearExpr],
) -> Result<(), AllocError>
    ensures { OnOk result (string_bytes text.new ≡ string_bytes text.old
        ++ text_of 1 (message_field name.now (printed_arithmetic target.now exprs.now))) }
{
    open_message(text, 1, name)?;
    put_expression_field(text, 2, "target", target)?;
    put_expressions(text, 2, "exprs", exprs)?;
    close_message(text, 1)
}

fn put_element(
    text: &mut String,
    index: &LinearExpr,
    target: &LinearExpr,
    exprs: &Exprs,
) -> Result<(), AllocError>
    ensures { OnOk result (string_bytes text.new ≡ string_bytes text.old
        ++ text_of 1 (message_field (codes "element") (printed_element index.now target.now exprs.now))) }
{
    open_message(text, 1, "element")?;
    put_expression_field(text, 2, "linear_index", index)?;
    put_expression_field(text, 2, "linear_target", target)?;
    put_all(text, 2, "exprs", exprs)?;
    close_message(text, 1)
}

/// The word for a flag; the empty word for one that is false.
fn flag_name(flag: bool) -> &'static str
    ensures { result.now ≡ flag_name flag }
{
    if flag { "true" } else { "" }
}

fn put_table(
    text: &mut String,
    exprs: &Exprs,
    values: &[i64],
    negated: bool,
) -> Result<(), AllocError>
    ensures { OnOk result (string_bytes text.new ≡ string_bytes text.old
        ++ text_of 1 (message_field (codes "table") (printed_table exprs.now values.now negated))) }
{
    open_message(text, 1, "table")?;
    put_all(text, 2, "exprs", exprs)?;
    put_list_field(text, 2, "values", values)?;
    put_word_field(text, 2, "negated", flag_name(negated))?;
    close_message(text, 1)
}

fn put_all_diff(text: &mut String, exprs: &[LinearExpr]) -> Result<(), AllocError>
    ensures { OnOk result (string_bytes text.new ≡ string_bytes text.old
        ++ text_of 1 (message_field (codes "all_diff") (printed_all_diff exprs.now))) }
{
    open_message(text, 1, "all_diff")?;
    put_expressions(text, 2, "exprs", exprs)?;
    close_message(text, 1)
}

fn put_circuit(
    text: &mut String,
    tails: &[i32],
    heads: &[i32],
    literals: &[i32],
) -> Result<(), AllocError>
    ensures { OnOk result (string_bytes text.new ≡ string_bytes text.old
        ++ text_of 1 (message_field (codes "circuit") (printed_circuit tails.now heads.now literals.now))) }
{
    open_message(text, 1, "circuit")?;
    put_list_field(text, 2, "tails", tails)?;
    put_list_field(text, 2, "heads", heads)?;
    put_list_field(text, 2, "literals", literals)?;
    close_message(text, 1)
}

fn put_interval(
    text: &mut String,
    start: &LinearExpr,
    end: &LinearExpr,
    size: &LinearExpr,
) -> Result<(), AllocError>
    ensures { OnOk result (string_bytes text.new ≡ string_bytes text.old
        ++ text_of 1 (message_field (codes "interval") (printed_interval start.now end.now size.now))) }
{
    open_message(text, 1, "interval")?;
    put_expression_field(text, 2, "start", start)?;
    put_expression_field(text, 2, "end", end)?;
    put_expression_field(text, 2, "size", size)?;
    close_message(text, 1)
}

fn put_no_overlap(text: &mut String, intervals: &[i32]) -> Result<(), AllocError>
    ensures { OnOk result (string_bytes text.new ≡ string_bytes text.old
        ++ text_of 1 (message_field (codes "no_overlap") (printed_no_overlap intervals.now))) }
{
    open_message(text, 1, "no_overlap")?;
    put_list_field(text, 2, "intervals", intervals)?;
    close_message(text, 1)
}

fn put_cumulative(
    text: &mut String,
    capacity: &LinearExpr,
    intervals: &[i32],
    demands: &[LinearExpr],
) -> Result<(), AllocError>
    ensures { OnOk result (string_bytes text.new ≡ string_bytes text.old
        ++ text_of 1 (message_field (codes "cumulative") (printed_cumulative capacity.now intervals.now demands.now))) }
{
    open_message(text, 1, "cumulative")?;
    put_expression_field(text, 2, "capacity", capacity)?;
    put_list_field(text, 2, "intervals", intervals)?;
    put_expressions(text, 2, "demands", demands)?;
    close_message(text, 1)
}

fn put_inverse(text: &mut String, direct: &[i32], inverse: &[i32]) -> Result<(), AllocError>
    ensures { OnOk result (string_bytes text.new ≡ string_bytes text.old
        ++ text_of 1 (message_field (codes "inverse") (printed_inverse direct.now inverse.now))) }
{
    open_message(text, 1, "inverse")?;
    put_list_field(text, 2, "f_direct", direct)?;
    put_list_field(text, 2, "f_inverse", inverse)?;
    close_message(text, 1)
}

/// The transitions of an automaton, each by its place in three lists.
#[derive(Drop)]
struct Transitions<'a> {
    tails: &'a [i64],
    heads: &'a [i64],
    labels: &'a [i64],
}

fn put_automaton(
    text: &mut String,
    start: i64,
    finals: &[i64],
    transitions: &Transitions,
    exprs: &Exprs,
) -> Result<(), AllocError>
    ensures { OnOk result (string_bytes text.new ≡ string_bytes text.old
        ++ text_of 1 (message_field (codes "automaton") (printed_automaton start finals.now
        transitions.now.tails.now transitions.now.heads.now transitions.now.labels.now exprs.now))) }
{
    open_message(text, 1, "automaton")?;
    put_number_field(text, 2, "starting_state", start)?;
    put_list_field(text, 2, "final_states", finals)?;
    put_list_field(text, 2, "transition_tail", transitions.tails)?;
    put_list_field(text, 2, "transition_head", transitions.heads)?;
    put_list_field(text, 2, "transition_label", transitions.labels)?;
    put_all(text, 2, "exprs", exprs)?;
    close_message(text, 1)
}

/// Appends a reservoir with its least and its greatest level.
fn put_reservoir(
    text: &mut String,
    levels: (i64, i64),
    times: &[LinearExpr],
    changes: &[LinearExpr],
    active: &[i32],
) -> Result<(), AllocError>
    ensures { OnOk result (string_bytes text.new ≡ string_bytes text.old
        ++ text_of 1 (message_field (codes "reservoir")
        (printed_reservoir levels.0 levels.1 times.now changes.now active.now))) }
{
    open_message(text, 1, "reservoir")?;
    put_number_field(text, 2, "min_level", levels.0)?;
    put_number_field(text, 2, "max_level", levels.1)?;
    put_expressions(text, 2, "time_exprs", times)?;
    put_expressions(text, 2, "level_changes", changes)?;
    put_list_field(text, 2, "active_literals", active)?;
    close_message(text, 1)
}

fn put_no_overlap_2d(text: &mut String, x: &[i32], y: &[i32]) -> Result<(), AllocError>
    ensures { OnOk result (string_bytes text.new ≡ string_bytes text.old
        ++ text_of 1 (message_field (codes "no_overlap_2d") (printed_no_overlap_2d x.now y.now))) }
{
    open_message(text, 1, "no_overlap_2d")?;
    put_list_field(text, 2, "x_intervals", x)?;
    put_list_field(text, 2, "y_intervals", y)?;
    close_message(text, 1)
}

/// Appends what a constraint demands. A constraint without a kind adds no line.
pub fn put_kind(text: &mut String, kind: &Kind) -> Result<(), AllocError>
    ensures { OnOk result (string_bytes text.new ≡ string_bytes text.old ++ text_of 1 (kind_field kind.now)) }
{
    match kind {
        Kind::Empty => Ok(()),
        Kind::BoolOr(literals) => put_literals(text, "bool_or", literals.as_slice()),
        Kind::BoolAnd(literals) => put_literals(text, "bool_and", literals.as_slice()),
        Kind::AtMostOne(literals) => put_literals(text, "at_most_one", literals.as_slice()),
        Kind::ExactlyOne(literals) => put_literals(text, "exactly_one", literals.as_slice()),
        Kind::BoolXor(literals) => put_literals(text, "bool_xor", literals.as_slice()),
        Kind::Linear {
            vars,
            coeffs,
            domain,
        } => put_linear(text, vars.as_slice(), coeffs.as_slice(), domain.as_slice()),
        Kind::IntDiv { target, exprs } => put_arithmetic(text, "int_div", target, exprs.as_slice()),
        Kind::IntMod { target, exprs } => put_arithmetic(text, "int_mod", target, exprs.as_slice()),
        Kind::IntProd { target, exprs } => {
            put_arithmetic(text, "int_prod", target, exprs.as_slice())
        }
        Kind::LinMax { target, exprs } => put_arithmetic(text, "lin_max", target, exprs.as_slice()),
        Kind::Element {
            index,
            target,
            exprs,
        } => put_element(text, index, target, exprs),
        Kind::Table {
            exprs,
            values,
            negated,
        } => put_table(text, exprs, values.as_slice(), *negated),
        Kind::AllDiff(exprs) => put_all_diff(text, exprs.as_slice()),
        Kind::Circuit {
            tails,
            heads,
            literals,
        } => put_circuit(
            text,
            tails.as_slice(),
            heads.as_slice(),
            literals.as_slice(),
        ),
        Kind::Interval { start, end, size } => put_interval(text, start, end, size),
        Kind::NoOverlap(intervals) => put_no_overlap(text, intervals.as_slice()),
        Kind::Cumulative {
            capacity,
            intervals,
            demands,
        } => put_cumulative(text, capacity, intervals.as_slice(), demands.as_slice()),
        Kind::Inverse { direct, inverse } => {
            put_inverse(text, direct.as_slice(), inverse.as_slice())
        }
        Kind::Automaton {
            start,
            finals,
            tails,
            heads,
            labels,
            exprs,
        } => {
            let transitions = Transitions {
                tails: tails.as_slice(),
                heads: heads.as_slice(),
                labels: labels.as_slice(),
            };
            put_automaton(text, *start, finals.as_slice(), &transitions, exprs)
        }
        Kind::Reservoir {
            min,
            max,
            times,
            changes,
            active,
        } => put_reservoir(
            text,
            (*min, *max),
            times.as_slice(),
            changes.as_slice(),
            active.as_slice(),
        ),
        Kind::NoOverlap2d { x, y } => put_no_overlap_2d(text, x.as_slice(), y.as_slice()),
    }
}
