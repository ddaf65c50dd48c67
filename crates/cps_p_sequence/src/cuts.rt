//! Why an automaton denies a position a value, or has no run: what was gone along a cut of its layers.
//!
//! A first walk, from the end back, marks the states from which a run could end in the domains as they stood. Nothing
//! is proved of it: it only guides the second one, which goes from the start on, and marks each state to which the
//! labels of values can lead beside the facts that it cites. A step to a state from which no run could end needs no
//! fact; each other one from a marked state is ruled out by a fact about its label: below or above what its position
//! could have, by one end for all such labels, or off it. Where no final state is marked in the end, no values beside
//! the facts are labels of a run.
ghost use Rattle.std.specs.Prelude.{◌≡◌, ◌<◌, ℕ, ℤ, true, Option, List, [], ◌∷◌, length, All, Ok, OnOk, IfOk, IsTrue};
ghost use Rattle.cps_literal.specs.Truth.{value_at};
ghost use Rattle.cps_literal.specs.declared.atom.Op.TheVariants.{Le, Ge};
ghost use Rattle.cps_rule.specs.Rules.{AllTrueAt};
ghost use Rattle.cps_p_sequence.specs.Networks.{IsStepWithin, IsMarked};
ghost use Rattle.cps_p_sequence.specs.Facts.{MeetsBound};
ghost use Rattle.cps_rule.specs.Facts.{Grows, Denied};
ghost use Rattle.cps_p_sequence.specs.Cuts.{IsOut, IsLimited, Comes, IsCut};

use crate::facts::{LIMIT, atom, is_last, is_met, push_fact};
use crate::layers::{Network, Position, drop_top, mark_first, subject_before, top_row};
use crate::states::{Step, blank};
use cps_literal::{Atom, Op, Truth};
use cps_trail::Before;
use std::alloc::{AllocError, Global};
use std::mem::swap;

/// Ends between which the facts keep a subject's value.
#[derive(Clone, Copy)]
struct Limits {
    low: Option<i64>,
    high: Option<i64>,
}

/// A position, between the states that are marked before it and those after it from which a run could end.
#[derive(Clone, Copy)]
struct Layer<'a> {
    subject: u32,
    steps: &'a [Step],
    /// The atom that must be false, if there is one.
    goal: Option<Atom>,
    tails: &'a [bool],
    guide: &'a [bool],
}

/// Whether a subject cannot have a label since an atom must be false.
fn is_denied(goal: Option<Atom>, subject: u32, label: i64) -> bool
    ensures { IsTrue result → (xs : List ℤ) → Denied goal xs → value_at xs subject ≡ label → ⊥ }
{
    match goal {
        Some(target) => {
            if target.subject != subject {
                return false;
            }
            is_met(target, label)
        }
        None => false,
    }
}

/// Whether a number does not meet a bound.
fn is_beyond(op: Op, bound: Option<i64>, number: i64) -> bool
    ensures { IsTrue result → (x : ℤ) → MeetsBound op bound x → x ≡ number → ⊥ }
{
    match bound {
        Some(value) => !is_met(atom(0, op, value), number),
        None => false,
    }
}

/// Whether a subject could have a label, where an atom must be false.
fn was_open(past: &Before, goal: Option<Atom>, subject: u32, label: i64) -> bool
    requires { subject < length past.now.first }
{
    if is_denied(goal, subject, label) {
        return false;
    }
    match past.truth(atom(subject, Op::Eq, label)) {
        Truth::No => false,
        _ => true,
    }
}

/// The label that was asked about last, and whether it was open.
#[derive(Clone, Copy)]
struct Asked {
    label: Option<i64>,
    is_open: bool,
}

/// The answer for a label; the last one where it is the label that was asked about last.
fn ask(past: &Before, goal: Option<Atom>, subject: u32, label: i64, last: Asked) -> Asked
    requires { subject < length past.now.first }
{
    if last.label == Some(label) {
        return last;
    }
    Asked {
        label: Some(label),
        is_open: was_open(past, goal, subject, label),
    }
}

/// Marks the states from which a step whose label was open leads to a marked one.
fn guide_back(
    past: &Before,
    position: &Position,
    goal: Option<Atom>,
    heads: &[bool],
    tails: &mut Vec<bool>,
) -> Result<(), AllocError>
    requires subject { position.now.subject < length past.now.first }
    requires steps { All (IsStepWithin (length heads.now)) position.now.steps.now }
    ensures { OnOk result (length tails.new.items ≡ length heads.now) }
{
    blank(tails, heads.len())?;
    // Steps with one label stand side by side, so each label is asked about once.
    let mut asked = Asked {
        label: None,
        is_open: false,
    };
    for step in position.steps {
        if tails[step.tail] || !heads[step.head] {
            continue;
        }
        asked = ask(past, goal, position.subject, step.label, asked);
        if asked.is_open {
            tails[step.tail] = true;
        }
    }
    Ok(())
}

/// Marks, for each position, the states after it from which a run could end, the last position's first.
fn guides(
    alloc: Global,
    past: &Before,
    net: &Network,
    goal: Option<Atom>,
) -> Result<Vec<bool>, AllocError>
    requires subjects { All (λ i. i < length past.now.first) net.now.subjects.now }
    requires steps { All (IsStepWithin (length net.now.last.now)) net.now.steps.now }
{
    let mut rows = Vec::new(alloc);
    let mut heads = Vec::from_slice(alloc, net.last)?;
    let mut tails = Vec::new(alloc);
    for after in 0..net.subjects.len() {
        let position = Position {
            subject: subject_before(net.subjects, after),
            steps: net.steps,
        };
        let row = heads.as_slice();
        rows.extend_from_slice(row)?;
        guide_back(past, &position, goal, row, &mut tails)?;
        swap(&mut heads, &mut tails);
    }
    Ok(rows)
}

/// The larger of a number and one that may be missing.
fn at_least(bound: Option<i64>, number: i64) -> Option<i64> {
    match bound {
        Some(value) => Some(value.max(number)),
        None => Some(number),
    }
}

/// The smaller of a number and one that may be missing.
fn at_most(bound: Option<i64>, number: i64) -> Option<i64> {
    match bound {
        Some(value) => Some(value.min(number)),
        None => Some(number),
    }
}

/// The limits, with a label below or above the ends of what a subject could have ruled out too.
fn tightened(limits: Limits, ends: (i64, i64), label: i64) -> Limits {
    let (least, greatest) = ends;
    let low = if label < least {
        at_least(limits.low, (label + 1).max(-LIMIT))
    } else {
        limits.low
    };
    let high = if greatest < label {
        at_most(limits.high, (label - 1).min(LIMIT))
    } else {
        limits.high
    };
    Limits { low, high }
}

/// Ends that rule out the labels, below and above what the subject could have, of steps that are to be ruled out.
fn limits_of(past: &Before, layer: &Layer) -> Limits
    requires subject { layer.now.subject < length past.now.first }
    requires tails { All (IsStepWithin (length layer.now.tails.now)) layer.now.steps.now }
    requires guide { All (IsStepWithin (length layer.now.guide.now)) layer.now.steps.now }
{
    let ends = past.ends(layer.subject);
    let mut limits = Limits {
        low: None,
        high: None,
    };
    for step in layer.steps {
        if !layer.tails[step.tail] || !layer.guide[step.head] {
            continue;
        }
        if is_denied(layer.goal, layer.subject, step.label) {
            continue;
        }
        limits = tightened(limits, ends, step.label);
    }
    limits
}

/// Adds the fact that a subject's value meets a bound, if there is one and it was so. Answers the bound then.
fn push_bound(
    past: &Before,
    subject: u32,
    op: Op,
    bound: Option<i64>,
    facts: &mut Vec<Atom>,
) -> Result<Option<i64>, AllocError>
    requires { subject < length past.now.first }
    ensures grows { OnOk result (Grows past.now (subject ∷ []) facts.old.items facts.new.items) }
    ensures bounded { IfOk result (λ kept. (xs : List ℤ) → AllTrueAt xs facts.new.items →
        MeetsBound op kept (value_at xs subject)) }
{
    match bound {
        Some(value) => {
            if push_fact(past, atom(subject, op, value), facts)? {
                return Ok(Some(value));
            }
            Ok(None)
        }
        None => Ok(None),
    }
}

/// Adds the facts that a subject's value lies between limits, as far as it was so. Answers the limits that are kept.
fn push_limits(
    past: &Before,
    subject: u32,
    limits: Limits,
    facts: &mut Vec<Atom>,
) -> Result<Limits, AllocError>
    requires { subject < length past.now.first }
    ensures grows { OnOk result (Grows past.now (subject ∷ []) facts.old.items facts.new.items) }
    ensures limited { IfOk result (λ kept. IsLimited facts.new.items subject kept) }
{
    let low = push_bound(past, subject, Op::Ge, limits.low, facts)?;
    let high = push_bound(past, subject, Op::Le, limits.high, facts)?;
    Ok(Limits { low, high })
}

/// Whether the facts exclude `label` for `subject`. Adds the fact that the subject has another one where that is needed.
fn rule_out(
    past: &Before,
    subject: u32,
    limits: &Limits,
    label: i64,
    facts: &mut Vec<Atom>,
) -> Result<bool, AllocError>
    requires { subject < length past.now.first }
    ensures grows { OnOk result (Grows past.now (subject ∷ []) facts.old.items facts.new.items) }
    ensures out { result ≡ Ok true → IsLimited facts.old.items subject limits.now → (goal : Option Atom) →
        IsOut goal facts.new.items subject label }
{
    if is_beyond(Op::Ge, limits.low, label) {
        return Ok(true);
    }
    if is_beyond(Op::Le, limits.high, label) {
        return Ok(true);
    }
    let hole = atom(subject, Op::Ne, label);
    if is_last(facts, hole) {
        return Ok(true);
    }
    let is_out = push_fact(past, hole, facts)?;
    Ok(is_out)
}

/// Whether a step is no way on beside the facts, to which one is added where that is needed.
fn is_no_way(
    past: &Before,
    layer: &Layer,
    limits: &Limits,
    step: &Step,
    facts: &mut Vec<Atom>,
) -> Result<bool, AllocError>
    requires subject { layer.now.subject < length past.now.first }
    requires head { step.now.head < length layer.now.guide.now }
    ensures grows { OnOk result (Grows past.now (layer.now.subject ∷ []) facts.old.items facts.new.items) }
    ensures out { result ≡ Ok true → IsLimited facts.old.items layer.now.subject limits.now →
        IsOut layer.now.goal facts.new.items layer.now.subject step.now.label }
{
    if is_denied(layer.goal, layer.subject, step.label) {
        return Ok(true);
    }
    if !layer.guide[step.head] {
        return Ok(false);
    }
    let is_out = rule_out(past, layer.subject, limits, step.label, facts)?;
    Ok(is_out)
}

/// Marks the states after a position to which labels can lead from the states before it beside the facts, to which
/// those that are needed are added.
fn lead_on(
    past: &Before,
    layer: &Layer,
    facts: &mut Vec<Atom>,
    heads: &mut Vec<bool>,
) -> Result<(), AllocError>
    requires subject { layer.now.subject < length past.now.first }
    requires tails { All (IsStepWithin (length layer.now.tails.now)) layer.now.steps.now }
    requires guide { All (IsStepWithin (length layer.now.guide.now)) layer.now.steps.now }
    ensures { OnOk result (Comes past.now layer.now.goal layer.now.subject layer.now.steps.now
        (length layer.now.steps.now) layer.now.tails.now heads.new.items facts.old.items facts.new.items) }
{
    blank(heads, layer.tails.len())?;
    let proposed = limits_of(past, layer);
    let limits = push_limits(past, layer.subject, proposed, facts)?;
    for step in layer.steps {
        if !layer.tails[step.tail] {
            continue;
        }
        if is_no_way(past, layer, &limits, step, facts)? {
            continue;
        }
        heads[step.head] = true;
    }
    Ok(())
}

/// Whether no state that is marked in a row is a final one.
fn is_cut_off(row: &[bool], last: &[bool]) -> bool
    requires { length row.now ≡ length last.now }
    ensures { IsTrue result → (q : ℕ) → IsMarked row.now q → IsMarked last.now q → ⊥ }
{
    for (state, is_reached) in row.iter().enumerate() {
        if *is_reached && last[state] {
            return false;
        }
    }
    true
}

/// Puts facts beside which no values are labels of a run, where an atom is to be false if there is one, in the place
/// of what a list holds. Answers whether they are such.
pub(crate) fn cut(
    alloc: Global,
    past: &Before,
    net: &Network,
    goal: Option<Atom>,
    facts: &mut Vec<Atom>,
) -> Result<bool, AllocError>
    requires subjects { All (λ i. i < length past.now.first) net.now.subjects.now }
    requires steps { All (IsStepWithin (length net.now.last.now)) net.now.steps.now }
    requires first { net.now.first < length net.now.last.now }
    ensures { result ≡ Ok true →
        IsCut past.now goal net.now.steps.now net.now.first net.now.last.now net.now.subjects.now
        facts.new.items }
{
    facts.clear();
    let count = net.last.len();
    let mut rows = guides(alloc, past, net, goal)?;
    let mut reached = Vec::new(alloc);
    mark_first(&mut reached, net.first, count)?;
    let mut row = Vec::new(alloc);
    for subject in net.subjects {
        if rows.len() < count {
            return Ok(false);
        }
        let stack = rows.as_slice();
        let guide = top_row(stack, count);
        let tails = reached.as_slice();
        let layer = Layer {
            subject: *subject,
            steps: net.steps,
            goal,
            tails,
            guide,
        };
        lead_on(past, &layer, facts, &mut row)?;
        swap(&mut reached, &mut row);
        drop_top(&mut rows, count);
    }
    let marks = reached.as_slice();
    Ok(is_cut_off(marks, net.last))
}
