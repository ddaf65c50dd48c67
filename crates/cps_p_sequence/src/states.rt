//! An automaton whose states have numbers, so that rows of marks stand for sets of states.
//!
//! The states are the ends of the transitions and the start, sorted, and a state's number is its place there. A final
//! state that is none of these has no number and needs none, since no run comes there.
ghost use Rattle.std.specs.Prelude.{◌≡◌, ℕ, ◌<◌, ◌++◌, ◌∷◌, [], ℤ, length, map, Contains, All, IfOk, OnOk, IfSome, IsTrue, IsNone, IsPermutation, slice_index_or, false};
ghost use Rattle.cps_model.specs.Sequences.{transitions};
ghost use Rattle.cps_p_sequence.specs.Networks.{IsNumberOf, IsStepWithin, AreFinals, named};
ghost use Rattle.cps_model.specs.Rising.{IsRising};

use cps_model::Transition;
use std::alloc::{AllocError, Global};

/// A transition between states by their numbers.
#[derive(Clone, Copy)]
pub(crate) struct Step {
    pub(crate) tail: usize,
    pub(crate) head: usize,
    pub(crate) label: i64,
}

/// Sorts numbers, and drops each that equals the one before it.
pub(crate) fn make_distinct(numbers: &mut Vec<i64>)
    ensures rising { IsRising numbers.new.items }
    ensures kept { (n : ℤ) → Contains numbers.old.items n → Contains numbers.new.items n }
    ensures added_none { (n : ℤ) → Contains numbers.new.items n → Contains numbers.old.items n }
{
    numbers.sort_unstable();
    numbers.dedup();
}

/// The place of a number in a rising list, if it is there.
fn find(states: &[i64], state: i64) -> Option<usize>
    requires { IsRising states.now }
    ensures some { IfSome result (λ number. IsNumberOf states.now state number) }
    ensures none { IsNone result → Contains states.now state → ⊥ }
{
    match states.binary_search(&state) {
        Ok(number) => Some(number),
        Err(_) => None,
    }
}

/// Whether a rising list has a number.
pub(crate) fn is_listed(numbers: &[i64], number: i64) -> bool
    requires { IsRising numbers.now }
    ensures listed { IsTrue result → Contains numbers.now number }
    ensures missing { result ≡ false → Contains numbers.now number → ⊥ }
{
    match find(numbers, number) {
        Some(_) => true,
        None => false,
    }
}

/// The number of a state that is listed.
pub(crate) fn number_of(states: &[i64], state: i64) -> usize
    requires rising { IsRising states.now }
    requires listed { Contains states.now state }
    ensures { IsNumberOf states.now state result }
{
    match find(states, state) {
        Some(number) => number,
        None => unreachable!(),
    }
}

/// The transitions of three lists, as far as all three go.
pub(crate) fn transitions(
    alloc: Global,
    tails: &[i64],
    heads: &[i64],
    labels: &[i64],
) -> Result<Vec<Transition>, AllocError>
    ensures { IfOk result (λ raw. raw.items ≡ transitions tails.now heads.now labels.now) }
{
    let mut raw = Vec::new(alloc);
    let count = tails.len().min(heads.len()).min(labels.len());
    for k in 0..count {
        raw.push(Transition {
            tail: tails[k],
            head: heads[k],
            label: labels[k],
        })?;
    }
    Ok(raw)
}

/// Adds the states between which a transition leads.
fn push_ends(states: &mut Vec<i64>, step: &Transition) -> Result<(), AllocError>
    ensures { OnOk result (states.new.items ≡ (states.old.items ++ step.now.tail ∷ []) ++ step.now.head ∷ []) }
{
    states.push(step.tail)?;
    states.push(step.head)?;
    Ok(())
}

/// The states of transitions and the one at the start, rising.
pub(crate) fn states_of(
    alloc: Global,
    start: i64,
    raw: &[Transition],
) -> Result<Vec<i64>, AllocError>
    ensures rising { IfOk result (λ states. IsRising states.items) }
    ensures start { IfOk result (λ states. Contains states.items start) }
    ensures tails { IfOk result (λ states. All (λ r. Contains states.items r.tail) raw.now) }
    ensures heads { IfOk result (λ states. All (λ r. Contains states.items r.head) raw.now) }
{
    let mut states = Vec::new(alloc);
    states.push(start)?;
    for step in raw {
        push_ends(&mut states, step)?;
    }
    make_distinct(&mut states);
    Ok(states)
}

/// The transitions by the numbers of their states.
pub(crate) fn steps_of(
    alloc: Global,
    states: &[i64],
    raw: &[Transition],
) -> Result<Vec<Step>, AllocError>
    requires rising { IsRising states.now }
    requires tails { All (λ r. Contains states.now r.tail) raw.now }
    requires heads { All (λ r. Contains states.now r.head) raw.now }
    ensures within { IfOk result (λ steps. All (IsStepWithin (length states.now)) steps.items) }
    ensures named { IfOk result (λ steps. map (named states.now) steps.items ≡ raw.now) }
{
    let mut steps = Vec::new(alloc);
    for step in raw {
        steps.push(Step {
            tail: number_of(states, step.tail),
            head: number_of(states, step.head),
            label: step.label,
        })?;
    }
    Ok(steps)
}

/// Replaces a row by `count` marks, none of them set.
pub(crate) fn blank(row: &mut Vec<bool>, count: usize) -> Result<(), AllocError>
    ensures size { OnOk result (length row.new.items ≡ count) }
    ensures blank { OnOk result ((q : ℕ) → q < length row.new.items → slice_index_or row.new.items q false ≡ false) }
{
    row.clear();
    row.resize(count, false)?;
    Ok(())
}

/// Sorts steps by their labels.
pub(crate) fn sort_by_label(steps: &mut Vec<Step>)
    ensures { IsPermutation steps.old.items steps.new.items }
{
    steps.sort_unstable_by_key(|step| step.label);
}

/// Marks the states that are listed.
pub(crate) fn mark_finals(
    alloc: Global,
    states: &[i64],
    finals: &[i64],
) -> Result<Vec<bool>, AllocError>
    requires { IsRising states.now }
    ensures { IfOk result (λ last. AreFinals finals.now states.now (length finals.now) last.items) }
{
    let mut last = Vec::new(alloc);
    blank(&mut last, states.len())?;
    for state in finals {
        let number = match find(states, *state) {
            Some(number) => number,
            None => continue,
        };
        last[number] = true;
    }
    Ok(last)
}
