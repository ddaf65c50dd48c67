//! Automata: after each label the states that some run can have reached. The transitions are sorted by state and label,
//! so that those of a state and a label stand together and are found by bisection, and no state is kept twice. So a
//! label costs two bisections for each state, and a sort of the heads of the transitions that some run can take at it.
ghost use Rattle.std.specs.Prelude.{◌≡◌, ◌↔◌, ◌++◌, ◌≤◌, ℤ, List, [], IfOk, IsTrue, IsPermutation, length, map, Contains, OnOk};
ghost use Rattle.cps_model.specs.Sequences.{transitions, Accepts};
ghost use Rattle.cps_eval.specs.Runs.{comes_before, comes_up_to, AreGrouped, BeginAt, EndBefore, LeadsBy, LeadsFromSome, SomeAccepts, SomeIsFinal, part};

use crate::numbers::{is_listed, make_distinct};
use cps_model::Transition;
use std::alloc::{AllocError, Global};

/// The transitions of three lists.
pub fn transitions(
    alloc: Global,
    tails: &[i64],
    heads: &[i64],
    labels: &[i64],
) -> Result<Vec<Transition>, AllocError>
    requires heads { length tails.now ≡ length heads.now }
    requires labels { length tails.now ≡ length labels.now }
    ensures { IfOk result (λ steps. steps.items ≡ transitions tails.now heads.now labels.now) }
{
    let mut steps = Vec::new(alloc);
    for (k, tail) in tails.iter().enumerate() {
        steps.push(Transition {
            tail: *tail,
            head: heads[k],
            label: labels[k],
        })?;
    }
    Ok(steps)
}

/// Whether a transition comes before those of a state and a label.
fn comes_before(step: &Transition, state: i64, label: i64) -> bool
    ensures { result ≡ comes_before state label step.now }
{
    step.tail < state || step.tail == state && step.label < label
}

/// Whether a transition comes before those of a state and a label, or is one of them.
fn comes_up_to(step: &Transition, state: i64, label: i64) -> bool
    ensures { result ≡ comes_up_to state label step.now }
{
    step.tail < state || step.tail == state && step.label <= label
}

/// Sorts transitions by state and label.
fn sort_by_origin(steps: &mut Vec<Transition>)
    ensures grouped { AreGrouped steps.new.items }
    ensures moved { IsPermutation steps.old.items steps.new.items }
{
    steps.sort_unstable_by_key(|step| (step.tail, step.label));
}

/// Where the transitions of a state and a label begin.
fn first_of(steps: &[Transition], state: i64, label: i64) -> usize
    requires { AreGrouped steps.now }
    ensures begin { BeginAt steps.now state label result }
    ensures inside { result ≤ length steps.now }
{
    steps.partition_point(|step| comes_before(step, state, label))
}

/// Before which place they end.
fn end_of(steps: &[Transition], state: i64, label: i64) -> usize
    requires { AreGrouped steps.now }
    ensures end { EndBefore steps.now state label result }
    ensures inside { result ≤ length steps.now }
{
    steps.partition_point(|step| comes_up_to(step, state, label))
}

/// The transitions from one place to before another.
fn between(steps: &[Transition], first: usize, end: usize) -> &[Transition]
    requires order { first ≤ end }
    requires inside { end ≤ length steps.now }
    ensures { result.now ≡ part steps.now first end }
{
    &steps[first..end]
}

/// The transitions from a state by a label.
fn steps_from(steps: &[Transition], state: i64, label: i64) -> &[Transition]
    requires { AreGrouped steps.now }
    ensures { (next : ℤ) → LeadsBy steps.now label state next ↔ Contains (map (λ step. step.head) result.now) next }
{
    let first = first_of(steps, state, label);
    let end = end_of(steps, state, label);
    between(steps, first, end)
}

/// Adds the states to which transitions lead.
fn add_heads(states: &mut Vec<i64>, steps: &[Transition]) -> Result<(), AllocError>
    ensures { OnOk result (states.new.items ≡ states.old.items ++ map (λ step. step.head) steps.now) }
{
    for step in steps {
        states.push(step.head)?;
    }
    Ok(())
}

/// The states to which transitions lead from some of these states by a label.
fn states_after(
    alloc: Global,
    steps: &[Transition],
    states: &[i64],
    label: i64,
) -> Result<Vec<i64>, AllocError>
    requires { AreGrouped steps.now }
    ensures { IfOk result (λ after. (next : ℤ)
        → LeadsFromSome steps.now label states.now next ↔ Contains after.items next) }
{
    let mut after = Vec::new(alloc);
    for state in states {
        add_heads(&mut after, steps_from(steps, *state, label))?;
    }
    make_distinct(&mut after);
    Ok(after)
}

/// The states in which a run over all labels can end.
fn end_states(
    alloc: Global,
    steps: &[Transition],
    start: i64,
    labels: &[i64],
) -> Result<Vec<i64>, AllocError>
    requires { AreGrouped steps.now }
    ensures { IfOk result (λ ends. (finals : List ℤ)
        → SomeAccepts steps.now finals ends.items [] ↔ Accepts steps.now finals start labels.now) }
{
    let mut states = Vec::new(alloc);
    states.push(start)?;
    for label in labels {
        states = states_after(alloc, steps, states.as_slice(), *label)?;
    }
    Ok(states)
}

/// Whether some state is final.
fn some_is_final(mut states: Vec<i64>, finals: &[i64]) -> bool
    ensures { IsTrue result ↔ SomeIsFinal finals.now states.items }
{
    states.sort_unstable();
    for state in finals {
        if is_listed(states.as_slice(), *state) {
            return true;
        }
    }
    false
}

/// Whether some run over the labels leads from the start to a final state.
pub fn accepts(
    alloc: Global,
    mut steps: Vec<Transition>,
    finals: &[i64],
    start: i64,
    labels: &[i64],
) -> Result<bool, AllocError>
    ensures { IfOk result (λ answer. IsTrue answer ↔ Accepts steps.items finals.now start labels.now) }
{
    sort_by_origin(&mut steps);
    let ends = end_states(alloc, steps.as_slice(), start, labels)?;
    Ok(some_is_final(ends, finals))
}
