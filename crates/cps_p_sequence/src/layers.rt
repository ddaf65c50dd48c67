//! What an automaton leaves to each position: the states that a run can have reached before it, from the first
//! position on, and those from which a run can end after it, from the last one back. A step is alive between a marked
//! state of the one row and one of the other, where its label is open; only labels of such steps stay. This is the
//! layered graph of G. Pesant, "A regular language membership constraint for finite sequences of variables" (CP
//! 2004), with rows of marks in place of lists of arcs.
ghost use Rattle.std.specs.Prelude.{◌≡◌, ◌↔◌, ◌-◌, ◌<◌, ◌≤◌, ℕ, false, length, take, drop, slice_index_or, Contains, All, OnOk, IfOk, IsTrue};
ghost use Rattle.cps_p_sequence.specs.Networks.{IsStepWithin, IsMarked};
ghost use Rattle.cps_model.specs.Rising.{IsRising};
ghost use Rattle.cps_p_sequence.specs.Runs.{AreTails, AreHeads, AreLabels, AreEnding, AreRows, HasLabelsOf, IsNarrowed, IsRunLooked};

use crate::keep::{is_open, keep_labels};
use crate::states::{Step, blank, make_distinct};
use cps_rule::Narrowing;
use cps_trail::Store;
use std::alloc::{AllocError, Global};
use std::mem::swap;

/// An automaton by numbered states, over subjects.
#[derive(Clone, Copy)]
pub(crate) struct Network<'a> {
    pub(crate) first: usize,
    /// Which states are final.
    pub(crate) last: &'a [bool],
    pub(crate) steps: &'a [Step],
    /// The labels of the steps, rising.
    pub(crate) alphabet: &'a [i64],
    pub(crate) subjects: &'a [u32],
}

/// Room for a look. Its memory is kept for the next.
#[derive(Drop)]
pub(crate) struct Room {
    /// For each position that is not yet walked past, the states after it from which a run can end, the last
    /// position's first.
    rows: Vec<bool>,
    /// The row in work.
    row: Vec<bool>,
    /// The states that a run can have reached.
    reached: Vec<bool>,
    /// The labels of a position.
    labels: Vec<i64>,
}

impl Room {
    /// Room for looks.
    pub(crate) fn new(alloc: Global) -> Self {
        Room {
            rows: Vec::new(alloc),
            row: Vec::new(alloc),
            reached: Vec::new(alloc),
            labels: Vec::new(alloc),
        }
    }
}

/// The steps of an automaton at the position of a subject.
#[derive(Clone, Copy)]
pub(crate) struct Position<'a> {
    pub(crate) subject: u32,
    pub(crate) steps: &'a [Step],
}

/// The states from which an open step leads to a marked one.
fn tails_of(
    store: &Store,
    subject: u32,
    steps: &[Step],
    heads: &[bool],
    tails: &mut Vec<bool>,
) -> Result<(), AllocError>
    requires subject { subject < length store.now.first }
    requires steps { All (IsStepWithin (length heads.now)) steps.now }
    ensures { OnOk result (AreTails store.now subject steps.now (length steps.now) heads.now tails.new.items) }
{
    blank(tails, heads.len())?;
    for step in steps {
        if !heads[step.head] {
            continue;
        }
        if !is_open(store, subject, step.label) {
            continue;
        }
        tails[step.tail] = true;
    }
    Ok(())
}

/// The states to which an open step leads from a marked one.
fn heads_of(
    store: &Store,
    subject: u32,
    steps: &[Step],
    tails: &[bool],
    heads: &mut Vec<bool>,
) -> Result<(), AllocError>
    requires subject { subject < length store.now.first }
    requires steps { All (IsStepWithin (length tails.now)) steps.now }
    ensures { OnOk result (AreHeads store.now subject steps.now (length steps.now) tails.now heads.new.items) }
{
    blank(heads, tails.len())?;
    for step in steps {
        if !tails[step.tail] {
            continue;
        }
        if !is_open(store, subject, step.label) {
            continue;
        }
        heads[step.head] = true;
    }
    Ok(())
}

/// Whether a label is the last of a list.
fn is_last_label(labels: &[i64], label: i64) -> bool
    ensures { IsTrue result → Contains labels.now label }
{
    match labels.last() {
        Some(last) => *last == label,
        None => false,
    }
}

/// Replaces `labels` by those of the steps that are alive between marked states, rising.
fn put_labels(
    store: &Store,
    position: &Position,
    tails: &[bool],
    heads: &[bool],
    labels: &mut Vec<i64>,
) -> Result<(), AllocError>
    requires subject { position.now.subject < length store.now.first }
    requires tails { All (IsStepWithin (length tails.now)) position.now.steps.now }
    requires heads { All (IsStepWithin (length heads.now)) position.now.steps.now }
    ensures alive { OnOk result (AreLabels store.now position.now.subject position.now.steps.now
        (length position.now.steps.now) tails.now heads.now labels.new.items) }
    ensures rising { OnOk result (IsRising labels.new.items) }
{
    labels.clear();
    for step in position.steps {
        if !tails[step.tail] {
            continue;
        }
        if !heads[step.head] {
            continue;
        }
        // steps with one label stand side by side, and it is asked about once
        if is_last_label(labels, step.label) {
            continue;
        }
        if !is_open(store, position.subject, step.label) {
            continue;
        }
        labels.push(step.label)?;
    }
    make_distinct(labels);
    Ok(())
}

/// The subject that so many others follow.
pub(crate) fn subject_before(subjects: &[u32], after: usize) -> u32
    requires { after < length subjects.now }
    ensures { result ≡ slice_index_or subjects.now (length subjects.now - 1 - after) 0 }
{
    subjects[subjects.len() - 1 - after]
}

/// Puts the states from which a run may end, before the first position, in the place of the row in work. Before it,
/// the same for after each position is put in the place of the rows, the last position's first.
fn end_rows(store: &Store, net: &Network, room: &mut Room) -> Result<(), AllocError>
    requires subjects { All (λ i. i < length store.now.first) net.now.subjects.now }
    requires steps { All (IsStepWithin (length net.now.last.now)) net.now.steps.now }
    ensures rows { OnOk result
        (AreRows store.now net.now.steps.now net.now.last.now net.now.subjects.now room.new.rows.items) }
    ensures ends { OnOk result
        (AreEnding store.now net.now.steps.now net.now.last.now net.now.subjects.now room.new.row.items) }
{
    room.rows.clear();
    room.row.clear();
    room.row.extend_from_slice(net.last)?;
    for after in 0..net.subjects.len() {
        let subject = subject_before(net.subjects, after);
        let heads = room.row.as_slice();
        room.rows.extend_from_slice(heads)?;
        tails_of(store, subject, net.steps, heads, &mut room.reached)?;
        swap(&mut room.row, &mut room.reached);
    }
    Ok(())
}

/// The last row of a list of rows.
pub(crate) fn top_row(rows: &[bool], count: usize) -> &[bool]
    requires { count ≤ length rows.now }
    ensures rows { result.now ≡ drop (length rows.now - count) rows.now }
    ensures size { length result.now ≡ count }
{
    &rows[rows.len() - count..]
}

/// Drops the last row of a list of rows.
pub(crate) fn drop_top(rows: &mut Vec<bool>, count: usize)
    requires { count ≤ length rows.old.items }
    ensures { rows.new.items ≡ take (length rows.old.items - count) rows.old.items }
{
    let below = rows.len() - count;
    rows.truncate(below);
}

/// Whether a state is marked.
fn is_marked(row: &[bool], state: usize) -> bool
    requires { state < length row.now }
    ensures { result ≡ slice_index_or row.now state false }
{
    row[state]
}

/// Replaces a row by marks for `count` states, of which one is set.
pub(crate) fn mark_first(row: &mut Vec<bool>, first: usize, count: usize) -> Result<(), AllocError>
    requires { first < count }
    ensures size { OnOk result (length row.new.items ≡ count) }
    ensures marked { OnOk result ((q : ℕ) → IsMarked row.new.items q ↔ (q ≡ first)) }
{
    blank(row, count)?;
    row[first] = true;
    Ok(())
}

/// Puts what keeps each subject at labels that are alive in the place of what a list holds. Answers false where none
/// is.
fn narrow(
    store: &Store,
    net: &Network,
    room: &mut Room,
    found: &mut Vec<Narrowing>,
) -> Result<bool, AllocError>
    requires subjects { All (λ i. i < length store.now.first) net.now.subjects.now }
    requires steps { All (IsStepWithin (length net.now.last.now)) net.now.steps.now }
    requires first { net.now.first < length net.now.last.now }
    requires alphabet { HasLabelsOf net.now.steps.now net.now.alphabet.now }
    requires rows { AreRows store.now net.now.steps.now net.now.last.now net.now.subjects.now room.old.rows.items }
    ensures { IfOk result
        (IsNarrowed store.now net.now.steps.now net.now.first net.now.last.now net.now.subjects.now
        found.new.items) }
{
    found.clear();
    let count = net.last.len();
    mark_first(&mut room.reached, net.first, count)?;
    for subject in net.subjects {
        let position = Position {
            subject: *subject,
            steps: net.steps,
        };
        let stack = room.rows.as_slice();
        let heads = top_row(stack, count);
        let before = room.reached.as_slice();
        put_labels(store, &position, before, heads, &mut room.labels)?;
        if room.labels.is_empty() {
            return Ok(false);
        }
        let kept = room.labels.as_slice();
        keep_labels(store, *subject, net.alphabet, kept, found)?;
        let tails = room.reached.as_slice();
        heads_of(store, *subject, net.steps, tails, &mut room.row)?;
        swap(&mut room.reached, &mut room.row);
        drop_top(&mut room.rows, count);
    }
    Ok(true)
}

/// Puts what an automaton leaves to its subjects in the place of what a list holds. Answers false where no run is left.
pub(crate) fn look_at(
    store: &Store,
    net: &Network,
    room: &mut Room,
    found: &mut Vec<Narrowing>,
) -> Result<bool, AllocError>
    requires subjects { All (λ i. i < length store.now.first) net.now.subjects.now }
    requires steps { All (IsStepWithin (length net.now.last.now)) net.now.steps.now }
    requires first { net.now.first < length net.now.last.now }
    requires alphabet { HasLabelsOf net.now.steps.now net.now.alphabet.now }
    ensures { IfOk result
        (IsRunLooked store.now net.now.steps.now net.now.first net.now.last.now net.now.subjects.now
        found.new.items) }
{
    found.clear();
    end_rows(store, net, room)?;
    let whole = room.row.as_slice();
    if !is_marked(whole, net.first) {
        return Ok(false);
    }
    let possible = narrow(store, net, room, found)?;
    Ok(possible)
}
