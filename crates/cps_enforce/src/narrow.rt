//! What a task in force does to a store: it makes true what its rule gives, or answers why it cannot.
//!
//! The rule looks at the store once, and hands out a list; only then is the store changed. So a rule's proof is about
//! one store. A narrowing keeps a note, and its reason is made only when it is asked for; a conflict is explained at
//! once. If the rule finds no explanation, which no proof excludes, the conflict names all that was narrowed of what
//! the task reads.

ghost use Rattle.std.specs.Prelude.{◌≡◌, All, OnOk, IfOk};
ghost use Rattle.cps_instance.specs.Tasks.{HoldsTask};
ghost use Rattle.cps_trail.specs.Trail.{IsTrueNow, IsFalseNow};
ghost use Rattle.cps_trail.specs.Adds.{Infers};
ghost use Rattle.cps_trail.specs.Notes.{ByTask};
ghost use Rattle.cps_propagate.specs.Conflicts.{IsConflictBy, AnswersBy, as_step};
ghost use Rattle.cps_rule.specs.Rules.{IsGiven, IsImpossible};
ghost use Rattle.cps_enforce.specs.Reasons.{task_of};
ghost use Rattle.cps_enforce.specs.Settling.{IsTaskInForce, IsRestingBody};

use crate::reasons::{conflict_by, deny_all, give_by, push_all_subjects, reads};
use cps_domain::Cut;
use cps_literal::Atom;
use cps_propagate::Answer;
use cps_rule::{Hint, Look, Narrowing, Rule};
use cps_trail::{Note, Store};
use std::alloc::{AllocError, Global};

/// A task's number, and its enforcement atoms.
#[derive(Clone, Copy)]
pub(crate) struct Header<'a> {
    pub(crate) number: u32,
    pub(crate) enforcement: &'a [Atom],
}

/// Room for a conflict that is being made, which is kept for the next one.
#[derive(Drop)]
pub(crate) struct Room {
    facts: Vec<Atom>,
    /// The clause of the conflict.
    pub(crate) conflict: Vec<Atom>,
    subjects: Vec<u32>,
}

impl Room {
    /// Room for a conflict.
    pub(crate) fn new(alloc: Global) -> Self {
        Room {
            facts: Vec::new(alloc),
            conflict: Vec::new(alloc),
            subjects: Vec::new(alloc),
        }
    }
}

/// Makes the conflict that names every earlier narrowing of what the task reads.
fn conflict_by_past<R: Rule>(
    enforcement: &[Atom],
    rule: &R,
    room: &mut Room,
    store: &Store,
) -> Result<(), AllocError>
    requires force { IsTaskInForce store.now enforcement.now (R.body rule.now) }
    requires impossible { IsImpossible (R.body rule.now) store.now }
    ensures { OnOk result (IsConflictBy
        (task_of enforcement.now (R.body rule.now)) store.now room.new.conflict.items) }
{
    room.subjects.clear();
    push_all_subjects(enforcement, rule, &mut room.subjects)?;
    let place = store.entries().len();
    deny_all(store, place, room.subjects.as_slice(), &mut room.conflict)
}

/// Makes the conflict of a body that cannot hold.
fn conflict_of<R: Rule>(
    enforcement: &[Atom],
    rule: &R,
    hint: Hint,
    room: &mut Room,
    store: &Store,
) -> Result<(), AllocError>
    requires force { IsTaskInForce store.now enforcement.now (R.body rule.now) }
    requires impossible { IsImpossible (R.body rule.now) store.now }
    ensures { OnOk result (IsConflictBy
        (task_of enforcement.now (R.body rule.now)) store.now room.new.conflict.items) }
{
    let past = store.present();
    let is_refuted = rule.refute(&past, hint, &mut room.facts)?;
    if is_refuted {
        let facts = room.facts.as_slice();
        return conflict_by(&past, enforcement, facts, &mut room.conflict);
    }
    conflict_by_past(enforcement, rule, room, store)
}

/// Makes the conflict of a body that gives an atom which is false. An atom about a subject that the task does not read
/// may be given where the body cannot hold; then the conflict does not name it.
fn contradict<R: Rule>(
    enforcement: &[Atom],
    rule: &R,
    narrowing: &Narrowing,
    room: &mut Room,
    store: &Store,
) -> Result<(), AllocError>
    requires force { IsTaskInForce store.now enforcement.now (R.body rule.now) }
    requires given { IsGiven (R.body rule.now) store.now narrowing.now.target }
    requires false_now { IsFalseNow store.now narrowing.now.target }
    ensures { OnOk result (IsConflictBy
        (task_of enforcement.now (R.body rule.now)) store.now room.new.conflict.items) }
{
    let past = store.present();
    let target = narrowing.target;
    let is_explained = rule.explain(&past, target, narrowing.hint, &mut room.facts)?;
    if is_explained {
        let is_own = reads(enforcement, rule, target.subject, &mut room.subjects)?;
        if is_own {
            let facts = room.facts.as_slice();
            return give_by(&past, enforcement, facts, target, &mut room.conflict);
        }
    }
    conflict_by_past(enforcement, rule, room, store)
}

/// Makes an atom true that the body gives.
fn narrow<R: Rule>(
    header: &Header,
    rule: &R,
    narrowing: &Narrowing,
    room: &mut Room,
    store: &mut Store,
) -> Result<Answer, AllocError>
    requires force { IsTaskInForce store.old header.now.enforcement.now (R.body rule.now) }
    requires given { IsGiven (R.body rule.now) store.old narrowing.now.target }
    ensures infers { OnOk result (Infers
        (ByTask header.now.number (HoldsTask
        (task_of header.now.enforcement.now (R.body rule.now)))) store.old store.new) }
    ensures answers { IfOk result (λ answer. AnswersBy
        (task_of header.now.enforcement.now (R.body rule.now))
        store.new (as_step answer room.new.conflict.items)) }
    ensures made { result ≡ Ok Answer.NoConflict → IsTrueNow store.new narrowing.now.target }
{
    let note = Note::Task {
        task: header.number,
        a: narrowing.hint.a,
        b: narrowing.hint.b,
    };
    match store.imply_later(narrowing.target, note)? {
        Cut::Narrowed | Cut::NoChange => return Ok(Answer::NoConflict),
        Cut::Wiped => {}
    }
    contradict(header.enforcement, rule, narrowing, room, store)?;
    Ok(Answer::Conflict)
}

/// Makes true all that the body gives.
fn narrow_all<R: Rule>(
    header: &Header,
    rule: &R,
    found: &[Narrowing],
    room: &mut Room,
    store: &mut Store,
) -> Result<Answer, AllocError>
    requires force { IsTaskInForce store.old header.now.enforcement.now (R.body rule.now) }
    requires given { All (λ n. IsGiven (R.body rule.now) store.old n.target) found.now }
    ensures infers { OnOk result (Infers
        (ByTask header.now.number (HoldsTask
        (task_of header.now.enforcement.now (R.body rule.now)))) store.old store.new) }
    ensures answers { IfOk result (λ answer. AnswersBy
        (task_of header.now.enforcement.now (R.body rule.now))
        store.new (as_step answer room.new.conflict.items)) }
    ensures made { result ≡ Ok Answer.NoConflict → All (λ n. IsTrueNow store.new n.target) found.now }
{
    for narrowing in found {
        match narrow(header, rule, narrowing, room, store)? {
            Answer::NoConflict => {}
            Answer::Conflict => return Ok(Answer::Conflict),
        }
    }
    Ok(Answer::NoConflict)
}

/// Looks once, and makes true what the body gives.
pub(crate) fn pass<R: Rule>(
    header: &Header,
    rule: &mut R,
    found: &mut Vec<Narrowing>,
    room: &mut Room,
    store: &mut Store,
) -> Result<Answer, AllocError>
    requires force { IsTaskInForce store.old header.now.enforcement.now (R.body rule.old) }
    ensures keeps { R.body rule.new ≡ R.body rule.old }
    ensures infers { OnOk result (Infers
        (ByTask header.now.number (HoldsTask
        (task_of header.now.enforcement.now (R.body rule.old)))) store.old store.new) }
    ensures answers { IfOk result (λ answer. AnswersBy
        (task_of header.now.enforcement.now (R.body rule.old))
        store.new (as_step answer room.new.conflict.items)) }
    ensures rest { result ≡ Ok Answer.NoConflict → store.new.entries ≡ store.old.entries
        → IsRestingBody (R.body rule.old) store.new }
{
    match rule.look(store, found)? {
        Look::Possible => narrow_all(header, rule, found.as_slice(), room, store),
        Look::Impossible(hint) => {
            conflict_of(header.enforcement, rule, hint, room, store)?;
            Ok(Answer::Conflict)
        }
    }
}
