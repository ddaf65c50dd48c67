//! Reasons: the negations of facts that were true. A fact that each first value of its subject meets needs no place in
//! a reason.

ghost use Rattle.std.specs.Prelude.{◌≡◌, ◌<◌, ◌≤◌, ◌++◌, [], true, Ok, length, All, Contains, OnOk};
ghost use Rattle.cps_instance.specs.declared.task.Body.{Body as BodyOf};
ghost use Rattle.cps_instance.specs.Tasks.{subjects_of};
ghost use Rattle.cps_propagate.specs.Conflicts.{IsConflictBy};
ghost use Rattle.cps_propagate.specs.Notes.{DeniesPast};
ghost use Rattle.cps_rule.specs.Rules.{AreFacts, IsExplained, IsRefuted};
ghost use Rattle.cps_enforce.specs.Force.{but};
ghost use Rattle.cps_enforce.specs.Reasons.{DeniesFacts, IsReasonFor, task_of};

use cps_literal::Atom;
use cps_propagate::{deny_past, push_atom_subjects};
use cps_rule::Rule;
use cps_trail::{Before, Store};
use std::alloc::AllocError;

/// Adds the negation of each fact at the end of a reason.
fn deny(past: &Before, facts: &[Atom], reason: &mut Vec<Atom>) -> Result<(), AllocError>
    requires { AreFacts past.now facts.now }
    ensures { OnOk result (DeniesFacts past.now facts.now reason.old.items reason.new.items) }
{
    for fact in facts {
        if !past.was_always(*fact) {
            reason.push(fact.negate())?;
        }
    }
    Ok(())
}

/// Fills a list anew with the negations of enforcement atoms and of facts.
fn deny_both(
    past: &Before,
    enforcement: &[Atom],
    facts: &[Atom],
    reason: &mut Vec<Atom>,
) -> Result<(), AllocError>
    requires enforcement { AreFacts past.now enforcement.now }
    requires facts { AreFacts past.now facts.now }
    ensures { OnOk result (DeniesFacts past.now (enforcement.now ++ facts.now) [] reason.new.items) }
{
    reason.clear();
    deny(past, enforcement, reason)?;
    deny(past, facts, reason)
}

/// Makes the conflict of a body that cannot hold beside facts, in force.
pub(crate) fn conflict_by(
    past: &Before,
    enforcement: &[Atom],
    facts: &[Atom],
    reason: &mut Vec<Atom>,
) -> Result<(), AllocError>
    requires enforcement { AreFacts past.now enforcement.now }
    requires facts { AreFacts past.now facts.now }
    ensures { OnOk result ((body : BodyOf) → IsRefuted body past.now facts.now
        → IsConflictBy (task_of enforcement.now body) past.now reason.new.items) }
{
    deny_both(past, enforcement, facts, reason)
}

/// Makes the reason of an atom that a body and facts give, in force.
pub(crate) fn give_by(
    past: &Before,
    enforcement: &[Atom],
    facts: &[Atom],
    target: Atom,
    reason: &mut Vec<Atom>,
) -> Result<(), AllocError>
    requires enforcement { AreFacts past.now enforcement.now }
    requires facts { AreFacts past.now facts.now }
    requires subject { target.subject < length past.now.first }
    ensures { OnOk result ((body : BodyOf) → IsExplained body past.now target facts.now
        → IsReasonFor (task_of enforcement.now body) past.now target reason.new.items) }
{
    deny_both(past, enforcement, facts, reason)?;
    reason.push(target)?;
    Ok(())
}

/// Fills a list anew with the negations of facts and of all enforcement atoms but one.
pub(crate) fn deny_others(
    past: &Before,
    enforcement: &[Atom],
    place: usize,
    facts: &[Atom],
    reason: &mut Vec<Atom>,
) -> Result<(), AllocError>
    requires place { place < length enforcement.now }
    requires enforcement { AreFacts past.now (but enforcement.now place) }
    requires facts { AreFacts past.now facts.now }
    ensures { OnOk result (DeniesFacts past.now (but enforcement.now place ++ facts.now) [] reason.new.items) }
{
    reason.clear();
    deny(past, &enforcement[..place], reason)?;
    deny(past, &enforcement[place + 1..], reason)?;
    deny(past, facts, reason)
}

/// Adds the subjects that a task reads at the end of a list: those of its enforcement atoms first.
pub(crate) fn push_all_subjects<R: Rule>(
    enforcement: &[Atom],
    rule: &R,
    subjects: &mut Vec<u32>,
) -> Result<(), AllocError>
    ensures { OnOk result (subjects.new.items
        ≡ subjects.old.items ++ subjects_of (task_of enforcement.now (R.body rule.now))) }
{
    push_atom_subjects(enforcement, subjects)?;
    rule.push_subjects(subjects)
}

/// Whether a task reads a subject. The list is room for the subjects that it reads.
pub(crate) fn reads<R: Rule>(
    enforcement: &[Atom],
    rule: &R,
    subject: u32,
    subjects: &mut Vec<u32>,
) -> Result<bool, AllocError>
    ensures { result ≡ Ok true → Contains (subjects_of (task_of enforcement.now (R.body rule.now))) subject }
{
    subjects.clear();
    push_all_subjects(enforcement, rule, subjects)?;
    Ok(subjects.contains(&subject))
}

/// Fills a list anew with the negation of each of the first `place` entries about some subjects.
pub(crate) fn deny_all(
    store: &Store,
    place: usize,
    subjects: &[u32],
    reason: &mut Vec<Atom>,
) -> Result<(), AllocError>
    requires place { place ≤ length store.now.entries }
    requires subjects { All (λ i. i < length store.now.first) subjects.now }
    ensures { OnOk result (DeniesPast store.now place subjects.now [] reason.new.items) }
{
    reason.clear();
    for subject in subjects {
        deny_past(store, place, *subject, reason)?;
    }
    Ok(())
}
