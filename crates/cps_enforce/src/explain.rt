//! Reasons of a task's narrowings, made when they are asked for from the domains as they stood before.
//!
//! A rule gives facts about its body alone. Where the task was in force, the facts and the enforcement atoms, all true
//! then, make the reason. Where one enforcement atom was open, what was narrowed is that atom's negation, and facts
//! beside which the body cannot hold make the reason with the other enforcement atoms. Where a rule gives no facts, the
//! reason names all that was narrowed before of what the task reads: longer, and never wrong. Nothing is kept here; who
//! asks keeps what it asked for.

ghost use Rattle.std.specs.Prelude.{◌≡◌, ◌<◌, true, Ok, OnOk, length};
ghost use Rattle.cps_instance.specs.Tasks.{HoldsTask};
ghost use Rattle.cps_instance.specs.Fitting.{IsFitting};
ghost use Rattle.cps_trail.specs.Notes.{IsForcedAt};
ghost use Rattle.cps_propagate.specs.Notes.{IsReasonBy};
ghost use Rattle.cps_enforce.specs.Force.{IsOpenAt};
ghost use Rattle.cps_enforce.specs.Reasons.{task_of, IsReasonFor};
ghost use Rattle.cps_enforce.specs.Settling.{IsTaskInForce};

use crate::force::{Force, force_of};
use crate::reasons::{deny_all, deny_others, give_by, push_all_subjects};
use cps_literal::Atom;
use cps_propagate::conclude;
use cps_rule::{Hint, Narrowing, Rule};
use cps_trail::{Before, Store};
use std::alloc::{AllocError, Global};

/// Facts and the reason in work.
#[derive(Drop)]
struct Draft {
    facts: Vec<Atom>,
    reason: Vec<Atom>,
}

/// An entry of a store whose reason is asked for.
#[derive(Clone, Copy)]
pub(crate) struct Asked<'a> {
    pub(crate) store: &'a Store,
    pub(crate) entry: usize,
}

/// Enforcement atoms of which the one at a place alone was open.
#[derive(Clone, Copy)]
struct Waiting<'a> {
    enforcement: &'a [Atom],
    place: usize,
}

/// The reason of an atom where the task was in force, if the rule gives facts for it.
fn explain_given<R: Rule>(
    past: &Before,
    enforcement: &[Atom],
    rule: &R,
    narrowing: &Narrowing,
    draft: &mut Draft,
) -> Result<bool, AllocError>
    requires force { IsTaskInForce past.now enforcement.now (R.body rule.now) }
    requires subject { narrowing.now.target.subject < length past.now.first }
    ensures { result ≡ Ok true → IsReasonFor
        (task_of enforcement.now (R.body rule.now)) past.now narrowing.now.target draft.new.reason.items }
{
    let target = narrowing.target;
    let is_explained = rule.explain(past, target, narrowing.hint, &mut draft.facts)?;
    if !is_explained {
        return Ok(false);
    }
    let facts = draft.facts.as_slice();
    give_by(past, enforcement, facts, target, &mut draft.reason)?;
    Ok(true)
}

/// The reason of the negation of the one enforcement atom that was open, if the rule gives facts beside which the body
/// cannot hold.
fn explain_off<R: Rule>(
    past: &Before,
    waiting: &Waiting,
    rule: &R,
    narrowing: &Narrowing,
    draft: &mut Draft,
) -> Result<bool, AllocError>
    requires fits { IsFitting past.now.first (task_of waiting.now.enforcement.now (R.body rule.now)) }
    requires open { IsOpenAt past.now waiting.now.enforcement.now waiting.now.place }
    requires subject { narrowing.now.target.subject < length past.now.first }
    ensures { result ≡ Ok true → IsReasonFor
        (task_of waiting.now.enforcement.now (R.body rule.now))
        past.now narrowing.now.target draft.new.reason.items }
{
    let enforcement = waiting.enforcement;
    let place = waiting.place;
    let target = narrowing.target;
    let negation = enforcement[place].negate();
    if !negation.implies(target) {
        return Ok(false);
    }
    let is_refuted = rule.refute(past, narrowing.hint, &mut draft.facts)?;
    if !is_refuted {
        return Ok(false);
    }
    let facts = draft.facts.as_slice();
    deny_others(past, enforcement, place, facts, &mut draft.reason)?;
    draft.reason.push(target)?;
    Ok(true)
}

/// The reason of an atom, if the rule gives one.
fn explain_before<R: Rule>(
    past: &Before,
    enforcement: &[Atom],
    rule: &R,
    narrowing: &Narrowing,
    draft: &mut Draft,
) -> Result<bool, AllocError>
    requires fits { IsFitting past.now.first (task_of enforcement.now (R.body rule.now)) }
    requires subject { narrowing.now.target.subject < length past.now.first }
    ensures { result ≡ Ok true → IsReasonFor
        (task_of enforcement.now (R.body rule.now)) past.now narrowing.now.target draft.new.reason.items }
{
    match force_of(past, enforcement) {
        Force::On => explain_given(past, enforcement, rule, narrowing, draft),
        Force::Open(place) => {
            let waiting = Waiting { enforcement, place };
            explain_off(past, &waiting, rule, narrowing, draft)
        }
        Force::Idle => Ok(false),
    }
}

/// Drafts the reason of an entry, if the rule gives one.
fn draft_entry<R: Rule>(
    asked: &Asked,
    enforcement: &[Atom],
    rule: &R,
    draft: &mut Draft,
) -> Result<bool, AllocError>
    requires within { asked.now.entry < length asked.now.store.now.entries }
    requires fits { IsFitting asked.now.store.now.first (task_of enforcement.now (R.body rule.now)) }
    ensures { result ≡ Ok true → IsReasonBy
        (task_of enforcement.now (R.body rule.now))
        asked.now.store.now asked.now.entry draft.new.reason.items }
{
    let store = asked.store;
    let entry = asked.entry;
    let shown = store.entries()[entry];
    let (a, b) = shown.reason.witness();
    let narrowing = Narrowing {
        target: shown.atom,
        hint: Hint { a, b },
    };
    let past = store.before(entry);
    explain_before(&past, enforcement, rule, &narrowing, draft)
}

/// Puts the reason of an entry in the place of what a list holds, if the rule gives one.
pub(crate) fn explain_by_rule<R: Rule>(
    alloc: Global,
    asked: &Asked,
    enforcement: &[Atom],
    rule: &R,
    reason: &mut Vec<Atom>,
) -> Result<bool, AllocError>
    requires within { asked.now.entry < length asked.now.store.now.entries }
    requires fits { IsFitting asked.now.store.now.first (task_of enforcement.now (R.body rule.now)) }
    ensures { result ≡ Ok true → IsReasonBy
        (task_of enforcement.now (R.body rule.now)) asked.now.store.now asked.now.entry reason.new.items }
{
    let mut draft = Draft {
        facts: Vec::new(alloc),
        reason: Vec::new(alloc),
    };
    let is_made = draft_entry(asked, enforcement, rule, &mut draft)?;
    if !is_made {
        return Ok(false);
    }
    reason.clear();
    reason.extend_from_slice(draft.reason.as_slice())?;
    Ok(true)
}

/// Puts the reason of an entry that names all that was narrowed before of what the task reads in the place of what a
/// list holds.
pub(crate) fn explain_by_past<R: Rule>(
    alloc: Global,
    asked: &Asked,
    enforcement: &[Atom],
    rule: &R,
    reason: &mut Vec<Atom>,
) -> Result<(), AllocError>
    requires within { asked.now.entry < length asked.now.store.now.entries }
    requires fits { IsFitting asked.now.store.now.first (task_of enforcement.now (R.body rule.now)) }
    requires forced { IsForcedAt
        (HoldsTask (task_of enforcement.now (R.body rule.now))) asked.now.store.now asked.now.entry }
    ensures { OnOk result (IsReasonBy
        (task_of enforcement.now (R.body rule.now)) asked.now.store.now asked.now.entry reason.new.items) }
{
    let mut subjects = Vec::new(alloc);
    push_all_subjects(enforcement, rule, &mut subjects)?;
    deny_all(asked.store, asked.entry, subjects.as_slice(), reason)?;
    conclude(asked.store, asked.entry, reason)
}
