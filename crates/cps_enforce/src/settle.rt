//! A visit: what a task does to a store, by its enforcement atoms.

ghost use Rattle.std.specs.Prelude.{◌≡◌, OnOk, IfOk};
ghost use Rattle.cps_instance.specs.Tasks.{HoldsTask};
ghost use Rattle.cps_instance.specs.Fitting.{IsFitting};
ghost use Rattle.cps_trail.specs.Adds.{Infers};
ghost use Rattle.cps_trail.specs.Notes.{ByTask};
ghost use Rattle.cps_propagate.specs.Conflicts.{AnswersBy, as_step};
ghost use Rattle.cps_enforce.specs.Force.{IsOpenAt};
ghost use Rattle.cps_enforce.specs.Reasons.{task_of};
ghost use Rattle.cps_enforce.specs.Settling.{IsTaskInForce, IsBlocked, IsRestingBody, IsBodySettled};

use crate::force::{Force, force_of};
use crate::narrow::{Header, Room, pass};
use cps_domain::Cut;
use cps_propagate::Answer;
use cps_rule::{Look, Narrowing, Rule};
use cps_trail::{Note, Store};
use std::alloc::AllocError;

/// Looks, and makes true what the body gives, until that narrows nothing.
fn settle<R: Rule>(
    header: &Header,
    rule: &mut R,
    found: &mut Vec<Narrowing>,
    room: &mut Room,
    store: &mut Store,
) -> Result<Answer, AllocError>
    requires force { IsTaskInForce store.old header.now.enforcement.now (R.body rule.old) }
    ensures keeps { R.body rule.new ≡ R.body rule.old }
    ensures infers { OnOk result (Infers
        (ByTask header.now.number (HoldsTask
        (task_of header.now.enforcement.now (R.body rule.old)))) store.old store.new) }
    ensures answers { IfOk result (λ answer. AnswersBy
        (task_of header.now.enforcement.now (R.body rule.old))
        store.new (as_step answer room.new.conflict.items)) }
    ensures rest { result ≡ Ok Answer.NoConflict → IsRestingBody (R.body rule.old) store.new }
{
    loop {
        let before = store.entries().len();
        match pass(header, rule, found, room, store)? {
            Answer::NoConflict => {}
            Answer::Conflict => return Ok(Answer::Conflict),
        }
        if store.entries().len() == before {
            return Ok(Answer::NoConflict);
        }
    }
}

/// Makes the one open enforcement atom false where the body cannot hold.
fn disable<R: Rule>(
    header: &Header,
    place: usize,
    rule: &mut R,
    found: &mut Vec<Narrowing>,
    store: &mut Store,
) -> Result<(), AllocError>
    requires fits { IsFitting store.old.first (task_of header.now.enforcement.now (R.body rule.old)) }
    requires open { IsOpenAt store.old header.now.enforcement.now place }
    ensures keeps { R.body rule.new ≡ R.body rule.old }
    ensures infers { OnOk result (Infers
        (ByTask header.now.number (HoldsTask
        (task_of header.now.enforcement.now (R.body rule.old)))) store.old store.new) }
    ensures aside { OnOk result (IsBlocked store.new header.now.enforcement.now place (R.body rule.old)) }
{
    let hint = match rule.look(store, found)? {
        Look::Possible => return Ok(()),
        Look::Impossible(hint) => hint,
    };
    let negation = header.enforcement[place].negate();
    let note = Note::Task {
        task: header.number,
        a: hint.a,
        b: hint.b,
    };
    match store.imply_later(negation, note)? {
        Cut::Narrowed | Cut::NoChange => {}
        // The enforcement atom is open, so its negation is not false.
        Cut::Wiped => unreachable!(),
    }
    // Reading the entries gives the proof the store's invariant: each subject has a value left, so an atom that is
    // false is not true.
    let _entries = store.entries();
    Ok(())
}

/// Does what a task does to a store, by its enforcement atoms.
pub(crate) fn visit<R: Rule>(
    header: &Header,
    rule: &mut R,
    found: &mut Vec<Narrowing>,
    room: &mut Room,
    store: &mut Store,
) -> Result<Answer, AllocError>
    requires fits { IsFitting store.old.first (task_of header.now.enforcement.now (R.body rule.old)) }
    ensures keeps { R.body rule.new ≡ R.body rule.old }
    ensures infers { OnOk result (Infers
        (ByTask header.now.number (HoldsTask
        (task_of header.now.enforcement.now (R.body rule.old)))) store.old store.new) }
    ensures answers { IfOk result (λ answer. AnswersBy
        (task_of header.now.enforcement.now (R.body rule.old))
        store.new (as_step answer room.new.conflict.items)) }
    ensures settled { result ≡ Ok Answer.NoConflict
        → IsBodySettled store.new header.now.enforcement.now (R.body rule.old) }
{
    match force_of(&store.present(), header.enforcement) {
        Force::Idle => Ok(Answer::NoConflict),
        Force::Open(place) => {
            disable(header, place, rule, found, store)?;
            Ok(Answer::NoConflict)
        }
        Force::On => settle(header, rule, found, room, store),
    }
}
