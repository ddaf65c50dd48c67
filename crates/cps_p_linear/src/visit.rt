//! A visit: what a sum does to a store, by its enforcement atoms.
//!
//! If all are true, passes over the sum are made until one narrows nothing. If one is open and no admitted sum is left,
//! that one is made false. In every other case nothing is done: a sum says nothing as long as two atoms are open.
ghost use Rattle.std.specs.Prelude.{◌≡◌, length, IfOk, OnOk, IfSome};
ghost use Rattle.cps_trail.specs.Adds.{Infers};
ghost use Rattle.cps_trail.specs.Notes.{ByTask};
ghost use Rattle.cps_propagate.specs.Conflicts.{as_step};
ghost use Rattle.cps_propagate.specs.Recalling.{Recalls};
ghost use Rattle.cps_p_linear.specs.Spreading.{IsSumNow};
ghost use Rattle.cps_p_linear.specs.Gauging.{memory_of, IsGaugeOf};
ghost use Rattle.cps_p_linear.specs.Measuring.{Asks, AnswersBySum};
ghost use Rattle.cps_p_linear.specs.Passing.{IsSumInRange};
ghost use Rattle.cps_p_linear.specs.Force.{CanNegateEach, IsOneOpen, IsSumBlocked, IsSumSettled};

use crate::ends::Ends;
use crate::force::{Force, force_of};
use crate::gauge::look;
use crate::pass::pass;
use crate::sum::{Scratch, SumTask};
use cps_domain::Cut;
use cps_propagate::Answer;
use cps_trail::{Note, Store};
use std::alloc::AllocError;

/// Makes the one open enforcement atom false if no admitted sum lies between the sum's ends.
fn disable(
    number: u32,
    store: &mut Store,
    task: &SumTask,
    sum: &Ends,
    place: usize,
) -> Result<(), AllocError>
    requires range { IsSumInRange store.old.first task.now.terms.now task.now.admitted.now }
    requires negatable { CanNegateEach store.old.first task.now.enforcement.now }
    requires open { IsOneOpen store.old task.now.enforcement.now place }
    requires sum { IsSumNow store.old task.now.terms.now sum.now }
    ensures infers { OnOk result (Infers (ByTask number (Asks task.now)) store.old store.new) }
    ensures aside { OnOk result
        (IsSumBlocked store.new task.now.enforcement.now place task.now.terms.now task.now.admitted.now) }
{
    match task.admitted.between(sum) {
        Some(_) => return Ok(()),
        None => {}
    }
    let negation = task.enforcement[place].negate();
    // The note's second number is 1 for the place of an enforcement atom, and 0 for that of a term (`explain_by_note`).
    let note = Note::Task {
        task: number,
        a: place as i64,
        b: 1,
    };
    match store.imply_later(negation, note)? {
        Cut::Narrowed | Cut::NoChange => {}
        // The enforcement atom is open, so its negation is not false.
        Cut::Wiped => unreachable!(),
    }
    // Reading the entries gives the proof the store's invariant: each subject has a value left, so an atom that is
    // false is not true.
    let _entries = store.entries();
    Ok(())
}

/// Does what a sum does to a store, by its enforcement atoms. The clause of a conflict is left as the scratch's reason.
pub(crate) fn visit(
    number: u32,
    store: &mut Store,
    task: &SumTask,
    standing: Option<usize>,
    scratch: &mut Scratch,
) -> Result<Answer, AllocError>
    requires range { IsSumInRange store.old.first task.now.terms.now task.now.admitted.now }
    requires negatable { CanNegateEach store.old.first task.now.enforcement.now }
    requires gauge { IsGaugeOf task.now.terms.now scratch.old.gauge }
    requires recalls { IfSome standing (Recalls (memory_of task.now.terms.now scratch.old.gauge) store.old) }
    ensures gauge { IsGaugeOf task.now.terms.now scratch.new.gauge }
    ensures recalls { OnOk result (Recalls (memory_of task.now.terms.now scratch.new.gauge) store.new
        (length store.new.entries)) }
    ensures infers { OnOk result (Infers (ByTask number (Asks task.now)) store.old store.new) }
    ensures answers { IfOk result (λ answer.
        AnswersBySum task.now store.new (as_step answer scratch.new.facts.reason.items)) }
    ensures settled { result ≡ Ok Answer.NoConflict
        → IsSumSettled store.new task.now.enforcement.now task.now.terms.now task.now.admitted.now }
{
    match force_of(store, task.enforcement) {
        Force::Idle => {
            scratch.gauge.go_back(standing);
            return Ok(Answer::NoConflict);
        }
        Force::Open(place) => {
            let sum = look(store, task, standing, &mut scratch.gauge)?;
            disable(number, store, task, &sum, place)?;
            return Ok(Answer::NoConflict);
        }
        Force::On => {}
    }
    let mut standing = standing;
    loop {
        let before = store.entries().len();
        match pass(number, store, task, standing, scratch)? {
            Answer::NoConflict => {}
            Answer::Conflict => return Ok(Answer::Conflict),
        }
        if store.entries().len() == before {
            return Ok(Answer::NoConflict);
        }
        standing = Some(before);
    }
}
