//! The propagator of a rule.

use crate::explain::{Asked, explain_by_past, explain_by_rule};
use crate::narrow::{Header, Room};
use crate::reasons::push_all_subjects;
use crate::settle::visit;
use cps_literal::Atom;
use cps_propagate::{Answer, Propagator, Wake};
use cps_rule::{Narrowing, Rule};
use cps_trail::Store;
use std::alloc::{AllocError, Global};
use std::marker::Model;
use std::mem::swap;

/// A task that a rule looks at, in force where its enforcement literals are true. Contracts see the task.
pub struct Enforced<R: Rule> {
    alloc: Global,
    enforcement: Vec<Atom>,
    rule: R,
    /// Room for what a look finds.
    found: Vec<Narrowing>,
    room: Room,
}

// Written out, so that crates above do not prove it anew.
impl<R: Rule> Drop for Enforced<R> {
    fn drop(self) {
        let Enforced {
            alloc: _alloc,
            enforcement: _enforcement,
            rule: _rule,
            found: _found,
            room: _room,
        } = self;
    }
}

impl<R: Rule> Model for Enforced<R> {
    ghost use Rattle.cps_instance.specs.declared.task.Task.{Task};

    ghost Value = { Task };

    ghost use Rattle.cps_enforce.specs.Reasons.{task_of};
    ghost use Rattle.cps_enforce.specs.Tasks.{IsCostly};

    ghost view = { λ e. task_of e.enforcement.items (R.body e.rule) };

    ghost invariant = { λ e. IsCostly (R.body e.rule) };
}

impl<R: Rule> Enforced<R> {
    ghost use Rattle.std.specs.Prelude.{◌≡◌, IfOk};
    ghost use Rattle.cps_enforce.specs.Reasons.{task_of};
    ghost use Rattle.cps_enforce.specs.Tasks.{IsCostly};

    /// The propagator of a rule's body, in force where these atoms are true. The body is neither an objective's cut nor
    /// of a cheap kind.
    pub fn new(alloc: Global, enforcement: &[Atom], rule: R) -> Result<Self, AllocError>
        requires { IsCostly (R.body rule) }
        ensures { IfOk result (λ propagator. propagator ≡ task_of enforcement.now (R.body rule)) }
    {
        Ok(Enforced {
            alloc,
            enforcement: Vec::from_slice(alloc, enforcement)?,
            rule,
            found: Vec::new(alloc),
            room: Room::new(alloc),
        })
    }
}

impl<R: Rule> Propagator for Enforced<R> {
    ghost use Rattle.cps_propagate.specs.Recalling.{no_memory};

    ghost task = { λ t. t };

    ghost memory = { λ _. no_memory };

    fn propagate(
        &mut self,
        number: u32,
        store: &mut Store,
        _standing: Option<usize>,
        conflict: &mut Vec<Atom>,
    ) -> Result<Answer, AllocError> {
        let header = Header {
            number,
            enforcement: self.enforcement.as_slice(),
        };
        match visit(
            &header,
            &mut self.rule,
            &mut self.found,
            &mut self.room,
            store,
        )? {
            Answer::NoConflict => Ok(Answer::NoConflict),
            Answer::Conflict => {
                swap(&mut self.room.conflict, conflict);
                Ok(Answer::Conflict)
            }
        }
    }

    fn explain_into(
        &self,
        store: &Store,
        entry: usize,
        reason: &mut Vec<Atom>,
    ) -> Result<(), AllocError> {
        let enforcement = self.enforcement.as_slice();
        let asked = Asked { store, entry };
        if explain_by_rule(self.alloc, &asked, enforcement, &self.rule, reason)? {
            return Ok(());
        }
        explain_by_past(self.alloc, &asked, enforcement, &self.rule, reason)
    }

    fn lower(&mut self, _upper: i64) {
        // Reading the rule gives the proof the invariant: the body is no cut and not of a cheap kind.
        let _ = &self.rule;
    }

    fn push_subjects(&self, subjects: &mut Vec<u32>) -> Result<(), AllocError> {
        push_all_subjects(self.enforcement.as_slice(), &self.rule, subjects)
    }

    fn wakes_on(&self, _subject: u32, _place: usize) -> Wake {
        Wake::Any
    }

    fn is_cut(&self) -> bool {
        // Reading the rule gives the proof the invariant: the body is no cut and not of a cheap kind.
        let _ = &self.rule;
        false
    }

    fn remembers(&self) -> bool {
        false
    }

    fn is_cheap(&self) -> bool {
        // Reading the rule gives the proof the invariant: the body is no cut and not of a cheap kind.
        let _ = &self.rule;
        false
    }
}
