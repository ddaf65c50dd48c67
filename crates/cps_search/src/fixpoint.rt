//! What a search does where inference came to rest: it ends where an assumption is false, offers a solution where all
//! variables are fixed, and else a decision is due.
//!
//! Inference comes to rest where neither clauses nor tasks, settled in turn (`settle_all`), narrow anything more. Only
//! there is a store without open variables known to hold a solution, since a task that is at rest over fixed subjects
//! is satisfied. Assumptions are looked at first: where one is false no solution is left below z, whatever is still
//! open, and values that make one false are no solution of the model.

ghost use Rattle.std.specs.Prelude.{◌≡◌, OnOk, IfOk, IfSome, IsNone, Some, is_some, Ok};
ghost use Rattle.cps_model.specs.Solutions.{objective_value, IsSolution};
ghost use Rattle.cps_trail.specs.Trail.{IsSoundTrail};
ghost use Rattle.cps_port.specs.Order.{IsBelow};
ghost use Rattle.cps_search.specs.Assumptions.{IsCoreBelow, IsAssumedNext, IsFailedAssumption, NoneFails, NoneIsOpen};
ghost use Rattle.cps_search.specs.Searches.{IsSettled, IsSoundSearch, NoneBelow};
ghost use Rattle.cps_search.specs.Exhausting.{IsCoreOf};
ghost use Rattle.cps_search.specs.Logging.{IsClosedIfKept};
ghost use Rattle.cps_search.specs.Moves.{below, ended_by};
ghost use Rattle.cps_search.specs.Keeps.{Keeps};
ghost use Rattle.cps_search.specs.Stepping.{IsCausedFrom, Offers};

use crate::assumptions::{atom_of, core_by_decisions, first_failed, first_open};
use crate::end::Phase;
use crate::found::{Found, read_solution};
use crate::givers::Givers;
use crate::log::{LogSource, close_on_assumption};
use crate::searcher::Searcher;
use crate::turn::Turn;
use cps_literal::Atom;
use cps_model::{Bound, Ints, Refs};
use cps_port::Port;
use cps_propagate::Propagator;
use std::alloc::AllocError;

/// The assumptions that a log may take where the search is below z: those of the core where no incumbent is known.
fn may_assume<'s>(z: Bound, assumptions: &'s [i32], core: &'s [i32]) -> &'s [i32]
    ensures { z ≡ Bound.Infinite → result.now ≡ core.now }
{
    match z {
        Bound::At(_) => assumptions,
        Bound::Infinite => core,
    }
}

impl<'a, P: Propagator> Searcher<'a, P> {
    /// The first assumption that is undecided.
    pub fn open_assumption(&self) -> Option<Atom>
        requires { IsSoundSearch self.now }
        ensures some { IfSome result (IsAssumedNext self.now.instance.model.assumptions self.now.store) }
        ensures none { IsNone result → NoneIsOpen self.now.instance.model.assumptions self.now.store }
    {
        first_open(self.instance.assumptions(), &self.store)
    }

    /// The number of the first assumption that is false.
    fn failed_assumption(&self) -> Option<usize>
        requires { IsSoundSearch self.now }
        ensures some { IfSome result (IsFailedAssumption self.now.instance.model.assumptions self.now.store) }
        ensures none { IsNone result → NoneFails self.now.instance.model.assumptions self.now.store }
    {
        first_failed(self.instance.assumptions(), &self.store)
    }

    /// The core of an assumption that is false, where no incumbent is known; else none.
    fn core_of(&self, failed: usize) -> Result<Refs, AllocError>
        requires sound { IsSoundSearch self.now }
        requires failed { IsFailedAssumption self.now.instance.model.assumptions self.now.store failed }
        ensures core { IfOk result (IsCoreOf self.now failed self.now.z) }
        ensures below { IfOk result (IsCoreBelow self.now.instance.model self.now.z) }
        ensures none { OnOk result (NoneBelow self.now.instance.model self.now.z) }
    {
        // Reading the entries gives the proof the store's invariant.
        let _ = self.store.entries();
        let assumptions = self.instance.assumptions();
        let decisions = self.decisions_behind(atom_of(assumptions[failed]))?;
        match self.z {
            Bound::At(_) => Ok(Refs::new(self.alloc)),
            Bound::Infinite => {
                let count = self.instance.variable_count();
                let core = core_by_decisions(
                    self.alloc,
                    assumptions,
                    count,
                    failed,
                    decisions.as_slice(),
                )?;
                Ok(Refs::from_vec(core))
            }
        }
    }

    /// Closes the log, if one is kept, where an assumption is false, and keeps the core.
    fn close_on_assumption(&mut self, failed: usize, core: Refs) -> Result<(), AllocError>
        requires sound { IsSoundSearch self.old }
        requires failed { IsFailedAssumption self.old.instance.model.assumptions self.old.store failed }
        ensures is { OnOk result (self.new ≡ ended_by self.old core self.new.log) }
        ensures closed { OnOk result (IsClosedIfKept self.new.log) }
        ensures logs { OnOk result (is_some self.new.log ≡ is_some self.old.log) }
        ensures sound { OnOk result (IsSoundSearch self.new) }
    {
        self.phase = Phase::Stepping;
        self.core = core;
        let assumptions = self.instance.assumptions();
        let assumed = may_assume(self.z, assumptions, self.core.as_slice());
        close_on_assumption(
            &mut self.log,
            &LogSource {
                alloc: self.alloc,
                instance: &self.instance,
                store: &self.store,
                givers: Givers {
                    engine: &self.engine,
                    clauses: &self.clauses,
                },
            },
            &mut self.analyser,
            atom_of(assumptions[failed]),
            assumed,
        )?;
        Ok(())
    }

    /// Ends where an assumption is false.
    fn fail<Q: Port>(&mut self, port: &mut Q, failed: usize) -> Result<Option<Turn>, AllocError>
        requires sound { IsSoundSearch self.old }
        requires model { Q.model port.old ≡ self.old.instance.model }
        requires settled { IsSettled self.old }
        requires failed { IsFailedAssumption self.old.instance.model.assumptions self.old.store failed }
        ensures keeps { Keeps Q.model Q.rows Q.stays port.old port.new }
        ensures cause { IfOk result (λ turn. IsCausedFrom self.old self.new (Q.rows port.old) (Q.part port.old)
            (Q.part port.new) turn) }
        ensures sound { OnOk result (IsSoundSearch self.new) }
    {
        let core = self.core_of(failed)?;
        self.close_on_assumption(failed, core)?;
        self.exhaust(port);
        Ok(Some(Turn::Exhausted))
    }

    /// Keeps and offers a solution below z, and lowers z to its objective.
    fn offer<Q: Port>(&mut self, port: &mut Q, found: Found)
        requires sound { IsSoundSearch self.old }
        requires model { Q.model port.old ≡ self.old.instance.model }
        requires solution { IsSolution self.old.instance.model found.values.items }
        requires objective { found.objective ≡ objective_value self.old.instance.model found.values.items }
        requires below { IsBelow found.objective self.old.z }
        ensures keeps { Keeps Q.model Q.rows Q.stays port.old port.new }
        ensures board { (Q.part port.new).board ≡ (Q.part port.old).board }
        ensures bounds { Offers (Bound.At found.objective) (Q.part port.old).bounds (Q.part port.new).bounds }
        ensures is { self.new ≡ record (below self.old (Bound.At found.objective)) {
          best = Some found.values.items;
        } }
        ensures sound { IsSoundSearch self.new }
    {
        port.offer(found.objective);
        self.lower_to(Bound::At(found.objective));
        self.best = Some(Ints::from_vec(found.values));
    }

    /// Goes on after inference came to rest and no assumption is false: offers a solution, or is to decide.
    fn offer_or_decide<Q: Port>(&mut self, port: &mut Q) -> Result<Option<Turn>, AllocError>
        requires sound { IsSoundSearch self.old }
        requires model { Q.model port.old ≡ self.old.instance.model }
        requires settled { IsSettled self.old }
        requires none_fails { NoneFails self.old.instance.model.assumptions self.old.store }
        requires store { IsSoundTrail self.old.store }
        ensures keeps { Keeps Q.model Q.rows Q.stays port.old port.new }
        ensures cause { IfOk result (λ turn. IsCausedFrom self.old self.new (Q.rows port.old) (Q.part port.old)
            (Q.part port.new) turn) }
        ensures sound { OnOk result (IsSoundSearch self.new) }
    {
        let Some(found) = read_solution(
            self.alloc,
            &self.instance,
            &self.store,
            &mut self.last_open,
        )?
        else {
            self.phase = Phase::Deciding;
            return Ok(None);
        };
        self.offer(port, found);
        Ok(Some(Turn::Found))
    }

    /// Goes on after inference came to rest: ends where an assumption is false, offers a solution, or is to decide.
    pub fn after_fixpoint<Q: Port>(&mut self, port: &mut Q) -> Result<Option<Turn>, AllocError>
        requires sound { IsSoundSearch self.old }
        requires model { Q.model port.old ≡ self.old.instance.model }
        requires settled { IsSettled self.old }
        requires store { IsSoundTrail self.old.store }
        ensures keeps { Keeps Q.model Q.rows Q.stays port.old port.new }
        ensures cause { IfOk result (λ turn. IsCausedFrom self.old self.new (Q.rows port.old) (Q.part port.old)
            (Q.part port.new) turn) }
        ensures sound { OnOk result (IsSoundSearch self.new) }
    {
        match self.failed_assumption() {
            Some(failed) => self.fail(port, failed),
            None => self.offer_or_decide(port),
        }
    }
}
