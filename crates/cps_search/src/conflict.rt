//! What a search does after a conflict: it ends if no solution is left below z, or if the budget is spent, and else
//! learns from the conflict, and shares what it learnt if that is short.

ghost use Rattle.std.specs.Prelude.{◌≡◌, ◌↔◌, ◌<◌, ◌≤◌, ◌^◌, ℕ, [], length, OnOk, IfOk, IfSome, IsNone, IsTrue, Some, is_some, All, Ok};
ghost use Rattle.cps_trail.specs.Trail.{IsFalseNow};
ghost use Rattle.cps_conflict.specs.Conflicts.{Asserts};
ghost use Rattle.cps_clauses.specs.Quiet.{Fits};
ghost use Rattle.cps_clauses.specs.Falls.{IsAtomValue};
ghost use Rattle.cps_search.specs.Lessons.{GoesBack};
ghost use Rattle.cps_search.specs.Shelves.{Learns, in_force_on};
ghost use Rattle.cps_search.specs.Giving.{IsConflictOfNamed, IsGivenConflict};
ghost use Rattle.cps_search.specs.Logging.{HasLogged, IsClosedIfKept, IsGivenByNamed, LogsLearntIfKept};
ghost use Rattle.cps_search.specs.Searches.{IsNewClause, IsSoundSearch, NoFreeBelow};
ghost use Rattle.cps_search.specs.Exhausting.{IsConflictAtBottom};
ghost use Rattle.cps_search.specs.Moves.{ended_by, moved, with_phase, with_learnt};
ghost use Rattle.cps_search.specs.Keeps.{Keeps};
ghost use Rattle.cps_search.specs.Turns.{IsShort, IsPutOnBoard};
ghost use Rattle.cps_search.specs.Stepping.{IsAnalysed, IsCausedFrom};

use crate::end::{End, Phase};
use crate::givers::Givers;
use crate::import::share_short;
use crate::learn::{analyse, learn_clause};
use crate::log::{LogSource, close_on_conflict, is_closed, log_learnt};
use crate::searcher::Searcher;
use crate::settle::Conflict;
use crate::turn::Turn;
use cps_conflict::Learnt;
use cps_literal::{Atom, Clause};
use cps_model::Refs;
use cps_port::Port;
use cps_propagate::Propagator;
use std::alloc::AllocError;

impl<'a, P: Propagator> Searcher<'a, P> {
    /// Goes back to the level at which a conflict became false, and answers what it teaches; `None` if no solution is
    /// below z, whatever is assumed.
    fn analyse(&mut self, conflict: &[Atom]) -> Result<Option<Learnt>, AllocError>
        requires sound { IsSoundSearch self.old }
        requires conflict { IsGivenConflict self.old.tasks (in_force_on self.old.base) self.old.store conflict.now }
        ensures is { OnOk result (self.new ≡ moved self.old self.new.store self.new.rested) }
        ensures back { OnOk result ((level : ℕ) × GoesBack self.old.store self.new.store level) }
        ensures false_now { All (IsFalseNow self.new.store) conflict.now }
        ensures none { IfOk result (λ o. IsNone o → NoFreeBelow self.old.instance.model self.old.z) }
        ensures bottom { IfOk result (λ o. IsNone o → IsConflictAtBottom self.old) }
        ensures taught { IfOk result (λ o. IfSome o
            (λ l. IsAnalysed self.old self.new.store l.clause l.assert l.back_level)) }
        ensures sound { OnOk result (IsSoundSearch self.new) }
    {
        self.phase = Phase::Stepping;
        analyse(
            &mut self.analyser,
            &Givers {
                engine: &self.engine,
                clauses: &self.clauses,
            },
            &mut self.store,
            &mut self.rested,
            conflict,
        )
    }

    /// Whether as many clauses were learnt as the budget allows.
    fn is_spent(&self) -> bool
        ensures { IsTrue result ↔ (self.now.budget ≡ Some self.now.tally) }
    {
        match self.budget {
            Some(budget) => budget == self.tally,
            None => false,
        }
    }

    /// Ends with the clause that one more conflict would have added, as the budget is spent.
    fn spend(&mut self, clause: Clause) -> Result<Turn, AllocError>
        requires sound { IsSoundSearch self.old }
        requires new { IsNewClause self.old.instance (in_force_on self.old.base) clause self.old.z }
        ensures turn { IfOk result (λ turn. turn ≡ Turn.Spent clause self.old.z) }
        ensures is { OnOk result (self.new ≡ with_phase self.old self.old.raised
            (Phase.Over (End.Spent clause self.old.z))) }
        ensures sound { OnOk result (IsSoundSearch self.new) }
    {
        if is_closed(&self.log) {
            return Err(AllocError);
        }
        let copy = Clause::from_slice(self.alloc, clause.as_slice())?;
        self.phase = Phase::Over(End::Spent(copy, self.z));
        Ok(Turn::Spent(clause, self.z))
    }

    /// Writes a learnt clause to the log, if one is kept, before it is added.
    fn write_learnt(&mut self, conflict: &Conflict, learnt: &Learnt) -> Result<(), AllocError>
        requires sound { IsSoundSearch self.old }
        requires subjects { All (λ t. t.subject < length self.old.store.first) conflict.now.clause }
        requires false_now { All (IsFalseNow self.old.store) conflict.now.clause }
        requires given { IsGivenByNamed self.old.tasks self.old.store.first conflict.now.task conflict.now.clause }
        requires back { learnt.now.back_level ≤ self.old.store.level }
        ensures is { OnOk result (self.new ≡ record self.old { log = self.new.log }) }
        ensures logs { OnOk result (LogsLearntIfKept self.old.instance self.old.z learnt.now.clause self.old.log self.new.log) }
    {
        log_learnt(
            &mut self.log,
            &LogSource {
                alloc: self.alloc,
                instance: &self.instance,
                store: &self.store,
                givers: Givers {
                    engine: &self.engine,
                    clauses: &self.clauses,
                },
            },
            &mut self.analyser,
            conflict,
            learnt,
        )?;
        Ok(())
    }

    /// Closes the log, if one is kept, on a conflict that is false at level 0. There is no core.
    fn close_on_conflict(&mut self, conflict: &Conflict) -> Result<(), AllocError>
        requires sound { IsSoundSearch self.old }
        requires given { IsGivenByNamed self.old.tasks self.old.store.first conflict.now.task conflict.now.clause }
        ensures is { OnOk result (self.new ≡ ended_by self.old [] self.new.log) }
        ensures closed { OnOk result (IsClosedIfKept self.new.log) }
        ensures logs { OnOk result (is_some self.new.log ≡ is_some self.old.log) }
        ensures sound { OnOk result (IsSoundSearch self.new) }
    {
        self.phase = Phase::Stepping;
        self.core = Refs::new(self.alloc);
        close_on_conflict(
            &mut self.log,
            &LogSource {
                alloc: self.alloc,
                instance: &self.instance,
                store: &self.store,
                givers: Givers {
                    engine: &self.engine,
                    clauses: &self.clauses,
                },
            },
            conflict,
        )?;
        Ok(())
    }

    /// Shares a learnt clause if it is short, goes back as far as it says, drops clauses if that is due, and adds it.
    /// The log has it already.
    fn learn_clause<Q: Port>(&mut self, port: &mut Q, learnt: Learnt) -> Result<(), AllocError>
        requires sound { HasLogged self.old learnt.clause }
        requires model { Q.model port.old ≡ self.old.instance.model }
        requires few { length self.old.base.clauses < 2 ^ 32 }
        requires budget { IfSome self.old.budget (λ budget. self.old.tally < budget) }
        requires new { IsNewClause self.old.instance (in_force_on self.old.base) learnt.clause self.old.z }
        requires fits { Fits self.old.store.first learnt.clause }
        requires values { All (λ t. IsAtomValue t.value) learnt.clause }
        requires asserts { Asserts self.old.store learnt.clause learnt.assert learnt.back_level }
        ensures keeps { Keeps Q.model Q.rows Q.stays port.old port.new }
        ensures bounds { (Q.part port.new).bounds ≡ (Q.part port.old).bounds }
        ensures shared { IsShort self.old.instance.model learnt.clause
            → IsPutOnBoard (Q.rows port.old) self.old.z learnt.clause (Q.part port.old).board (Q.part port.new).board }
        ensures unshared { (IsShort self.old.instance.model learnt.clause → ⊥)
            → (Q.part port.new).board ≡ (Q.part port.old).board }
        ensures is { OnOk result (self.new
            ≡ with_learnt (moved self.old self.new.store self.new.rested) self.new.base self.old.log) }
        ensures learns { OnOk result (Learns self.old.base self.new.base self.new.store learnt.clause self.old.z) }
        ensures back { OnOk result (GoesBack self.old.store self.new.store learnt.back_level) }
        ensures sound { OnOk result (IsSoundSearch self.new) }
    {
        self.phase = Phase::Stepping;
        let count = self.instance.variable_count();
        // The number that the clause gets below; drops leave it.
        let number = self.clauses.len() as u32;
        let row = share_short(port, count, self.z, learnt.clause.as_slice());
        self.own_rows.add(row, number)?;
        learn_clause(
            &mut self.clauses,
            &mut self.store,
            &mut self.rested,
            learnt,
            self.z,
        )?;
        self.tally += 1;
        Ok(())
    }

    /// Goes on after a conflict: ends if no solution is left below z, or if the budget is spent; else learns.
    pub fn learn<Q: Port>(
        &mut self,
        port: &mut Q,
        conflict: &Conflict,
    ) -> Result<Option<Turn>, AllocError>
        requires sound { IsSoundSearch self.old }
        requires model { Q.model port.old ≡ self.old.instance.model }
        requires few { length self.old.base.clauses < 2 ^ 32 }
        requires conflict { IsGivenConflict self.old.tasks (in_force_on self.old.base) self.old.store
            conflict.now.clause }
        requires named { IsConflictOfNamed self.old.tasks self.old.store conflict.now.task conflict.now.clause }
        ensures keeps { Keeps Q.model Q.rows Q.stays port.old port.new }
        ensures cause { IfOk result (λ turn. IsCausedFrom self.old self.new (Q.rows port.old) (Q.part port.old)
            (Q.part port.new) turn) }
        ensures sound { OnOk result (IsSoundSearch self.new) }
    {
        let Some(learnt) = self.analyse(conflict.clause.as_slice())? else {
            self.close_on_conflict(conflict)?;
            self.exhaust(port);
            return Ok(Some(Turn::Exhausted));
        };
        if self.is_spent() {
            return Ok(Some(self.spend(learnt.clause)?));
        }
        self.write_learnt(conflict, &learnt)?;
        self.learn_clause(port, learnt)?;
        Ok(Some(Turn::Learnt))
    }
}
