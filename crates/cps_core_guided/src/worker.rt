//! `CoreWorker`: a worker that raises the lower bound core by core.
//!
//! It is `Guided` with a flag that says whether memory ran out, as `Frame` is `Searcher` with one. It makes its first
//! form when it begins, and defines a sum for each term with a negative coefficient, so that every weight is at least
//! 0. The brancher goes by activity; it sees the model's variables alone, so the sums that are defined later do not
//! concern it.

ghost use Rattle.std.specs.Prelude.{◌≡◌, ◌≤◌, ◌<◌, ◌^◌, length, None, OnOk, OnErr, IfOk, IfSome, IsErr, IsNone, IsTrue, Some};
ghost use Rattle.cps_branch.specs.Guidances.{AreHintsOf, IsIdleByActivity};
ghost use Rattle.cps_search.specs.Keeps.{Keeps};
ghost use Rattle.cps_search.specs.Ends.{BrancherTurn, DecidedBy, HeardOne, IsOver};
ghost use Rattle.cps_core_guided.specs.Reforming.{IsSoundCore, whole};
ghost use Rattle.cps_core_guided.specs.CoreTurns.{BeginsCore, RunsCoreTo, RunsInCoreTurns, TakesCoreTurn, core_ending};

use crate::ended::CoreEnded;
use crate::first::{Beginning, begin};
use crate::guided::Guided;
use cps_branch::{ActivityBrancher, Brancher};
use cps_clauses::Journal;
use cps_instance::Instance;
use cps_model::Refs;
use cps_port::Port;
use cps_propagate::{Defining, Engine};
use cps_search::{End, Phase, Turn, WorkerKind, end_of};
use std::alloc::{AllocError, Global};
use std::marker::Model;

/// A search with the objective's form, and a brancher that chooses once all assumptions are true. Contracts see it as
/// the pair of both. Once an allocation has failed, every later call that may allocate fails too.
pub struct CoreWorker<'a, P: Defining, B: Brancher + Drop> {
    guided: Guided<'a, P, B>,
    /// Whether memory was refused.
    refused: bool,
}

// Written out, so that crates above do not prove it anew.
impl<P: Defining, B: Brancher + Drop> Drop for CoreWorker<'_, P, B> {
    fn drop(self) {
        let CoreWorker {
            guided: _guided,
            refused: _refused,
        } = self;
    }
}

impl<'a, P: Defining, B: Brancher + Drop> Model for CoreWorker<'a, P, B> {
    ghost use Rattle.cps_core_guided.specs.Reforming.{CoreSearch};

    ghost Value = { CoreSearch × B };

    ghost use Rattle.std.specs.Prelude.{◌≡◌, false};
    ghost use Rattle.cps_core_guided.specs.Guiding.{core_search_of, with_refused, Works};

    ghost view = { λ w. (with_refused (core_search_of w.guided) w.refused, w.guided.brancher) };

    ghost invariant = { λ w. w.refused ≡ false → (w.guided.frame.refused ≡ false)
        × Works B.scope B.agrees w.guided };
}

impl<'a, P: Defining> CoreWorker<'a, P, ActivityBrancher> {
    /// A worker that knows nothing yet. It learns from at most `budget` conflicts, at most 10^9, and ends where the two
    /// bounds meet within the gap. The engine has the instance's tasks, in order, and the instance has fewer than 2^30
    /// subjects.
    pub fn new(
        alloc: Global,
        instance: Instance<'a>,
        engine: Engine<P>,
        budget: u64,
        gap: u64,
    ) -> Result<Self, AllocError>
        requires tasks { engine.tasks ≡ instance.tasks }
        requires budget { budget ≤ 10 ^ 9 }
        requires few { length instance.domains < 2 ^ 30 }
        ensures begins { IfOk result (λ w. BeginsCore instance.entry gap budget w.0) }
        ensures hints { IfOk result (λ w. AreHintsOf w.0.search.instance w.1.hints) }
        ensures idle { IfOk result (λ w. IsIdleByActivity w.1) }
    {
        let brancher = ActivityBrancher::of(alloc, &instance)?;
        let Beginning {
            frame,
            reform,
            greatest,
        } = begin(alloc, instance, engine, budget, gap)?;
        Ok(CoreWorker {
            guided: Guided {
                alloc,
                frame,
                brancher,
                reform,
                sums: 0,
                greatest,
                raised: None,
                ended: false,
                core: Refs::new(alloc),
                kept: 0,
            },
            refused: false,
        })
    }
}

impl<'a, P: Defining, B: Brancher + Drop> CoreWorker<'a, P, B> {
    /// Takes a turn: the first that applies of these. The two bounds met; an entry of the board is taken; a conflict
    /// ends all, or spends the budget, or is learnt from; an assumption of the model is false and ends all; a solution
    /// is found; that of a term is false, and the objective is reformed, or no solution is left; an assumption of the
    /// model, or of a term, or else what the brancher chooses, is decided.
    pub fn turn<Q: Port>(&mut self, port: &mut Q) -> Result<Turn, AllocError>
        requires running { IsOver (whole self.old.0).phase → ⊥ }
        requires model { Q.model port.old ≡ self.old.0.search.instance.model }
        requires imported { self.old.0.search.imported ≤ length (Q.part port.old).board.taken }
        ensures keeps { Keeps Q.model Q.rows Q.stays port.old port.new }
        ensures turn { IfOk result (λ turn. TakesCoreTurn (B.chooses self.old.1) self.old.0 self.new.0
            (Q.rows port.old) (Q.part port.old) (Q.part port.new) turn) }
        ensures brancher { IfOk result (λ turn. BrancherTurn turn
            (HeardOne (λ clause restart. B.hears self.old.1 clause restart self.new.1)
            self.old.0.search self.new.0.search)
            (DecidedBy (B.stays self.old.1 self.new.1) (self.new.1 ≡ self.old.1)) (self.new.1 ≡ self.old.1)) }
        ensures guidance { B.guidance self.new.1 ≡ B.guidance self.old.1 }
        ensures sound { OnOk result (IsSoundCore self.old.0 × IsSoundCore self.new.0) }
        ensures refused { OnErr result (IsTrue self.new.0.search.refused) }
        ensures stays { IsTrue self.old.0.search.refused → IsErr result }
    {
        if self.refused {
            return Err(AllocError);
        }
        self.refused = true;
        let turn = self.guided.turn(port)?;
        self.refused = false;
        Ok(turn)
    }

    /// Takes turns until one ends the worker.
    pub fn run<Q: Port>(&mut self, port: &mut Q) -> Result<End, AllocError>
        requires running { IsOver (whole self.old.0).phase → ⊥ }
        requires model { Q.model port.old ≡ self.old.0.search.instance.model }
        requires imported { self.old.0.search.imported ≤ length (Q.part port.old).board.taken }
        ensures keeps { Keeps Q.model Q.rows Q.stays port.old port.new }
        ensures runs { IfOk result (λ end. RunsCoreTo self.old.0 self.new.0 (Q.part port.old) (Q.part port.new) end) }
        ensures turns { IfOk result (λ end. RunsInCoreTurns B.chooses B.hears B.stays
            (Q.rows port.old) self.old self.new (Q.part port.old) (Q.part port.new) end) }
        ensures guidance { B.guidance self.new.1 ≡ B.guidance self.old.1 }
        ensures sound { OnOk result (IsSoundCore self.new.0) }
        ensures refused { OnErr result (IsTrue self.new.0.search.refused) }
        ensures stays { IsTrue self.old.0.search.refused → IsErr result }
    {
        'turns: loop {
            let turn = self.turn(port)?;
            if let Some(end) = end_of(turn) {
                return Ok(end);
            }
        }
    }

    /// How many clauses were learnt.
    pub fn tally(&self) -> u64
        ensures { result ≡ self.now.0.search.tally }
    {
        self.guided.frame.tally()
    }

    /// What was learnt.
    pub fn journal(&self) -> &Journal
        ensures { result.now ≡ self.now.0.search.base.journal }
    {
        self.guided.frame.clauses().journal()
    }

    /// The best solution that was found.
    pub fn best(&self) -> Option<&[i64]>
        ensures none { IsNone result → IsNone self.now.0.search.best }
        ensures some { IfSome result (λ values. self.now.0.search.best ≡ Some values.now) }
    {
        self.guided.frame.best()
    }

    /// Assumptions that are sufficient for infeasibility, in the order of the model, where the worker is exhausted and
    /// no incumbent is known; else none.
    pub fn core(&self) -> &[i32]
        ensures { result.now ≡ (whole self.now.0).core }
    {
        if self.guided.ended {
            self.guided.core.as_slice()
        } else {
            self.guided.frame.core()
        }
    }

    /// The worker as others see it after it ended.
    pub fn finish(self) -> CoreEnded
        requires { IsOver (whole self.0).phase }
        ensures phase { (whole self.entry.0).phase ≡ Phase.Over result.end }
        ensures is { result ≡ core_ending result.end self.entry.0 }
    {
        let CoreWorker {
            guided,
            refused: _refused,
        } = self;
        let Guided {
            frame,
            raised,
            ended,
            core,
            ..
        } = guided;
        if ended {
            CoreEnded {
                ended: frame.finish(WorkerKind::CoreGuided, End::Exhausted),
                raised,
                own: Some(core),
            }
        } else {
            CoreEnded {
                ended: frame.finish_ended(WorkerKind::CoreGuided, None),
                raised,
                own: None,
            }
        }
    }
}
