//! The steps of a turn.
//!
//! `step` looks at the two bounds (`see_bounds`), takes an entry of the board (`take_one`), infers (`settle_all`), and
//! then learns from the conflict (`learn`) or reads a solution off the store (`after_fixpoint`). These methods have
//! contracts over the whole search, so that a turn's cause is put together from a few facts; the work itself is done by
//! functions over the parts (`look`, `import`, `settle_all`, `analyse`, `learn_clause`, `read_solution`), which know
//! nothing of the search.

ghost use Rattle.std.specs.Prelude.{◌≡◌, ◌<◌, ◌^◌, length, true, false, OnOk, IfOk, IfSome, IsNone, Some, is_some, Ok};
ghost use Rattle.cps_port.specs.Entries.{IsSoundEntry};
ghost use Rattle.cps_search.specs.Searches.{IsSoundSearch};
ghost use Rattle.cps_search.specs.Moves.{below, moved};
ghost use Rattle.cps_search.specs.Rounds.{EndsRounds};
ghost use Rattle.cps_search.specs.Keeps.{Keeps};
ghost use Rattle.cps_search.specs.Turns.{Looks, Steps, TookNothing};
ghost use Rattle.cps_search.specs.Stepping.{TakesOne, UsesEntry};

use crate::end::{End, Phase};
use crate::import::{News, import, take};
use crate::log::{close_at_start, log_import};
use crate::look::{is_at_most, look};
use crate::searcher::Searcher;
use crate::settle::{Inference, settle_all};
use crate::turn::Turn;
use cps_model::Bound;
use cps_port::Port;
use cps_propagate::Propagator;
use std::alloc::AllocError;

impl<'a, P: Propagator> Searcher<'a, P> {
    /// Looks at the two bounds. `None` if they had met; else z, which may have fallen.
    fn see_bounds<Q: Port>(&mut self, port: &mut Q) -> Option<Bound>
        requires sound { IsSoundSearch self.old }
        requires model { Q.model port.old ≡ self.old.instance.model }
        ensures keeps { Keeps Q.model Q.rows Q.stays port.old port.new }
        ensures board { (Q.part port.new).board ≡ (Q.part port.old).board }
        ensures looks { Looks self.old.gap self.old.z (Q.part port.old).bounds (Q.part port.new).bounds result }
        ensures met { IsNone result → self.new ≡ self.old }
        ensures open_yet { IfSome result (λ z. self.new ≡ below self.old z) }
        ensures sound { IsSoundSearch self.new }
    {
        let z = look(port, self.z, self.gap)?;
        self.lower_to(z);
        Some(z)
    }

    /// Takes an entry from the board if the next row is open, and adds its clause if that holds below z, unless this
    /// worker shared it itself and has it in force still. Answers whether there was an entry.
    fn take_one<Q: Port>(&mut self, port: &mut Q) -> Result<bool, AllocError>
        requires sound { IsSoundSearch self.old }
        requires model { Q.model port.old ≡ self.old.instance.model }
        requires few { length self.old.base.clauses < 2 ^ 32 }
        ensures keeps { Keeps Q.model Q.rows Q.stays port.old port.new }
        ensures nothing { result ≡ Ok false → (self.new ≡ self.old)
            × ((Q.part port.new).bounds ≡ (Q.part port.old).bounds)
            × TookNothing (Q.rows port.old) (Q.part port.old).board (Q.part port.new).board }
        ensures took { result ≡ Ok true → TakesOne self.old self.new (Q.rows port.old) (Q.part port.old)
            (Q.part port.new) }
        ensures sound { OnOk result (IsSoundSearch self.new) }
    {
        let Some(news) = take(port, self.z) else {
            return Ok(false);
        };
        self.lower_to(news.z);
        self.use_news(&news)?;
        Ok(true)
    }

    /// Adds the clause of an entry that was taken, if it holds below z. A clause that this worker shared itself, and
    /// that is still in force, is passed over. Out of memory too where a log is kept and has no such clause.
    fn use_news(&mut self, news: &News) -> Result<(), AllocError>
        requires sound { IsSoundSearch self.old }
        requires z { news.now.z ≡ self.old.z }
        requires entry { IsSoundEntry self.old.instance.model news.now.entry }
        requires few { length self.old.base.clauses < 2 ^ 32 }
        ensures used { OnOk result (UsesEntry self.old self.new news.now.entry) }
        ensures is { OnOk result (self.new ≡ record (moved self.old self.new.store self.new.rested) {
          base = self.new.base;
          imported = self.new.imported;
        }) }
        ensures sound { OnOk result (IsSoundSearch self.new) }
    {
        self.phase = Phase::Stepping;
        if self.own_rows.take_back(&self.clauses, &news.entry) {
            return Ok(());
        }
        if !is_at_most(self.z, news.entry.below) {
            return Ok(());
        }
        import(
            self.alloc,
            &mut self.clauses,
            &mut self.store,
            &mut self.rested,
            &news.entry,
        )?;
        let own = self.own_rows.clause_of(news.entry.row);
        log_import(&mut self.log, own, self.store.entries().len())?;
        self.imported += 1;
        Ok(())
    }

    /// Ends where the two bounds had met. A log that is kept is closed by what the objective is worth at least; out of
    /// memory too where that is less than z.
    fn end_closed(&mut self) -> Result<Turn, AllocError>
        requires sound { IsSoundSearch self.old }
        ensures turn { IfOk result (λ turn. turn ≡ Turn.SawClosed) }
        ensures is { OnOk result (self.new ≡ record self.old { log = self.new.log; phase = Phase.Over End.SawClosed }) }
        ensures logs { OnOk result (is_some self.new.log ≡ is_some self.old.log) }
        ensures sound { OnOk result (IsSoundSearch self.new) }
    {
        close_at_start(&mut self.log, &self.instance, self.z)?;
        self.phase = Phase::Over(End::SawClosed);
        Ok(Turn::SawClosed)
    }

    /// The steps of a turn up to a decision. `None` if a decision is due.
    pub fn step<Q: Port>(&mut self, port: &mut Q) -> Result<Option<Turn>, AllocError>
        requires sound { IsSoundSearch self.old }
        requires model { Q.model port.old ≡ self.old.instance.model }
        requires few { length self.old.base.clauses < 2 ^ 32 }
        ensures keeps { Keeps Q.model Q.rows Q.stays port.old port.new }
        ensures steps { IfOk result (λ turn. Steps self.old self.new (Q.rows port.old) (Q.part port.old)
            (Q.part port.new) turn) }
        ensures sound { OnOk result (IsSoundSearch self.new) }
    {
        if self.see_bounds(port).is_none() {
            return Ok(Some(self.end_closed()?));
        }
        if self.take_one(port)? {
            return Ok(Some(Turn::Imported));
        }
        self.phase = Phase::Stepping;
        match settle_all(
            &mut self.clauses,
            &mut self.engine,
            &mut self.store,
            &mut self.rested,
        )? {
            Inference::Conflict(conflict) => self.learn(port, &conflict),
            Inference::Settled => self.after_fixpoint(port),
        }
    }

    /// Looks at the two bounds and ends: with `SawClosed` if they had met, else with `RoundsDone`. A log that was kept is
    /// let go.
    pub fn end_rounds<Q: Port>(&mut self, port: &mut Q) -> Turn
        requires sound { IsSoundSearch self.old }
        requires model { Q.model port.old ≡ self.old.instance.model }
        ensures keeps { Keeps Q.model Q.rows Q.stays port.old port.new }
        ensures ends { EndsRounds self.old self.new (Q.part port.old) (Q.part port.new) result }
        ensures sound { IsSoundSearch self.new }
    {
        let seen = self.see_bounds(port);
        self.log = None;
        if seen.is_none() {
            self.phase = Phase::Over(End::SawClosed);
            return Turn::SawClosed;
        }
        self.phase = Phase::Over(End::RoundsDone);
        Turn::RoundsDone
    }
}
