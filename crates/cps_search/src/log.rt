//! The log of a search.
//!
//! At each conflict the reasons that lead from the box of the learnt clause to the conflict become items of the log,
//! then the conflict does, and then the learnt clause, with the numbers of those items as hints. Each reason is written
//! once, as long as its entry stands. What level 0 left is written first, and settled, so that no hint need name it. At
//! the end the same is done for the empty clause. The tracer tries all hints before it takes a clause (`cps_tracer`), so
//! that no number that is kept here need be right; where a clause cannot be shown, the calls answer as if memory had run
//! out. Hints and how they are found are those of LRAT: Cruz-Filipe and others, "Efficient Certified RAT Verification"
//! (2017).

ghost use Rattle.std.specs.Prelude.{◌≡◌, ◌<◌, ◌≤◌, ℤ, List, length, true, false, is_some, All, Contains, OnOk, IfSome, IsTrue};
ghost use Rattle.cps_model.specs.declared.bound.Bound.{Bound as BoundOf};
ghost use Rattle.cps_model.specs.declared.bound.Bound.TheVariants.{Infinite};
ghost use Rattle.cps_instance.specs.Problem.{Problem};
ghost use Rattle.cps_trail.specs.Trail.{IsFalseNow};
ghost use Rattle.cps_search.specs.Giving.{ByAll, AreGiven};
ghost use Rattle.cps_search.specs.LogItems.{IsUngrown};
ghost use Rattle.cps_search.specs.Logged.{items_of};
ghost use Rattle.cps_search.specs.Logging.{AddsEmptyClause, AreFetchedBy, AssumesLog, ClosesLog, ClosesLogIfKept, GrowsLog, IsFetchedBy};
ghost use Rattle.cps_search.specs.Logging.{IsGivenByNamed, IsOpenIfKept, IsSearchedBelow, LogsLearnt, LogsLearntIfKept, opened};

use crate::assumptions::atom_of;
use crate::givers::Givers;
use crate::log_items::{write_item, write_start};
use crate::own_rows::stands_at;
use crate::settle::Conflict;
use cps_clauses::ClauseBase;
use cps_conflict::{Analyser, Antecedent, Learnt};
use cps_instance::Instance;
use cps_literal::Atom;
use cps_log::LogItem;
use cps_model::{Bound, Listed};
use cps_propagate::Propagator;
use cps_tracer::Tracer;
use cps_trail::{Explain, ReasonView, Store};
use std::alloc::{AllocError, Global};
use std::marker::Model;

/// What a log is written from: an instance, the store of its search, and what makes the reasons.
#[derive(Drop)]
pub(crate) struct LogSource<'s, 'i, P: Propagator> {
    pub alloc: Global,
    pub instance: &'s Instance<'i>,
    pub store: &'s Store,
    pub givers: Givers<'s, P>,
}

/// Whether a literal is among some.
fn is_among(some: &[i32], literal: i32) -> bool
    ensures { IsTrue result → Contains some.now literal }
{
    for other in some {
        if *other == literal {
            return true;
        }
    }
    false
}

/// The atoms that are false where literals are true.
fn negations(alloc: Global, literals: &[i32]) -> Result<Vec<Atom>, AllocError> {
    let mut atoms = Vec::new(alloc);
    for literal in literals {
        atoms.push(atom_of(-1 - *literal))?;
    }
    Ok(atoms)
}

/// A log, and which of its items are the clauses and the reasons of a search.
#[derive(Drop)]
pub(crate) struct SearchLog<'a> {
    tracer: Tracer<'a>,
    /// How many sums it has.
    sums: u32,
    /// For each clause of the search the number of its item.
    clauses: Vec<u32>,
    /// For each of the first entries of the store the number of its reason's item, where there is one.
    reasons: Vec<Option<u32>>,
    /// How many entries of level 0 are settled.
    settled: usize,
    /// Whether the empty clause was written.
    closed: bool,
}

impl<'a> Model for SearchLog<'a> {
    ghost use Rattle.cps_search.specs.Logged.{Log};

    ghost Value = { Log };

    ghost view = { λ l. record { traced = l.tracer; closed = l.closed } };
}

impl<'a> SearchLog<'a> {
    /// A log in which nothing is written yet.
    fn new(alloc: Global, tracer: Tracer<'a>) -> Self
        ensures { result ≡ record { traced = tracer.entry; closed = false } }
    {
        SearchLog {
            tracer,
            sums: 0,
            clauses: Vec::new(alloc),
            reasons: Vec::new(alloc),
            settled: 0,
            closed: false,
        }
    }

    /// The number of the item of a clause of the search.
    fn number_of(&self, clause: u32) -> Result<u32, AllocError> {
        match self.clauses.get(clause as usize) {
            Some(number) => Ok(*number),
            None => Err(AllocError),
        }
    }

    /// The number of the item of the clause in force that has these atoms.
    fn number_of_atoms(&self, base: &ClauseBase, atoms: &[Atom]) -> Result<u32, AllocError> {
        let Ok(count) = u32::try_from(base.len()) else {
            return Err(AllocError);
        };
        // A conflict mostly comes of a clause that was learnt lately.
        for clause in (0..count).rev() {
            if stands_at(base, clause, atoms) {
                return self.number_of(clause);
            }
        }
        Err(AllocError)
    }

    /// The number of the item of an entry's reason, if it is written.
    fn written(&self, entry: usize) -> Option<u32> {
        match self.reasons.get(entry) {
            Some(number) => *number,
            None => None,
        }
    }

    /// Makes room for the numbers of the reasons of so many entries.
    fn make_room(&mut self, count: usize) -> Result<(), AllocError>
        ensures { self.new ≡ self.old }
    {
        self.reasons.resize(count, None)?;
        Ok(())
    }

    /// Notes the number of the item of an entry's reason, where there is room for it.
    fn note(&mut self, entry: usize, number: u32)
        ensures { self.new ≡ self.old }
    {
        if entry < self.reasons.len() {
            self.reasons[entry] = Some(number);
        }
    }

    /// Forgets the numbers of the reasons of all entries but the first `count`.
    fn forget_after(&mut self, count: usize)
        ensures { self.new ≡ self.old }
    {
        self.reasons.truncate(count);
    }

    /// Notes that the next clause of the search is one that it learnt before.
    fn import(&mut self, clause: u32) -> Result<(), AllocError>
        ensures { self.new ≡ self.old }
    {
        let number = self.number_of(clause)?;
        self.clauses.push(number)?;
        Ok(())
    }

    /// Writes the reason of an entry, if it is not written yet, and answers the item's number.
    fn write_reason<P: Propagator>(
        &mut self,
        source: &LogSource<'_, '_, P>,
        entry: usize,
        reason: &[Atom],
    ) -> Result<u32, AllocError>
        requires { entry < length source.now.store.now.entries }
        ensures { OnOk result ((z : BoundOf)
            → IsSearchedBelow source.now.instance.now z source.now.givers.engine.now.tasks source.now.store.now
            → IsFetchedBy source.now.givers.engine.now.tasks source.now.givers.clauses.now.clauses
            source.now.store.now entry reason.now
            → GrowsLog source.now.instance.now z self.old self.new) }
    {
        let view = source.store.entries()[entry].reason;
        if let Some(clause) = view.clause() {
            return self.number_of(clause);
        }
        if let Some(number) = self.written(entry) {
            return Ok(number);
        }
        let Some(task) = view.task() else {
            return Err(AllocError);
        };
        let number = write_item(
            &mut self.tracer,
            &mut self.sums,
            source.instance,
            task,
            reason,
        )?;
        self.note(entry, number);
        Ok(number)
    }

    /// Writes the reasons of antecedents, and answers their items' numbers.
    fn write_antecedents<P: Propagator>(
        &mut self,
        source: &LogSource<'_, '_, P>,
        antecedents: &[Antecedent],
    ) -> Result<Vec<u32>, AllocError>
        ensures { OnOk result ((z : BoundOf)
            → IsSearchedBelow source.now.instance.now z source.now.givers.engine.now.tasks source.now.store.now
            → AreFetchedBy source.now.givers.engine.now.tasks source.now.givers.clauses.now.clauses
            source.now.store.now antecedents.now
            → GrowsLog source.now.instance.now z self.old self.new) }
    {
        let mut numbers = Vec::new(source.alloc);
        for antecedent in antecedents {
            if antecedent.entry >= source.store.entries().len() {
                return Err(AllocError);
            }
            let number = self.write_reason(source, antecedent.entry, antecedent.reason.as_slice())?;
            numbers.push(number)?;
        }
        Ok(numbers)
    }

    /// Writes the reason of an entry of level 0, and has it narrow the domains for good.
    fn settle<P: Propagator>(
        &mut self,
        source: &LogSource<'_, '_, P>,
        entry: usize,
    ) -> Result<(), AllocError>
        requires within { entry < length source.now.store.now.entries }
        requires given { AreGiven (ByAll source.now.givers.engine.now.tasks
            source.now.givers.clauses.now.clauses) source.now.store.now }
        ensures { OnOk result ((z : BoundOf)
            → IsSearchedBelow source.now.instance.now z source.now.givers.engine.now.tasks source.now.store.now
            → GrowsLog source.now.instance.now z self.old self.new) }
    {
        let ReasonView::Later(_) = source.store.entries()[entry].reason else {
            return Err(AllocError);
        };
        let reason = source.givers.explain(source.alloc, source.store, entry)?;
        let number = self.write_reason(source, entry, reason.as_slice())?;
        self.tracer.settle(number)?;
        Ok(())
    }

    /// Writes what level 0 left, as far as it is not written yet.
    fn settle_bottom<P: Propagator>(
        &mut self,
        source: &LogSource<'_, '_, P>,
    ) -> Result<(), AllocError>
        requires given { AreGiven (ByAll source.now.givers.engine.now.tasks
            source.now.givers.clauses.now.clauses) source.now.store.now }
        ensures { OnOk result ((z : BoundOf)
            → IsSearchedBelow source.now.instance.now z source.now.givers.engine.now.tasks source.now.store.now
            → GrowsLog source.now.instance.now z self.old self.new) }
    {
        self.make_room(source.store.entries().len())?;
        let end = source.store.end_of(0);
        for entry in self.settled..end {
            self.settle(source, entry)?;
        }
        self.settled = end;
        Ok(())
    }

    /// Writes a conflict, unless it is a clause of the search, and answers its item's number.
    fn write_conflict<P: Propagator>(
        &mut self,
        source: &LogSource<'_, '_, P>,
        conflict: &Conflict,
    ) -> Result<u32, AllocError>
        ensures { OnOk result ((z : BoundOf)
            → IsSearchedBelow source.now.instance.now z source.now.givers.engine.now.tasks source.now.store.now
            → IsGivenByNamed source.now.givers.engine.now.tasks source.now.store.now.first conflict.now.task
            conflict.now.clause
            → GrowsLog source.now.instance.now z self.old self.new) }
    {
        match conflict.task {
            Some(task) => write_item(
                &mut self.tracer,
                &mut self.sums,
                source.instance,
                task,
                conflict.clause.as_slice(),
            ),
            None => self.number_of_atoms(source.givers.clauses, conflict.clause.as_slice()),
        }
    }

    /// Writes all that leads from the box of a clause to a conflict, and answers the numbers of these items.
    fn write_grounds<P: Propagator>(
        &mut self,
        source: &LogSource<'_, '_, P>,
        analyser: &mut Analyser,
        conflict: &Conflict,
        clause: &[Atom],
    ) -> Result<Vec<u32>, AllocError>
        requires subjects { All (λ t. t.subject < length source.now.store.now.first) conflict.now.clause }
        requires conflict { All (IsFalseNow source.now.store.now) conflict.now.clause }
        requires given { AreGiven (ByAll source.now.givers.engine.now.tasks
            source.now.givers.clauses.now.clauses) source.now.store.now }
        ensures { OnOk result ((z : BoundOf)
            → IsSearchedBelow source.now.instance.now z source.now.givers.engine.now.tasks source.now.store.now
            → IsGivenByNamed source.now.givers.engine.now.tasks source.now.store.now.first conflict.now.task
            conflict.now.clause
            → GrowsLog source.now.instance.now z self.old self.new) }
    {
        self.settle_bottom(source)?;
        let Some(antecedents) = analyser.antecedents(
            source.store,
            conflict.clause.as_slice(),
            clause,
            &source.givers,
        )?
        else {
            return Err(AllocError);
        };
        let mut numbers = self.write_antecedents(source, antecedents.as_slice())?;
        let number = self.write_conflict(source, conflict)?;
        numbers.push(number)?;
        Ok(numbers)
    }

    /// Writes a learnt clause, with what it was learnt from.
    fn learn<P: Propagator>(
        &mut self,
        source: &LogSource<'_, '_, P>,
        analyser: &mut Analyser,
        conflict: &Conflict,
        learnt: &Learnt,
    ) -> Result<(), AllocError>
        requires subjects { All (λ t. t.subject < length source.now.store.now.first) conflict.now.clause }
        requires conflict { All (IsFalseNow source.now.store.now) conflict.now.clause }
        requires given { AreGiven (ByAll source.now.givers.engine.now.tasks
            source.now.givers.clauses.now.clauses) source.now.store.now }
        requires back { learnt.now.back_level ≤ source.now.store.now.level }
        ensures { OnOk result ((z : BoundOf)
            → IsSearchedBelow source.now.instance.now z source.now.givers.engine.now.tasks source.now.store.now
            → IsGivenByNamed source.now.givers.engine.now.tasks source.now.store.now.first conflict.now.task
            conflict.now.clause
            → LogsLearnt source.now.instance.now z learnt.now.clause self.old self.new) }
    {
        if self.closed {
            return Err(AllocError);
        }
        let clause = learnt.clause.as_slice();
        let hints = self.write_grounds(source, analyser, conflict, clause)?;
        let Some(number) = self.tracer.learn(clause, hints.as_slice())? else {
            return Err(AllocError);
        };
        self.clauses.push(number)?;
        // The search goes back there next.
        self.forget_after(source.store.end_of(learnt.back_level));
        Ok(())
    }

    /// Writes the empty clause.
    fn close(&mut self, hints: &[u32]) -> Result<(), AllocError>
        ensures { OnOk result (AddsEmptyClause self.old self.new) }
    {
        let Some(_) = self.tracer.learn(&[], hints)? else {
            return Err(AllocError);
        };
        self.closed = true;
        Ok(())
    }

    /// Closes the log on a conflict that is false at level 0.
    fn close_on_conflict<P: Propagator>(
        &mut self,
        source: &LogSource<'_, '_, P>,
        conflict: &Conflict,
    ) -> Result<(), AllocError>
        requires given { AreGiven (ByAll source.now.givers.engine.now.tasks
            source.now.givers.clauses.now.clauses) source.now.store.now }
        ensures { OnOk result ((z : BoundOf) (core : List ℤ)
            → IsSearchedBelow source.now.instance.now z source.now.givers.engine.now.tasks source.now.store.now
            → IsGivenByNamed source.now.givers.engine.now.tasks source.now.store.now.first conflict.now.task
            conflict.now.clause
            → ClosesLog source.now.instance.now z core self.old self.new) }
    {
        if self.closed {
            return Err(AllocError);
        }
        self.settle_bottom(source)?;
        let number = self.write_conflict(source, conflict)?;
        self.close(&[number])?;
        Ok(())
    }

    /// Takes the assumption at a place, if it is among some, and adds the number of its item to others.
    fn assume_one(
        &mut self,
        assumptions: &[i32],
        place: usize,
        some: &[i32],
        numbers: &mut Vec<u32>,
    ) -> Result<(), AllocError>
        requires within { place < length assumptions.now }
        requires assumptions { self.old.traced.assumptions ≡ assumptions.now }
        ensures kept { OnOk result (self.new.traced.assumptions ≡ assumptions.now) }
        ensures assumes { OnOk result ((p : Problem) (z : BoundOf) (core : List ℤ)
            → p.model.assumptions ≡ assumptions.now → (z ≡ Infinite → some.now ≡ core)
            → AssumesLog p z core self.old self.new) }
    {
        if !is_among(some, assumptions[place]) {
            return Ok(());
        }
        let Ok(assumption) = u32::try_from(place) else {
            return Err(AllocError);
        };
        let number = self.tracer.assume(assumption)?;
        numbers.push(number)?;
        Ok(())
    }

    /// Takes those of the model's assumptions that are among some, and answers the numbers of their items.
    fn assume_all<P: Propagator>(
        &mut self,
        source: &LogSource<'_, '_, P>,
        some: &[i32],
    ) -> Result<Vec<u32>, AllocError>
        requires { self.old.traced.assumptions ≡ source.now.instance.now.model.assumptions }
        ensures { OnOk result ((z : BoundOf) (core : List ℤ) → (z ≡ Infinite → some.now ≡ core)
            → AssumesLog source.now.instance.now z core self.old self.new) }
    {
        let mut numbers = Vec::new(source.alloc);
        let assumptions = source.instance.assumptions();
        for place in 0..assumptions.len() {
            self.assume_one(assumptions, place, some, &mut numbers)?;
        }
        Ok(numbers)
    }

    /// Closes the log where an assumption is false, by the assumptions behind it.
    fn close_on_assumption<P: Propagator>(
        &mut self,
        source: &LogSource<'_, '_, P>,
        analyser: &mut Analyser,
        failed: Atom,
        assumed: &[i32],
    ) -> Result<(), AllocError>
        requires assumptions { self.old.traced.assumptions ≡ source.now.instance.now.model.assumptions }
        requires subject { failed.subject < length source.now.store.now.first }
        requires failed { IsFalseNow source.now.store.now failed }
        requires given { AreGiven (ByAll source.now.givers.engine.now.tasks
            source.now.givers.clauses.now.clauses) source.now.store.now }
        ensures { OnOk result ((z : BoundOf) (core : List ℤ)
            → IsSearchedBelow source.now.instance.now z source.now.givers.engine.now.tasks source.now.store.now
            → (z ≡ Infinite → assumed.now ≡ core)
            → ClosesLog source.now.instance.now z core self.old self.new) }
    {
        if self.closed {
            return Err(AllocError);
        }
        let mut hints = self.assume_all(source, assumed)?;
        self.settle_bottom(source)?;
        let denied = negations(source.alloc, assumed)?;
        let Some(antecedents) = analyser.antecedents_of_other(
            source.store,
            &[failed],
            denied.as_slice(),
            &source.givers,
        )?
        else {
            return Err(AllocError);
        };
        let numbers = self.write_antecedents(source, antecedents.as_slice())?;
        hints.extend_from_slice(numbers.as_slice())?;
        self.close(hints.as_slice())?;
        Ok(())
    }

    /// Closes the log where the objective is never below z.
    fn close_at_start(&mut self, instance: &Instance, z: Bound) -> Result<(), AllocError>
        ensures { OnOk result ((core : List ℤ) → IsUngrown instance.now
            → ClosesLog instance.now z core self.old self.new) }
    {
        if self.closed {
            return Err(AllocError);
        }
        let number = write_start(&mut self.tracer, instance, z)?;
        self.close(&[number])?;
        Ok(())
    }
}

/// The log that a search begins with, if one was asked for.
pub(crate) fn begin_log<'a>(alloc: Global, tracer: Option<Tracer<'a>>) -> Option<SearchLog<'a>>
    ensures { result ≡ opened tracer.entry }
{
    match tracer {
        Some(tracer) => Some(SearchLog::new(alloc, tracer)),
        None => None,
    }
}

/// The items of a log that was kept.
pub(crate) fn end_log(log: Option<SearchLog<'_>>) -> Option<Listed<LogItem>>
    ensures { result ≡ items_of log.entry }
{
    match log {
        Some(log) => Some(Listed::from_vec(log.tracer.into_items())),
        None => None,
    }
}

/// Whether a log is kept and is closed.
pub(crate) fn is_closed(log: &Option<SearchLog<'_>>) -> bool
    ensures { result ≡ false → IsOpenIfKept log.now }
{
    match log {
        Some(log) => log.closed,
        None => false,
    }
}

/// Notes that a store went back to its first `count` entries.
pub(crate) fn forget_after(log: &mut Option<SearchLog<'_>>, count: usize)
    ensures { log.new ≡ log.old }
{
    if let Some(log) = log {
        log.forget_after(count);
    }
}

/// Notes that a clause of the board was added, and that the store went back to its first `count` entries. The clause is
/// one that the search learnt itself, and its number is given: out of memory where it is not.
pub(crate) fn log_import(
    log: &mut Option<SearchLog<'_>>,
    own: Option<u32>,
    count: usize,
) -> Result<(), AllocError>
    ensures { OnOk result (log.new ≡ log.old) }
{
    let Some(log) = log else {
        return Ok(());
    };
    let Some(clause) = own else {
        return Err(AllocError);
    };
    log.forget_after(count);
    log.import(clause)
}

/// Writes a learnt clause, with what it was learnt from, where a log is kept.
pub(crate) fn log_learnt<P: Propagator>(
    log: &mut Option<SearchLog<'_>>,
    source: &LogSource<'_, '_, P>,
    analyser: &mut Analyser,
    conflict: &Conflict,
    learnt: &Learnt,
) -> Result<(), AllocError>
    requires subjects { All (λ t. t.subject < length source.now.store.now.first) conflict.now.clause }
    requires conflict { All (IsFalseNow source.now.store.now) conflict.now.clause }
    requires given { AreGiven (ByAll source.now.givers.engine.now.tasks
        source.now.givers.clauses.now.clauses) source.now.store.now }
    requires back { learnt.now.back_level ≤ source.now.store.now.level }
    ensures { OnOk result ((z : BoundOf)
        → (is_some log.old ≡ true → IsSearchedBelow source.now.instance.now z source.now.givers.engine.now.tasks
        source.now.store.now)
        → IsGivenByNamed source.now.givers.engine.now.tasks source.now.store.now.first conflict.now.task
        conflict.now.clause
        → LogsLearntIfKept source.now.instance.now z learnt.now.clause log.old log.new) }
{
    if let Some(log) = log {
        log.learn(source, analyser, conflict, learnt)?;
    }
    Ok(())
}

/// Closes a log that is kept on a conflict that is false at level 0.
pub(crate) fn close_on_conflict<P: Propagator>(
    log: &mut Option<SearchLog<'_>>,
    source: &LogSource<'_, '_, P>,
    conflict: &Conflict,
) -> Result<(), AllocError>
    requires given { AreGiven (ByAll source.now.givers.engine.now.tasks
        source.now.givers.clauses.now.clauses) source.now.store.now }
    ensures { OnOk result ((z : BoundOf) (core : List ℤ)
        → (is_some log.old ≡ true → IsSearchedBelow source.now.instance.now z source.now.givers.engine.now.tasks
        source.now.store.now)
        → IsGivenByNamed source.now.givers.engine.now.tasks source.now.store.now.first conflict.now.task
        conflict.now.clause
        → ClosesLogIfKept source.now.instance.now z core log.old log.new) }
{
    if let Some(log) = log {
        log.close_on_conflict(source, conflict)?;
    }
    Ok(())
}

/// Closes a log that is kept where an assumption is false, by those that are assumed.
pub(crate) fn close_on_assumption<P: Propagator>(
    log: &mut Option<SearchLog<'_>>,
    source: &LogSource<'_, '_, P>,
    analyser: &mut Analyser,
    failed: Atom,
    assumed: &[i32],
) -> Result<(), AllocError>
    requires assumptions { IfSome log.old (λ l. l.traced.assumptions ≡ source.now.instance.now.model.assumptions) }
    requires subject { failed.subject < length source.now.store.now.first }
    requires failed { IsFalseNow source.now.store.now failed }
    requires given { AreGiven (ByAll source.now.givers.engine.now.tasks
        source.now.givers.clauses.now.clauses) source.now.store.now }
    ensures { OnOk result ((z : BoundOf) (core : List ℤ)
        → (is_some log.old ≡ true → IsSearchedBelow source.now.instance.now z source.now.givers.engine.now.tasks
        source.now.store.now)
        → (z ≡ Infinite → assumed.now ≡ core)
        → ClosesLogIfKept source.now.instance.now z core log.old log.new) }
{
    if let Some(log) = log {
        log.close_on_assumption(source, analyser, failed, assumed)?;
    }
    Ok(())
}

/// Closes a log that is kept where the objective is never below z.
pub(crate) fn close_at_start(
    log: &mut Option<SearchLog<'_>>,
    instance: &Instance,
    z: Bound,
) -> Result<(), AllocError>
    ensures { OnOk result ((core : List ℤ) → (is_some log.old ≡ true → IsUngrown instance.now)
        → ClosesLogIfKept instance.now z core log.old log.new) }
{
    if let Some(log) = log {
        log.close_at_start(instance, z)?;
    }
    Ok(())
}
