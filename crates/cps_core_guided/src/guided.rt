//! The turn of a core-guided worker.
//!
//! `Frame::steps` does a turn up to a decision. Where a decision is due, the objective is reformed for the first term
//! whose assumption is false (`reform_at`); without one the first undecided assumption is decided, those of the model
//! before those of terms, and without that the brancher chooses. A reform goes back to level 0: a false assumption
//! there lifts its term alone, and else it and the terms whose assumptions are among the decisions behind it are the
//! core. Cores are not minimised, and the terms are not taken by weight in stages: each would be a strategy of its own
//! over the same proved steps.

ghost use Rattle.std.specs.Prelude.{◌≡◌, ◌<◌, ◌≤◌, ◌+◌, ℤ, ◌≤ℤ◌, length, true, false, OnOk, IfOk};
ghost use Rattle.cps_literal.specs.Truth.{value_at};
ghost use Rattle.cps_trail.specs.Trail.{IsFalseNow};
ghost use Rattle.cps_port.specs.declared.part.Part.{Part};
ghost use Rattle.cps_port.specs.Order.{IsSmallBound, raised_to};
ghost use Rattle.cps_port.specs.Incumbents.{IsLowerBound};
ghost use Rattle.cps_search.specs.Keeps.{Keeps};
ghost use Rattle.cps_search.specs.Stepping.{Raises};
ghost use Rattle.cps_search.specs.Assumptions.{NoneIsOpen};
ghost use Rattle.cps_search.specs.Ends.{BrancherTurn, DecidedBy, HeardOne, IsOver};
ghost use Rattle.cps_search.specs.Growing.{IsFalseBelow};
ghost use Rattle.cps_search.specs.Searches.{NoneBelow};
ghost use Rattle.cps_reform.specs.Forms.{lifted, term_at};
ghost use Rattle.cps_reform.specs.Cores.{core_terms, WeighAtLeast, IsSomeAbove};
ghost use Rattle.cps_reform.specs.Floors.{OfEachBelow};
ghost use Rattle.cps_reform.specs.Marks.{assumed};
ghost use Rattle.cps_core_guided.specs.Assuming.{AreAssumed, IsFailed, NoTermFails};
ghost use Rattle.cps_reform.specs.Floors.{IsFormPast};
ghost use Rattle.cps_core_guided.specs.Reforming.{IsSoundCore, most_sums, whole, whole_core};
ghost use Rattle.cps_core_guided.specs.CoreTurns.{DecidesFrom, GoesOn, RaisesTo, TakesCoreTurn};
ghost use Rattle.cps_core_guided.specs.Guiding.{core_search_of, HasFailed, IsDue, SplitsCore, Tried, Works};

use crate::assume::{failed_term, open_term};
use cps_branch::Brancher;
use cps_instance::{Instance, Term};
use cps_literal::{Atom, Truth};
use cps_model::{Bound, Refs};
use cps_port::{Port, raised_to};
use cps_propagate::Defining;
use cps_reform::{Ceiling, Reform, assumption};
use cps_search::{Frame, Turn, decide_next, hear_turn, still_kept};
use std::alloc::{AllocError, Global};

/// All assumptions of the model where no incumbent is known, and else none.
fn whole_core(alloc: Global, instance: &Instance<'_>, z: Bound) -> Result<Refs, AllocError>
    ensures { IfOk result (λ core. core ≡ whole_core instance.now.model z) }
{
    match z {
        Bound::At(_) => Ok(Refs::new(alloc)),
        Bound::Infinite => Ok(Refs::from_vec(instance.assumptions().to_vec(alloc)?)),
    }
}

/// Raises the lower bound, and the greatest bound to which the worker itself raised it.
fn raise<Q: Port>(port: &mut Q, raised: &mut Option<Bound>, bound: Bound)
    requires bound { IsLowerBound (Q.model port.old) bound }
    requires small { IsSmallBound bound }
    ensures keeps { Keeps Q.model Q.rows Q.stays port.old port.new }
    ensures board { (Q.part port.new).board ≡ (Q.part port.old).board }
    ensures bounds { Raises bound (Q.part port.old).bounds (Q.part port.new).bounds }
    ensures raised { raised.new ≡ raised_to raised.old bound }
{
    port.raise(bound);
    *raised = raised_to(*raised, bound);
}

/// A core-guided worker as long as every allocation succeeds.
#[derive(Drop)]
pub(crate) struct Guided<'a, P: Defining, B: Brancher + Drop> {
    pub alloc: Global,
    pub frame: Frame<'a, P>,
    pub brancher: B,
    pub reform: Reform,
    /// How many sums were defined for cores.
    pub sums: u32,
    /// The greatest objective by the domains.
    pub greatest: i64,
    /// The greatest bound to which the worker itself raised the lower one.
    pub raised: Option<Bound>,
    /// Whether it ended in place of a reform.
    pub ended: bool,
    /// By which assumptions of the model it then ended.
    pub core: Refs,
    /// How many of the store's first entries are those that the brancher saw last.
    pub kept: usize,
}

impl<'a, P: Defining, B: Brancher + Drop> Guided<'a, P, B> {
    /// Takes one turn.
    pub fn turn<Q: Port>(&mut self, port: &mut Q) -> Result<Turn, AllocError>
        requires works { Works B.scope B.agrees self.old }
        requires running { IsOver (whole (core_search_of self.old)).phase → ⊥ }
        requires model { Q.model port.old ≡ self.old.frame.instance.model }
        requires imported { self.old.frame.imported ≤ length (Q.part port.old).board.taken }
        ensures keeps { Keeps Q.model Q.rows Q.stays port.old port.new }
        ensures turn { IfOk result (λ turn. TakesCoreTurn (B.chooses self.old.brancher)
            (core_search_of self.old) (core_search_of self.new)
            (Q.rows port.old) (Q.part port.old) (Q.part port.new) turn) }
        ensures brancher { IfOk result (λ turn. BrancherTurn turn
            (HeardOne (λ clause restart. B.hears self.old.brancher clause restart self.new.brancher)
            self.old.frame self.new.frame)
            (DecidedBy (B.stays self.old.brancher self.new.brancher) (self.new.brancher ≡ self.old.brancher))
            (self.new.brancher ≡ self.old.brancher)) }
        ensures guidance { B.guidance self.new.brancher ≡ B.guidance self.old.brancher }
        ensures works { OnOk result (Works B.scope B.agrees self.new) }
    {
        match self.frame.steps(port)? {
            Some(turn) => {
                hear_turn(&mut self.frame, &mut self.brancher, &turn);
                self.kept = still_kept(self.frame.store(), self.kept);
                Ok(turn)
            }
            None => self.reform_or_decide(port),
        }
    }

    /// Where a decision is due, reforms if the assumption of a term is false, and else decides: an assumption that is
    /// undecided, one of the model first, or what the brancher chooses.
    fn reform_or_decide<Q: Port>(&mut self, port: &mut Q) -> Result<Turn, AllocError>
        requires works { Works B.scope B.agrees self.old }
        requires due { IsDue self.old.frame }
        requires running { self.old.ended ≡ false }
        requires model { Q.model port.old ≡ self.old.frame.instance.model }
        ensures keeps { Keeps Q.model Q.rows Q.stays port.old port.new }
        ensures goes_on { IfOk result
            (GoesOn (B.chooses self.old.brancher) (core_search_of self.old) (core_search_of self.new)
            (Q.part port.old) (Q.part port.new)) }
        ensures brancher { IfOk result (λ turn. BrancherTurn turn ⊥
            (DecidedBy (B.stays self.old.brancher self.new.brancher) (self.new.brancher ≡ self.old.brancher))
            (self.new.brancher ≡ self.old.brancher)) }
        ensures guidance { B.guidance self.new.brancher ≡ B.guidance self.old.brancher }
        ensures works { OnOk result (Works B.scope B.agrees self.new) }
    {
        match failed_term(self.frame.store(), self.reform.terms(), self.sums) {
            Some(place) => self.reform_at(port, place),
            None => {
                self.decide()?;
                Ok(Turn::Decided)
            }
        }
    }

    /// Decides where no assumption of a term is false: an assumption of the model, one of a term, or what the brancher
    /// chooses.
    fn decide(&mut self) -> Result<(), AllocError>
        requires works { Works B.scope B.agrees self.old }
        requires due { IsDue self.old.frame }
        requires running { self.old.ended ≡ false }
        requires none_fails { self.old.sums < most_sums → NoTermFails self.old.frame.store self.old.reform.terms }
        ensures decides { OnOk result ((part : Part) → DecidesFrom (B.chooses self.old.brancher)
            (core_search_of self.old) (core_search_of self.new) part part) }
        ensures brancher { OnOk result (DecidedBy (B.stays self.old.brancher self.new.brancher)
            (self.new.brancher ≡ self.old.brancher)) }
        ensures guidance { B.guidance self.new.brancher ≡ B.guidance self.old.brancher }
        ensures works { OnOk result (Works B.scope B.agrees self.new) }
    {
        if self.frame.is_refused() {
            return Err(AllocError);
        }
        match self.frame.open_assumption() {
            Some(atom) => self.frame.decide(atom),
            None => self.decide_by_terms(),
        }
    }

    /// Decides where no assumption of the model is undecided: the assumption of a term, or what the brancher chooses.
    fn decide_by_terms(&mut self) -> Result<(), AllocError>
        requires works { Works B.scope B.agrees self.old }
        requires due { IsDue self.old.frame }
        requires running { self.old.ended ≡ false }
        requires none_open { NoneIsOpen self.old.frame.instance.model.assumptions self.old.frame.store }
        requires none_fails { self.old.sums < most_sums → NoTermFails self.old.frame.store self.old.reform.terms }
        ensures decides { OnOk result ((part : Part) → DecidesFrom (B.chooses self.old.brancher)
            (core_search_of self.old) (core_search_of self.new) part part) }
        ensures brancher { OnOk result (DecidedBy (B.stays self.old.brancher self.new.brancher)
            (self.new.brancher ≡ self.old.brancher)) }
        ensures guidance { B.guidance self.new.brancher ≡ B.guidance self.old.brancher }
        ensures works { OnOk result (Works B.scope B.agrees self.new) }
    {
        match open_term(self.frame.store(), self.reform.terms(), self.sums) {
            Some(place) => self.frame.decide(assumption(&self.reform.terms()[place])),
            None => self.choose(),
        }
    }

    /// Decides what the brancher chooses.
    fn choose(&mut self) -> Result<(), AllocError>
        requires works { Works B.scope B.agrees self.old }
        requires due { IsDue self.old.frame }
        requires running { self.old.ended ≡ false }
        requires none_open { NoneIsOpen self.old.frame.instance.model.assumptions self.old.frame.store }
        requires assumed { self.old.sums < most_sums
            → AreAssumed self.old.frame.store.first self.old.frame.store.entries self.old.reform.terms }
        ensures decides { OnOk result ((part : Part) → DecidesFrom (B.chooses self.old.brancher)
            (core_search_of self.old) (core_search_of self.new) part part) }
        ensures brancher { B.stays self.old.brancher self.new.brancher }
        ensures guidance { B.guidance self.new.brancher ≡ B.guidance self.old.brancher }
        ensures works { OnOk result (Works B.scope B.agrees self.new) }
    {
        let seen = self.frame.store().entries().len();
        decide_next(&mut self.frame, &mut self.brancher, self.kept)?;
        self.kept = seen;
        Ok(())
    }

    /// Reforms the objective for a failed term, or ends if no solution below z can have the new form.
    fn reform_at<Q: Port>(&mut self, port: &mut Q, place: usize) -> Result<Turn, AllocError>
        requires works { Works B.scope B.agrees self.old }
        requires due { IsDue self.old.frame }
        requires running { self.old.ended ≡ false }
        requires few { self.old.sums < most_sums }
        requires failed { IsFailed self.old.frame.store self.old.reform.terms place }
        requires model { Q.model port.old ≡ self.old.frame.instance.model }
        ensures keeps { Keeps Q.model Q.rows Q.stays port.old port.new }
        ensures goes_on { IfOk result
            (GoesOn (B.chooses self.old.brancher) (core_search_of self.old) (core_search_of self.new)
            (Q.part port.old) (Q.part port.new)) }
        ensures brancher { self.new.brancher ≡ self.old.brancher }
        ensures works { OnOk result (Works B.scope B.agrees self.new) }
    {
        let atom = assumption(&self.reform.terms()[place]);
        // Reading the entries gives the proof the store's invariant.
        let _ = self.frame.store().entries();
        let decisions = self.frame.decisions_behind(atom)?;
        self.frame.restart();
        // Reading the entries gives the proof the store's invariant.
        let _ = self.frame.store().entries();
        self.kept = still_kept(self.frame.store(), self.kept);
        let is_reformed = self.reform_by(place, atom, decisions.as_slice())?;
        // Made here, since `conclude` cannot fail; only a worker that is exhausted keeps it.
        let core = whole_core(self.alloc, self.frame.instance(), self.frame.z())?;
        Ok(self.conclude(port, is_reformed, core))
    }

    /// Reforms the objective by the decisions behind the assumption of a failed term, at level 0. Answers false if no
    /// solution below z can have the new form.
    fn reform_by(
        &mut self,
        place: usize,
        atom: Atom,
        decisions: &[Atom],
    ) -> Result<bool, AllocError>
        requires works { Works B.scope B.agrees self.old }
        requires bottom { IsFalseBelow self.old.frame }
        requires running { self.old.ended ≡ false }
        requires failed { HasFailed (core_search_of self.old) place decisions.now }
        requires atom { atom ≡ assumed (term_at self.old.reform.terms place) }
        ensures tried { IfOk result (Tried (core_search_of self.old) (core_search_of self.new) place decisions.now) }
        ensures brancher { self.new.brancher ≡ self.old.brancher }
        ensures works { OnOk result (Works B.scope B.agrees self.new) }
    {
        match self.frame.store().truth(atom) {
            Truth::No => {
                let least = self.frame.store().domain(atom.subject).min();
                Ok(self.lift(place, least))
            }
            Truth::Yes | Truth::Undecided => self.lift_core(place, atom, decisions),
        }
    }

    /// Marks the core, and splits it or lifts its only term.
    fn lift_core(
        &mut self,
        place: usize,
        atom: Atom,
        decisions: &[Atom],
    ) -> Result<bool, AllocError>
        requires works { Works B.scope B.agrees self.old }
        requires not_false { IsFalseNow self.old.frame.store atom → ⊥ }
        requires running { self.old.ended ≡ false }
        requires failed { HasFailed (core_search_of self.old) place decisions.now }
        requires atom { atom ≡ assumed (term_at self.old.reform.terms place) }
        ensures tried { IfOk result (Tried (core_search_of self.old) (core_search_of self.new) place decisions.now) }
        ensures brancher { self.new.brancher ≡ self.old.brancher }
        ensures works { OnOk result (Works B.scope B.agrees self.new) }
    {
        // Reading the entries gives the proof the store's invariant.
        let _ = self.frame.store().entries();
        self.reform.mark_core(place, decisions);
        let core = self.reform.core_terms(self.alloc)?;
        if core.len() == 1 {
            return Ok(self.lift(place, atom.value + 1));
        }
        self.split(core.as_slice())
    }

    /// Raises the bound of a term: no solution below z has its subject below the new bound. Answers false, and changes
    /// nothing, if no solution below z can have the new form.
    fn lift(&mut self, place: usize, bound: i64) -> bool
        requires sound { IsSoundCore (core_search_of self.old) }
        requires bottom { self.old.frame.store.level ≡ 0 }
        requires place { place < length self.old.reform.terms }
        requires rises { (term_at self.old.reform.terms place).bound ≤ℤ bound }
        requires risen { OfEachBelow self.old.frame.instance self.old.frame.z
            (λ xs. bound ≤ℤ value_at xs (term_at self.old.reform.terms place).subject) }
        ensures lifts { result ≡ true → core_search_of self.new ≡ record (core_search_of self.old) {
          form = lifted self.old.reform place bound;
        } }
        ensures stays { result ≡ false → core_search_of self.new ≡ core_search_of self.old }
        ensures not_past { result ≡ true
            → IsFormPast self.old.frame.z self.old.greatest self.old.frame.instance.domains self.new.reform → ⊥ }
        ensures past { result ≡ false → IsFormPast self.old.frame.z self.old.greatest self.old.frame.instance.domains
            (lifted self.old.reform place bound) }
        ensures none { result ≡ false → NoneBelow self.old.frame.instance.model self.old.frame.z }
        ensures sound { IsSoundCore (core_search_of self.new) }
        ensures kept { (self.new.brancher ≡ self.old.brancher) × (self.new.kept ≡ self.old.kept) }
    {
        // Reading the entries gives the proof the store's invariant.
        let _ = self.frame.store().entries();
        let ceiling = Ceiling {
            z: self.frame.z(),
            greatest: self.greatest,
        };
        self.reform
            .lift_below(self.frame.instance(), place, bound, ceiling)
    }

    /// Splits a core of several terms: each solution below z has one of their subjects above its bound. Answers false
    /// if no solution below z can have the new form.
    fn split(&mut self, core: &[Term]) -> Result<bool, AllocError>
        requires works { Works B.scope B.agrees self.old }
        requires bottom { self.old.frame.store.level ≡ 0 }
        requires running { self.old.ended ≡ false }
        requires few { self.old.sums < most_sums }
        requires core { core.now ≡ core_terms self.old.reform.terms }
        requires weights { WeighAtLeast 1 self.old.reform.terms }
        requires above { OfEachBelow self.old.frame.instance self.old.frame.z
            (λ xs. IsSomeAbove xs self.old.reform.terms) }
        ensures splits { IfOk result (SplitsCore (core_search_of self.old) (core_search_of self.new)) }
        ensures brancher { self.new.brancher ≡ self.old.brancher }
        ensures works { OnOk result (Works B.scope B.agrees self.new) }
    {
        let subject = self.frame.grow(core, 0)?;
        // Reading the entries gives the proof the store's invariant.
        let _ = self.frame.store().entries();
        self.sums += 1;
        let ceiling = Ceiling {
            z: self.frame.z(),
            greatest: self.greatest,
        };
        self.reform
            .split_below(self.frame.instance(), subject, ceiling)
    }

    /// Raises the lower bound: to the new base, or to z where the worker is exhausted.
    fn conclude<Q: Port>(&mut self, port: &mut Q, is_reformed: bool, core: Refs) -> Turn
        requires sound { IsSoundCore (core_search_of self.old) }
        requires model { Q.model port.old ≡ self.old.frame.instance.model }
        requires base { is_reformed ≡ true
            → IsLowerBound self.old.frame.instance.model (Bound.At self.old.reform.base) }
        requires none { is_reformed ≡ false → NoneBelow self.old.frame.instance.model self.old.frame.z }
        requires core { core ≡ whole_core self.old.frame.instance.model self.old.frame.z }
        ensures keeps { Keeps Q.model Q.rows Q.stays port.old port.new }
        ensures reformed { is_reformed ≡ true → (result ≡ Turn.Reformed self.old.reform.base)
            × RaisesTo (Bound.At self.old.reform.base) (core_search_of self.old) (core_search_of self.new)
            (Q.part port.old) (Q.part port.new)
            × (self.new.ended ≡ self.old.ended) }
        ensures exhausted { is_reformed ≡ false → (result ≡ Turn.Exhausted)
            × RaisesTo self.old.frame.z (core_search_of self.old) (core_search_of self.new)
            (Q.part port.old) (Q.part port.new)
            × (self.new.ended ≡ true) × (self.new.core ≡ core) }
        ensures rest { self.new ≡ record self.old {
          raised = self.new.raised;
          ended = self.new.ended;
          core = self.new.core;
        } }
        ensures sound { IsSoundCore (core_search_of self.new) }
    {
        if is_reformed {
            let base = self.reform.base();
            raise(port, &mut self.raised, Bound::At(base));
            return Turn::Reformed(base);
        }
        let z = self.frame.z();
        raise(port, &mut self.raised, z);
        self.core = core;
        self.ended = true;
        Turn::Exhausted
    }
}
