//! What the checker knows behind some items of a log, and whether the next item is accepted.
//!
//! Two sets of domains are kept. The box of a clause that follows from the model is made of the subjects' own domains,
//! in place, and undone before the next one is made. Learnt clauses are judged by unit propagation, which narrows its
//! own set for good by what follows without any assumption.
ghost use Rattle.std.specs.Prelude.{◌≡◌, ◌↔◌, ◌⊎◌, ◌+◌, ◌<◌, ℕ, ℤ, List, true, false, None, Some, All, IfOk, IsTrue, MatchOption, length, map, slice_index_or};
ghost use Rattle.cps_model.specs.declared.constraint.Constraint.{Constraint as ConstraintOf};
ghost use Rattle.cps_model.specs.declared.model.Variable.{Variable as VariableOf};
ghost use Rattle.cps_model.specs.Solutions.{IsWithinDomains};
ghost use Rattle.cps_unit.specs.Boxes.{IsEmpty};
ghost use Rattle.cps_log.specs.Boxes.{box_of};
ghost use Rattle.cps_log.specs.Deriving.{empty_derivation, with_sum, with_clause, after_item, is_closing};
ghost use Rattle.cps_log.specs.Subjects.{IsDefinable, IsClauseOver, subject_count, sum_at};
ghost use Rattle.cps_log.specs.declared.item.LogItem.TheVariants as items;
ghost use Rattle.cps_rup.specs.Domains.{box_in};
ghost use Rattle.cps_cert.specs.declared.claim.Claim.{Claim as ClaimOf};
ghost use Rattle.cps_cert.specs.Accepting.{IsAccepted};
ghost use Rattle.cps_subjects.specs.Domains.{AreDomains};
ghost use Rattle.cps_cert.specs.Domains.{IsNearClaim};
ghost use Rattle.cps_cert.specs.Ledgers.{derivation_of, IsLedger, HasTaken};
ghost use Rattle.cps_cert.specs.Refuting.{Refutes};
ghost use Rattle.cps_cert.specs.Trying.{IsBoxOf};

use crate::assignments::Assignments;
use crate::assumed::is_assumed;
use crate::claim::Claim;
use crate::domains::{checker_of, domains_of};
use crate::objective::is_objective_refuted;
use crate::reader::item_of;
use crate::refuting::{are_ends_apart, refutes};
use crate::trying::Trial;
use cps_literal::{Atom, Clause};
use cps_log::LogItem;
use cps_model::LinearExpr;
use cps_rup::{RupChecker, TrailedDomains};
use cps_subjects::{atom_of_literal, is_definable, is_over, sum_domain};
use cps_validate::ValidModel;
use std::alloc::{AllocError, Global};

/// What is known behind some items.
#[derive(Drop)]
pub(crate) struct Ledger {
    /// A domain for each subject: the variables, and behind them the sums.
    domains: TrailedDomains,
    /// The sums that were defined.
    sums: Vec<LinearExpr>,
    /// The clauses that were added.
    clauses: RupChecker,
    /// What assignments are tried with.
    assignments: Assignments,
}

/// What became of a line.
#[derive(Clone, Copy)]
pub(crate) enum Taken {
    /// It is no item that is accepted.
    Refused,
    /// It is an item, which is added.
    Added,
    /// It is the empty clause that closes the log.
    Closing,
}

/// Makes the box of a clause, in place of the last one, and answers whether each subject is left a value.
fn make_box(domains: &mut TrailedDomains, clause: &[Atom]) -> Result<bool, AllocError>
    requires { IsClauseOver (length domains.old.first) clause.now }
    ensures first { domains.new.first ≡ domains.old.first }
    ensures many { length domains.new.now ≡ length domains.old.first }
    ensures kept { IfOk result (λ some. some ≡ true → (lists : List (List ℤ)) → AreDomains domains.old.first lists
        → (s : ℕ) (x : ℤ) → box_in domains.new.now s x ≡ box_of lists clause.now s x) }
    ensures none { IfOk result (λ some. some ≡ false → (lists : List (List ℤ)) → AreDomains domains.old.first lists
        → IsEmpty (length domains.old.first) (box_of lists clause.now)) }
{
    domains.restore();
    domains.keep_box(clause)
}

/// The sum that a subject stands for, if it is one: subjects from `variables` on are sums.
fn sum_at(variables: usize, sums: &[LinearExpr], subject: u32) -> Option<&LinearExpr>
    ensures { (vs : List VariableOf) → length vs ≡ variables
        → MatchOption result (sum_at vs sums.now subject ≡ None) (λ e. sum_at vs sums.now subject ≡ Some e.now) }
{
    let place = subject as usize;
    if place < variables {
        return None;
    }
    sums.get(place - variables)
}

/// Whether a constraint refutes a box: by ends and fixed literals, or by trying assignments.
fn is_refuted(
    alloc: Global,
    assignments: &mut Assignments,
    trial: &Trial<'_>,
) -> Result<bool, AllocError>
    requires exists { trial.now.constraint < length trial.now.model.now.constraints }
    requires definable { All (IsDefinable trial.now.model.now.variables) trial.now.sums.now }
    requires over { IsClauseOver (length trial.now.domains.now) trial.now.clause.now }
    requires left { IsBoxOf trial.now.model.now trial.now.sums.now trial.now.clause.now trial.now.domains.now }
    requires within { IsWithinDomains trial.now.model.now assignments.old.values.items }
    ensures refuted { IfOk result (λ yes. (d : ConstraintOf) → IsTrue yes ↔ Refutes trial.now.model.now
        trial.now.sums.now trial.now.clause.now (slice_index_or trial.now.model.now.constraints trial.now.constraint d)) }
    ensures within { IfOk result (λ _. IsWithinDomains trial.now.model.now assignments.new.values.items) }
{
    let constraints = trial.model.model().constraints.as_slice();
    match refutes(trial.domains, &constraints[trial.constraint as usize]) {
        Some(refuted) => Ok(refuted),
        None => assignments.is_refuted_by_all(alloc, trial),
    }
}

impl Ledger {
    /// Nothing but the variables.
    pub(crate) fn new(alloc: Global, model: &ValidModel) -> Result<Self, AllocError>
        ensures ledger { IfOk result (IsLedger model.now) }
        ensures empty { IfOk result (λ ledger. derivation_of ledger ≡ empty_derivation) }
    {
        let variables = model.model().variables.as_slice();
        let domains = domains_of(alloc, variables)?;
        let clauses = checker_of(alloc, variables)?;
        let assignments = Assignments::new(alloc, model)?;
        Ok(Ledger {
            domains,
            sums: Vec::new(alloc),
            clauses,
            assignments,
        })
    }

    /// How many subjects there are.
    fn subject_count(&self) -> usize
        ensures { result ≡ length self.now.domains.now }
    {
        self.domains.as_slice().len()
    }

    /// Whether a clause follows from a constraint.
    fn is_reason(
        &mut self,
        alloc: Global,
        model: &ValidModel,
        constraint: u32,
        clause: &Clause,
    ) -> Result<bool, AllocError>
        requires { IsLedger model.now self.old }
        ensures accepted { IfOk result (λ yes. (claim : ClaimOf) → IsTrue yes ↔ IsAccepted model.now claim
            (derivation_of self.old) (items.Reason constraint clause.now)) }
        ensures same { IfOk result (λ _. derivation_of self.new ≡ derivation_of self.old) }
        ensures ledger { IfOk result (λ _. IsLedger model.now self.new) }
    {
        let clause = clause.as_slice();
        if constraint as usize >= model.model().constraints.len()
            || !is_over(self.subject_count(), clause)
        {
            return Ok(false);
        }
        if !make_box(&mut self.domains, clause)? {
            return Ok(true);
        }
        let trial = Trial {
            model,
            sums: self.sums.as_slice(),
            clause,
            domains: self.domains.as_slice(),
            constraint,
        };
        let refuted = is_refuted(alloc, &mut self.assignments, &trial)?;
        Ok(refuted)
    }

    /// Whether a clause follows from the objective, as far as a claim leaves it open.
    fn is_about_objective(
        &mut self,
        model: &ValidModel,
        claim: &Claim,
        clause: &Clause,
    ) -> Result<bool, AllocError>
        requires ledger { IsLedger model.now self.old }
        requires near { IsNearClaim claim.now }
        ensures accepted { IfOk result (λ yes. IsTrue yes ↔ IsAccepted model.now claim.now
            (derivation_of self.old) (items.Objective clause.now)) }
        ensures same { IfOk result (λ _. derivation_of self.new ≡ derivation_of self.old) }
        ensures ledger { IfOk result (λ _. IsLedger model.now self.new) }
    {
        let clause = clause.as_slice();
        if !is_over(self.subject_count(), clause) {
            return Ok(false);
        }
        if !make_box(&mut self.domains, clause)? {
            return Ok(true);
        }
        let objective = &model.model().objective;
        Ok(is_objective_refuted(self.domains.as_slice(), objective, claim))
    }

    /// Whether a clause follows from what a subject's sum is.
    fn is_about_sum(
        &mut self,
        model: &ValidModel,
        subject: u32,
        clause: &Clause,
    ) -> Result<bool, AllocError>
        requires { IsLedger model.now self.old }
        ensures accepted { IfOk result (λ yes. (claim : ClaimOf) → IsTrue yes ↔ IsAccepted model.now claim
            (derivation_of self.old) (items.Ends subject clause.now)) }
        ensures same { IfOk result (λ _. derivation_of self.new ≡ derivation_of self.old) }
        ensures ledger { IfOk result (λ _. IsLedger model.now self.new) }
    {
        let clause = clause.as_slice();
        let variables = model.model().variables.len();
        if sum_at(variables, self.sums.as_slice(), subject).is_none()
            || !is_over(self.subject_count(), clause)
        {
            return Ok(false);
        }
        if !make_box(&mut self.domains, clause)? {
            return Ok(true);
        }
        match sum_at(variables, self.sums.as_slice(), subject) {
            Some(sum) => Ok(are_ends_apart(self.domains.as_slice(), subject, sum)),
            None => Ok(false),
        }
    }

    /// Whether a clause follows from those before it by unit propagation.
    fn is_learnt(&mut self, model: &ValidModel, clause: &Clause) -> Result<bool, AllocError>
        requires { IsLedger model.now self.old }
        ensures accepted { IfOk result (λ yes. (claim : ClaimOf) → IsTrue yes ↔ IsAccepted model.now claim
            (derivation_of self.old) (items.Learnt clause.now)) }
        ensures same { IfOk result (λ _. derivation_of self.new ≡ derivation_of self.old) }
        ensures ledger { IfOk result (λ _. IsLedger model.now self.new) }
    {
        let clause = clause.as_slice();
        if !is_over(self.subject_count(), clause) {
            return Ok(false);
        }
        let implied = self.clauses.is_implied(clause)?;
        Ok(implied)
    }

    /// Whether an item is accepted.
    fn accepts(
        &mut self,
        alloc: Global,
        model: &ValidModel,
        claim: &Claim,
        item: &LogItem,
    ) -> Result<bool, AllocError>
        requires ledger { IsLedger model.now self.old }
        requires near { IsNearClaim claim.now }
        ensures accepted { IfOk result (λ yes. IsTrue yes ↔ IsAccepted model.now claim.now (derivation_of self.old) item.now) }
        ensures same { IfOk result (λ _. derivation_of self.new ≡ derivation_of self.old) }
        ensures ledger { IfOk result (λ _. IsLedger model.now self.new) }
    {
        match item {
            LogItem::Sum(sum) => Ok(is_definable(model.model().variables.as_slice(), sum)),
            LogItem::Reason { constraint, clause } => {
                self.is_reason(alloc, model, *constraint, clause)
            }
            LogItem::Objective(clause) => self.is_about_objective(model, claim, clause),
            LogItem::Ends { subject, clause } => self.is_about_sum(model, *subject, clause),
            LogItem::Assumed(number) => {
                let assumptions = model.model().assumptions.as_slice();
                Ok(is_assumed(assumptions, *number, claim))
            }
            LogItem::Learnt(clause) => self.is_learnt(model, clause),
        }
    }

    /// Defines the next subject.
    fn add_sum(
        &mut self,
        alloc: Global,
        model: &ValidModel,
        sum: LinearExpr,
    ) -> Result<(), AllocError>
        requires ledger { IsLedger model.now self.old }
        requires definable { IsDefinable model.now.variables sum }
        ensures added { IfOk result (λ _. derivation_of self.new ≡ with_sum (derivation_of self.old) sum) }
        ensures ledger { IfOk result (λ _. IsLedger model.now self.new) }
    {
        self.domains.restore();
        let variables = model.model().variables.as_slice();
        let domain = sum_domain(alloc, variables, self.domains.as_slice(), &sum)?;
        self.clauses.add_subject(domain.clone()?)?;
        self.domains.push(domain)?;
        self.sums.push(sum)?;
        Ok(())
    }

    /// Adds a clause.
    fn add_clause(&mut self, model: &ValidModel, clause: &[Atom]) -> Result<(), AllocError>
        requires ledger { IsLedger model.now self.old }
        requires over { IsClauseOver (subject_count model.now.variables self.old.sums.items) clause.now }
        ensures added { IfOk result (λ _. derivation_of self.new ≡ with_clause (derivation_of self.old) clause.now) }
        ensures ledger { IfOk result (λ _. IsLedger model.now self.new) }
    {
        self.clauses.add_clause(clause)
    }

    /// Adds the assumption with this number.
    fn add_assumption(&mut self, model: &ValidModel, number: u32) -> Result<(), AllocError>
        requires ledger { IsLedger model.now self.old }
        requires exists { number < length model.now.assumptions }
        ensures added { IfOk result (λ _. derivation_of self.new
            ≡ after_item model.now (derivation_of self.old) (items.Assumed number)) }
        ensures ledger { IfOk result (λ _. IsLedger model.now self.new) }
    {
        let assumptions = model.model().assumptions.as_slice();
        let literal = assumptions[number as usize];
        self.add_clause(model, &[atom_of_literal(literal)])
    }

    /// Adds an item that is accepted.
    fn add(&mut self, alloc: Global, model: &ValidModel, item: LogItem) -> Result<(), AllocError>
        requires ledger { IsLedger model.now self.old }
        requires accepted { (claim : ClaimOf) × IsAccepted model.now claim (derivation_of self.old) item }
        ensures added { IfOk result (λ _. derivation_of self.new ≡ after_item model.now (derivation_of self.old) item) }
        ensures ledger { IfOk result (λ _. IsLedger model.now self.new) }
    {
        match &item {
            LogItem::Sum(_) => {}
            LogItem::Reason { clause, .. }
            | LogItem::Objective(clause)
            | LogItem::Ends { clause, .. }
            | LogItem::Learnt(clause) => return self.add_clause(model, clause.as_slice()),
            LogItem::Assumed(number) => return self.add_assumption(model, *number),
        }
        match item.into_sum() {
            Some(sum) => self.add_sum(alloc, model, sum),
            None => Ok(()),
        }
    }

    /// Takes a line of the log: reads the item that it is, judges it, and adds it.
    pub(crate) fn take_item(
        &mut self,
        alloc: Global,
        model: &ValidModel,
        claim: &Claim,
        line: &[u8],
    ) -> Result<Taken, AllocError>
        requires ledger { IsLedger model.now self.old }
        requires near { IsNearClaim claim.now }
        ensures taken { IfOk result (HasTaken model.now claim.now (derivation_of self.old) line.now (derivation_of self.new)) }
        ensures ledger { IfOk result (λ _. IsLedger model.now self.new) }
    {
        let Some(item) = item_of(alloc, line)? else {
            return Ok(Taken::Refused);
        };
        if !self.accepts(alloc, model, claim, &item)? {
            return Ok(Taken::Refused);
        }
        if is_closing(&item) {
            return Ok(Taken::Closing);
        }
        self.add(alloc, model, item)?;
        Ok(Taken::Added)
    }
}

/// Whether an item is the empty clause that closes a log.
fn is_closing(item: &LogItem) -> bool
    ensures { result ≡ is_closing item.now }
{
    match item {
        LogItem::Learnt(clause) => clause.as_slice().is_empty(),
        _ => false,
    }
}
