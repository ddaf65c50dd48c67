//! A constraint that no assignment in the box of a clause satisfies, found by trying them all.
//!
//! Only the variables that the constraint and the clause's sums read are tried: whatever the others are, it is the same.
//! Of those, the ones that the box leaves several values are at most sixteen, and so is the depth of the search.
ghost use Rattle.std.specs.Prelude.{◌≡◌, ◌↔◌, ◌<◌, ◌≤◌, ◌++◌, ℕ, None, Some, IfOk, OnOk, IsTrue, All, MatchOption, Contains, length, slice_index_or};
ghost use Rattle.cps_model.specs.declared.constraint.Constraint.{Constraint as ConstraintOf};
ghost use Rattle.cps_model.specs.Solutions.{IsWithinDomains};
ghost use Rattle.cps_model.specs.Values.{variable_value};
ghost use Rattle.cps_log.specs.Subjects.{IsClauseOver, IsDefinable, sum_at};
ghost use Rattle.cps_cert.specs.Counting.{read_variables, sum_variables};
ghost use Rattle.cps_rup.specs.Domains.{box_in};
ghost use Rattle.cps_cert.specs.Refuting.{IsRefutedByAll};
ghost use Rattle.cps_cert.specs.Trying.{IsBoxOf, IsGood, LiesIn, CanReach, IsInDomains, HasRead, ReadsOn};

use crate::assignments::{Assignments, MOST_ASSIGNMENTS};
use crate::values::expression_value;
use cps_domain::Domain;
use cps_eval::holds;
use cps_literal::Atom;
use cps_model::LinearExpr;
use cps_validate::ValidModel;
use std::alloc::{AllocError, Global};

/// A constraint of a model, and the box of a clause in which it is tried.
#[derive(Clone, Copy)]
pub(crate) struct Trial<'a> {
    pub(crate) model: &'a ValidModel,
    pub(crate) sums: &'a [LinearExpr],
    pub(crate) clause: &'a [Atom],
    /// What the box leaves to each subject.
    pub(crate) domains: &'a [Domain],
    /// The number of the constraint.
    pub(crate) constraint: u32,
}

/// The sum that a subject stands for, if it is one.
fn sum_at<'a>(trial: &Trial<'a>, subject: u32) -> Option<&'a LinearExpr>
    ensures { MatchOption result (sum_at trial.now.model.now.variables trial.now.sums.now subject ≡ None)
        (λ e. sum_at trial.now.model.now.variables trial.now.sums.now subject ≡ Some e.now) }
{
    let first = trial.model.model().variables.len();
    let place = (subject as usize).checked_sub(first)?;
    trial.sums.get(place)
}

/// Reads the variables of the sums that the clause is about.
fn read_sums(trial: &Trial<'_>, assignments: &mut Assignments) -> Result<(), AllocError>
    requires many { length assignments.old.values.items ≤ length trial.now.domains.now }
    ensures long { length assignments.new.values.items ≡ length assignments.old.values.items }
    ensures read { OnOk result (ReadsOn trial.now.domains.now assignments.old
        (sum_variables trial.now.model.now.variables trial.now.sums.now trial.now.clause.now) assignments.new) }
{
    for atom in trial.clause {
        if let Some(sum) = sum_at(trial, atom.subject) {
            assignments.read_sum(trial.domains, sum)?;
        }
    }
    Ok(())
}

/// Reads what the constraint and the clause's sums read, and forgets what was read before.
fn read(trial: &Trial<'_>, assignments: &mut Assignments) -> Result<(), AllocError>
    requires exists { trial.now.constraint < length trial.now.model.now.constraints }
    requires many { length assignments.old.values.items ≤ length trial.now.domains.now }
    ensures { OnOk result ((d : ConstraintOf) → IsInDomains trial.now.domains.now trial.now.model.now.variables
        → IsWithinDomains trial.now.model.now assignments.old.values.items
        → HasRead (box_in trial.now.domains.now) trial.now.model.now.variables
        (read_variables trial.now.model.now.constraints (slice_index_or trial.now.model.now.constraints trial.now.constraint d)
        ++ sum_variables trial.now.model.now.variables trial.now.sums.now trial.now.clause.now) assignments.new) }
{
    let constraints = trial.model.model().constraints.as_slice();
    let constraint = &constraints[trial.constraint as usize];
    assignments.restart();
    assignments.read_constraint(trial.domains, constraints, constraint)?;
    read_sums(trial, assignments)
}

/// Whether the sum that an atom is about, if it is about one, lies in the box.
fn lies_in(trial: &Trial<'_>, atom: Atom, values: &[i64]) -> bool
    requires definable { All (IsDefinable trial.now.model.now.variables) trial.now.sums.now }
    requires subject { atom.subject < length trial.now.domains.now }
    requires within { IsWithinDomains trial.now.model.now values.now }
    ensures { IsTrue result ↔ LiesIn trial.now.model.now.variables trial.now.sums.now (box_in trial.now.domains.now)
        values.now atom }
{
    // Reading the model gives the proof that it is valid.
    let _model = trial.model.model();
    match sum_at(trial, atom.subject) {
        Some(sum) => trial.domains[atom.subject as usize].contains(expression_value(sum, values)),
        None => true,
    }
}

/// Whether the sums that the clause is about lie in the box.
fn sums_lie_in(trial: &Trial<'_>, values: &[i64]) -> bool
    requires definable { All (IsDefinable trial.now.model.now.variables) trial.now.sums.now }
    requires over { IsClauseOver (length trial.now.domains.now) trial.now.clause.now }
    requires within { IsWithinDomains trial.now.model.now values.now }
    ensures { IsTrue result ↔ All (LiesIn trial.now.model.now.variables trial.now.sums.now
        (box_in trial.now.domains.now) values.now) trial.now.clause.now }
{
    for atom in trial.clause {
        if !lies_in(trial, *atom, values) {
            return false;
        }
    }
    true
}

/// Whether values satisfy the constraint, and the sums that the clause is about lie in the box.
fn is_good(alloc: Global, trial: &Trial<'_>, values: &[i64]) -> Result<bool, AllocError>
    requires exists { trial.now.constraint < length trial.now.model.now.constraints }
    requires definable { All (IsDefinable trial.now.model.now.variables) trial.now.sums.now }
    requires over { IsClauseOver (length trial.now.domains.now) trial.now.clause.now }
    requires within { IsWithinDomains trial.now.model.now values.now }
    ensures { IfOk result (λ yes. (d : ConstraintOf) → IsTrue yes ↔ IsGood trial.now.model.now trial.now.sums.now
        trial.now.clause.now (box_in trial.now.domains.now)
        (slice_index_or trial.now.model.now.constraints trial.now.constraint d) values.now) }
{
    if !sums_lie_in(trial, values) {
        return Ok(false);
    }
    holds(alloc, trial.model, trial.constraint, values)
}

/// Whether some values of the unfixed variables make the assignment a good one. Each of them is given every value that
/// its domain has, the first one outermost.
fn can_reach(
    alloc: Global,
    trial: &Trial<'_>,
    unfixed: &[usize],
    values: &mut [i64],
) -> Result<bool, AllocError>
    requires exists { trial.now.constraint < length trial.now.model.now.constraints }
    requires definable { All (IsDefinable trial.now.model.now.variables) trial.now.sums.now }
    requires over { IsClauseOver (length trial.now.domains.now) trial.now.clause.now }
    requires left { IsInDomains trial.now.domains.now trial.now.model.now.variables }
    requires named { All (λ v. v < length trial.now.model.now.variables) unfixed.now }
    requires within { IsWithinDomains trial.now.model.now values.old }
    ensures reached { IfOk result (λ yes. (d : ConstraintOf) → IsTrue yes
        ↔ CanReach (box_in trial.now.domains.now) unfixed.now (IsGood trial.now.model.now trial.now.sums.now
        trial.now.clause.now (box_in trial.now.domains.now)
        (slice_index_or trial.now.model.now.constraints trial.now.constraint d)) values.old) }
    ensures same { (v : ℕ) → ¬ Contains unfixed.now v → variable_value values.new v ≡ variable_value values.old v }
    ensures within { IfOk result (λ _. IsWithinDomains trial.now.model.now values.new) }
{
    let Some((variable, others)) = unfixed.split_first() else {
        return is_good(alloc, trial, values);
    };
    for (least, greatest) in trial.domains[*variable].intervals() {
        for value in *least..*greatest + 1 {
            values[*variable] = value;
            if can_reach(alloc, trial, others, values)? {
                return Ok(true);
            }
        }
    }
    Ok(false)
}

impl Assignments {
    /// Whether a constraint refutes the box of a clause: the box has at most 2^16 assignments of the variables that are
    /// read, and none of them satisfies the constraint with the clause's sums in the box.
    pub(crate) fn is_refuted_by_all(
        &mut self,
        alloc: Global,
        trial: &Trial<'_>,
    ) -> Result<bool, AllocError>
        requires exists { trial.now.constraint < length trial.now.model.now.constraints }
        requires definable { All (IsDefinable trial.now.model.now.variables) trial.now.sums.now }
        requires over { IsClauseOver (length trial.now.domains.now) trial.now.clause.now }
        requires is_box { IsBoxOf trial.now.model.now trial.now.sums.now trial.now.clause.now trial.now.domains.now }
        requires within { IsWithinDomains trial.now.model.now self.old.values.items }
        ensures refuted { IfOk result (λ yes. (d : ConstraintOf) → IsTrue yes ↔ IsRefutedByAll trial.now.model.now
            trial.now.sums.now trial.now.clause.now
            (slice_index_or trial.now.model.now.constraints trial.now.constraint d)) }
        ensures within { IfOk result (λ _. IsWithinDomains trial.now.model.now self.new.values.items) }
    {
        // Reading the model gives the proof that it is valid.
        let _model = trial.model.model();
        read(trial, self)?;
        if self.count > MOST_ASSIGNMENTS {
            return Ok(false);
        }
        let reached = can_reach(alloc, trial, &self.unfixed, &mut self.values)?;
        Ok(!reached)
    }
}
