//! The variables that a constraint and sums read, and how many assignments a box has of them.
//!
//! A variable that the box leaves one value gets it. The others are listed: at most sixteen, since as soon as there are
//! more than 2^16 assignments nothing more is read. So the price is that of what is read, whatever else the model has.
ghost use Rattle.std.specs.Prelude.{◌≡◌, ◌++◌, ◌≤◌, [], ◌∷◌, IsTrue, None, OnOk, IfOk, All, option_copied, length};
ghost use Rattle.std.specs.List.{flat_map};
ghost use Rattle.cps_model.specs.Solutions.{are_within, IsWithinDomains};
ghost use Rattle.cps_model.specs.Validity.{variable_fault};
ghost use Rattle.cps_model.specs.Within.{is_within};
ghost use Rattle.cps_model.specs.Rules.{intervals_of};
ghost use Rattle.cps_model.specs.Scheduling.{constraint_at};
ghost use Rattle.cps_cert.specs.Counting.{variables_of, variables_of_sum, variables_of_run, variables_of_named, read_variables};
ghost use Rattle.cps_cert.specs.Trying.{kind_variables, named_variables, ReadsOn};

use cps_domain::Domain;
use cps_model::{Constraint, Exprs, Kind, LinearExpr, Variable, variable_of};
use cps_validate::ValidModel;
use std::alloc::{AllocError, Global};

/// The most assignments that are tried.
pub(crate) const MOST_ASSIGNMENTS: u64 = 1 << 16;

/// The assignments that a box has of the variables that were read. It is kept from one constraint to the next, so that
/// the values are made once.
#[derive(Drop)]
pub(crate) struct Assignments {
    /// A value for each variable, within its domain.
    pub(crate) values: Vec<i64>,
    /// The variables that were read and are left several values, each once.
    pub(crate) unfixed: Vec<usize>,
    /// How many assignments there are. Beyond `MOST_ASSIGNMENTS` there are too many, and it says no more.
    pub(crate) count: u64,
}

/// The least value of a variable.
fn least_value(variable: &Variable) -> i64
    requires { variable_fault variable.now ≡ None }
    ensures { IsTrue (is_within variable.now.domain result) }
{
    variable.domain.as_slice()[0]
}

/// The least value of each variable.
fn least_values(alloc: Global, variables: &[Variable]) -> Result<Vec<i64>, AllocError>
    requires { All (λ v. variable_fault v ≡ None) variables.now }
    ensures { IfOk result (λ values. IsTrue (are_within variables.now values.items)) }
{
    let mut values = Vec::with_capacity(alloc, variables.len())?;
    for variable in variables {
        values.push(least_value(variable))?;
    }
    Ok(values)
}

/// The constraint that an index names.
fn constraint_at(constraints: &[Constraint], index: i32) -> Option<&Constraint>
    ensures { option_copied result ≡ constraint_at constraints.now index }
{
    if index < 0 {
        return None;
    }
    constraints.get(index as usize)
}

impl Assignments {
    /// The least value of each variable, with nothing read.
    pub(crate) fn new(alloc: Global, model: &ValidModel) -> Result<Self, AllocError>
        ensures { IfOk result (λ assignments. IsWithinDomains model.now assignments.values.items) }
    {
        let values = least_values(alloc, model.model().variables.as_slice())?;
        Ok(Assignments {
            values,
            unfixed: Vec::new(alloc),
            count: 1,
        })
    }

    /// Forgets what was read.
    pub(crate) fn restart(&mut self)
        ensures values { self.new.values ≡ self.old.values }
        ensures unfixed { self.new.unfixed.items ≡ [] }
        ensures count { self.new.count ≡ 1 }
    {
        self.unfixed.clear();
        self.count = 1;
    }

    /// Reads a variable. One that the model does not have counts for nothing.
    fn read(&mut self, domains: &[Domain], variable: usize) -> Result<(), AllocError>
        requires many { length self.old.values.items ≤ length domains.now }
        ensures long { length self.new.values.items ≡ length self.old.values.items }
        ensures read { OnOk result (ReadsOn domains.now self.old (variable ∷ []) self.new) }
    {
        if self.count > MOST_ASSIGNMENTS {
            return Ok(());
        }
        if variable >= self.values.len() {
            return Ok(());
        }
        let domain = &domains[variable];
        if domain.is_fixed() {
            self.values[variable] = domain.min();
        } else if !self.unfixed.contains(&variable) {
            // Reading the least value gives the proof the domain's invariant.
            let _least = domain.min();
            let size = domain.size();
            self.unfixed.push(variable)?;
            self.count = self.count.saturating_mul(size);
        }
        Ok(())
    }

    /// Reads the variables of references.
    fn read_references(&mut self, domains: &[Domain], references: &[i32]) -> Result<(), AllocError>
        requires many { length self.old.values.items ≤ length domains.now }
        ensures long { length self.new.values.items ≡ length self.old.values.items }
        ensures read { OnOk result (ReadsOn domains.now self.old (variables_of references.now) self.new) }
    {
        for reference in references {
            self.read(domains, variable_of(*reference))?;
        }
        Ok(())
    }

    /// Reads the variables of a sum.
    pub(crate) fn read_sum(
        &mut self,
        domains: &[Domain],
        sum: &LinearExpr,
    ) -> Result<(), AllocError>
        requires many { length self.old.values.items ≤ length domains.now }
        ensures long { length self.new.values.items ≡ length self.old.values.items }
        ensures read { OnOk result (ReadsOn domains.now self.old (variables_of_sum sum.now) self.new) }
    {
        self.read_references(domains, sum.vars.as_slice())
    }

    /// Reads the variables of sums.
    fn read_sums(&mut self, domains: &[Domain], sums: &[LinearExpr]) -> Result<(), AllocError>
        requires many { length self.old.values.items ≤ length domains.now }
        ensures long { length self.new.values.items ≡ length self.old.values.items }
        ensures read { OnOk result (ReadsOn domains.now self.old (flat_map variables_of_sum sums.now) self.new) }
    {
        for sum in sums {
            self.read_sum(domains, sum)?;
        }
        Ok(())
    }

    /// Reads the variables of expressions, of which some may be plain references.
    fn read_exprs(&mut self, domains: &[Domain], exprs: &Exprs) -> Result<(), AllocError>
        requires many { length self.old.values.items ≤ length domains.now }
        ensures long { length self.new.values.items ≡ length self.old.values.items }
        ensures read { OnOk result (ReadsOn domains.now self.old (flat_map variables_of_sum exprs.now) self.new) }
    {
        let (written, references) = exprs.parts();
        self.read_sums(domains, written)?;
        self.read_references(domains, references)
    }

    /// Reads the variables of two lists of references.
    fn read_both(
        &mut self,
        domains: &[Domain],
        first: &[i32],
        second: &[i32],
    ) -> Result<(), AllocError>
        requires many { length self.old.values.items ≤ length domains.now }
        ensures long { length self.new.values.items ≡ length self.old.values.items }
        ensures read { OnOk result (ReadsOn domains.now self.old (variables_of (first.now ++ second.now)) self.new) }
    {
        self.read_references(domains, first)?;
        self.read_references(domains, second)
    }

    /// Reads the variables of a sum and of others.
    fn read_target(
        &mut self,
        domains: &[Domain],
        target: &LinearExpr,
        sums: &[LinearExpr],
    ) -> Result<(), AllocError>
        requires many { length self.old.values.items ≤ length domains.now }
        ensures long { length self.new.values.items ≡ length self.old.values.items }
        ensures read { OnOk result (ReadsOn domains.now self.old
            (flat_map variables_of_sum (target.now ∷ sums.now)) self.new) }
    {
        self.read_sum(domains, target)?;
        self.read_sums(domains, sums)
    }

    /// Reads the variables of an element's index, target and expressions.
    fn read_element(
        &mut self,
        domains: &[Domain],
        index: &LinearExpr,
        target: &LinearExpr,
        exprs: &Exprs,
    ) -> Result<(), AllocError>
        requires many { length self.old.values.items ≤ length domains.now }
        ensures long { length self.new.values.items ≡ length self.old.values.items }
        ensures read { OnOk result (ReadsOn domains.now self.old
            (flat_map variables_of_sum (index.now ∷ target.now ∷ exprs.now)) self.new) }
    {
        self.read_sum(domains, index)?;
        self.read_sum(domains, target)?;
        self.read_exprs(domains, exprs)
    }

    /// Reads the variables of an interval's start, end and size.
    fn read_interval(
        &mut self,
        domains: &[Domain],
        start: &LinearExpr,
        end: &LinearExpr,
        size: &LinearExpr,
    ) -> Result<(), AllocError>
        requires many { length self.old.values.items ≤ length domains.now }
        ensures long { length self.new.values.items ≡ length self.old.values.items }
        ensures read { OnOk result (ReadsOn domains.now self.old
            (flat_map variables_of_sum (start.now ∷ end.now ∷ size.now ∷ [])) self.new) }
    {
        self.read_sum(domains, start)?;
        self.read_sum(domains, end)?;
        self.read_sum(domains, size)
    }

    /// Reads the variables of a reservoir's literals, times and changes.
    fn read_reservoir(
        &mut self,
        domains: &[Domain],
        active: &[i32],
        times: &[LinearExpr],
        changes: &[LinearExpr],
    ) -> Result<(), AllocError>
        requires many { length self.old.values.items ≤ length domains.now }
        ensures long { length self.new.values.items ≡ length self.old.values.items }
        ensures read { OnOk result (ReadsOn domains.now self.old
            (variables_of active.now ++ flat_map variables_of_sum (times.now ++ changes.now)) self.new) }
    {
        self.read_references(domains, active)?;
        self.read_sums(domains, times)?;
        self.read_sums(domains, changes)
    }

    /// Reads the variables that stand in a kind.
    fn read_kind(&mut self, domains: &[Domain], kind: &Kind) -> Result<(), AllocError>
        requires many { length self.old.values.items ≤ length domains.now }
        ensures long { length self.new.values.items ≡ length self.old.values.items }
        ensures read { OnOk result (ReadsOn domains.now self.old (kind_variables kind.now) self.new) }
    {
        match kind {
            Kind::Empty | Kind::NoOverlap(_) | Kind::NoOverlap2d { .. } => Ok(()),
            Kind::BoolOr(literals)
            | Kind::BoolAnd(literals)
            | Kind::AtMostOne(literals)
            | Kind::ExactlyOne(literals)
            | Kind::BoolXor(literals)
            | Kind::Circuit { literals, .. } => self.read_references(domains, literals.as_slice()),
            Kind::Linear { vars, .. } => self.read_references(domains, vars.as_slice()),
            Kind::IntDiv { target, exprs }
            | Kind::IntMod { target, exprs }
            | Kind::IntProd { target, exprs }
            | Kind::LinMax { target, exprs } => self.read_target(domains, target, exprs.as_slice()),
            Kind::Element {
                index,
                target,
                exprs,
            } => self.read_element(domains, index, target, exprs),
            Kind::Table { exprs, .. } | Kind::Automaton { exprs, .. } => self.read_exprs(
                domains, exprs,
            ),
            Kind::AllDiff(exprs) => self.read_sums(domains, exprs.as_slice()),
            Kind::Interval { start, end, size } => self.read_interval(domains, start, end, size),
            Kind::Cumulative {
                capacity,
                demands,
                ..
            } => self.read_target(domains, capacity, demands.as_slice()),
            Kind::Inverse { direct, inverse } => {
                self.read_both(domains, direct.as_slice(), inverse.as_slice())
            }
            Kind::Reservoir {
                times,
                changes,
                active,
                ..
            } => self.read_reservoir(
                domains,
                active.as_slice(),
                times.as_slice(),
                changes.as_slice(),
            ),
        }
    }

    /// Reads the variables that say when an interval runs.
    fn read_run(&mut self, domains: &[Domain], kind: &Kind) -> Result<(), AllocError>
        requires many { length self.old.values.items ≤ length domains.now }
        ensures long { length self.new.values.items ≡ length self.old.values.items }
        ensures read { OnOk result (ReadsOn domains.now self.old (variables_of_run kind.now) self.new) }
    {
        let Kind::Interval { start, end, .. } = kind else {
            return Ok(());
        };
        self.read_sum(domains, start)?;
        self.read_sum(domains, end)
    }

    /// Reads the variables that say whether and when an interval runs.
    fn read_named(
        &mut self,
        domains: &[Domain],
        constraints: &[Constraint],
        index: i32,
    ) -> Result<(), AllocError>
        requires many { length self.old.values.items ≤ length domains.now }
        ensures long { length self.new.values.items ≡ length self.old.values.items }
        ensures read { OnOk result (ReadsOn domains.now self.old
            (variables_of_named (constraint_at constraints.now index)) self.new) }
    {
        let Some(constraint) = constraint_at(constraints, index) else {
            return Ok(());
        };
        self.read_references(domains, constraint.enforcement.as_slice())?;
        self.read_run(domains, &constraint.kind)
    }

    /// Reads the variables that say whether and when intervals run.
    fn read_intervals(
        &mut self,
        domains: &[Domain],
        constraints: &[Constraint],
        indices: &[i32],
    ) -> Result<(), AllocError>
        requires many { length self.old.values.items ≤ length domains.now }
        ensures long { length self.new.values.items ≡ length self.old.values.items }
        ensures read { OnOk result (ReadsOn domains.now self.old
            (named_variables constraints.now indices.now) self.new) }
    {
        for index in indices {
            self.read_named(domains, constraints, *index)?;
        }
        Ok(())
    }

    /// Reads the variables that say whether and when the intervals run that a kind names.
    fn read_kind_intervals(
        &mut self,
        domains: &[Domain],
        constraints: &[Constraint],
        kind: &Kind,
    ) -> Result<(), AllocError>
        requires many { length self.old.values.items ≤ length domains.now }
        ensures long { length self.new.values.items ≡ length self.old.values.items }
        ensures read { OnOk result (ReadsOn domains.now self.old
            (named_variables constraints.now (intervals_of kind.now)) self.new) }
    {
        match kind {
            Kind::NoOverlap(intervals) => {
                self.read_intervals(domains, constraints, intervals.as_slice())
            }
            Kind::Cumulative { intervals, .. } => {
                self.read_intervals(domains, constraints, intervals.as_slice())
            }
            Kind::NoOverlap2d { x, y } => {
                self.read_intervals(domains, constraints, x.as_slice())?;
                self.read_intervals(domains, constraints, y.as_slice())
            }
            _ => Ok(()),
        }
    }

    /// Reads the variables of a constraint, and of the intervals that it names, and nothing else before.
    pub(crate) fn read_constraint(
        &mut self,
        domains: &[Domain],
        constraints: &[Constraint],
        constraint: &Constraint,
    ) -> Result<(), AllocError>
        requires many { length self.old.values.items ≤ length domains.now }
        ensures long { length self.new.values.items ≡ length self.old.values.items }
        ensures read { OnOk result (ReadsOn domains.now self.old
            (read_variables constraints.now constraint.now) self.new) }
    {
        self.read_references(domains, constraint.enforcement.as_slice())?;
        self.read_kind(domains, &constraint.kind)?;
        self.read_kind_intervals(domains, constraints, &constraint.kind)
    }
}
