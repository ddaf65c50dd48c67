//! The items of a log that a search does not learn: the definitions of its sums, and clauses that one task gives.
//!
//! A log speaks of a model's variables and of the sums that it defined. So before a clause becomes an item, the sums up
//! to the last one that it needs are defined, in the order of their subjects. How many are defined already is a hint of
//! the caller, which the tracer confirms: a wrong one causes an error and no false item. Where an item cannot be
//! written, the calls answer as if memory had run out.
ghost use Rattle.std.specs.Prelude.{◌≡◌, ◌↔◌, ℤ, ◌+◌, ◌*◌, ◌<◌, ◌+ℤ◌, ◌*ℤ◌, ◌≤ℤ◌, ◌^◌, unsigned_abs, List, All, IsTrue, IfOk, IfSome, OnOk, length, map};
ghost use Rattle.std.specs.Int.{int_min};
ghost use Rattle.cps_domain.specs.Window.{intervals};
ghost use Rattle.cps_model.specs.declared.bound.Bound.{Bound as BoundOf};
ghost use Rattle.cps_model.specs.Solutions.{IsWithinDomains, objective_value};
ghost use Rattle.cps_instance.specs.Problem.{IsInstance};
ghost use Rattle.cps_instance.specs.Terms.{least_of, greatest_of, magnitude, terms_reach, least_of_terms};
ghost use Rattle.cps_tracer.specs.Traced.{subjects_of};
ghost use Rattle.cps_search.specs.Logged.{Grows};
ghost use Rattle.cps_search.specs.Logging.{IsGivenBelow};
ghost use Rattle.cps_search.specs.LogItems.{IsUngrown, counts_of, sum_subject, is_zero, HasExpression};

use cps_domain::Domain;
use cps_instance::{Body, Instance, Term};
use cps_literal::{Atom, Op};
use cps_model::{Bound, LinearExpr, Listed};
use cps_tracer::Tracer;
use std::alloc::{AllocError, Global};

/// How many variables, constraints and sums an instance has. Its tasks come in this order: those of the constraints,
/// those of the sums, and the two of the objective.
#[derive(Clone, Copy)]
pub(crate) struct TaskCounts {
    variables: usize,
    constraints: usize,
    sums: usize,
}

impl TaskCounts {
    /// Those of an instance.
    fn of(instance: &Instance) -> TaskCounts
        ensures is { result ≡ counts_of instance.now }
        ensures sound { IsInstance instance.now }
    {
        let variables = instance.variable_count();
        let sums = instance.domains().len() - variables;
        let constraints = instance.tasks().len() - sums - 2;
        TaskCounts {
            variables,
            constraints,
            sums,
        }
    }

    /// The subject of the sum that a task defines, if it is the task of a sum.
    fn sum_subject(self, task: u32) -> Option<u32>
        requires { self.variables + self.sums < 2 ^ 32 }
        ensures { result ≡ sum_subject self task }
    {
        let place = (task as usize).checked_sub(self.constraints)?;
        if place >= self.sums {
            return None;
        }
        Some((self.variables + place) as u32)
    }
}

/// Whether the log speaks of a subject.
fn is_subject(tracer: &Tracer, subject: u32) -> bool
    ensures { IsTrue result ↔ (subject < subjects_of tracer.now) }
{
    tracer.is_over(&[Atom {
        subject,
        op: Op::Ge,
        value: 0,
    }])
}

/// Whether a subject is the first one of which the log does not speak.
fn is_next_subject(tracer: &Tracer, subject: u32) -> bool
    ensures { IsTrue result → subjects_of tracer.now ≡ subject }
{
    if is_subject(tracer, subject) {
        return false;
    }
    if subject == 0 {
        return true;
    }
    is_subject(tracer, subject - 1)
}

/// Whether a domain has the value 0 and no other.
fn is_zero(domain: &Domain) -> bool
    ensures { result ≡ is_zero (intervals domain.now) }
{
    domain.min() == 0 && domain.max() == 0
}

/// The sum that a task defines, as an expression. Out of memory too where it defines none, or one over sums.
fn expression_of(alloc: Global, instance: &Instance, body: &Body) -> Result<LinearExpr, AllocError>
    ensures { IfOk result (HasExpression instance.now body.now) }
{
    let Body::Sum {
        subject: _subject,
        terms,
        offset,
    } = body
    else {
        return Err(AllocError);
    };
    let mut vars = Vec::new(alloc);
    let mut coeffs = Vec::new(alloc);
    for term in terms.as_slice() {
        let subject = term.subject as usize;
        if subject >= instance.variable_count() {
            return Err(AllocError);
        }
        if is_zero(&instance.domains()[subject]) {
            continue;
        }
        vars.push(term.subject as i32)?;
        coeffs.push(term.coeff)?;
    }
    Ok(LinearExpr {
        vars: Listed::from_vec(vars),
        coeffs: Listed::from_vec(coeffs),
        offset: *offset,
    })
}

/// Defines the next sum.
fn define_next(tracer: &mut Tracer, sums: &mut u32, instance: &Instance) -> Result<(), AllocError>
    ensures { OnOk result ((z : BoundOf) → IsUngrown instance.now
        → Grows instance.now z tracer.old tracer.new) }
{
    let counts = TaskCounts::of(instance);
    let place = *sums as usize;
    if place >= counts.sums {
        return Err(AllocError);
    }
    if !is_next_subject(tracer, (counts.variables + place) as u32) {
        return Err(AllocError);
    }
    let task = &instance.tasks()[counts.constraints + place];
    let sum = expression_of(tracer.allocator(), instance, &task.body)?;
    if !tracer.is_definable(&sum) {
        return Err(AllocError);
    }
    tracer.define(sum)?;
    *sums += 1;
    Ok(())
}

/// Defines the sums up to a subject.
fn define_up_to(
    tracer: &mut Tracer,
    sums: &mut u32,
    instance: &Instance,
    last: u32,
) -> Result<(), AllocError>
    ensures { OnOk result ((z : BoundOf) → IsUngrown instance.now
        → Grows instance.now z tracer.old tracer.new) }
{
    let needed = (last as usize + 1).saturating_sub(instance.variable_count());
    for _place in *sums as usize..needed {
        define_next(tracer, sums, instance)?;
    }
    Ok(())
}

/// The last subject of a clause.
fn last_subject(clause: &[Atom]) -> u32 {
    clause.iter().map(|atom| atom.subject).max().unwrap_or(0)
}

/// Appends the item of a clause that a task gives, after the sums that it needs, and answers the clause's number.
/// `sums` is how many sums the log has.
pub(crate) fn write_item(
    tracer: &mut Tracer,
    sums: &mut u32,
    instance: &Instance,
    task: u32,
    clause: &[Atom],
) -> Result<u32, AllocError>
    ensures { OnOk result ((z : BoundOf) → IsUngrown instance.now
        → IsGivenBelow instance.now z task clause.now → Grows instance.now z tracer.old tracer.new) }
{
    let counts = TaskCounts::of(instance);
    let own = counts.sum_subject(task);
    let last = last_subject(clause).max(own.unwrap_or(0));
    define_up_to(tracer, sums, instance, last)?;
    if !tracer.is_over(clause) {
        return Err(AllocError);
    }
    let Some(subject) = own else {
        if (task as usize) < counts.constraints {
            return tracer.reason(task, clause);
        }
        return tracer.objective(clause);
    };
    if !is_subject(tracer, subject) {
        return Err(AllocError);
    }
    tracer.ends(subject, clause)
}

/// The least value of a term by the domain of its subject.
fn least_of_term(domain: &Domain, term: &Term) -> i64
    requires { unsigned_abs term.now.coeff * magnitude (intervals domain.now) < 2 ^ 62 }
    ensures { result ≡ int_min (term.now.coeff *ℤ least_of (intervals domain.now))
        (term.now.coeff *ℤ greatest_of (intervals domain.now)) }
{
    let first = term.coeff * domain.min();
    let second = term.coeff * domain.max();
    first.min(second)
}

/// The sum of two numbers.
fn sum_of(one: i64, other: i64) -> i64
    requires { unsigned_abs one + unsigned_abs other < 2 ^ 62 }
    ensures { result ≡ one +ℤ other }
{
    one + other
}

/// The least sum of terms by the domains.
fn least_of_terms(domains: &[Domain], terms: &[Term]) -> i64
    requires subjects { All (λ t. t.subject < length domains.now) terms.now }
    requires small { terms_reach (map intervals domains.now) terms.now < 2 ^ 62 }
    ensures { result ≡ least_of_terms (map intervals domains.now) terms.now }
{
    let mut sum = 0;
    for term in terms {
        sum = sum_of(sum, least_of_term(&domains[term.subject as usize], term));
    }
    sum
}

/// A lower bound of the objective by the domains of the variables.
fn least_objective(instance: &Instance) -> Option<i64>
    ensures { IfSome result (λ least. IsUngrown instance.now
        → (a : List ℤ) → IsWithinDomains instance.now.model a
        → least ≤ℤ objective_value instance.now.model a) }
{
    let counts = TaskCounts::of(instance);
    let cut = &instance.tasks()[counts.constraints + counts.sums + 1];
    let Body::Cut {
        terms,
        upper: _upper,
    } = &cut.body
    else {
        return None;
    };
    Some(least_of_terms(instance.domains(), terms.as_slice()))
}

/// Appends the objective's clause without atoms, and answers its number: no assignment has an objective below `z`. Out
/// of memory too where the domains of the variables do not imply it.
pub(crate) fn write_start(
    tracer: &mut Tracer,
    instance: &Instance,
    z: Bound,
) -> Result<u32, AllocError>
    ensures { OnOk result (IsUngrown instance.now → Grows instance.now z tracer.old tracer.new) }
{
    let Bound::At(end) = z else {
        return Err(AllocError);
    };
    let Some(least) = least_objective(instance) else {
        return Err(AllocError);
    };
    if least < end {
        return Err(AllocError);
    }
    tracer.objective(&[])
}
