//! Sums narrow, meet a conflict and make their last enforcement atom false, with reasons weakened by the slack.
//!
//! Each row was worked out by hand from the terms and the admitted sums. How far a reason is weakened, which no
//! contract says, is seen here.

ghost use Rattle.std.specs.Prelude.{◌≡◌, [], pos, IsTrue, All, IfOk};
ghost use Rattle.cps_model.specs.Within.{is_well_shaped};
ghost use Rattle.cps_domain.specs.Window.{intervals};
ghost use Rattle.cps_instance.specs.Fitting.{IsFitting};
ghost use Rattle.cps_propagation_tests.specs.Bits.{IsBit};
ghost use Rattle.cps_propagation_tests.specs.Sums.{up_to_ten, five_domains, cut_task, IsSmallTerm, AreSmallTerms};

use crate::booleans::zero_or_one;
use crate::runs::run;
use crate::stores::{are_bits, at_least, at_most, decide_all};
use cps_domain::Domain;
use cps_instance::{Body, Task, Term};
use cps_literal::Atom;
use cps_model::Listed;
use cps_p_linear::Linear;
use cps_propagate::{Defining, Propagator};
use cps_trail::Store;
use std::alloc::{AllocError, Global};
use std::test::Fail;

fn term(coeff: i64, subject: u32) -> Term
    ensures { result ≡ record { coeff = coeff; subject = subject } }
{
    Term { coeff, subject }
}

fn is_small(term: Term) -> bool
    ensures { IsTrue result → IsSmallTerm term }
{
    term.subject < 3 && term.coeff >= -100 && term.coeff <= 100
}

fn are_small(terms: &[Term]) -> bool
    ensures { IsTrue result → AreSmallTerms terms.now }
{
    if terms.len() > 4 {
        return false;
    }
    for term in terms {
        if !is_small(*term) {
            return false;
        }
    }
    true
}

/// The values 0 to 10.
fn up_to_ten(alloc: Global) -> Result<Domain, AllocError>
    ensures { IfOk result (λ domain. intervals domain ≡ up_to_ten) }
{
    Domain::of_bounds(alloc, &[0, 10])
}

/// Three subjects of the values 0 to 10, and two of the values 0 and 1.
fn five(alloc: Global) -> Result<Store, AllocError>
    ensures first { IfOk result (λ store. store.first ≡ five_domains) }
    ensures none { IfOk result (λ store. store.entries ≡ []) }
{
    let first = up_to_ten(alloc)?;
    let second = up_to_ten(alloc)?;
    let third = up_to_ten(alloc)?;
    let fourth = zero_or_one(alloc)?;
    let fifth = zero_or_one(alloc)?;
    Store::new(alloc, &[first, second, third, fourth, fifth])
}

/// The propagator of a sum that is to lie in one of the intervals.
fn linear(
    alloc: Global,
    enforcement: &[Atom],
    terms: &[Term],
    bounds: &[i64],
) -> Result<Linear, AllocError>
    requires enforcement { All (IsBit 3 5) enforcement.now }
    requires terms { AreSmallTerms terms.now }
    requires bounds { IsTrue (is_well_shaped bounds.now) }
    ensures { IfOk result (λ linear. IsFitting five_domains linear.task) }
{
    let body = Body::Linear {
        terms: Listed::from_vec(Vec::from_slice(alloc, terms)?),
        domain: Listed::from_vec(Vec::from_slice(alloc, bounds)?),
    };
    let task = Task {
        enforcement: Listed::from_vec(Vec::from_slice(alloc, enforcement)?),
        body,
    };
    let linear = Linear::of(alloc, &task)?;
    Ok(linear)
}

/// Runs a propagator after decisions.
fn ran(
    alloc: Global,
    linear: &mut Linear,
    decisions: &[Atom],
) -> Result<(bool, Vec<Atom>), AllocError>
    requires { IsFitting five_domains linear.old.task }
{
    let mut store = five(alloc)?;
    decide_all(&mut store, decisions)?;
    run(alloc, linear, &mut store)
}

/// Runs the propagator of a sum that is to lie in one of the intervals, after decisions. Whether it settles, and the
/// conflict or the reason of the last entry; `None` also where a term or an atom is none of those above.
fn trial(
    alloc: Global,
    enforcement: &[Atom],
    terms: &[Term],
    bounds: &[i64],
    decisions: &[Atom],
) -> Option<(bool, Vec<Atom>)>
    requires { IsTrue (is_well_shaped bounds.now) }
{
    if !are_bits(3, 5, enforcement) || !are_small(terms) {
        return None;
    }
    let mut propagator = linear(alloc, enforcement, terms, bounds).ok()?;
    ran(alloc, &mut propagator, decisions).ok()
}

/// Whether a run settled, with this reason of the last entry.
fn settled(run: Option<(bool, Vec<Atom>)>, reason: &[Atom]) -> bool {
    match run {
        Some((is_settled, found)) => is_settled && found.as_slice() == reason,
        None => false,
    }
}

/// Whether a run met this conflict.
fn met(run: Option<(bool, Vec<Atom>)>, conflict: &[Atom]) -> bool {
    match run {
        Some((is_settled, found)) => !is_settled && found.as_slice() == conflict,
        None => false,
    }
}

#[test]
fn terms_are_left_what_the_others_leave(rt: HostRuntime) {
    let alloc = rt.alloc();
    let sum = [term(1, 0), term(3, 1)];
    let run = trial(alloc, &[], &sum, &[i64::MIN, 6], &[]);
    assert!(rt; settled(run, &[at_most(1, 2)]));
    let run = trial(alloc, &[], &sum, &[i64::MIN, 6], &[at_least(0, 3)]);
    assert!(rt; settled(run, &[at_most(0, 0), at_most(1, 1)]));
}

// Sums of 0, and then of -1 to 1, are not admitted. In the second row the first may be up to 1 with the same answer.
#[test]
fn ends_move_inwards_past_gaps(rt: HostRuntime) {
    let alloc = rt.alloc();
    let sum = [term(1, 0), term(-1, 1)];
    let run = trial(
        alloc,
        &[],
        &sum,
        &[i64::MIN, -1, 1, i64::MAX],
        &[at_most(0, 0)],
    );
    assert!(rt; settled(run, &[at_least(0, 1), at_least(1, 1)]));
    let run = trial(
        alloc,
        &[],
        &sum,
        &[i64::MIN, -2, 2, i64::MAX],
        &[at_most(0, 0)],
    );
    assert!(rt; settled(run, &[at_least(0, 2), at_least(1, 2)]));
}

// With the second at least 2, three times the first is at most 8, and so the first at most 2. With the second at least
// 5 and none of the first, five times the third is at most 9, and so the third at most 1.
#[test]
fn reasons_are_weakened_by_the_slack(rt: HostRuntime) {
    let alloc = rt.alloc();
    let sum = [term(0, 2), term(2, 1), term(3, 0)];
    let run = trial(
        alloc,
        &[],
        &sum,
        &[i64::MIN, 12],
        &[at_least(2, 5), at_least(1, 3)],
    );
    assert!(rt; settled(run, &[at_most(1, 1), at_most(0, 2)]));
    let sum = [term(1, 0), term(1, 1), term(5, 2)];
    let run = trial(
        alloc,
        &[],
        &sum,
        &[i64::MIN, 14],
        &[at_least(0, 1), at_least(1, 6)],
    );
    assert!(rt; settled(run, &[at_most(1, 4), at_most(2, 1)]));
}

#[test]
fn sums_are_refused(rt: HostRuntime) {
    let alloc = rt.alloc();
    let sum = [term(1, 0), term(1, 1)];
    let on = [at_least(3, 1), at_least(4, 1)];
    let decisions = [at_least(3, 1), at_least(0, 3), at_least(1, 3)];
    let negation = [at_most(3, 0), at_most(0, 1), at_most(1, 2), at_most(4, 0)];
    let run = trial(alloc, &on, &sum, &[i64::MIN, 4], &decisions);
    assert!(rt; settled(run, &negation));
    let run = trial(alloc, &on[..1], &sum, &[i64::MIN, 4], &decisions);
    assert!(rt; met(run, &negation[..3]));
    assert!(rt; met(trial(alloc, &[], &sum, &[], &[]), &[]));
}

/// The propagator of the cut of the first at most 3.
fn cut(alloc: Global) -> Result<Linear, AllocError>
    ensures { IfOk result (λ linear. linear.task ≡ cut_task (pos 3)) }
{
    let task = Task {
        enforcement: Listed::new(alloc),
        body: Body::Cut {
            terms: Listed::from_vec(Vec::from_slice(alloc, &[term(1, 0)])?),
            upper: Some(3),
        },
    };
    let linear = Linear::of(alloc, &task)?;
    Ok(linear)
}

/// Runs the cut that the first subject is at most 3, lowers its end, and runs it once more.
fn run_twice(
    alloc: Global,
    linear: &mut Linear,
    upper: i64,
) -> Result<(bool, Vec<Atom>), AllocError>
    requires { linear.old.task ≡ cut_task (pos 3) }
{
    let mut store = five(alloc)?;
    let (is_settled, _) = run(alloc, linear, &mut store)?;
    if !is_settled {
        return Ok((false, Vec::new(alloc)));
    }
    linear.lower(upper);
    run(alloc, linear, &mut store)
}

/// The same of the propagator of that cut; `None` only without memory.
fn lowered(alloc: Global, upper: i64) -> Option<(bool, Vec<Atom>)> {
    let mut linear = cut(alloc).ok()?;
    run_twice(alloc, &mut linear, upper).ok()
}

#[test]
fn a_cut_falls(rt: HostRuntime) {
    let alloc = rt.alloc();
    assert!(rt; settled(lowered(alloc, 5), &[at_most(0, 3)]));
    assert!(rt; settled(lowered(alloc, 2), &[at_most(0, 2)]));
    assert!(rt; met(lowered(alloc, -1), &[]));
}

#[test]
fn a_defined_sum_reads_its_subject_first(rt: HostRuntime) -> Result<(), Fail> {
    let linear = Linear::of_sum(rt.alloc(), 2, &[term(3, 1)], 5)?;
    let mut subjects = Vec::new(rt.alloc());
    linear.push_subjects(&mut subjects)?;
    assert_eq!(rt; subjects.as_slice(), [2u32, 1].as_slice());
    assert!(rt; !linear.is_cut());
    Ok(())
}
