//! What bounds give of a demand's subjects.
//!
//! An atom is given where the demand cannot be met by the values at which it is false. So each bound is tried: a finder
//! proposes how far an end may be moved, in steps that double and then halve, and what it proposes is tested alone.
//!
//! The first step is the end itself. So an end that is left where it is was tried, and the test leaves it possible.
ghost use Rattle.std.specs.Prelude.{◌≡◌, ◌⊎◌, ◌<◌, ◌≤ℤ◌, ◌<ℤ◌, ℤ, length, true, false, IfOk, IfSome, OnOk, Ok, Some, IsTrue};
ghost use Rattle.cps_literal.specs.Truth.{meets};
ghost use Rattle.cps_trail.specs.Trail.{Trail};
ghost use Rattle.cps_p_arith.specs.declared.relation.Relation.TheVariants.{Greatest};
ghost use Rattle.cps_p_arith.specs.Ranges.{IsIn};
ghost use Rattle.cps_p_arith.specs.Maxima.{IsOnlyReaching};
ghost use Rattle.cps_p_arith.specs.Demands.{IsHeldPlace, IsImplied, AreImplied, AddsNarrowing, AreMeasured, IsPossibleAt, IsMissedAt, end_of, IsPast, IsEndTried, TriesPlace, AreAdmitted, AllTrueNow, AreTried, member_of};

use crate::bounds::{Bounds, Demand, Place};
use crate::ends::Ends;
use crate::relation::Relation;
use cps_literal::{Atom, Op};
use cps_rule::{Hint, Narrowing};
use std::alloc::AllocError;

/// How often an end is tried.
const ROUNDS: usize = 160;

/// Which end of a subject's values is moved.
#[derive(Clone, Copy)]
pub(crate) enum Side {
    Low,
    High,
}

/// The part of a range in which an atom is false.
pub(crate) fn false_part(ends: Ends, atom: Atom) -> Option<Ends>
    ensures { IfSome result (λ part. (x : ℤ) → IsIn ends x → meets atom.op atom.value x ≡ false → IsIn part x) }
{
    match atom.op {
        Op::Le => {
            if atom.value == i64::MAX {
                return None;
            }
            Some(Ends {
                low: atom.value + 1,
                high: ends.high,
            })
        }
        Op::Ge => {
            if atom.value == i64::MIN {
                return None;
            }
            Some(Ends {
                low: ends.low,
                high: atom.value - 1,
            })
        }
        _ => None,
    }
}

/// Whether an atom about a place's subject is true wherever the demand is met.
fn gives(
    demand: &Demand,
    bounds: &Bounds,
    trial: &mut Bounds,
    place: Place,
    atom: Atom,
) -> Result<bool, AllocError>
    requires len { length bounds.now.members.items ≡ length demand.now.exprs.items }
    requires place { IsHeldPlace bounds.now demand.now place }
    requires subject { atom.subject ≡ place.subject }
    ensures { result ≡ Ok true → IsImplied bounds.now demand.now atom }
{
    match false_part(place.ends, atom) {
        Some(ends) => {
            let piece = Place {
                subject: place.subject,
                ends,
            };
            trial.cut(bounds, demand, piece)?;
            Ok(trial.exclude(demand))
        }
        None => Ok(false),
    }
}

/// Whether the demand cannot be met where a subject has a value.
fn is_missed_at(
    demand: &Demand,
    bounds: &Bounds,
    trial: &mut Bounds,
    subject: u32,
    value: i64,
) -> Result<bool, AllocError>
    requires { length bounds.now.members.items ≡ length demand.now.exprs.items }
    ensures missed { result ≡ Ok true → IsMissedAt bounds.now demand.now subject value }
    ensures possible { result ≡ Ok false → (s : Trail) → AreMeasured s demand.now bounds.now
        → IsPossibleAt s demand.now subject value }
{
    let ends = Ends {
        low: value,
        high: value,
    };
    trial.cut(bounds, demand, Place { subject, ends })?;
    Ok(trial.exclude(demand))
}

/// The bound of a subject from one side.
fn bound(side: Side, subject: u32, value: i64) -> Atom
    ensures subject { result.subject ≡ subject }
    ensures value { result.value ≡ value }
    ensures denies { (x : ℤ) → IsPast side x value → meets result.op result.value x ≡ false }
    ensures only { (x : ℤ) → meets result.op result.value x ≡ false → IsPast side x value }
{
    let op = match side {
        Side::Low => Op::Ge,
        Side::High => Op::Le,
    };
    Atom { subject, op, value }
}

/// The end on a side.
pub(crate) fn end_at(side: Side, ends: Ends) -> i64
    ensures { result ≡ end_of side ends }
{
    match side {
        Side::Low => ends.low,
        Side::High => ends.high,
    }
}

/// The value next to an end.
fn next_to(side: Side, ends: Ends) -> i64
    requires { ends.low <ℤ ends.high }
    ensures past { IsPast side (end_of side ends) result }
    ensures next { (x : ℤ) → IsIn ends x → IsPast side x result → x ≡ end_of side ends }
{
    match side {
        Side::Low => ends.low + 1,
        Side::High => ends.high - 1,
    }
}

/// Whether a value is further from the end of a side than another.
fn is_past(side: Side, from: i64, value: i64) -> bool
    ensures { IsTrue result → IsPast side from value }
{
    match side {
        Side::Low => from < value,
        Side::High => value < from,
    }
}

/// An end moved by a step, at most to the other end.
fn moved(side: Side, ends: Ends, from: i64, step: i64) -> i64 {
    match side {
        Side::Low => from.saturating_add(step).min(ends.high),
        Side::High => from.saturating_sub(step).max(ends.low),
    }
}

/// The next step after one that was possible or not: they double until one fails, and are halved from then on.
fn next_step(step: i64, growing: bool) -> i64 {
    if growing {
        return step.saturating_mul(2);
    }
    if step > 1 { step / 2 } else { 1 }
}

/// The bound from one side that is found to be given, if there is one; none where the end itself is possible.
fn furthest(
    demand: &Demand,
    bounds: &Bounds,
    trial: &mut Bounds,
    place: Place,
    side: Side,
) -> Result<Option<Atom>, AllocError>
    requires len { length bounds.now.members.items ≡ length demand.now.exprs.items }
    requires place { IsHeldPlace bounds.now demand.now place }
    ensures { IfOk result (λ best. IsEndTried bounds.now demand.now place side best) }
{
    if place.ends.high <= place.ends.low {
        return Ok(None);
    }
    let end = end_at(side, place.ends);
    if !is_missed_at(demand, bounds, trial, place.subject, end)? {
        return Ok(None);
    }
    let mut best = bound(side, place.subject, next_to(side, place.ends));
    let mut step = 2;
    let mut growing = true;
    for _ in 0..ROUNDS {
        let next = moved(side, place.ends, best.value, step);
        if !is_past(side, best.value, next) {
            return Ok(Some(best));
        }
        let atom = bound(side, place.subject, next);
        if gives(demand, bounds, trial, place, atom)? {
            best = atom;
        } else {
            if step == 1 {
                return Ok(Some(best));
            }
            growing = false;
        }
        step = next_step(step, growing);
    }
    Ok(Some(best))
}

/// Adds an atom, if there is one.
fn add(best: Option<Atom>, found: &mut Vec<Narrowing>) -> Result<(), AllocError>
    ensures { OnOk result (AddsNarrowing best found.old.items found.new.items) }
{
    match best {
        Some(target) => {
            let hint = Hint { a: 0, b: 0 };
            found.push(Narrowing { target, hint })?;
            Ok(())
        }
        None => Ok(()),
    }
}

/// Adds the bounds of a place's subject that are found to be given.
fn narrow_place(
    demand: &Demand,
    bounds: &Bounds,
    trial: &mut Bounds,
    place: Place,
    found: &mut Vec<Narrowing>,
) -> Result<(), AllocError>
    requires len { length bounds.now.members.items ≡ length demand.now.exprs.items }
    requires place { IsHeldPlace bounds.now demand.now place }
    requires given { AreImplied bounds.now demand.now found.old.items }
    ensures implied { OnOk result (AreImplied bounds.now demand.now found.new.items) }
    ensures tried { OnOk result (TriesPlace bounds.now demand.now place found.old.items found.new.items) }
{
    let low = furthest(demand, bounds, trial, place, Side::Low)?;
    let high = furthest(demand, bounds, trial, place, Side::High)?;
    add(low, found)?;
    add(high, found)?;
    Ok(())
}

/// The place of a member.
fn member(demand: &Demand, bounds: &Bounds, k: usize) -> Place
    requires place { k < length demand.now.exprs.items }
    requires len { length bounds.now.members.items ≡ length demand.now.exprs.items }
    ensures held { IsHeldPlace bounds.now demand.now result }
    ensures is { result ≡ member_of demand.now bounds.now k }
{
    Place {
        subject: demand.exprs[k],
        ends: bounds.members[k],
    }
}

/// The place of the target.
fn target(demand: &Demand, bounds: &Bounds) -> Place
    ensures held { IsHeldPlace bounds.now demand.now result }
    ensures subject { result.subject ≡ demand.now.target }
    ensures ends { result.ends ≡ bounds.now.target }
{
    Place {
        subject: demand.target,
        ends: bounds.target,
    }
}

/// Whether a member may reach the target's least value.
fn reaches(target: Ends, member: Ends) -> bool
    ensures reached { IsTrue result → target.low ≤ℤ member.high }
    ensures short { result ≡ false → member.high <ℤ target.low }
{
    target.low <= member.high
}

/// The member that may reach the target's least value, where no other may.
fn only_reaching(target: Ends, members: &[Ends]) -> Option<usize>
    ensures { IsOnlyReaching target members.now result }
{
    let mut only = None;
    for (k, each) in members.iter().enumerate() {
        if reaches(target, *each) {
            match only {
                Some(_) => return None,
                None => only = Some(k),
            }
        }
    }
    only
}

/// Whether a place is the one that is given.
fn is_at(only: Option<usize>, k: usize) -> bool
    ensures { only ≡ Some k → result ≡ true }
{
    match only {
        Some(place) => place == k,
        None => false,
    }
}

/// Whether it is worth while to try the bounds of a member: one of which a greatest value is taken gets a bound only
/// where it may pass the target, or where no other may reach it.
fn is_worth_trying(relation: Relation, target: Ends, member: Ends, is_only: bool) -> bool
    ensures relation { result ≡ false → relation ≡ Greatest }
    ensures high { result ≡ false → member.high ≤ℤ target.high }
    ensures low { result ≡ false → is_only ≡ true → (target.low ≤ℤ member.low) ⊎ (member.high <ℤ target.low) }
{
    match relation {
        Relation::Greatest => {
            target.high < member.high
                || (is_only && member.low < target.low && target.low <= member.high)
        }
        _ => true,
    }
}

/// Adds the bounds that are found to be given.
pub(crate) fn narrow(
    demand: &Demand,
    bounds: &Bounds,
    trial: &mut Bounds,
    found: &mut Vec<Narrowing>,
) -> Result<(), AllocError>
    requires len { length bounds.now.members.items ≡ length demand.now.exprs.items }
    requires given { AreImplied bounds.now demand.now found.old.items }
    ensures implied { OnOk result (AreImplied bounds.now demand.now found.new.items) }
    ensures tried { OnOk result ((s : Trail) → AreAdmitted s demand.now bounds.now → AllTrueNow s found.new.items
        → AreTried s demand.now bounds.now) }
{
    narrow_place(demand, bounds, trial, target(demand, bounds), found)?;
    let only = only_reaching(bounds.target, bounds.members.as_slice());
    for k in 0..demand.exprs.len() {
        let place = member(demand, bounds, k);
        let is_only = is_at(only, k);
        if is_worth_trying(demand.relation, bounds.target, place.ends, is_only) {
            narrow_place(demand, bounds, trial, place, found)?;
        }
    }
    Ok(())
}
