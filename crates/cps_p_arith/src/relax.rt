//! How far the bounds of an explanation may be loosened.
//!
//! An end that level 0 left costs a clause nothing, so one that the explanation can do without is moved there. Of the
//! others each is loosened in steps that double while the explanation stands, and are halved from then on. What comes
//! out is tested again where facts are made of it.
ghost use Rattle.std.specs.Prelude.{◌≡◌, ◌<◌, length, OnOk};

use crate::bounds::{Bounds, Demand, Place};
use crate::ends::Ends;
use crate::facts::LIMIT;
use crate::narrow::{Side, end_at, false_part};
use cps_literal::{Atom, Op};
use std::alloc::AllocError;
use std::mem::swap;

/// How many steps are tried.
const ROUNDS: usize = 11;

/// The first step is this part of the whole way, or 1.
const PARTS: i64 = 1_024;

/// Ends with another end on one side.
fn with_end(side: Side, ends: Ends, end: i64) -> Ends {
    match side {
        Side::Low => Ends {
            low: end,
            high: ends.high,
        },
        Side::High => Ends {
            low: ends.low,
            high: end,
        },
    }
}

/// Whether an end is past another on its side.
fn is_looser(side: Side, end: i64, other: i64) -> bool {
    match side {
        Side::Low => end < other,
        Side::High => other < end,
    }
}

/// The first step from an end to another that is not the same.
fn first_step(from: i64, to: i64) -> i64 {
    let part = to.saturating_sub(from) / PARTS;
    if part != 0 {
        return part;
    }
    if from < to { 1 } else { -1 }
}

/// The place of a member, with its ends at level 0; past all values where these are not known.
fn root_place(demand: &Demand, root: &Bounds, k: usize) -> Place
    requires { k < length demand.now.exprs.items }
{
    let ends = if k < root.members.len() {
        root.members[k]
    } else {
        Ends {
            low: -LIMIT,
            high: LIMIT,
        }
    };
    Place {
        subject: demand.exprs[k],
        ends,
    }
}

/// The ends of a subject's first place.
fn ends_in(demand: &Demand, bounds: &Bounds, subject: u32) -> Ends
    requires { length bounds.now.members.items ≡ length demand.now.exprs.items }
{
    for (k, each) in demand.exprs.as_slice().iter().enumerate() {
        if *each == subject {
            return bounds.members[k];
        }
    }
    bounds.target
}

/// Moves an end where the bounds still exclude the demand. Answers whether they do.
fn try_end(
    demand: &Demand,
    bounds: &mut Bounds,
    trial: &mut Bounds,
    place: Place,
) -> Result<bool, AllocError>
    requires { length bounds.old.members.items ≡ length demand.now.exprs.items }
    ensures { OnOk result (length bounds.new.members.items ≡ length demand.now.exprs.items) }
{
    trial.cut(bounds, demand, place)?;
    if trial.exclude(demand) {
        swap(bounds, trial);
        return Ok(true);
    }
    Ok(false)
}

/// The same for an end that is short of the one at level 0; another is not tried.
fn try_short(
    demand: &Demand,
    bounds: &mut Bounds,
    trial: &mut Bounds,
    place: Place,
    is_short: bool,
) -> Result<bool, AllocError>
    requires { length bounds.old.members.items ≡ length demand.now.exprs.items }
    ensures { OnOk result (length bounds.new.members.items ≡ length demand.now.exprs.items) }
{
    if is_short {
        return try_end(demand, bounds, trial, place);
    }
    Ok(false)
}

/// The next step: they double until one fails, and are halved from then on.
fn step_after(step: i64, growing: bool) -> i64 {
    if growing {
        step.saturating_mul(2)
    } else {
        step / 2
    }
}

/// Loosens one end of a subject's values, at most to that of a place. The demand is tested at most 12 times.
fn relax_end(
    demand: &Demand,
    bounds: &mut Bounds,
    trial: &mut Bounds,
    root: Place,
    side: Side,
) -> Result<(), AllocError>
    requires { length bounds.old.members.items ≡ length demand.now.exprs.items }
    ensures { OnOk result (length bounds.new.members.items ≡ length demand.now.exprs.items) }
{
    let subject = root.subject;
    let ends = ends_in(demand, bounds, subject);
    let far = end_at(side, root.ends);
    let mut near = end_at(side, ends);
    if !is_looser(side, far, near) {
        return Ok(());
    }
    let whole = with_end(side, ends, far);
    if try_end(
        demand,
        bounds,
        trial,
        Place {
            subject,
            ends: whole,
        },
    )? {
        return Ok(());
    }
    let mut step = first_step(near, far);
    let mut growing = true;
    for _ in 0..ROUNDS {
        let next = near.saturating_add(step);
        let ends = with_end(side, ends, next);
        let is_short = is_looser(side, far, next);
        if try_short(demand, bounds, trial, Place { subject, ends }, is_short)? {
            near = next;
        } else {
            growing = false;
        }
        step = step_after(step, growing);
        if step == 0 {
            return Ok(());
        }
    }
    Ok(())
}

/// Whether an atom is about a side of a subject.
fn is_about(supposed: Option<Atom>, subject: u32, side: Side) -> bool {
    match (supposed, side) {
        (Some(atom), Side::Low) => atom.subject == subject && atom.op == Op::Ge,
        (Some(atom), Side::High) => atom.subject == subject && atom.op == Op::Le,
        (None, _) => false,
    }
}

/// Loosens the ends of a subject's values, but the one that is supposed.
fn relax_subject(
    demand: &Demand,
    bounds: &mut Bounds,
    trial: &mut Bounds,
    root: Place,
    supposed: Option<Atom>,
) -> Result<(), AllocError>
    requires { length bounds.old.members.items ≡ length demand.now.exprs.items }
    ensures { OnOk result (length bounds.new.members.items ≡ length demand.now.exprs.items) }
{
    if !is_about(supposed, root.subject, Side::Low) {
        relax_end(demand, bounds, trial, root, Side::Low)?;
    }
    if !is_about(supposed, root.subject, Side::High) {
        relax_end(demand, bounds, trial, root, Side::High)?;
    }
    Ok(())
}

/// Loosens the ends of all values, but the one that is supposed, at most to those that level 0 left.
pub(crate) fn relax(
    demand: &Demand,
    root: &Bounds,
    bounds: &mut Bounds,
    trial: &mut Bounds,
    supposed: Option<Atom>,
) -> Result<(), AllocError>
    requires { length bounds.old.members.items ≡ length demand.now.exprs.items }
    ensures { OnOk result (length bounds.new.members.items ≡ length demand.now.exprs.items) }
{
    let target = Place {
        subject: demand.target,
        ends: root.target,
    };
    relax_subject(demand, bounds, trial, target, supposed)?;
    for k in 0..demand.exprs.len() {
        let member = root_place(demand, root, k);
        relax_subject(demand, bounds, trial, member, supposed)?;
    }
    Ok(())
}

/// Bounds with what is supposed of one subject: that an atom is false.
pub(crate) fn suppose(
    demand: &Demand,
    whole: &Bounds,
    target: Atom,
    bounds: &mut Bounds,
) -> Result<(), AllocError>
    requires { length whole.now.members.items ≡ length demand.now.exprs.items }
    ensures { OnOk result (length bounds.new.members.items ≡ length demand.now.exprs.items) }
{
    let ends = ends_in(demand, whole, target.subject);
    let part = match false_part(ends, target) {
        Some(part) => part,
        None => ends,
    };
    let piece = Place {
        subject: target.subject,
        ends: part,
    };
    bounds.cut(whole, demand, piece)
}
