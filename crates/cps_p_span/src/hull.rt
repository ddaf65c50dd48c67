//! The ends of what a store leaves to a subject.
ghost use Rattle.std.specs.Prelude.{◌<◌, length, OnOk, IsTrue};
ghost use Rattle.cps_p_span.specs.Hulls.{IsHullNow, IsTrueWithin, OffersAtom};

use crate::facts::is_inside;
use cps_literal::{Atom, Op};
use cps_rule::{Hint, Narrowing};
use cps_trail::Store;
use std::alloc::AllocError;

/// The least and the greatest value of a subject.
#[derive(Clone, Copy)]
pub struct Hull {
    pub low: i64,
    pub high: i64,
}

/// What a subject can be now.
pub fn hull_of(store: &Store, subject: u32) -> Hull
    requires { subject < length store.now.first }
    ensures { IsHullNow store.now subject result }
{
    let domain = store.domain(subject);
    Hull {
        low: domain.min(),
        high: domain.max(),
    }
}

/// Whether each value between two ends meets a bound.
fn is_met(hull: Hull, target: Atom) -> bool
    ensures { IsTrue result → IsTrueWithin hull target }
{
    match target.op {
        Op::Le => hull.high <= target.value,
        Op::Ge => target.value <= hull.low,
        _ => false,
    }
}

/// Adds a bound of a subject with these ends, unless it is true already, or too far off to stand in a fact.
pub fn offer(
    hull: Hull,
    target: Atom,
    hint: Hint,
    found: &mut Vec<Narrowing>,
) -> Result<(), AllocError>
    ensures { OnOk result (OffersAtom hull target found.old.items found.new.items) }
{
    if is_met(hull, target) || !is_inside(target.value) {
        return Ok(());
    }
    found.push(Narrowing { target, hint })?;
    Ok(())
}
