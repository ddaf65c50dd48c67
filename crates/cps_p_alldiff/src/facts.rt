//! The facts of an explanation.
ghost use Rattle.std.specs.Prelude.{◌≡◌, ◌<◌, length, All, Ok, None, false, IfSome, IfOk, IsTrue};
ghost use Rattle.cps_propagate.specs.Strength.{IsHeld};
ghost use Rattle.cps_p_alldiff.specs.Intervals.{IsInRange};
ghost use Rattle.cps_p_alldiff.specs.Facts.{IsNearBound, IsNear, IsPastEnd, IsBeside, inner_bound, AreHolding, is_other};

use crate::interval::Interval;
use cps_literal::{Atom, Op};
use cps_trail::Before;
use std::alloc::AllocError;

/// Whether a subject is another than a given one.
fn is_other(apart: Option<u32>, subject: u32) -> bool
    ensures { result ≡ is_other apart subject }
{
    match apart {
        Some(given) => given != subject,
        None => true,
    }
}

/// Whether each value that a subject could have lies in an interval.
fn was_within(past: &Before, subject: u32, hall: &Interval) -> bool
    requires { subject < length past.now.first }
    ensures { IsTrue result → IsHeld past.now hall.now.low hall.now.high subject }
{
    let (low, high) = past.ends(subject);
    hall.low <= low && high <= hall.high
}

/// At least `needed` positions that have values in `hall`, without those of the subject `apart`.
#[derive(Clone, Copy)]
pub(crate) struct Crowd {
    pub(crate) hall: Interval,
    pub(crate) apart: Option<u32>,
    pub(crate) needed: u64,
}

/// Replaces `facts` by the weakest ones that show the crowd among the positions from `from` on. Returns false if there
/// is none.
fn hold_from(
    past: &Before,
    subjects: &[u32],
    from: usize,
    crowd: &Crowd,
    facts: &mut Vec<Atom>,
) -> Result<bool, AllocError>
    requires subjects { All (λ i. i < length past.now.first) subjects.now }
    requires range { IsInRange crowd.now.hall }
    ensures { IfOk result (λ enough. IsTrue enough → AreHolding past.now subjects.now
        crowd.now.apart crowd.now.hall crowd.now.needed facts.new.items) }
{
    let hall = crowd.hall;
    let apart = crowd.apart;
    facts.clear();
    let mut left = crowd.needed;
    for place in from..subjects.len() {
        if left == 0 {
            return Ok(true);
        }
        let subject = subjects[place];
        if is_other(apart, subject) && was_within(past, subject, &hall) {
            facts.push(Atom {
                subject,
                op: Op::Ge,
                value: hall.low,
            })?;
            facts.push(Atom {
                subject,
                op: Op::Le,
                value: hall.high,
            })?;
            left -= 1;
        }
    }
    Ok(left == 0)
}

/// The same among all positions, where the one at `likely` is tried first.
pub(crate) fn hold(
    past: &Before,
    subjects: &[u32],
    likely: usize,
    crowd: &Crowd,
    facts: &mut Vec<Atom>,
) -> Result<bool, AllocError>
    requires subjects { All (λ i. i < length past.now.first) subjects.now }
    requires range { IsInRange crowd.now.hall }
    ensures { IfOk result (λ enough. IsTrue enough → AreHolding past.now subjects.now
        crowd.now.apart crowd.now.hall crowd.now.needed facts.new.items) }
{
    if hold_from(past, subjects, likely, crowd, facts)? {
        return Ok(true);
    }
    hold_from(past, subjects, 0, crowd, facts)
}

/// The bound that implies an atom, together with an interval that the subject's value is not in. `None` where the atom
/// does not say that its subject is past an end of the interval, or says more.
fn near_of(target: Atom, hall: &Interval) -> Option<Atom>
    requires { IsInRange hall.now }
    ensures some { IfSome result (IsNearBound target hall.now) }
    ensures is { IfSome result (λ near. near ≡ inner_bound target hall.now) }
    ensures none { result ≡ None → IsPastEnd target hall.now → ⊥ }
{
    if target.op == Op::Ge && target.value <= hall.high + 1 {
        return Some(Atom {
            subject: target.subject,
            op: Op::Ge,
            value: hall.low,
        });
    }
    if target.op == Op::Le && hall.low - 1 <= target.value {
        return Some(Atom {
            subject: target.subject,
            op: Op::Le,
            value: hall.high,
        });
    }
    None
}

/// Adds the fact that an atom needs beside an interval that its subject's value is not in, if it needs one. Answers
/// whether the atom is given so, and the fact was true.
pub(crate) fn add_near(
    past: &Before,
    target: Atom,
    hall: &Interval,
    facts: &mut Vec<Atom>,
) -> Result<bool, AllocError>
    requires subject { target.subject < length past.now.first }
    requires range { IsInRange hall.now }
    ensures yes { IfOk result (λ given. IsTrue given → IsNear past.now target hall.now facts.old.items
        facts.new.items) }
    ensures no { result ≡ Ok false → IsBeside past.now target hall.now → ⊥ }
{
    if target.op == Op::Ne {
        return Ok(hall.low <= target.value && target.value <= hall.high);
    }
    let Some(near) = near_of(target, hall) else {
        return Ok(false);
    };
    if !past.truth(near).is_yes() {
        return Ok(false);
    }
    facts.push(near)?;
    Ok(true)
}
