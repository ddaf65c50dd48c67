//! An interval: its size is not negative, and takes its start to its end.
//!
//! Bounds are passed on in every direction. A bound of one follows from one bound of each of the two others; of a bound
//! that is explained, one of the two facts is the bound that was there, and the other is loosened to what is needed
//! beside it.
ghost use Rattle.std.specs.Prelude.{◌≡◌, ◌<◌, ℕ, [], ◌∷◌, length, IfSome, OnOk, true};
ghost use Rattle.cps_literal.specs.Truth.{atom_holds};
ghost use Rattle.cps_p_span.specs.Citing.{Cites};
ghost use Rattle.cps_p_interval.specs.Intervals.{ArePlaces, AreHullsInside, IsSupport, IsOpposition, AreHullsMeasured, FitsInterval, IsWithoutRoom, LeavesNoInterval, AddsBounds, KeepsWithin, least_size, most_size, least_end, most_end, least_start, most_start};

use cps_enforce::Enforced;
use cps_instance::{Body, Task};
use cps_literal::{Atom, Op};
use cps_p_span::{Hull, cite, hull_of, offer};
use cps_rule::{Hint, Look, Narrowing, Rule};
use cps_trail::{Before, Store};
use std::alloc::{AllocError, Global};

/// The rule of an interval.
pub struct Interval {
    places: Places,
}

// Written out, so that crates above do not prove it anew.
impl Drop for Interval {
    fn drop(self) {
        let Interval { places: _places } = self;
    }
}

/// The subjects of an interval.
#[derive(Clone, Copy)]
pub(crate) struct Places {
    pub(crate) start: u32,
    pub(crate) end: u32,
    pub(crate) size: u32,
}

/// The ends of what a store leaves to them.
#[derive(Clone, Copy)]
pub(crate) struct Hulls {
    pub(crate) start: Hull,
    pub(crate) end: Hull,
    pub(crate) size: Hull,
}

/// Two atoms that give a third.
#[derive(Clone, Copy)]
pub(crate) struct Support {
    pub(crate) one: Atom,
    pub(crate) other: Atom,
}

/// That a subject is at least a number.
fn at_least(subject: u32, value: i64) -> Atom
    ensures { result ≡ record { subject = subject; op = Op.Ge; value = value } }
{
    Atom {
        subject,
        op: Op::Ge,
        value,
    }
}

/// That a subject is at most a number.
fn at_most(subject: u32, value: i64) -> Atom
    ensures { result ≡ record { subject = subject; op = Op.Le; value = value } }
{
    Atom {
        subject,
        op: Op::Le,
        value,
    }
}

/// What the subjects can be now.
fn measure(store: &Store, places: Places) -> Hulls
    requires { ArePlaces (length store.now.first) places }
    ensures { AreHullsMeasured store.now places result }
{
    Hulls {
        start: hull_of(store, places.start),
        end: hull_of(store, places.end),
        size: hull_of(store, places.size),
    }
}

/// By which of three tests, if any, no values between these ends make an interval.
fn contradiction(hulls: Hulls) -> Option<i64>
    requires { AreHullsInside hulls }
    ensures some { IfSome result (λ k. LeavesNoInterval hulls) }
    ensures test { IfSome result (IsWithoutRoom hulls) }
    ensures none { result ≡ None → FitsInterval hulls }
{
    if hulls.size.high < 0 {
        return Some(0);
    }
    if hulls.end.high < hulls.start.low + hulls.size.low.max(0) {
        return Some(1);
    }
    if hulls.start.high + hulls.size.high < hulls.end.low {
        return Some(2);
    }
    None
}

/// Offers the bounds of the size.
fn offer_size(places: Places, hulls: Hulls, found: &mut Vec<Narrowing>) -> Result<(), AllocError>
    requires { AreHullsInside hulls }
    ensures given { OnOk result (AddsBounds places hulls found.old.items found.new.items) }
    ensures rest { OnOk result (KeepsWithin places.size hulls.size (least_size hulls) (most_size hulls)
        found.old.items found.new.items) }
{
    let least = (hulls.end.low - hulls.start.high).max(0);
    let most = hulls.end.high - hulls.start.low;
    offer(
        hulls.size,
        at_least(places.size, least),
        Hint { a: 0, b: 0 },
        found,
    )?;
    offer(
        hulls.size,
        at_most(places.size, most),
        Hint { a: 0, b: 0 },
        found,
    )?;
    Ok(())
}

/// Offers the bounds of the end.
fn offer_end(places: Places, hulls: Hulls, found: &mut Vec<Narrowing>) -> Result<(), AllocError>
    requires { AreHullsInside hulls }
    ensures given { OnOk result (AddsBounds places hulls found.old.items found.new.items) }
    ensures rest { OnOk result (KeepsWithin places.end hulls.end (least_end hulls) (most_end hulls)
        found.old.items found.new.items) }
{
    let least = hulls.start.low + hulls.size.low.max(0);
    let most = hulls.start.high + hulls.size.high;
    offer(
        hulls.end,
        at_least(places.end, least),
        Hint { a: 1, b: 0 },
        found,
    )?;
    offer(
        hulls.end,
        at_most(places.end, most),
        Hint { a: 1, b: 0 },
        found,
    )?;
    Ok(())
}

/// Offers the bounds of the start.
fn offer_start(places: Places, hulls: Hulls, found: &mut Vec<Narrowing>) -> Result<(), AllocError>
    requires { AreHullsInside hulls }
    ensures given { OnOk result (AddsBounds places hulls found.old.items found.new.items) }
    ensures rest { OnOk result (KeepsWithin places.start hulls.start (least_start hulls) (most_start hulls)
        found.old.items found.new.items) }
{
    let least = hulls.end.low - hulls.size.high;
    let most = hulls.end.high - hulls.size.low.max(0);
    offer(
        hulls.start,
        at_least(places.start, least),
        Hint { a: 2, b: 0 },
        found,
    )?;
    offer(
        hulls.start,
        at_most(places.start, most),
        Hint { a: 2, b: 0 },
        found,
    )?;
    Ok(())
}

/// What gives a bound of the size.
fn support_size(past: &Before, places: Places, target: Atom) -> Option<Support>
    requires within { ArePlaces (length past.now.first) places }
    requires subject { target.subject ≡ places.size }
    ensures { IfSome result (IsSupport (length past.now.first) places target) }
{
    let (low, high) = past.ends(places.end);
    match target.op {
        Op::Ge => Some(Support {
            one: at_least(places.end, low),
            other: at_most(places.start, low.checked_sub(target.value)?),
        }),
        Op::Le => Some(Support {
            one: at_most(places.end, high),
            other: at_least(places.start, high.checked_sub(target.value)?),
        }),
        _ => None,
    }
}

/// What gives a bound of the end.
fn support_end(past: &Before, places: Places, target: Atom) -> Option<Support>
    requires within { ArePlaces (length past.now.first) places }
    requires subject { target.subject ≡ places.end }
    ensures { IfSome result (IsSupport (length past.now.first) places target) }
{
    let (low, high) = past.ends(places.start);
    match target.op {
        Op::Ge => {
            if target.value <= low {
                let one = at_least(places.start, target.value);
                return Some(Support { one, other: one });
            }
            Some(Support {
                one: at_least(places.start, low),
                other: at_least(places.size, target.value.checked_sub(low)?),
            })
        }
        Op::Le => Some(Support {
            one: at_most(places.start, high),
            other: at_most(places.size, target.value.checked_sub(high)?),
        }),
        _ => None,
    }
}

/// What gives a bound of the start.
fn support_start(past: &Before, places: Places, target: Atom) -> Option<Support>
    requires within { ArePlaces (length past.now.first) places }
    requires subject { target.subject ≡ places.start }
    ensures { IfSome result (IsSupport (length past.now.first) places target) }
{
    let (low, high) = past.ends(places.end);
    match target.op {
        Op::Ge => Some(Support {
            one: at_least(places.end, low),
            other: at_most(places.size, low.checked_sub(target.value)?),
        }),
        Op::Le => {
            if high <= target.value {
                let one = at_most(places.end, target.value);
                return Some(Support { one, other: one });
            }
            Some(Support {
                one: at_most(places.end, high),
                other: at_least(places.size, high.checked_sub(target.value)?),
            })
        }
        _ => None,
    }
}

/// Which of the three subjects a hint names, and what gives a bound of it.
fn support_of(past: &Before, places: Places, target: Atom, hint: Hint) -> Option<Support>
    requires { ArePlaces (length past.now.first) places }
    ensures { IfSome result (IsSupport (length past.now.first) places target) }
{
    if hint.a == 0 && target.subject == places.size {
        return support_size(past, places, target);
    }
    if hint.a == 1 && target.subject == places.end {
        return support_end(past, places, target);
    }
    if hint.a == 2 && target.subject == places.start {
        return support_start(past, places, target);
    }
    None
}

/// Adds two atoms where they were true; once, where they are the same.
fn cite_both(past: &Before, support: Support, facts: &mut Vec<Atom>) -> Result<bool, AllocError>
    requires one { support.one.subject < length past.now.first }
    requires other { support.other.subject < length past.now.first }
    ensures { result ≡ Ok true → Cites past.now (support.one.subject ∷ support.other.subject ∷ []) facts.old.items facts.new.items
        (λ xs. (atom_holds xs support.one ≡ true) × (atom_holds xs support.other ≡ true)) }
{
    if !cite(past, support.one, facts)? {
        return Ok(false);
    }
    if support.one == support.other {
        return Ok(true);
    }
    cite(past, support.other, facts)
}

/// That the size is below 0, three times.
fn negative_size(places: Places) -> (Support, Atom)
    ensures { (n : ℕ) → ArePlaces n places → IsOpposition n places result.0 result.1 }
{
    let negative = at_most(places.size, -1);
    let support = Support {
        one: negative,
        other: negative,
    };
    (support, negative)
}

/// Bounds of the start and the size that let the end be no earlier than some time, and that it is. A size that may be 0
/// or less counts as 0, and is no part of the reason.
fn early_end(past: &Before, places: Places) -> Option<(Support, Atom)>
    requires { ArePlaces (length past.now.first) places }
    ensures { IfSome result (λ p. IsOpposition (length past.now.first) places p.0 p.1) }
{
    let (start_low, _) = past.ends(places.start);
    let (size_low, _) = past.ends(places.size);
    let start = at_least(places.start, start_low);
    if size_low <= 0 {
        let support = Support {
            one: start,
            other: start,
        };
        return Some((support, at_most(places.end, start_low.checked_sub(1)?)));
    }
    let sum = start_low.checked_add(size_low)?;
    let support = Support {
        one: start,
        other: at_least(places.size, size_low),
    };
    Some((support, at_most(places.end, sum.checked_sub(1)?)))
}

/// Bounds of the start and the size that let the end be no later than some time, and that it is.
fn late_end(past: &Before, places: Places) -> Option<(Support, Atom)>
    requires { ArePlaces (length past.now.first) places }
    ensures { IfSome result (λ p. IsOpposition (length past.now.first) places p.0 p.1) }
{
    let (_, start_high) = past.ends(places.start);
    let (_, size_high) = past.ends(places.size);
    let sum = start_high.checked_add(size_high)?;
    let support = Support {
        one: at_most(places.start, start_high),
        other: at_most(places.size, size_high),
    };
    Some((support, at_least(places.end, sum.checked_add(1)?)))
}

/// Two bounds that with a third leave no interval. Where fewer do, one stands more than once.
fn opposition(past: &Before, places: Places, hint: Hint) -> Option<(Support, Atom)>
    requires { ArePlaces (length past.now.first) places }
    ensures { IfSome result (λ p. IsOpposition (length past.now.first) places p.0 p.1) }
{
    if hint.a == 0 {
        return Some(negative_size(places));
    }
    if hint.a == 1 {
        return early_end(past, places);
    }
    late_end(past, places)
}

impl Interval {
    /// The rule of an interval with these subjects.
    pub(crate) fn new(start: u32, end: u32, size: u32) -> Self
        ensures { result.places ≡ record { start = start; end = end; size = size } }
    {
        Interval {
            places: Places { start, end, size },
        }
    }
}

impl Interval {
    ghost use Rattle.std.specs.Prelude.{◌≡◌, true, IfOk};
    ghost use Rattle.cps_p_interval.specs.Intervals.{is_interval};

    /// The propagator of a task that asks for an interval.
    pub fn of(alloc: Global, task: &Task) -> Result<Enforced<Interval>, AllocError>
        requires { is_interval task.now.body ≡ true }
        ensures { IfOk result (λ propagator. propagator ≡ task.now) }
    {
        match &task.body {
            Body::Interval { start, end, size } => {
                let rule = Interval::new(*start, *end, *size);
                Enforced::new(alloc, task.enforcement.as_slice(), rule)
            }
            _ => unreachable!(),
        }
    }
}

impl Rule for Interval {
    ghost use Rattle.cps_p_interval.specs.Intervals.{body_of};

    ghost body = { λ r. body_of r.places };

    fn look(&mut self, store: &Store, found: &mut Vec<Narrowing>) -> Result<Look, AllocError> {
        found.clear();
        let places = self.places;
        let hulls = measure(store, places);
        if let Some(kind) = contradiction(hulls) {
            return Ok(Look::Impossible(Hint { a: kind, b: 0 }));
        }
        offer_size(places, hulls, found)?;
        offer_end(places, hulls, found)?;
        offer_start(places, hulls, found)?;
        Ok(Look::Possible)
    }

    fn explain(
        &self,
        past: &Before,
        target: Atom,
        hint: Hint,
        facts: &mut Vec<Atom>,
    ) -> Result<bool, AllocError> {
        facts.clear();
        if target.subject == self.places.size && matches!(target.op, Op::Ge) && target.value <= 0 {
            return Ok(true);
        }
        match support_of(past, self.places, target, hint) {
            Some(support) => cite_both(past, support, facts),
            None => Ok(false),
        }
    }

    fn refute(&self, past: &Before, hint: Hint, facts: &mut Vec<Atom>) -> Result<bool, AllocError> {
        facts.clear();
        match opposition(past, self.places, hint) {
            Some((support, last)) => {
                if !cite_both(past, support, facts)? {
                    return Ok(false);
                }
                if last == support.one {
                    return Ok(true);
                }
                cite(past, last, facts)
            }
            None => Ok(false),
        }
    }

    fn push_subjects(&self, subjects: &mut Vec<u32>) -> Result<(), AllocError> {
        subjects.push(self.places.start)?;
        subjects.push(self.places.end)?;
        subjects.push(self.places.size)?;
        Ok(())
    }
}
