//! What two spans of a list give that does not overlap.
//!
//! Where one cannot end before the other starts, it comes after the other: it starts when the other ends or later, and
//! the other ends when it starts or sooner. Where neither can come first, they cannot both be present.
ghost use Rattle.std.specs.Prelude.{◌≡◌, ◌<◌, ◌<ℤ◌, ◌≤ℤ◌, ◌-ℤ◌, length, slice_index_or, true, false, OnOk, IfOk, IfSome};
ghost use Rattle.cps_trail.specs.Trail.{IsInside};
ghost use Rattle.cps_p_span.specs.Citing.{KeepsTargets};
ghost use Rattle.cps_p_span.specs.Hulls.{Proposes};
ghost use Rattle.cps_p_span.specs.Spans.{start_at, end_at, lead, SaysOfTimes, KeepsStartFrom, KeepsEndUpTo, AreKnown, AddsApart, AddsOrdered, IsPair, LeavesNoOrder, IsAbsent, IsAllowed, AreAllowed, AllowsFirst, SettlesOrder, SettlesPair, SettlesFirst, SettlesPairs, no_seen};

use crate::edges::{end_up_to, start_from};
use crate::seen::{Seen, Times};
use cps_instance::Span;
use cps_literal::Atom;
use cps_rule::{Hint, Narrowing};
use std::alloc::AllocError;

/// Two places in a list of spans.
#[derive(Clone, Copy)]
pub struct Pair {
    pub before: usize,
    pub after: usize,
}

impl Pair {
    /// The pair the other way round.
    pub fn swapped(self) -> Pair
        ensures { result ≡ record { before = self.after; after = self.before } }
    {
        Pair {
            before: self.after,
            after: self.before,
        }
    }

    /// The two places as a hint; -1 stands for one that is too great.
    pub fn hint(self) -> Hint {
        Hint {
            a: i64::try_from(self.before).unwrap_or(-1),
            b: i64::try_from(self.after).unwrap_or(-1),
        }
    }
}

/// Adds an atom, if there is one.
pub fn propose(
    target: Option<Atom>,
    hint: Hint,
    found: &mut Vec<Narrowing>,
) -> Result<(), AllocError>
    ensures { OnOk result (Proposes target found.old.items found.new.items) }
{
    if let Some(target) = target {
        found.push(Narrowing { target, hint })?;
    }
    Ok(())
}

/// That a span starts at a time or later, unless that is so.
fn later_start(span: &Span, times: &Times, time: i128) -> Option<Atom>
    ensures says { IfSome result (λ u. SaysOfTimes span.now u (λ xs. time ≤ℤ start_at xs span.now)) }
    ensures now { IfSome result (KeepsStartFrom span.now time) }
    ensures none { result ≡ None → IsInside time → time ≤ℤ times.now.start_low }
{
    if time <= times.start_low {
        return None;
    }
    start_from(span, time)
}

/// That a span ends at a time or earlier, unless that is so.
fn earlier_end(span: &Span, times: &Times, time: i128) -> Option<Atom>
    ensures says { IfSome result (λ u. SaysOfTimes span.now u (λ xs. end_at xs span.now ≤ℤ time)) }
    ensures now { IfSome result (KeepsEndUpTo span.now time) }
    ensures none { result ≡ None → IsInside (time -ℤ lead span.now.length) → times.now.end_high ≤ℤ time }
{
    if times.end_high <= time {
        return None;
    }
    end_up_to(span, time)
}

/// Adds what follows if one span comes before another.
pub fn follow(
    spans: &[Span],
    seen: &[Seen],
    pair: Pair,
    found: &mut Vec<Narrowing>,
) -> Result<(), AllocError>
    requires known { AreKnown spans.now seen.now }
    requires pair { IsPair (length spans.now) pair }
    ensures given { OnOk result (AddsOrdered spans.now seen.now pair found.old.items found.new.items) }
    ensures rest { OnOk result (SettlesOrder spans.now seen.now pair found.old.items found.new.items) }
{
    let before = seen[pair.before].times;
    let after = seen[pair.after].times;
    let start = later_start(&spans[pair.after], &after, before.end_low);
    propose(start, pair.hint(), found)?;
    let end = earlier_end(&spans[pair.before], &before, after.start_high);
    propose(end, pair.hint(), found)?;
    Ok(())
}

/// Adds that a span is absent, if exactly one of its atoms is open.
fn exclude(
    spans: &[Span],
    seen: &[Seen],
    pair: Pair,
    found: &mut Vec<Narrowing>,
) -> Result<(), AllocError>
    requires known { AreKnown spans.now seen.now }
    requires pair { IsPair (length spans.now) pair }
    requires absent { IsAbsent spans.now seen.now pair.before }
    ensures given { OnOk result (AddsApart spans.now seen.now found.old.items found.new.items) }
    ensures kept { OnOk result (KeepsTargets found.old.items found.new.items) }
{
    let atoms = spans[pair.before].presence.as_slice();
    let open = seen[pair.before].presence.last;
    if open < atoms.len() {
        found.push(Narrowing {
            target: atoms[open].negate(),
            hint: pair.hint(),
        })?;
    }
    Ok(())
}

/// Adds what two spans give of which neither can come before the other. Answers true where both are surely present.
fn clash(
    spans: &[Span],
    seen: &[Seen],
    pair: Pair,
    found: &mut Vec<Narrowing>,
) -> Result<bool, AllocError>
    requires known { AreKnown spans.now seen.now }
    requires pair { IsPair (length spans.now) pair }
    requires forth { (slice_index_or seen.now pair.after no_seen).times.start_high <ℤ
        (slice_index_or seen.now pair.before no_seen).times.end_low }
    requires back { (slice_index_or seen.now pair.before no_seen).times.start_high <ℤ
        (slice_index_or seen.now pair.after no_seen).times.end_low }
    ensures given { OnOk result (AddsApart spans.now seen.now found.old.items found.new.items) }
    ensures impossible { result ≡ Ok true → LeavesNoOrder spans.now seen.now }
    ensures allowed { result ≡ Ok false
        → IsAllowed (slice_index_or seen.now pair.before no_seen) (slice_index_or seen.now pair.after no_seen) }
    ensures kept { OnOk result (KeepsTargets found.old.items found.new.items) }
{
    let before = seen[pair.before].presence.sure;
    let after = seen[pair.after].presence.sure;
    if before && after {
        return Ok(true);
    }
    if after {
        exclude(spans, seen, pair, found)?;
    } else if before {
        exclude(spans, seen, pair.swapped(), found)?;
    }
    Ok(false)
}

/// Adds what two spans give. Answers true if they leave no way.
fn meet(
    spans: &[Span],
    seen: &[Seen],
    pair: Pair,
    found: &mut Vec<Narrowing>,
) -> Result<bool, AllocError>
    requires known { AreKnown spans.now seen.now }
    requires pair { IsPair (length spans.now) pair }
    ensures given { OnOk result (AddsApart spans.now seen.now found.old.items found.new.items) }
    ensures impossible { result ≡ Ok true → LeavesNoOrder spans.now seen.now }
    ensures allowed { result ≡ Ok false
        → IsAllowed (slice_index_or seen.now pair.before no_seen) (slice_index_or seen.now pair.after no_seen) }
    ensures rest { result ≡ Ok false → SettlesPair spans.now seen.now pair found.old.items found.new.items }
{
    let before = seen[pair.before];
    let after = seen[pair.after];
    let forth = before.times.end_low <= after.times.start_high;
    let back = after.times.end_low <= before.times.start_high;
    if !forth && !back {
        return clash(spans, seen, pair, found);
    }
    if before.presence.sure && after.presence.sure {
        if !back {
            follow(spans, seen, pair, found)?;
        } else if !forth {
            follow(spans, seen, pair.swapped(), found)?;
        }
    }
    Ok(false)
}

/// Adds what one span implies with each that stands before it, or finds one that it must overlap.
fn meet_below(
    spans: &[Span],
    seen: &[Seen],
    place: usize,
    found: &mut Vec<Narrowing>,
) -> Result<Option<Pair>, AllocError>
    requires known { AreKnown spans.now seen.now }
    requires place { place < length spans.now }
    ensures given { OnOk result (AddsApart spans.now seen.now found.old.items found.new.items) }
    ensures impossible { IfOk result (λ answer. IfSome answer (λ pair. LeavesNoOrder spans.now seen.now)) }
    ensures allowed { result ≡ Ok None → AllowsFirst seen.now place place }
    ensures rest { result ≡ Ok None → SettlesFirst spans.now seen.now place place found.old.items found.new.items }
{
    for other in 0..place {
        let pair = Pair {
            before: place,
            after: other,
        };
        if meet(spans, seen, pair, found)? {
            return Ok(Some(pair));
        }
    }
    Ok(None)
}

/// Adds what each two spans give, or finds two that leave no way.
pub fn meet_all(
    spans: &[Span],
    seen: &[Seen],
    found: &mut Vec<Narrowing>,
) -> Result<Option<Pair>, AllocError>
    requires { AreKnown spans.now seen.now }
    ensures given { OnOk result (AddsApart spans.now seen.now found.old.items found.new.items) }
    ensures impossible { IfOk result (λ answer. IfSome answer (λ pair. LeavesNoOrder spans.now seen.now)) }
    ensures allowed { result ≡ Ok None → AreAllowed seen.now (length spans.now) }
    ensures rest { result ≡ Ok None
        → SettlesPairs spans.now seen.now (length spans.now) found.old.items found.new.items }
{
    for place in 0..spans.len() {
        if let Some(pair) = meet_below(spans, seen, place, found)? {
            return Ok(Some(pair));
        }
    }
    Ok(None)
}
