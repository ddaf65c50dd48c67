//! The places of an index that are left, and what they leave to the target.
//!
//! One pass over the places between the index's ends takes the index off those where expression and target cannot meet,
//! and keeps the hull of the values at the others. Domains are compared by their ends, and by values only where one of
//! them has a single one: a full comparison would cost more than it finds. If one place is left, expression and target
//! get the same ends, and small domains the same values.

ghost use Rattle.std.specs.Prelude.{ℕ, ℤ, pos, ◌≡◌, ◌≢◌, ◌<◌, ◌≤◌, ◌≤ℤ◌, ◌^◌, ◌-◌, length, All, IfOk, OnOk, true, false};
ghost use Rattle.cps_domain.specs.Window.{contains};
ghost use Rattle.cps_instance.specs.declared.task.Body.TheVariants.{Element};
ghost use Rattle.cps_rule.specs.Rules.{IsGiven, IsSeen, IsAtRest};
ghost use Rattle.cps_propagate.specs.Now.{IsOpenTo};
ghost use Rattle.cps_propagate.specs.Lookups.{IsOpenPlace};
ghost use Rattle.cps_p_lookup.specs.Elements.{IsFitElement, AreMeeting, IsCovered, IsEndOf, IsPlaceVisited, IsScanned, AreOpenPlaces, AreEndsKept};
ghost use Rattle.cps_p_lookup.specs.Resting.{AreTrue, LeavesAtRest};
ghost use Rattle.cps_p_lookup.specs.Gaps.{KeepsBetween, AreListed, Lists};

use crate::facts::{LIMIT, atom};
use crate::gaps::{Gaps, copy_holes, exclude_missing, is_worth};
use cps_domain::Domain;
use cps_literal::Op;
use cps_rule::{Hint, Look, Narrowing};
use cps_trail::Store;
use std::alloc::AllocError;

/// A hint that says nothing.
pub(crate) const NO_HINT: Hint = Hint { a: 0, b: 0 };

/// What an element is made of.
#[derive(Clone, Copy)]
pub(crate) struct Lookup<'a> {
    pub(crate) index: u32,
    pub(crate) target: u32,
    pub(crate) exprs: &'a [u32],
}

/// What the places seen so far leave.
#[derive(Clone, Copy)]
pub(crate) struct Scan {
    /// How many places are open: none, one, or two, which stands for more.
    pub(crate) open: u32,
    /// The last of them.
    pub(crate) last: usize,
    /// The least and the greatest value at them.
    pub(crate) least: i64,
    pub(crate) greatest: i64,
}

/// Whether two domains may have a value in common: by their ends, and by values where one has a single one.
pub(crate) fn can_meet(expr: &Domain, target: &Domain) -> bool
    ensures apart { result ≡ false → (x : ℤ) → contains expr.now x ≡ true → contains target.now x ≡ true → ⊥ }
    ensures meet { result ≡ true → AreMeeting expr.now target.now }
{
    let low = expr.min();
    let high = expr.max();
    let least = target.min();
    let greatest = target.max();
    if low == high {
        return target.contains(low);
    }
    if least == greatest {
        return expr.contains(least);
    }
    low <= greatest && least <= high
}

/// The place from which on an index of at least `low` lies.
pub(crate) fn first_place(low: i64) -> usize
    ensures { (k : ℕ) → low ≤ℤ pos k → result ≤ k }
{
    if low < 0 { 0 } else { low as usize }
}

/// The place before which an index of at most `high` lies, among `places` places.
pub(crate) fn end_of_places(high: i64, places: usize) -> usize
    ensures inside { result ≤ places }
    ensures covers { (k : ℕ) → k < places → pos k ≤ℤ high → k < result }
{
    if high < 0 {
        return 0;
    }
    let last = high as usize;
    if last < places { last + 1 } else { places }
}

/// The last of some places.
fn last_place(places: usize) -> i64
    requires some { 0 < places }
    requires small { places < 2 ^ 62 }
    ensures { result ≡ pos (places - 1) }
{
    (places - 1) as i64
}

/// One open place more.
fn widened(scan: Scan, place: usize, low: i64, high: i64) -> Scan
    ensures some { 0 < result.open }
    ensures last { result.last ≡ place }
    ensures here { (v : ℤ) → low ≤ℤ v → v ≤ℤ high → IsCovered place result v }
    ensures wider { (p : ℕ) (v : ℤ) → IsCovered p scan v → IsCovered p result v }
    ensures several { result.open ≢ 1 → 0 < scan.open }
    ensures least { IsEndOf scan.open low scan.least result.least }
    ensures greatest { IsEndOf scan.open high scan.greatest result.greatest }
{
    if scan.open == 0 {
        return Scan {
            open: 1,
            last: place,
            least: low,
            greatest: high,
        };
    }
    Scan {
        open: 2,
        last: place,
        least: scan.least.min(low),
        greatest: scan.greatest.max(high),
    }
}

/// Looks at one place: keeps the index off it, or counts it.
fn visit(
    store: &Store,
    lookup: &Lookup,
    place: usize,
    scan: Scan,
    found: &mut Vec<Narrowing>,
) -> Result<Scan, AllocError>
    requires fits { IsFitElement store.now.first lookup.now.index lookup.now.target lookup.now.exprs.now }
    requires place { place < length lookup.now.exprs.now }
    requires small { place < 2 ^ 62 }
    requires given { All (λ n. IsGiven
        (Element lookup.now.index lookup.now.target lookup.now.exprs.now) store.now n.target) found.old.items }
    ensures given { OnOk result (All
        (λ n. IsGiven (Element lookup.now.index lookup.now.target lookup.now.exprs.now) store.now n.target)
        found.new.items) }
    ensures visited { IfOk result
        (IsPlaceVisited store.now lookup.now.index lookup.now.target lookup.now.exprs.now place scan) }
    ensures rests { OnOk result (LeavesAtRest store.now (IsOpenTo store.now lookup.now.index (pos place)
        → IsOpenPlace store.now lookup.now.index lookup.now.target lookup.now.exprs.now place)
        found.old.items found.new.items) }
{
    let index = store.domain(lookup.index);
    if !index.contains(place as i64) {
        return Ok(scan);
    }
    let expr = store.domain(lookup.exprs[place]);
    if can_meet(expr, store.domain(lookup.target)) {
        return Ok(widened(scan, place, expr.min(), expr.max()));
    }
    let target = atom(lookup.index, Op::Ne, place as i64);
    found.push(Narrowing {
        target,
        hint: NO_HINT,
    })?;
    Ok(scan)
}

/// Adds the atoms that a subject lies between two ends, but those that are true already.
pub(crate) fn bound(
    store: &Store,
    subject: u32,
    low: i64,
    high: i64,
    found: &mut Vec<Narrowing>,
) -> Result<(), AllocError>
    requires { subject < length store.now.first }
    ensures { OnOk result (KeepsBetween subject low high store.now found.old.items found.new.items) }
{
    let domain = store.domain(subject);
    if domain.min() < low {
        let target = atom(subject, Op::Ge, low);
        found.push(Narrowing {
            target,
            hint: NO_HINT,
        })?;
    }
    if high < domain.max() {
        let target = atom(subject, Op::Le, high);
        found.push(Narrowing {
            target,
            hint: NO_HINT,
        })?;
    }
    Ok(())
}

/// Keeps the index among the places, and off those that are closed. Says what the others leave.
pub(crate) fn scan_places(
    store: &Store,
    lookup: &Lookup,
    found: &mut Vec<Narrowing>,
) -> Result<Scan, AllocError>
    requires fits { IsFitElement store.now.first lookup.now.index lookup.now.target lookup.now.exprs.now }
    ensures given { OnOk result (All
        (λ n. IsGiven (Element lookup.now.index lookup.now.target lookup.now.exprs.now) store.now n.target)
        found.new.items) }
    ensures scanned { IfOk result (IsScanned store.now lookup.now.index lookup.now.target lookup.now.exprs.now) }
    ensures rests { OnOk result (AreTrue store.now found.new.items → 0 < length lookup.now.exprs.now
        → AreOpenPlaces store.now lookup.now.index lookup.now.target lookup.now.exprs.now) }
{
    found.clear();
    let index = store.domain(lookup.index);
    let places = lookup.exprs.len();
    if 0 < places {
        bound(store, lookup.index, 0, last_place(places), found)?;
    }
    let from = first_place(index.min());
    let to = end_of_places(index.max(), places);
    let mut scan = Scan {
        open: 0,
        last: 0,
        least: 0,
        greatest: 0,
    };
    for place in from..to {
        scan = visit(store, lookup, place, scan, found)?;
    }
    Ok(scan)
}

/// Keeps the target between the ends of the open places, and, where one place is left, the expression there between the
/// target's.
fn bound_both(
    store: &Store,
    lookup: &Lookup,
    scan: Scan,
    found: &mut Vec<Narrowing>,
) -> Result<(), AllocError>
    requires fits { IsFitElement store.now.first lookup.now.index lookup.now.target lookup.now.exprs.now }
    requires scanned { IsScanned store.now lookup.now.index lookup.now.target lookup.now.exprs.now scan }
    requires some { 0 < scan.open }
    requires given { All (λ n. IsGiven
        (Element lookup.now.index lookup.now.target lookup.now.exprs.now) store.now n.target) found.old.items }
    ensures given { OnOk result (All (λ n. IsGiven
        (Element lookup.now.index lookup.now.target lookup.now.exprs.now) store.now n.target) found.new.items) }
    ensures rests { OnOk result (LeavesAtRest store.now
        (AreEndsKept store.now lookup.now.target lookup.now.exprs.now scan) found.old.items found.new.items) }
{
    bound(store, lookup.target, scan.least, scan.greatest, found)?;
    if scan.open == 1 {
        let target = store.domain(lookup.target);
        let expr = lookup.exprs[scan.last];
        bound(store, expr, target.min(), target.max(), found)?;
    }
    Ok(())
}

/// Keeps the target off the values that the expression at the one place that is left has not, and the other way round.
fn align(
    store: &Store,
    lookup: &Lookup,
    scan: Scan,
    missing: &mut Vec<i64>,
    found: &mut Vec<Narrowing>,
) -> Result<(), AllocError>
    requires fits { IsFitElement store.now.first lookup.now.index lookup.now.target lookup.now.exprs.now }
    requires scanned { IsScanned store.now lookup.now.index lookup.now.target lookup.now.exprs.now scan }
    requires one { scan.open ≡ 1 }
    requires given { All (λ n. IsGiven
        (Element lookup.now.index lookup.now.target lookup.now.exprs.now) store.now n.target) found.old.items }
    ensures given { OnOk result (All (λ n. IsGiven
        (Element lookup.now.index lookup.now.target lookup.now.exprs.now) store.now n.target) found.new.items) }
    ensures before { OnOk result (AreTrue store.now found.new.items → AreTrue store.now found.old.items) }
{
    let expr = lookup.exprs[scan.last];
    let target = store.domain(lookup.target);
    let other = store.domain(expr);
    copy_holes(lookup.target, target, other, missing, found)?;
    copy_holes(expr, other, target, missing, found)?;
    Ok(())
}

/// Adds the value at a place, where the place is open. Answers false where it has several.
fn list_value(
    store: &Store,
    lookup: &Lookup,
    place: usize,
    values: &mut Vec<i64>,
) -> Result<bool, AllocError>
    requires fits { IsFitElement store.now.first lookup.now.index lookup.now.target lookup.now.exprs.now }
    requires place { place < length lookup.now.exprs.now }
    requires small { place < 2 ^ 62 }
    ensures { result ≡ Ok true → Lists store.now
        lookup.now.index lookup.now.target lookup.now.exprs.now place values.old.items values.new.items }
{
    let index = store.domain(lookup.index);
    if !index.contains(place as i64) {
        return Ok(true);
    }
    let expr = store.domain(lookup.exprs[place]);
    let low = expr.min();
    let high = expr.max();
    if low != high {
        return Ok(false);
    }
    values.push(low)?;
    Ok(true)
}

/// Makes a list that of the values at the open places. Answers false where one of them has several.
fn list_values(store: &Store, lookup: &Lookup, values: &mut Vec<i64>) -> Result<bool, AllocError>
    requires fits { IsFitElement store.now.first lookup.now.index lookup.now.target lookup.now.exprs.now }
    ensures { result ≡ Ok true → AreListed store.now
        lookup.now.index lookup.now.target lookup.now.exprs.now values.new.items }
{
    values.clear();
    let places = lookup.exprs.len();
    if places > LIMIT as usize {
        return Ok(false);
    }
    for place in 0..places {
        if !list_value(store, lookup, place, values)? {
            return Ok(false);
        }
    }
    Ok(true)
}

/// Keeps the target off the values that no open place has, where each has a single value.
fn narrow_inside(
    store: &Store,
    lookup: &Lookup,
    gaps: &mut Gaps,
    found: &mut Vec<Narrowing>,
) -> Result<(), AllocError>
    requires fits { IsFitElement store.now.first lookup.now.index lookup.now.target lookup.now.exprs.now }
    requires given { All (λ n. IsGiven
        (Element lookup.now.index lookup.now.target lookup.now.exprs.now) store.now n.target) found.old.items }
    ensures given { OnOk result (All (λ n. IsGiven
        (Element lookup.now.index lookup.now.target lookup.now.exprs.now) store.now n.target) found.new.items) }
    ensures before { OnOk result (AreTrue store.now found.new.items → AreTrue store.now found.old.items) }
{
    let target = store.domain(lookup.target);
    if !is_worth(target, lookup.exprs.len()) {
        return Ok(());
    }
    if !list_values(store, lookup, &mut gaps.listed)? {
        return Ok(());
    }
    exclude_missing(lookup.target, target, gaps, found)?;
    Ok(())
}

/// What an element gives, or that it cannot hold.
pub(crate) fn look_up(
    store: &Store,
    lookup: &Lookup,
    gaps: &mut Gaps,
    found: &mut Vec<Narrowing>,
) -> Result<Look, AllocError>
    requires fits { IsFitElement store.now.first lookup.now.index lookup.now.target lookup.now.exprs.now }
    ensures given { OnOk result (All
        (λ n. IsGiven (Element lookup.now.index lookup.now.target lookup.now.exprs.now) store.now n.target)
        found.new.items) }
    ensures seen { IfOk result (IsSeen (Element lookup.now.index lookup.now.target lookup.now.exprs.now) store.now) }
    ensures rest { result ≡ Ok Look.Possible → AreTrue store.now found.new.items
        → IsAtRest (Element lookup.now.index lookup.now.target lookup.now.exprs.now) store.now }
{
    let scan = scan_places(store, lookup, found)?;
    if scan.open == 0 {
        return Ok(Look::Impossible(NO_HINT));
    }
    bound_both(store, lookup, scan, found)?;
    if scan.open == 1 {
        align(store, lookup, scan, &mut gaps.missing, found)?;
    } else {
        narrow_inside(store, lookup, gaps, found)?;
    }
    Ok(Look::Possible)
}
