//! Values that a domain has between the ends of a list of values, and that the list does not have.
//!
//! They are found by a walk of which only safety is proved, and each is tested against the list before it is taken
//! away. Each value costs an entry of the trail, so a domain that has many more values than the list is left as it is
//! between its ends.

ghost use Rattle.std.specs.Prelude.{◌≡◌, ◌↔◌, ℤ, true, OnOk, IsTrue, Contains, IsSorted};
ghost use Rattle.std.specs.Ordering.{int_cmp};
ghost use Rattle.cps_domain.specs.Window.{contains};
ghost use Rattle.cps_p_lookup.specs.Gaps.{ExcludesValues};

use crate::facts::atom;
use crate::places::NO_HINT;
use cps_domain::Domain;
use cps_literal::Op;
use cps_rule::Narrowing;
use std::alloc::{AllocError, Global};

/// A domain of more values than a list by more than this is left as it is.
const MOST: u64 = 4096;

/// Room for a search of gaps.
pub(crate) struct Gaps {
    /// The values that are supported.
    pub(crate) listed: Vec<i64>,
    /// The same as intervals, in order.
    runs: Vec<(i64, i64)>,
    /// The values of a domain that the list, or another domain, has not.
    pub(crate) missing: Vec<i64>,
    /// For each number from the least value on, whether it is supported.
    marks: Vec<bool>,
}

// Written out, so that crates above do not prove it anew.
impl Drop for Gaps {
    fn drop(self) {
        let Gaps {
            listed: _listed,
            runs: _runs,
            missing: _missing,
            marks: _marks,
        } = self;
    }
}

impl Gaps {
    /// Room that is empty.
    pub(crate) fn new(alloc: Global) -> Self {
        Gaps {
            listed: Vec::new(alloc),
            runs: Vec::new(alloc),
            missing: Vec::new(alloc),
            marks: Vec::new(alloc),
        }
    }
}

/// Whether a sorted list has a number.
fn is_listed(numbers: &[i64], number: i64) -> bool
    requires { IsSorted int_cmp numbers.now }
    ensures { IsTrue result ↔ Contains numbers.now number }
{
    numbers.binary_search(&number).is_ok()
}

/// Whether a domain may have values beside `values` listed ones, and not too many.
pub(crate) fn is_worth(domain: &Domain, values: usize) -> bool {
    let size = domain.size();
    size > 2 && size.saturating_sub(MOST) <= values as u64
}

/// How far a number lies above another, if not far.
fn distance(low: i64, high: i64, most: usize) -> Option<usize> {
    let span = high.wrapping_sub(low);
    if high < low || span < 0 {
        return None;
    }
    let steps = span as usize;
    if steps < most { Some(steps) } else { None }
}

/// The least and the greatest of some values.
fn hull(values: &[i64]) -> (i64, i64) {
    let mut low = i64::MAX;
    let mut high = i64::MIN;
    for value in values {
        low = low.min(*value);
        high = high.max(*value);
    }
    (low, high)
}

/// Marks values by how far each lies above the least one. Answers how many were not marked before.
fn mark_distinct(values: &[i64], low: i64, marks: &mut [bool]) -> u64 {
    let mut count = 0u64;
    for value in values {
        let Some(place) = distance(low, *value, marks.len()) else {
            continue;
        };
        if place < marks.len() && !marks[place] {
            marks[place] = true;
            count = count.saturating_add(1);
        }
    }
    count
}

/// How many different values there are, where they lie close to one another.
fn count_distinct(values: &[i64], marks: &mut Vec<bool>) -> Result<Option<u64>, AllocError> {
    let (low, high) = hull(values);
    let most = values.len().saturating_mul(4).saturating_add(64);
    let Some(span) = distance(low, high, most) else {
        return Ok(None);
    };
    marks.clear();
    marks.resize(span.saturating_add(1), false)?;
    Ok(Some(mark_distinct(values, low, marks.as_mut_slice())))
}

/// Makes a list that of the values as intervals.
fn list_runs(values: &[i64], runs: &mut Vec<(i64, i64)>) -> Result<(), AllocError> {
    runs.clear();
    for value in values {
        runs.push((*value, *value))?;
    }
    Ok(())
}

/// The place of the first interval from one on that does not end before a value; the list's length where there is none.
pub(crate) fn first_reaching(cover: &[(i64, i64)], from: usize, value: i64) -> usize {
    for k in from..cover.len() {
        if value <= cover[k].1 {
            return k;
        }
    }
    cover.len()
}

/// Adds the numbers from one on and before another.
fn push_between(from: i64, to: i64, values: &mut Vec<i64>) -> Result<(), AllocError> {
    for value in from..to {
        values.push(value)?;
    }
    Ok(())
}

/// Adds the values of an interval that are in none of others from a place on.
fn push_part(
    part: (i64, i64),
    cover: &[(i64, i64)],
    from: usize,
    values: &mut Vec<i64>,
) -> Result<(), AllocError> {
    let mut next = part.0;
    for k in from..cover.len() {
        let run = cover[k];
        if part.1 < run.0 {
            break;
        }
        push_between(next, run.0, values)?;
        next = run.1.saturating_add(1);
    }
    push_between(next, part.1.saturating_add(1), values)
}

/// Makes a list that of the values of intervals that lie between the ends of others and in none of them. Both rise.
fn list_uncovered(
    parts: &[(i64, i64)],
    cover: &[(i64, i64)],
    values: &mut Vec<i64>,
) -> Result<(), AllocError> {
    values.clear();
    if cover.is_empty() {
        return Ok(());
    }
    let low = cover[0].0;
    let high = cover[cover.len() - 1].1;
    let mut at = 0;
    for part in parts {
        let inner = (part.0.max(low), part.1.min(high));
        at = first_reaching(cover, at, inner.0);
        push_part(inner, cover, at, values)?;
    }
    Ok(())
}

/// Adds that a subject has none of some values, but those that a list has.
fn exclude_unlisted(
    subject: u32,
    listed: &[i64],
    missing: &[i64],
    found: &mut Vec<Narrowing>,
) -> Result<(), AllocError>
    requires { IsSorted int_cmp listed.now }
    ensures { OnOk result (ExcludesValues subject (Contains listed.now) found.old.items found.new.items) }
{
    for value in missing {
        if is_listed(listed, *value) {
            continue;
        }
        let target = atom(subject, Op::Ne, *value);
        found.push(Narrowing {
            target,
            hint: NO_HINT,
        })?;
    }
    Ok(())
}

/// Adds that a subject has none of some values, but those that a domain has.
fn exclude_outside(
    subject: u32,
    domain: &Domain,
    missing: &[i64],
    found: &mut Vec<Narrowing>,
) -> Result<(), AllocError>
    ensures { OnOk result (ExcludesValues subject (λ v. contains domain.now v ≡ true) found.old.items found.new.items) }
{
    for value in missing {
        if domain.contains(*value) {
            continue;
        }
        let target = atom(subject, Op::Ne, *value);
        found.push(Narrowing {
            target,
            hint: NO_HINT,
        })?;
    }
    Ok(())
}

/// Sorts numbers.
fn sort(numbers: &mut Vec<i64>)
    ensures sorted { IsSorted int_cmp numbers.new.items }
    ensures kept { (n : ℤ) → Contains numbers.old.items n → Contains numbers.new.items n }
{
    numbers.sort_unstable();
}

/// Whether a domain may have other values than these, which it has.
fn may_miss(values: &[i64], domain: &Domain, marks: &mut Vec<bool>) -> Result<bool, AllocError> {
    match count_distinct(values, marks)? {
        Some(count) => Ok(count != domain.size()),
        None => Ok(true),
    }
}

/// Adds that a subject has none of the values of its domain between the ends of the listed ones, but those that are
/// listed.
pub(crate) fn exclude_missing(
    subject: u32,
    domain: &Domain,
    gaps: &mut Gaps,
    found: &mut Vec<Narrowing>,
) -> Result<(), AllocError>
    ensures { OnOk result (ExcludesValues subject (Contains gaps.old.listed.items) found.old.items found.new.items) }
{
    if !may_miss(gaps.listed.as_slice(), domain, &mut gaps.marks)? {
        return Ok(());
    }
    sort(&mut gaps.listed);
    let listed = gaps.listed.as_slice();
    list_runs(listed, &mut gaps.runs)?;
    list_uncovered(domain.intervals(), gaps.runs.as_slice(), &mut gaps.missing)?;
    exclude_unlisted(subject, listed, gaps.missing.as_slice(), found)?;
    Ok(())
}

/// Adds that a subject has none of the values of its domain between another's ends that the other has not, where its
/// domain is small.
pub(crate) fn copy_holes(
    subject: u32,
    domain: &Domain,
    other: &Domain,
    missing: &mut Vec<i64>,
    found: &mut Vec<Narrowing>,
) -> Result<(), AllocError>
    ensures { OnOk result (ExcludesValues subject (λ v. contains other.now v ≡ true) found.old.items found.new.items) }
{
    if !is_worth(domain, 0) {
        return Ok(());
    }
    list_uncovered(domain.intervals(), other.intervals(), missing)?;
    exclude_outside(subject, other, missing.as_slice(), found)
}
