//! Cuts of domains, and division.
//!
//! A row has what a domain is asked to keep, what it answers, and what is left of it; cuts are made one after the other, so
//! that each row goes on from what the one before left. Rows were worked out by hand from the meaning of a cut.

ghost use Rattle.std.specs.Prelude.{◌≡◌, ◌<◌, ◌*◌, ◌-◌, ◌^◌, length, negsuc};
ghost use Rattle.cps_domain.specs.Window.{pairs_of, RisesFrom};

use cps_domain::{Cut, Domain, ceil_div, floor_div};
use std::alloc::{AllocError, Global};
use std::process::Abort;
use std::test::Fail;

/// What a domain is asked to keep.
#[derive(Clone, Copy)]
enum Keep {
    AtMost(i64),
    AtLeast(i64),
    Only(i64),
    AllBut(i64),
}

/// One cut, what it answers, and the intervals that it leaves, with the number of their values.
struct Row {
    keep: Keep,
    cut: Cut,
    left: &'static [(i64, i64)],
    size: u64,
}

fn cut(domain: &mut Domain, keep: Keep) -> Result<Cut, AllocError> {
    match keep {
        Keep::AtMost(value) => Ok(domain.cut_le(value)),
        Keep::AtLeast(value) => Ok(domain.cut_ge(value)),
        Keep::Only(value) => Ok(domain.fix(value)),
        Keep::AllBut(value) => domain.remove(value),
    }
}

/// Whether these intervals are left, and so many values.
fn has_left(domain: &Domain, intervals: &[(i64, i64)], size: u64) -> bool {
    domain.intervals() == intervals && domain.size() == size
}

/// Makes the cut of a row; whether all is as the row says.
fn cuts_as(domain: &mut Domain, row: &Row) -> Result<bool, AllocError> {
    let is_answer = cut(domain, row.keep)? == row.cut;
    Ok(is_answer && has_left(domain, row.left, row.size))
}

/// Cuts of 0 to 10, one after the other.
static CUTS: [Row; 5] = [
    Row {
        keep: Keep::AllBut(5),
        cut: Cut::Narrowed,
        left: &[(0, 4), (6, 10)],
        size: 10,
    },
    Row {
        keep: Keep::AtMost(5),
        cut: Cut::Narrowed,
        left: &[(0, 4)],
        size: 5,
    },
    Row {
        keep: Keep::AtLeast(5),
        cut: Cut::Wiped,
        left: &[(0, 4)],
        size: 5,
    },
    Row {
        keep: Keep::AtMost(4),
        cut: Cut::NoChange,
        left: &[(0, 4)],
        size: 5,
    },
    Row {
        keep: Keep::Only(3),
        cut: Cut::Narrowed,
        left: &[(3, 3)],
        size: 1,
    },
];

fn assert_cuts(rt: &impl Abort, domain: &mut Domain, rows: &[Row]) -> Result<(), Fail> {
    for (place, row) in rows.iter().enumerate() {
        let is_as_said = cuts_as(domain, row)?;
        assert!(rt; is_as_said, "row {place}");
    }
    Ok(())
}

#[test]
fn cuts_keep_the_values_that_pass(rt: HostRuntime) -> Result<(), Fail> {
    let mut domain = Domain::of_bounds(rt.alloc(), &[0, 10])?;
    assert_cuts(&rt, &mut domain, &CUTS)?;
    assert!(rt; domain.is_fixed() && domain.contains(3) && !domain.contains(4));
    Ok(())
}

/// Keeps the values that a domain of these bounds has too; whether the answer and what is left are as wanted.
fn intersects(
    alloc: Global,
    domain: &mut Domain,
    bounds: &[i64],
    cut: Cut,
    left: &[(i64, i64)],
) -> Result<bool, AllocError>
    requires pairs { length bounds.now ≡ 2 * length (pairs_of bounds.now) }
    requires some { 0 < length bounds.now }
    requires rising { RisesFrom (negsuc (2 ^ 62 - 1)) (pairs_of bounds.now) }
{
    let other = Domain::of_bounds(alloc, bounds)?;
    Ok(domain.intersect(&other)? == cut && domain.intervals() == left)
}

#[test]
fn one_interval_is_intersected(rt: HostRuntime) -> Result<(), Fail> {
    let alloc = rt.alloc();
    let mut domain = Domain::of_bounds(alloc, &[0, 4])?;
    assert!(rt; intersects(alloc, &mut domain, &[3, 9], Cut::Narrowed, &[(3, 4)])?);
    Ok(())
}

/// What 0 to 3, 5 to 8 and 11 to 12 share with 2 to 6 and 8 to 20.
static SHARED: [(i64, i64); 4] = [(2, 3), (5, 6), (8, 8), (11, 12)];

/// Whether the first list keeps what it shares with the second, the second once more changes nothing, and a list that lies
/// apart leaves no value.
fn are_shared(alloc: Global, shared: &[(i64, i64)]) -> Result<bool, AllocError> {
    let mut domain = Domain::of_bounds(alloc, &[0, 3, 5, 8, 11, 12])?;
    Ok(
        intersects(alloc, &mut domain, &[2, 6, 8, 20], Cut::Narrowed, shared)?
            && intersects(alloc, &mut domain, &[2, 6, 8, 20], Cut::NoChange, shared)?
            && intersects(alloc, &mut domain, &[4, 4, 13, 14], Cut::Wiped, shared)?,
    )
}

#[test]
fn lists_of_intervals_are_intersected(rt: HostRuntime) -> Result<(), Fail> {
    assert!(rt; are_shared(rt.alloc(), &SHARED)?);
    Ok(())
}

/// What is divided by what, and the quotient rounded down and up.
static QUOTIENTS: [[i128; 4]; 4] = [
    [-10, 3, -4, -3],
    [10, -3, -4, -3],
    [7, 2, 3, 4],
    [-6, -2, 3, 3],
];

fn assert_quotients(rt: &impl Abort, rows: &[[i128; 4]]) {
    for [divided, divisor, down, up] in rows {
        assert!(rt; *divisor < -1 || *divisor > 1);
        assert_eq!(rt; floor_div(*divided, *divisor), *down);
        assert_eq!(rt; ceil_div(*divided, *divisor), *up);
    }
}

#[test]
fn division_rounds_down_or_up(rt: HostRuntime) {
    assert_quotients(&rt, &QUOTIENTS);
}
