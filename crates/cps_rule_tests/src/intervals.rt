//! Intervals: the size takes the start to the end.
//!
//! Subject 0 is the start, 1 the end and 2 the size. The contract asks for each of the six bounds that follow from the
//! others, and the table has a row for each; reasons are shown by rows alone.

ghost use Rattle.std.specs.Prelude.{IfOk};
ghost use Rattle.cps_rule_tests.specs.Ready.{IsFreshStore, IsPlainTask, IsTaskReady};

use crate::runs::{Left, Outcome, assert_row, ends_by, leaves, refuses, run, trial};
use crate::spans::literals;
use crate::stores::{Comparison, Ends, store_of};
use cps_enforce::Enforced;
use cps_instance::{Body, Task};
use cps_literal::Op::{Ge, Le};
use cps_model::Listed;
use cps_p_interval::Interval;
use cps_trail::Store;
use std::alloc::{AllocError, Global};
use std::process::Abort;
use std::test::Fail;

/// The propagator of an interval.
fn interval(alloc: Global) -> Result<Enforced<Interval>, AllocError>
    ensures { IfOk result (λ propagator. IsPlainTask propagator) }
{
    let task = Task {
        enforcement: Listed::new(alloc),
        body: Body::Interval {
            start: 0,
            end: 1,
            size: 2,
        },
    };
    let propagator = Interval::of(alloc, &task)?;
    Ok(propagator)
}

/// What an interval makes of these ends after decisions.
fn spanned(
    alloc: Global,
    ends: &[Ends],
    decided: &[Comparison],
) -> Result<Option<Outcome>, AllocError> {
    let mut propagator = interval(alloc)?;
    trial(alloc, &mut propagator, ends, decided)
}

/// What is left of the start, the end and the size; empty if there is no interval.
struct Row {
    ends: [Ends; 3],
    left: &'static [Left],
}

fn assert_left(rt: &impl Abort, alloc: Global, rows: &[Row]) -> Result<(), Fail> {
    for (place, row) in rows.iter().enumerate() {
        let found = spanned(alloc, &row.ends, &[])?;
        assert_row(rt, place, leaves(found, row.left));
    }
    Ok(())
}

static BOUNDS: [Row; 7] = [
    // at most 9 from 0 on, and a start 3 before 9
    Row {
        ends: [(0, 10), (8, 9), (3, 20)],
        left: &[(0, 0, 6), (1, 8, 9), (2, 3, 9)],
    },
    // a start 5 before 10, and an end 5 after 20
    Row {
        ends: [(0, 20), (10, 30), (2, 5)],
        left: &[(0, 5, 20), (1, 10, 25), (2, 2, 5)],
    },
    // an end 3 after 4, and one 5 after 9
    Row {
        ends: [(4, 9), (0, 20), (3, 5)],
        left: &[(0, 4, 9), (1, 7, 14), (2, 3, 5)],
    },
    // from 2 to 5, and from 0 to 6
    Row {
        ends: [(0, 2), (5, 6), (0, 20)],
        left: &[(0, 0, 2), (1, 5, 6), (2, 3, 6)],
    },
    // no size is below 0
    Row {
        ends: [(0, 10), (0, 10), (-5, 4)],
        left: &[(0, 0, 10), (1, 0, 10), (2, 0, 4)],
    },
    Row {
        ends: [(0, 10), (0, 10), (-5, -1)],
        left: &[],
    },
    // so no end is before the start
    Row {
        ends: [(5, 9), (0, 3), (-5, 4)],
        left: &[],
    },
];

#[test]
fn bounds_are_passed_on_in_every_direction(rt: HostRuntime) -> Result<(), Fail> {
    assert_left(&rt, rt.alloc(), &BOUNDS)
}

/// Ends and decisions, and the reason of what is narrowed last, or the conflict. Bounds that each first value meets are
/// in neither.
struct Told {
    ends: [Ends; 3],
    decided: &'static [Comparison],
    clause: &'static [Comparison],
}

fn assert_reasons(rt: &impl Abort, alloc: Global, rows: &[Told]) -> Result<(), Fail> {
    for (place, row) in rows.iter().enumerate() {
        let found = spanned(alloc, &row.ends, row.decided)?;
        assert_row(rt, place, ends_by(found, row.clause));
    }
    Ok(())
}

static REASONS: [Told; 4] = [
    // from 5 on for 3 at least it ends at 8 or later, whatever its end is at most
    Told {
        ends: [(0, 20), (0, 40), (0, 20)],
        decided: &[(1, Le, 35), (0, Ge, 5), (2, Ge, 3)],
        clause: &[(0, Le, 4), (2, Le, 2), (1, Ge, 8)],
    },
    // up to 20 for 5 at least it starts by 15, whenever it starts at the earliest
    Told {
        ends: [(0, 100), (0, 100), (0, 100)],
        decided: &[(0, Ge, 3), (1, Le, 20), (2, Ge, 5)],
        clause: &[(1, Ge, 21), (2, Le, 4), (0, Le, 15)],
    },
    // from 2 on up to 15 it takes 13 at most
    Told {
        ends: [(0, 4), (2, 30), (0, 30)],
        decided: &[(2, Le, 25), (0, Ge, 2), (1, Le, 15)],
        clause: &[(0, Le, 1), (1, Ge, 16), (2, Le, 13)],
    },
    // no size is below 0, whatever the others are
    Told {
        ends: [(0, 10), (0, 10), (-5, 4)],
        decided: &[(0, Le, 8)],
        clause: &[(2, Ge, 0)],
    },
];

#[test]
fn a_bound_has_one_of_each_other_as_its_reason(rt: HostRuntime) -> Result<(), Fail> {
    assert_reasons(&rt, rt.alloc(), &REASONS)
}

fn assert_conflicts(rt: &impl Abort, alloc: Global, rows: &[Told]) -> Result<(), Fail> {
    for (place, row) in rows.iter().enumerate() {
        let found = spanned(alloc, &row.ends, row.decided)?;
        assert_row(rt, place, refuses(found, row.clause));
    }
    Ok(())
}

static CONFLICTS: [Told; 4] = [
    // from 50 on for 30 at least it ends at 80 or later, so it need not end by 70: 79 is too early too
    Told {
        ends: [(0, 100), (0, 100), (0, 100)],
        decided: &[(0, Ge, 50), (2, Ge, 30), (1, Le, 70)],
        clause: &[(0, Le, 49), (2, Le, 29), (1, Ge, 80)],
    },
    // up to 10 for 20 at most it ends by 30, and 31 is too late
    Told {
        ends: [(0, 100), (0, 100), (0, 100)],
        decided: &[(0, Le, 10), (2, Le, 20), (1, Ge, 50)],
        clause: &[(0, Ge, 11), (2, Ge, 21), (1, Le, 30)],
    },
    // -1 is no size
    Told {
        ends: [(0, 10), (0, 10), (-5, 4)],
        decided: &[(0, Le, 8), (2, Le, -2)],
        clause: &[(2, Ge, 0)],
    },
    // from 5 on it ends at 5 or later, whatever its size is, so it need not end by 3: 4 is too early too
    Told {
        ends: [(0, 10), (0, 10), (-5, 4)],
        decided: &[(0, Ge, 5), (1, Le, 3)],
        clause: &[(0, Le, 4), (1, Ge, 5)],
    },
];

#[test]
fn conflicts_ask_no_more_than_is_needed(rt: HostRuntime) -> Result<(), Fail> {
    assert_conflicts(&rt, rt.alloc(), &CONFLICTS)
}

/// The propagator of an interval that is asked for where subject 3 is 1.
fn enforced(alloc: Global, store: &Store) -> Result<Enforced<Interval>, AllocError>
    requires { IsFreshStore store.now }
    ensures { IfOk result (λ propagator. IsTaskReady store.now.first propagator) }
{
    let enforcement = literals(alloc, store, &[3])?;
    let task = Task {
        enforcement,
        body: Body::Interval {
            start: 0,
            end: 1,
            size: 2,
        },
    };
    let propagator = Interval::of(alloc, &task)?;
    Ok(propagator)
}

/// What such an interval makes of these ends.
fn asked_for(alloc: Global, ends: &[Ends]) -> Result<Option<Outcome>, AllocError> {
    let mut store = store_of(alloc, ends)?;
    let mut propagator = enforced(alloc, &store)?;
    run(alloc, &mut propagator, &mut store, &[])
}

/// The ends of an interval's subjects and of its literal, and what is left of them.
struct Asked {
    ends: [Ends; 4],
    left: &'static [Left],
}

fn assert_asked(rt: &impl Abort, alloc: Global, rows: &[Asked]) -> Result<(), Fail> {
    for (place, row) in rows.iter().enumerate() {
        let found = asked_for(alloc, &row.ends)?;
        assert_row(rt, place, leaves(found, row.left));
    }
    Ok(())
}

static ASKED: [Asked; 2] = [
    // it starts at 5 or later, and may not end by 3, since no size is below 0
    Asked {
        ends: [(5, 9), (0, 3), (-5, 4), (0, 1)],
        left: &[(0, 5, 9), (1, 0, 3), (2, -5, 4), (3, 0, 0)],
    },
    // from 5 to 5 it has the size 0
    Asked {
        ends: [(5, 9), (0, 5), (-5, 4), (0, 1)],
        left: &[(0, 5, 9), (1, 0, 5), (2, -5, 4), (3, 0, 1)],
    },
];

#[test]
fn one_that_cannot_be_is_not_asked_for(rt: HostRuntime) -> Result<(), Fail> {
    assert_asked(&rt, rt.alloc(), &ASKED)
}
