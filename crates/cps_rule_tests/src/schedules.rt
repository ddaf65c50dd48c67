//! Spans that do not overlap, in pairs and in sets.
//!
//! A table for what pairs give, which the contract asks for, and one for each rule on sets (detectable precedences,
//! not-first and not-last, edge finding), which it does not. A row's comment says which spans crowd which window.

ghost use Rattle.std.specs.Prelude.{IfOk};
ghost use Rattle.cps_rule_tests.specs.Ready.{IsFreshStore, IsTaskReady};

use crate::runs::{Left, Outcome, assert_row, ends_by, leaves, run};
use crate::spans::Shape::{Fixed, Optional, Varying};
use crate::spans::{Shape, spans};
use crate::stores::{Comparison, Ends, store_of};
use cps_enforce::Enforced;
use cps_instance::{Body, Task};
use cps_literal::Op::{Ge, Le};
use cps_model::Listed;
use cps_p_nooverlap::NoOverlap;
use cps_trail::Store;
use std::alloc::{AllocError, Global};
use std::process::Abort;
use std::test::Fail;

/// The propagator of spans that do not overlap.
fn no_overlap(
    alloc: Global,
    store: &Store,
    shapes: &[Shape],
) -> Result<Enforced<NoOverlap>, AllocError>
    requires { IsFreshStore store.now }
    ensures { IfOk result (λ propagator. IsTaskReady store.now.first propagator) }
{
    let intervals = spans(alloc, store, shapes)?;
    let task = Task {
        enforcement: Listed::new(alloc),
        body: Body::NoOverlap(intervals),
    };
    let propagator = NoOverlap::of(alloc, &task)?;
    Ok(propagator)
}

/// What spans of these shapes make of these ends of all subjects after decisions.
fn scheduled(
    alloc: Global,
    shapes: &[Shape],
    ends: &[Ends],
    decided: &[Comparison],
) -> Result<Option<Outcome>, AllocError> {
    let mut store = store_of(alloc, ends)?;
    let mut propagator = no_overlap(alloc, &store, shapes)?;
    run(alloc, &mut propagator, &mut store, decided)
}

/// Spans, and what is left of these ends of all subjects; empty if they must overlap.
struct Row {
    shapes: &'static [Shape],
    ends: &'static [Ends],
    left: &'static [Left],
}

fn assert_left(rt: &impl Abort, alloc: Global, rows: &[Row]) -> Result<(), Fail> {
    for (place, row) in rows.iter().enumerate() {
        let found = scheduled(alloc, row.shapes, row.ends, &[])?;
        assert_row(rt, place, leaves(found, row.left));
    }
    Ok(())
}

const TWO: [Shape; 2] = [Fixed(0, 5), Fixed(1, 3)];

static PAIRS: [Row; 3] = [
    // the second ends at 6 or later, and the first starts by 4: so it starts at 5 or later
    Row {
        shapes: &TWO,
        ends: &[(0, 4), (3, 20)],
        left: &[(0, 0, 4), (1, 5, 20)],
    },
    // it ends at 12 or later, and the first starts by 10: so the first ends by 12
    Row {
        shapes: &TWO,
        ends: &[(0, 10), (9, 12)],
        left: &[(0, 0, 7), (1, 9, 12)],
    },
    // so does one whose end is a subject of its own, which ends by 20
    Row {
        shapes: &[Varying(0, 1), Fixed(2, 3)],
        ends: &[(0, 4), (5, 30), (3, 20)],
        left: &[(0, 0, 4), (1, 5, 20), (2, 5, 20)],
    },
];

#[test]
fn one_comes_after_another_that_it_cannot_precede(rt: HostRuntime) -> Result<(), Fail> {
    assert_left(&rt, rt.alloc(), &PAIRS)
}

const THREE: [Shape; 3] = [Fixed(0, 11), Fixed(1, 10), Fixed(2, 5)];

const LATE: [Shape; 3] = [Fixed(0, 11), Fixed(1, 10), Optional(2, 5, 3)];

static PRECEDENCES: [Row; 5] = [
    // the third ends at 19 or later, the others start by 14 and 17: both come before it, from 0 to 21
    Row {
        shapes: &THREE,
        ends: &[(0, 14), (1, 17), (14, 30)],
        left: &[(0, 0, 14), (1, 1, 17), (2, 21, 30)],
    },
    // the second may start when the third has ended
    Row {
        shapes: &THREE,
        ends: &[(0, 14), (1, 19), (14, 30)],
        left: &[(0, 0, 14), (1, 1, 19), (2, 14, 30)],
    },
    // the same with time reversed about 35
    Row {
        shapes: &THREE,
        ends: &[(10, 24), (8, 24), (0, 16)],
        left: &[(0, 10, 24), (1, 8, 24), (2, 0, 9)],
    },
    // one that would have to start at 21 and starts at 20 at the latest is absent
    Row {
        shapes: &LATE,
        ends: &[(0, 14), (1, 17), (14, 20), (0, 1)],
        left: &[(0, 0, 14), (1, 1, 17), (2, 14, 20), (3, 0, 0)],
    },
    Row {
        shapes: &LATE,
        ends: &[(0, 14), (1, 17), (14, 21), (0, 1)],
        left: &[(0, 0, 14), (1, 1, 17), (2, 14, 21), (3, 0, 1)],
    },
];

#[test]
fn one_comes_after_all_that_start_before_it_can_end(rt: HostRuntime) -> Result<(), Fail> {
    assert_left(&rt, rt.alloc(), &PRECEDENCES)
}

const SHORT: [Shape; 3] = [Fixed(0, 2), Fixed(1, 3), Fixed(2, 3)];

static FULL_WINDOWS: [Row; 3] = [
    // the first ends at 5 or later, and the others need 6 up to 10: one of them comes before it, up to 4
    Row {
        shapes: &SHORT,
        ends: &[(3, 28), (1, 7), (1, 7)],
        left: &[(0, 4, 28), (1, 1, 7), (2, 1, 7)],
    },
    // up to 11 there is room for both after it
    Row {
        shapes: &SHORT,
        ends: &[(3, 28), (1, 8), (1, 8)],
        left: &[(0, 3, 28), (1, 1, 8), (2, 1, 8)],
    },
    // with time reversed about 30 it is not last
    Row {
        shapes: &SHORT,
        ends: &[(0, 25), (20, 26), (20, 26)],
        left: &[(0, 0, 24), (1, 20, 26), (2, 20, 26)],
    },
];

#[test]
fn one_is_not_first_or_last_of_a_full_window(rt: HostRuntime) -> Result<(), Fail> {
    assert_left(&rt, rt.alloc(), &FULL_WINDOWS)
}

const FOUR: [Shape; 4] = [Fixed(0, 4), Fixed(1, 3), Fixed(2, 3), Fixed(3, 3)];

static EDGES: [Row; 5] = [
    // three take 9 of the 11 units up to 11
    Row {
        shapes: &FOUR,
        ends: &[(0, 30), (0, 8), (0, 8), (0, 8)],
        left: &[(0, 9, 30), (1, 0, 8), (2, 0, 8), (3, 0, 8)],
    },
    // with time reversed about 20
    Row {
        shapes: &FOUR,
        ends: &[(0, 16), (9, 17), (9, 17), (9, 17)],
        left: &[(0, 0, 7), (1, 9, 17), (2, 9, 17), (3, 9, 17)],
    },
    // four of 3 do not fit into 11
    Row {
        shapes: &[Fixed(0, 3), Fixed(1, 3), Fixed(2, 3), Fixed(3, 3)],
        ends: &[(0, 8), (0, 8), (0, 8), (0, 8)],
        left: &[],
    },
    // two fill the time up to 6, in which the third would end
    Row {
        shapes: &[Fixed(0, 3), Fixed(1, 3), Optional(2, 2, 3)],
        ends: &[(0, 3), (0, 3), (0, 4), (0, 1)],
        left: &[(0, 0, 3), (1, 0, 3), (2, 0, 4), (3, 0, 0)],
    },
    // up to 8 there is room for it
    Row {
        shapes: &[Fixed(0, 3), Fixed(1, 3), Optional(2, 2, 3)],
        ends: &[(0, 3), (0, 3), (0, 6), (0, 1)],
        left: &[(0, 0, 3), (1, 0, 3), (2, 0, 6), (3, 0, 1)],
    },
];

#[test]
fn one_without_room_in_a_window_comes_after_it(rt: HostRuntime) -> Result<(), Fail> {
    assert_left(&rt, rt.alloc(), &EDGES)
}

const LONG: [Shape; 4] = [Varying(0, 1), Fixed(2, 2), Fixed(3, 2), Fixed(4, 1)];

static STRETCHED: [Row; 2] = [
    // the first runs from 2 to 8 at least, and with the next two fills the time up to 10; there is no room for 4
    // before it or after it
    Row {
        shapes: &LONG,
        ends: &[(0, 2), (8, 10), (0, 8), (0, 8), (0, 20)],
        left: &[(0, 2, 2), (1, 8, 8), (2, 0, 8), (3, 0, 8), (4, 10, 20)],
    },
    // a fourth does not fit
    Row {
        shapes: &LONG,
        ends: &[(0, 2), (8, 10), (0, 8), (0, 8), (0, 9)],
        left: &[],
    },
];

#[test]
fn one_of_varying_length_takes_what_it_takes_at_least(rt: HostRuntime) -> Result<(), Fail> {
    assert_left(&rt, rt.alloc(), &STRETCHED)
}

/// The third ends at 19 or later, so it is enough that the others start by 18.
static REASON: [Comparison; 4] = [(2, Le, 13), (0, Ge, 19), (1, Ge, 19), (2, Ge, 21)];

static ENDS: [Ends; 3] = [(0, 100), (0, 100), (0, 100)];

static DECIDED: [Comparison; 4] = [(0, Le, 14), (1, Ge, 1), (1, Le, 17), (2, Ge, 14)];

static THREE_SPANS: [Shape; 3] = THREE;

#[test]
fn reasons_ask_no_more_than_is_needed(rt: HostRuntime) -> Result<(), Fail> {
    let found = scheduled(rt.alloc(), &THREE_SPANS, &ENDS, &DECIDED)?;
    assert!(rt; ends_by(found, &REASON));
    Ok(())
}
