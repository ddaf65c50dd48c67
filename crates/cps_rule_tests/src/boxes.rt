//! Boxes that do not overlap.
//!
//! The first box is always the same, so a row gives only the second one, the ends of all subjects, and what is left of
//! them. A row's comment says how the boxes lie.

ghost use Rattle.std.specs.Prelude.{IfOk};
ghost use Rattle.cps_rule_tests.specs.Ready.{IsFreshStore, IsTaskReady};

use crate::runs::{Left, Outcome, assert_row, ends_by, leaves, run};
use crate::spans::Shape::{Fixed, Optional};
use crate::spans::{Shape, spans};
use crate::stores::{Comparison, Ends, store_of};
use cps_enforce::Enforced;
use cps_instance::{Body, Task};
use cps_literal::Op::{Ge, Le};
use cps_model::Listed;
use cps_p_boxes::Boxes;
use cps_trail::Store;
use std::alloc::{AllocError, Global};
use std::process::Abort;
use std::test::Fail;

/// The propagator of two boxes that do not overlap: one with sides of 4 at the subjects 0 and 1, and one with these
/// spans in the two directions.
fn boxes(
    alloc: Global,
    store: &Store,
    second: (Shape, Shape),
) -> Result<Enforced<Boxes>, AllocError>
    requires { IsFreshStore store.now }
    ensures { IfOk result (λ propagator. IsTaskReady store.now.first propagator) }
{
    let (along, across) = second;
    let x = spans(alloc, store, &[Fixed(0, 4), along])?;
    let y = spans(alloc, store, &[Fixed(1, 4), across])?;
    let task = Task {
        enforcement: Listed::new(alloc),
        body: Body::NoOverlap2d { x, y },
    };
    let propagator = Boxes::of(alloc, &task)?;
    Ok(propagator)
}

/// What two boxes make of these ends of all subjects after decisions.
fn placed(
    alloc: Global,
    second: (Shape, Shape),
    ends: &[Ends],
    decided: &[Comparison],
) -> Result<Option<Outcome>, AllocError> {
    let mut store = store_of(alloc, ends)?;
    let mut propagator = boxes(alloc, &store, second)?;
    run(alloc, &mut propagator, &mut store, decided)
}

/// A second box, and what is left of these ends of all subjects; empty if the boxes must overlap.
struct Row {
    second: (Shape, Shape),
    ends: &'static [Ends],
    left: &'static [Left],
}

fn assert_left(rt: &impl Abort, alloc: Global, rows: &[Row]) -> Result<(), Fail> {
    for (place, row) in rows.iter().enumerate() {
        let found = placed(alloc, row.second, row.ends, &[])?;
        assert_row(rt, place, leaves(found, row.left));
    }
    Ok(())
}

static THERE: [Row; 6] = [
    // in x the second runs from 1..3 to 3..5, and so over a part of 0 to 4; it cannot end before 0 in y
    Row {
        second: (Fixed(2, 2), Fixed(3, 3)),
        ends: &[(0, 0), (0, 0), (1, 3), (0, 10)],
        left: &[(0, 0, 0), (1, 0, 0), (2, 1, 3), (3, 4, 10)],
    },
    // at 4 it passes the first
    Row {
        second: (Fixed(2, 2), Fixed(3, 3)),
        ends: &[(0, 0), (0, 0), (1, 4), (0, 10)],
        left: &[(0, 0, 0), (1, 0, 0), (2, 1, 4), (3, 0, 10)],
    },
    // the first runs from 6 to 10 in x, and the second cannot start at 10
    Row {
        second: (Fixed(2, 2), Fixed(3, 2)),
        ends: &[(6, 6), (0, 0), (0, 5), (1, 3)],
        left: &[(0, 6, 6), (1, 0, 0), (2, 0, 4), (3, 1, 3)],
    },
    // they overlap in both
    Row {
        second: (Fixed(2, 2), Fixed(3, 2)),
        ends: &[(0, 0), (0, 0), (1, 3), (1, 3)],
        left: &[],
    },
    // one without an area may lie on an edge, and not inside
    Row {
        second: (Fixed(2, 0), Fixed(3, 0)),
        ends: &[(0, 0), (0, 0), (2, 2), (2, 2)],
        left: &[],
    },
    Row {
        second: (Fixed(2, 0), Fixed(3, 0)),
        ends: &[(0, 0), (0, 0), (2, 2), (4, 4)],
        left: &[(0, 0, 0), (1, 0, 0), (2, 2, 2), (3, 4, 4)],
    },
];

#[test]
fn boxes_that_overlap_in_one_direction_are_ordered_in_the_other(
    rt: HostRuntime,
) -> Result<(), Fail> {
    assert_left(&rt, rt.alloc(), &THERE)
}

static PERHAPS: [Row; 5] = [
    Row {
        second: (Optional(2, 2, 4), Optional(3, 2, 4)),
        ends: &[(0, 0), (0, 0), (1, 3), (1, 3), (0, 1)],
        left: &[(0, 0, 0), (1, 0, 0), (2, 1, 3), (3, 1, 3), (4, 0, 0)],
    },
    // of two open literals either may be 0
    Row {
        second: (Optional(2, 2, 4), Optional(3, 2, 5)),
        ends: &[(0, 0), (0, 0), (1, 3), (1, 3), (0, 1), (0, 1)],
        left: &[
            (0, 0, 0),
            (1, 0, 0),
            (2, 1, 3),
            (3, 1, 3),
            (4, 0, 1),
            (5, 0, 1),
        ],
    },
    Row {
        second: (Optional(2, 2, 4), Optional(3, 2, 5)),
        ends: &[(0, 0), (0, 0), (1, 3), (1, 3), (0, 1), (1, 1)],
        left: &[
            (0, 0, 0),
            (1, 0, 0),
            (2, 1, 3),
            (3, 1, 3),
            (4, 0, 0),
            (5, 1, 1),
        ],
    },
    // it is pushed where it is there alone
    Row {
        second: (Optional(2, 2, 4), Optional(3, 3, 4)),
        ends: &[(0, 0), (0, 0), (1, 3), (0, 10), (0, 1)],
        left: &[(0, 0, 0), (1, 0, 0), (2, 1, 3), (3, 0, 10), (4, 0, 1)],
    },
    Row {
        second: (Optional(2, 2, 4), Optional(3, 3, 4)),
        ends: &[(0, 0), (0, 0), (1, 3), (0, 10), (1, 1)],
        left: &[(0, 0, 0), (1, 0, 0), (2, 1, 3), (3, 4, 10), (4, 1, 1)],
    },
];

#[test]
fn box_that_must_overlap_is_absent(rt: HostRuntime) -> Result<(), Fail> {
    assert_left(&rt, rt.alloc(), &PERHAPS)
}

/// The second's x ends from 3 on, so it is enough that the first's starts by 2; the second's y ends from 3 on, and the
/// first's starts by 0.
static REASON: [Comparison; 5] = [(2, Le, 0), (0, Ge, 3), (2, Ge, 4), (1, Ge, 3), (3, Ge, 4)];

static WIDE: [Ends; 4] = [(0, 20), (0, 20), (0, 20), (0, 20)];

static DECIDED: [Comparison; 4] = [(0, Le, 0), (1, Le, 0), (2, Ge, 1), (2, Le, 3)];

#[test]
fn reasons_name_the_overlap_and_the_order(rt: HostRuntime) -> Result<(), Fail> {
    let found = placed(rt.alloc(), (Fixed(2, 2), Fixed(3, 3)), &WIDE, &DECIDED)?;
    assert!(rt; ends_by(found, &REASON));
    Ok(())
}
