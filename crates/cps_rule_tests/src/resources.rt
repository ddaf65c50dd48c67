//! Spans that use a resource together.
//!
//! The first table is about single times: compulsory parts, and what they leave to others. The second is about windows
//! that are too full although no time in them is. A row's comment adds up the demands.

ghost use Rattle.std.specs.Prelude.{IfOk, All};
ghost use Rattle.cps_instance.specs.Fitting.{IsNeverNegative};
ghost use Rattle.cps_rule_tests.specs.Ready.{IsFreshStore, IsTaskReady};

use crate::runs::{Left, Outcome, assert_row, ends_by, leaves, refuses, run};
use crate::spans::Shape::{Fixed, Optional, Varying};
use crate::spans::{Shape, spans};
use crate::stores::{Comparison, Ends, store_of};
use cps_enforce::Enforced;
use cps_instance::{Body, Task};
use cps_literal::Op::{Ge, Le};
use cps_model::Listed;
use cps_p_cumulative::Cumulative;
use cps_trail::Store;
use std::alloc::{AllocError, Global};
use std::process::Abort;
use std::test::Fail;

/// Spans that share the capacity at subject 0, and the subject of each one's demand.
#[derive(Clone, Copy)]
struct Use {
    shapes: &'static [Shape],
    demands: &'static [u32],
}

/// A subject; an error where it has values below 0.
fn never_negative(store: &Store, subject: u32) -> Result<u32, AllocError>
    requires { IsFreshStore store.now }
    ensures { IfOk result (IsNeverNegative store.now.first) }
{
    if store.len() <= subject as usize {
        return Err(AllocError);
    }
    let domain = store.domain(subject);
    let low = domain.min();
    if low < 0 {
        return Err(AllocError);
    }
    Ok(subject)
}

/// The subjects of demands.
fn demands_of(alloc: Global, store: &Store, demands: &[u32]) -> Result<Listed<u32>, AllocError>
    requires { IsFreshStore store.now }
    ensures { IfOk result (λ subjects. All (IsNeverNegative store.now.first) subjects) }
{
    let mut subjects = Vec::new(alloc);
    for demand in demands {
        let subject = never_negative(store, *demand)?;
        subjects.push(subject)?;
    }
    Ok(Listed::from_vec(subjects))
}

/// The propagator of spans that share a capacity.
fn cumulative(alloc: Global, store: &Store, shared: Use) -> Result<Enforced<Cumulative>, AllocError>
    requires { IsFreshStore store.now }
    ensures { IfOk result (λ propagator. IsTaskReady store.now.first propagator) }
{
    let intervals = spans(alloc, store, shared.shapes)?;
    let demands = demands_of(alloc, store, shared.demands)?;
    let task = Task {
        enforcement: Listed::new(alloc),
        body: Body::Cumulative {
            capacity: 0,
            intervals,
            demands,
        },
    };
    let propagator = Cumulative::of(alloc, &task)?;
    Ok(propagator)
}

/// What is left of these ends of all subjects after decisions.
fn scheduled(
    alloc: Global,
    shared: Use,
    ends: &[Ends],
    decided: &[Comparison],
) -> Result<Option<Outcome>, AllocError> {
    let mut store = store_of(alloc, ends)?;
    let mut propagator = cumulative(alloc, &store, shared)?;
    run(alloc, &mut propagator, &mut store, decided)
}

/// Spans and the subjects of their demands, and what is left of these ends of all subjects; empty if the capacity is
/// too small.
struct Row {
    shapes: &'static [Shape],
    demands: &'static [u32],
    ends: &'static [Ends],
    left: &'static [Left],
}

fn assert_left(rt: &impl Abort, alloc: Global, rows: &[Row]) -> Result<(), Fail> {
    for (place, row) in rows.iter().enumerate() {
        let shared = Use {
            shapes: row.shapes,
            demands: row.demands,
        };
        let found = scheduled(alloc, shared, row.ends, &[])?;
        assert_row(rt, place, leaves(found, row.left));
    }
    Ok(())
}

const TWO: [Shape; 2] = [Varying(1, 2), Fixed(4, 3)];

const TWO_PERHAPS: [Shape; 2] = [Varying(1, 2), Optional(4, 3, 6)];

/// The first span runs from 2 to 6 and uses 2 of the capacity.
static PUSHED: [Row; 6] = [
    // 3 leaves 1, so one that uses 2 for 3 units comes after it if it does not end by 2
    Row {
        shapes: &TWO,
        demands: &[3, 5],
        ends: &[(3, 3), (2, 2), (6, 6), (2, 2), (0, 20), (2, 2)],
        left: &[
            (0, 3, 3),
            (1, 2, 2),
            (2, 6, 6),
            (3, 2, 2),
            (4, 6, 20),
            (5, 2, 2),
        ],
    },
    // one that starts by 5 ends by 2
    Row {
        shapes: &TWO,
        demands: &[3, 5],
        ends: &[(3, 3), (2, 2), (6, 6), (2, 2), (-9, 5), (2, 2)],
        left: &[
            (0, 3, 3),
            (1, 2, 2),
            (2, 6, 6),
            (3, 2, 2),
            (4, -9, -1),
            (5, 2, 2),
        ],
    },
    // 4 leaves room for both
    Row {
        shapes: &TWO,
        demands: &[3, 5],
        ends: &[(4, 4), (2, 2), (6, 6), (2, 2), (0, 20), (2, 2)],
        left: &[
            (0, 4, 4),
            (1, 2, 2),
            (2, 6, 6),
            (3, 2, 2),
            (4, 0, 20),
            (5, 2, 2),
        ],
    },
    // both run at 4
    Row {
        shapes: &TWO,
        demands: &[3, 5],
        ends: &[(3, 3), (2, 2), (6, 6), (2, 2), (3, 4), (2, 2)],
        left: &[],
    },
    // one that may be absent is
    Row {
        shapes: &TWO_PERHAPS,
        demands: &[3, 5],
        ends: &[(3, 3), (2, 2), (6, 6), (2, 2), (3, 4), (2, 2), (0, 1)],
        left: &[
            (0, 3, 3),
            (1, 2, 2),
            (2, 6, 6),
            (3, 2, 2),
            (4, 3, 4),
            (5, 2, 2),
            (6, 0, 0),
        ],
    },
    // the capacity is at least 4, and leaves up to 4 of 6 to the second
    Row {
        shapes: &TWO,
        demands: &[3, 5],
        ends: &[(-5, 6), (2, 2), (6, 6), (2, 2), (3, 4), (2, 9)],
        left: &[
            (0, 4, 6),
            (1, 2, 2),
            (2, 6, 6),
            (3, 2, 2),
            (4, 3, 4),
            (5, 2, 4),
        ],
    },
];

#[test]
fn spans_are_pushed_past_times_without_room(rt: HostRuntime) -> Result<(), Fail> {
    assert_left(&rt, rt.alloc(), &PUSHED)
}

const FOUR: [Shape; 4] = [Fixed(2, 3), Fixed(3, 3), Fixed(4, 3), Fixed(5, 3)];

const FIVE: [Shape; 5] = [
    Fixed(2, 3),
    Fixed(3, 3),
    Fixed(4, 3),
    Fixed(5, 3),
    Fixed(6, 3),
];

const FIVE_PERHAPS: [Shape; 5] = [
    Fixed(2, 3),
    Fixed(3, 3),
    Fixed(4, 3),
    Fixed(5, 3),
    Optional(6, 3, 7),
];

const FIVE_ENDING: [Shape; 5] = [
    Fixed(2, 3),
    Fixed(3, 3),
    Fixed(4, 3),
    Fixed(5, 3),
    Varying(6, 7),
];

/// A span of 3 that starts from 0 to 3 need not run at any one time: its latest start is its earliest end. It lies
/// within the 6 units up to 6.
static WINDOWS: [Row; 7] = [
    // five use 15 of 12
    Row {
        shapes: &FIVE,
        demands: &[1, 1, 1, 1, 1],
        ends: &[(2, 2), (1, 1), (0, 3), (0, 3), (0, 3), (0, 3), (0, 3)],
        left: &[],
    },
    // four use all 12
    Row {
        shapes: &FOUR,
        demands: &[1, 1, 1, 1],
        ends: &[(2, 2), (1, 1), (0, 3), (0, 3), (0, 3), (0, 3)],
        left: &[
            (0, 2, 2),
            (1, 1, 1),
            (2, 0, 3),
            (3, 0, 3),
            (4, 0, 3),
            (5, 0, 3),
        ],
    },
    // five up to 7 use 15 of 14
    Row {
        shapes: &FIVE,
        demands: &[1, 1, 1, 1, 1],
        ends: &[(2, 2), (1, 1), (0, 3), (0, 3), (0, 3), (0, 3), (0, 4)],
        left: &[],
    },
    // five up to 8 use 15 of 16
    Row {
        shapes: &FIVE,
        demands: &[1, 1, 1, 1, 1],
        ends: &[(2, 2), (1, 1), (0, 3), (0, 3), (0, 3), (0, 3), (0, 5)],
        left: &[
            (0, 2, 2),
            (1, 1, 1),
            (2, 0, 3),
            (3, 0, 3),
            (4, 0, 3),
            (5, 0, 3),
            (6, 0, 5),
        ],
    },
    // four with demands from 2 on use 24 of the 18 that a capacity of 3 at most gives
    Row {
        shapes: &FOUR,
        demands: &[1, 1, 1, 1],
        ends: &[(0, 3), (2, 5), (0, 3), (0, 3), (0, 3), (0, 3)],
        left: &[],
    },
    // one that is surely there counts, whether it might have been absent or not
    Row {
        shapes: &FIVE_PERHAPS,
        demands: &[1, 1, 1, 1, 1],
        ends: &[
            (2, 2),
            (1, 1),
            (0, 3),
            (0, 3),
            (0, 3),
            (0, 3),
            (0, 3),
            (1, 1),
        ],
        left: &[],
    },
    // one that starts by 1 and ends from 3 on uses 2 of the 6 units up to 6, so all use 14 of 12
    Row {
        shapes: &FIVE_ENDING,
        demands: &[1, 1, 1, 1, 1],
        ends: &[
            (2, 2),
            (1, 1),
            (0, 3),
            (0, 3),
            (0, 3),
            (0, 3),
            (0, 1),
            (3, 6),
        ],
        left: &[],
    },
];

#[test]
fn spans_that_may_run_anywhere_use_up_a_window(rt: HostRuntime) -> Result<(), Fail> {
    assert_left(&rt, rt.alloc(), &WINDOWS)
}

static PAIR: Use = Use {
    shapes: &TWO,
    demands: &[3, 5],
};

/// The second may start at 3 or later, and so, if it started by 5, would run at 5. It is enough that the first runs
/// then.
static REASON: [Comparison; 3] = [(1, Ge, 6), (2, Le, 5), (4, Ge, 6)];

static APART: [Ends; 6] = [(3, 3), (0, 10), (0, 10), (2, 2), (3, 20), (2, 2)];

static RUNNING: [Comparison; 2] = [(1, Le, 2), (2, Ge, 6)];

#[test]
fn reasons_ask_no_more_than_is_needed(rt: HostRuntime) -> Result<(), Fail> {
    let found = scheduled(rt.alloc(), PAIR, &APART, &RUNNING)?;
    assert!(rt; ends_by(found, &REASON));
    Ok(())
}

/// 13 would be too many, and each of four that start by 3 uses 3 of them. It is enough that the last uses 1: it ends
/// after 0 anyhow, and starts by 5.
static CONFLICT: [Comparison; 5] = [(2, Ge, 4), (3, Ge, 4), (4, Ge, 4), (5, Ge, 4), (6, Ge, 6)];

static CROWD: Use = Use {
    shapes: &FIVE,
    demands: &[1, 1, 1, 1, 1],
};

static WIDE: [Ends; 7] = [(2, 2), (1, 1), (0, 50), (0, 50), (0, 50), (0, 50), (0, 50)];

static DECIDED: [Comparison; 5] = [(2, Le, 3), (3, Le, 3), (4, Le, 3), (5, Le, 3), (6, Le, 3)];

#[test]
fn conflicts_ask_no_more_than_is_needed(rt: HostRuntime) -> Result<(), Fail> {
    let found = scheduled(rt.alloc(), CROWD, &WIDE, &DECIDED)?;
    assert!(rt; refuses(found, &CONFLICT));
    Ok(())
}
