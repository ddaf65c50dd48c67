//! Levels that events raise and lower.
//!
//! The contract asks only that a reservoir refuses, so what it leaves to times, changes and literals is seen here. A
//! row's comment follows the level.

ghost use Rattle.std.specs.Prelude.{◌≡◌, ◌⊎◌, ◌≤ℤ◌, pos, IfOk, IsTrue, length};
ghost use Rattle.cps_rule_tests.specs.Ready.{IsFreshStore, IsTaskReady};

use crate::runs::{Left, Outcome, assert_row, ends_by, leaves, refuses, run};
use crate::spans::literals;
use crate::stores::{Comparison, Ends, store_of};
use cps_enforce::Enforced;
use cps_instance::{Body, Task};
use cps_literal::Op::{Ge, Le};
use cps_model::Listed;
use cps_p_cumulative::Reservoir;
use cps_trail::Store;
use std::alloc::{AllocError, Global};
use std::process::Abort;
use std::test::Fail;

/// The least and the greatest level, and the subjects of each event's time and change, and of its literal where events
/// have any.
#[derive(Clone, Copy)]
struct Tank {
    limits: Ends,
    times: &'static [u32],
    changes: &'static [u32],
    active: &'static [u32],
}

/// Whether 0 is a level.
fn has_zero(min: i64, max: i64) -> bool
    ensures { IsTrue result → (min ≤ℤ pos 0) × (pos 0 ≤ℤ max) }
{
    min <= 0 && 0 <= max
}

/// Whether all events have a literal, or none.
fn are_tied(times: &[u32], active: &[u32]) -> bool
    ensures { IsTrue result → (length active.now ≡ 0) ⊎ (length active.now ≡ length times.now) }
{
    active.is_empty() || active.len() == times.len()
}

/// Subjects as a list, one for each of others; an error where there are more or fewer.
fn listed(alloc: Global, subjects: &[u32], others: &[u32]) -> Result<Listed<u32>, AllocError>
    ensures { IfOk result (λ list. length list ≡ length others.now) }
{
    if subjects.len() != others.len() {
        return Err(AllocError);
    }
    Ok(Listed::from_vec(Vec::from_slice(alloc, subjects)?))
}

/// The propagator of a tank; an error where 0 is no level, or the lists do not fit each other.
fn reservoir(alloc: Global, store: &Store, tank: Tank) -> Result<Enforced<Reservoir>, AllocError>
    requires { IsFreshStore store.now }
    ensures { IfOk result (λ propagator. IsTaskReady store.now.first propagator) }
{
    let (min, max) = tank.limits;
    let is_level = has_zero(min, max);
    let is_tied = are_tied(tank.times, tank.active);
    if !is_level {
        return Err(AllocError);
    }
    if !is_tied {
        return Err(AllocError);
    }
    let times = listed(alloc, tank.times, tank.times)?;
    let changes = listed(alloc, tank.changes, tank.times)?;
    let active = literals(alloc, store, tank.active)?;
    let task = Task {
        enforcement: Listed::new(alloc),
        body: Body::Reservoir {
            min,
            max,
            times,
            changes,
            active,
        },
    };
    let propagator = Reservoir::of(alloc, &task)?;
    Ok(propagator)
}

/// What a tank makes of these ends of all subjects after decisions.
fn filled(
    alloc: Global,
    tank: Tank,
    ends: &[Ends],
    decided: &[Comparison],
) -> Result<Option<Outcome>, AllocError> {
    let mut store = store_of(alloc, ends)?;
    let mut propagator = reservoir(alloc, &store, tank)?;
    run(alloc, &mut propagator, &mut store, decided)
}

/// A tank, and what is left of these ends of all subjects; empty if the level must pass a limit.
struct Row {
    tank: Tank,
    ends: &'static [Ends],
    left: &'static [Left],
}

fn assert_left(rt: &impl Abort, alloc: Global, rows: &[Row]) -> Result<(), Fail> {
    for (place, row) in rows.iter().enumerate() {
        let found = filled(alloc, row.tank, row.ends, &[])?;
        assert_row(rt, place, leaves(found, row.left));
    }
    Ok(())
}

const ONE: Tank = Tank {
    limits: (-1, 2),
    times: &[0],
    changes: &[1],
    active: &[],
};

const TWO: Tank = Tank {
    limits: (0, 1),
    times: &[0, 1],
    changes: &[2, 3],
    active: &[],
};

const THREE: Tank = Tank {
    limits: (0, 1),
    times: &[0, 1, 2],
    changes: &[3, 4, 5],
    active: &[],
};

const TWO_PERHAPS: Tank = Tank {
    limits: (0, 1),
    times: &[0, 1],
    changes: &[2, 3],
    active: &[4, 5],
};

static LEVELS: [Row; 9] = [
    // the level is what the one event adds
    Row {
        tank: ONE,
        ends: &[(0, 9), (-5, 5)],
        left: &[(0, 0, 9), (1, -1, 2)],
    },
    // the second takes 1 away once the first has added it
    Row {
        tank: TWO,
        ends: &[(3, 5), (0, 9), (1, 1), (-1, -1)],
        left: &[(0, 3, 5), (1, 3, 9), (2, 1, 1), (3, -1, -1)],
    },
    // the first adds 1 by the time at which the second takes it away
    Row {
        tank: TWO,
        ends: &[(0, 9), (4, 4), (1, 1), (-1, -1)],
        left: &[(0, 0, 4), (1, 4, 4), (2, 1, 1), (3, -1, -1)],
    },
    // from 2 on the level is 1, up to 5, when 1 is taken away: the third adds 1 from then on
    Row {
        tank: THREE,
        ends: &[(2, 2), (5, 5), (0, 9), (1, 1), (-1, -1), (1, 1)],
        left: &[
            (0, 2, 2),
            (1, 5, 5),
            (2, 5, 9),
            (3, 1, 1),
            (4, -1, -1),
            (5, 1, 1),
        ],
    },
    // 2 is too much whenever it comes
    Row {
        tank: TWO,
        ends: &[(0, 9), (0, 9), (2, 2), (1, 1)],
        left: &[],
    },
    // 1 is taken away before anything is added
    Row {
        tank: TWO,
        ends: &[(5, 9), (0, 4), (1, 1), (-1, -1)],
        left: &[],
    },
    // beside the first the second would make it 2
    Row {
        tank: TWO_PERHAPS,
        ends: &[(0, 0), (2, 5), (1, 1), (1, 1), (1, 1), (0, 1)],
        left: &[
            (0, 0, 0),
            (1, 2, 5),
            (2, 1, 1),
            (3, 1, 1),
            (4, 1, 1),
            (5, 0, 0),
        ],
    },
    // without the first the second would make it -1
    Row {
        tank: TWO_PERHAPS,
        ends: &[(0, 3), (4, 4), (1, 1), (-1, -1), (0, 1), (1, 1)],
        left: &[
            (0, 0, 3),
            (1, 4, 4),
            (2, 1, 1),
            (3, -1, -1),
            (4, 1, 1),
            (5, 1, 1),
        ],
    },
    // one that is absent changes nothing
    Row {
        tank: TWO_PERHAPS,
        ends: &[(0, 9), (0, 9), (1, 1), (7, 7), (1, 1), (0, 0)],
        left: &[
            (0, 0, 9),
            (1, 0, 9),
            (2, 1, 1),
            (3, 7, 7),
            (4, 1, 1),
            (5, 0, 0),
        ],
    },
];

#[test]
fn levels_leave_what_keeps_them_between_the_limits(rt: HostRuntime) -> Result<(), Fail> {
    assert_left(&rt, rt.alloc(), &LEVELS)
}

/// The first takes 3 away and the second adds 3.
static TURN: Tank = Tank {
    limits: (0, 9),
    times: &[0, 1],
    changes: &[2, 3],
    active: &[],
};

static WIDE: [Ends; 4] = [(0, 50), (0, 50), (-3, -3), (3, 3)];

/// The first comes by 10, and so the second; from when on the first may come does not matter.
static REASON: [Comparison; 2] = [(0, Ge, 11), (1, Le, 10)];

static EARLY: [Comparison; 2] = [(0, Ge, 2), (0, Le, 10)];

#[test]
fn reasons_ask_no_more_than_is_needed(rt: HostRuntime) -> Result<(), Fail> {
    let found = filled(rt.alloc(), TURN, &WIDE, &EARLY)?;
    assert!(rt; ends_by(found, &REASON));
    Ok(())
}

/// By 10 the first has come, and it is enough that the second comes after that.
static CONFLICT: [Comparison; 2] = [(0, Ge, 11), (1, Le, 10)];

static LATE: [Comparison; 2] = [(0, Le, 10), (1, Ge, 20)];

#[test]
fn conflicts_ask_no_more_than_is_needed(rt: HostRuntime) -> Result<(), Fail> {
    let found = filled(rt.alloc(), TURN, &WIDE, &LATE)?;
    assert!(rt; refuses(found, &CONFLICT));
    Ok(())
}
