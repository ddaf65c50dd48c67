//! Lists of values that all differ.
//!
//! What is left is compared, and a reason and a conflict as a whole: the contract asks that they follow, and not that
//! they name the positions of one interval alone.

ghost use Rattle.std.specs.Prelude.{IfOk};
ghost use Rattle.cps_rule_tests.specs.Ready.{IsPlainTask};

use crate::runs::{Left, Outcome, assert_row, ends_by, leaves, refuses, trial};
use crate::stores::{Comparison, Ends};
use cps_enforce::Enforced;
use cps_instance::{Body, Task};
use cps_literal::Op::{Ge, Le};
use cps_model::Listed;
use cps_p_alldiff::AllDifferent;
use std::alloc::{AllocError, Global};
use std::process::Abort;
use std::test::Fail;

/// What is left of these ends of all subjects; empty if the constraint cannot hold.
struct Row {
    ends: &'static [Ends],
    left: &'static [Left],
}

/// The propagator of three subjects that all differ.
fn all_different(alloc: Global) -> Result<Enforced<AllDifferent>, AllocError>
    ensures { IfOk result (λ propagator. IsPlainTask propagator) }
{
    let exprs = Listed::from_vec(Vec::from_slice(alloc, &[0, 1, 2])?);
    let task = Task {
        enforcement: Listed::new(alloc),
        body: Body::AllDiff(exprs),
    };
    let propagator = AllDifferent::of(alloc, &task)?;
    Ok(propagator)
}

fn differing(
    alloc: Global,
    ends: &[Ends],
    decided: &[Comparison],
) -> Result<Option<Outcome>, AllocError> {
    let mut propagator = all_different(alloc)?;
    trial(alloc, &mut propagator, ends, decided)
}

fn assert_left(rt: &impl Abort, alloc: Global, rows: &[Row]) -> Result<(), Fail> {
    for (place, row) in rows.iter().enumerate() {
        let found = differing(alloc, row.ends, &[])?;
        assert_row(rt, place, leaves(found, row.left));
    }
    Ok(())
}

static FULL: [Row; 5] = [
    // two have 1 and 2 to themselves
    Row {
        ends: &[(1, 2), (1, 2), (1, 3)],
        left: &[(0, 1, 2), (1, 1, 2), (2, 3, 3)],
    },
    Row {
        ends: &[(3, 4), (1, 4), (3, 4)],
        left: &[(0, 3, 4), (1, 1, 2), (2, 3, 4)],
    },
    // one after another
    Row {
        ends: &[(1, 3), (1, 2), (1, 1)],
        left: &[(0, 3, 3), (1, 2, 2), (2, 1, 1)],
    },
    // any two leave the third a value at each end
    Row {
        ends: &[(1, 3), (1, 3), (1, 3)],
        left: &[(0, 1, 3), (1, 1, 3), (2, 1, 3)],
    },
    // three do not fit into two
    Row {
        ends: &[(1, 2), (1, 2), (1, 2)],
        left: &[],
    },
];

#[test]
fn full_intervals_are_left_to_their_positions(rt: HostRuntime) -> Result<(), Fail> {
    assert_left(&rt, rt.alloc(), &FULL)
}

static WIDE: [Ends; 3] = [(1, 9), (1, 9), (1, 9)];

/// The first two have 1 and 2 to themselves, whatever the third is at most.
static REASON: [Comparison; 3] = [(0, Ge, 3), (1, Ge, 3), (2, Ge, 3)];

static PAIR: [Comparison; 3] = [(2, Le, 8), (0, Le, 2), (1, Le, 2)];

#[test]
fn reasons_name_the_positions_of_a_full_interval(rt: HostRuntime) -> Result<(), Fail> {
    let found = differing(rt.alloc(), &WIDE, &PAIR)?;
    assert!(rt; ends_by(found, &REASON));
    Ok(())
}

/// Three have two values. That the third is at most 8 is said by the same bound.
static CONFLICT: [Comparison; 3] = [(0, Ge, 3), (1, Ge, 3), (2, Ge, 3)];

static CROWD: [Comparison; 4] = [(2, Le, 8), (0, Le, 2), (1, Le, 2), (2, Le, 2)];

#[test]
fn conflicts_name_the_positions_of_a_crowded_interval(rt: HostRuntime) -> Result<(), Fail> {
    let found = differing(rt.alloc(), &WIDE, &CROWD)?;
    assert!(rt; refuses(found, &CONFLICT));
    Ok(())
}
