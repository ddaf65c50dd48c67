//! Learnt clauses that are dropped.
//!
//! Which clauses go, and in which order, follows from their lengths and ages; a clause that a note names stays. What is
//! kept of the others' atoms is looked at too, since a drop copies them.

use crate::resting::{has_clause, settle_more};
use crate::small::{bits, one, zero};
use cps_clauses::{ClauseBase, JournalItem, Origin};
use cps_literal::{Atom, normal_clause};
use cps_model::Bound;
use cps_trail::Store;
use std::alloc::{AllocError, Global};
use std::process::Abort;
use std::test::Fail;

/// Adds a learnt clause, which is not settled.
fn learn(alloc: Global, base: &mut ClauseBase, atoms: &[Atom]) -> Result<(), AllocError> {
    if base.len() >= u32::MAX as usize {
        return Err(AllocError);
    }
    let clause = normal_clause(alloc, atoms)?;
    base.add(clause, Bound::Infinite, Origin::Learnt)
}

/// Learns three clauses, of 3, 2 and 5 atoms.
fn learn_three(alloc: Global, base: &mut ClauseBase) -> Result<(), AllocError> {
    learn(alloc, base, &[one(0), one(1), one(2)])?;
    learn(alloc, base, &[one(0), one(1)])?;
    learn(alloc, base, &[one(0), one(1), one(2), one(3), one(4)])
}

/// What is looked at once a base forgot: how many learnt clauses it dropped, which one last, and which of the first
/// three stand.
#[derive(Clone, Copy, PartialEq, Eq)]
struct Left {
    count: u32,
    last: Option<u32>,
    stand: [bool; 3],
}

/// The learnt clause that the last line of the journal drops.
fn last_drop(alloc: Global, base: &ClauseBase) -> Result<Option<u32>, AllocError> {
    let journal = base.journal();
    if journal.len() == 0 {
        return Ok(None);
    }
    match journal.item(alloc, journal.len() - 1)? {
        JournalItem::Drop(place) => Ok(Some(place)),
        JournalItem::Learnt(_, _) => Ok(None),
    }
}

fn looked_at(alloc: Global, base: &ClauseBase, count: u32) -> Result<Left, AllocError> {
    Ok(Left {
        count,
        last: last_drop(alloc, base)?,
        stand: [base.in_force(0), base.in_force(1), base.in_force(2)],
    })
}

/// Learns three clauses, and forgets all but so many of those that may go. How many went.
fn learn_and_forget(
    alloc: Global,
    base: &mut ClauseBase,
    store: &Store,
    keep: u32,
) -> Result<u32, AllocError> {
    learn_three(alloc, base)?;
    base.forget(store, keep)
}

/// What is left of three learnt clauses where no note names one.
fn left_of_three(alloc: Global, keep: u32) -> Result<Left, AllocError> {
    let store = bits(alloc)?;
    let mut base = ClauseBase::new(alloc);
    let count = learn_and_forget(alloc, &mut base, &store, keep)?;
    looked_at(alloc, &base, count)
}

struct Row {
    name: &'static str,
    keep: u32,
    left: Left,
}

fn assert_left(rt: &impl Abort, alloc: Global, rows: &[Row]) -> Result<(), Fail> {
    for row in rows {
        let left = left_of_three(alloc, row.keep)?;
        assert!(rt; left == row.left, "{}", row.name);
    }
    Ok(())
}

static LONGEST_FIRST: [Row; 3] = [
    Row {
        name: "none goes where as many stand as are to be kept",
        keep: 3,
        left: Left {
            count: 0,
            last: None,
            stand: [true, true, true],
        },
    },
    Row {
        name: "the one of five atoms goes",
        keep: 2,
        left: Left {
            count: 1,
            last: Some(2),
            stand: [true, true, false],
        },
    },
    Row {
        name: "then the one of three",
        keep: 1,
        left: Left {
            count: 2,
            last: Some(0),
            stand: [false, true, false],
        },
    },
];

#[test]
fn the_longest_goes_first(rt: HostRuntime) -> Result<(), Fail> {
    assert_left(&rt, rt.alloc(), &LONGEST_FIRST)
}

/// Learns a clause of two atoms, and forgets all that may go. How many went.
fn learn_short_and_forget(
    alloc: Global,
    base: &mut ClauseBase,
    store: &Store,
) -> Result<u32, AllocError> {
    learn(alloc, base, &[one(1), one(2)])?;
    base.forget(store, 0)
}

/// What is left where the longest clause made an atom true, and a short one that did nothing was learnt last.
fn left_of_named(alloc: Global) -> Result<Left, AllocError> {
    let mut store = bits(alloc)?;
    let mut base = ClauseBase::new(alloc);
    settle_more(alloc, &mut base, &mut store, &[one(0), one(1), one(2)])?;
    settle_more(alloc, &mut base, &mut store, &[zero(0)])?;
    settle_more(alloc, &mut base, &mut store, &[zero(1)])?;
    let count = learn_short_and_forget(alloc, &mut base, &store)?;
    looked_at(alloc, &base, count)
}

#[test]
fn a_clause_that_a_note_names_stays(rt: HostRuntime) -> Result<(), Fail> {
    let named = Left {
        count: 1,
        last: Some(3),
        stand: [true, true, true],
    };
    assert!(rt; left_of_named(rt.alloc())? == named);
    Ok(())
}

/// Whether a clause that stays has its atoms after the two longer ones are dropped, one that was dropped has none, and
/// one that is learnt then has its own.
fn told_after_drops(alloc: Global) -> Result<[bool; 3], AllocError> {
    let store = bits(alloc)?;
    let mut base = ClauseBase::new(alloc);
    learn_and_forget(alloc, &mut base, &store, 1)?;
    learn(alloc, &mut base, &[one(1), zero(3)])?;
    Ok([
        has_clause(&base, 1, &[one(0), one(1)]),
        has_clause(&base, 2, &[]),
        has_clause(&base, 3, &[one(1), zero(3)]),
    ])
}

#[test]
fn a_clause_that_stays_keeps_its_atoms(rt: HostRuntime) -> Result<(), Fail> {
    assert!(rt; told_after_drops(rt.alloc())? == [true, true, true]);
    Ok(())
}
