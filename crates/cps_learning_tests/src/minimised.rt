//! Which atoms learnt clauses keep when they are minimised.
//!
//! The clauses that are wanted were found by hand, by following reasons. Contracts say only that a minimised clause
//! follows; that these atoms go, and those stay, is seen here. So is that antecedents of each clause are found.

use crate::conflicts::{Nobody, Step, all_false, lead};
use crate::small::zero_or_one;
use cps_conflict::{Analyser, Learnt, conflict_level};
use cps_domain::Domain;
use cps_literal::{Atom, Op};
use cps_trail::Store;
use std::alloc::{AllocError, Global};
use std::process::Abort;
use std::test::Fail;

/// A subject with the values 1, 3 and 5, after five with the values 0 and 1.
pub(crate) const ODD: u32 = 5;

/// A subject with the values from 0 to 10.
pub(crate) const WIDE: u32 = 6;

fn odd_values(alloc: Global) -> Result<Domain, AllocError> {
    Domain::of_bounds(alloc, &[1, 1, 3, 3, 5, 5])
}

fn wide_values(alloc: Global) -> Result<Domain, AllocError> {
    Domain::of_bounds(alloc, &[0, 10])
}

/// The subjects.
pub(crate) fn subjects(alloc: Global) -> Result<Store, AllocError> {
    let first = zero_or_one(alloc)?;
    let second = zero_or_one(alloc)?;
    let third = zero_or_one(alloc)?;
    let fourth = zero_or_one(alloc)?;
    let fifth = zero_or_one(alloc)?;
    let odd = odd_values(alloc)?;
    let wide = wide_values(alloc)?;
    Store::new(alloc, &[first, second, third, fourth, fifth, odd, wide])
}

struct Row {
    name: &'static str,
    steps: &'static [Step],
    conflict: &'static [Atom],
    clause: &'static [Atom],
    back_level: usize,
    assert: Atom,
}

/// Whether a learnt clause is that of a row.
fn is_of(learnt: &Learnt, row: &Row) -> bool {
    learnt.clause.as_slice() == row.clause
        && learnt.back_level == row.back_level
        && learnt.assert == row.assert
}

/// Whether the conflict of a row, at the present level, teaches the row's clause, and its antecedents are found.
fn teaches(alloc: Global, store: &Store, row: &Row) -> Result<bool, AllocError> {
    if !all_false(store, row.conflict) {
        return Ok(false);
    }
    let level = store.level();
    if level == 0 || conflict_level(store, row.conflict) < level {
        return Ok(false);
    }
    let mut analyser = Analyser::new(alloc);
    let learnt = analyser.analyse(store, row.conflict, &Nobody)?;
    if !is_of(&learnt, row) {
        return Ok(false);
    }
    let found = analyser.antecedents(store, row.conflict, row.clause, &Nobody)?;
    Ok(found.is_some())
}

fn check(alloc: Global, row: &Row) -> Result<bool, AllocError> {
    let mut store = subjects(alloc)?;
    lead(alloc, &mut store, row.steps)?;
    teaches(alloc, &store, row)
}

fn assert_taught(rt: &impl Abort, alloc: Global, rows: &[Row]) -> Result<(), Fail> {
    for row in rows {
        let is_taught = check(alloc, row)?;
        assert!(rt; is_taught, "{}", row.name);
    }
    Ok(())
}

static IMPLIED: [Row; 3] = [
    Row {
        name: "through two reasons",
        steps: &[
            Step::Decide(one!(0)),
            Step::Imply(zero!(0), one!(1)),
            Step::Imply(zero!(1), one!(2)),
            Step::Decide(one!(3)),
        ],
        conflict: &[zero!(0), zero!(2), zero!(3)],
        clause: &[zero!(0), zero!(3)],
        back_level: 1,
        assert: zero!(3),
    },
    Row {
        name: "through one that two share",
        steps: &[
            Step::Decide(one!(0)),
            Step::Imply(zero!(0), one!(1)),
            Step::Imply(zero!(1), one!(2)),
            Step::Imply(zero!(1), one!(4)),
            Step::Decide(one!(3)),
        ],
        conflict: &[zero!(0), zero!(2), zero!(4), zero!(3)],
        clause: &[zero!(0), zero!(3)],
        back_level: 1,
        assert: zero!(3),
    },
    Row {
        name: "with one that implies it and fell earlier",
        steps: &[
            Step::Decide(atom!(WIDE, Le, 6)),
            Step::Decide(one!(0)),
            Step::Imply(zero!(0), atom!(WIDE, Le, 4)),
            Step::Decide(one!(3)),
        ],
        conflict: &[atom!(WIDE, Ge, 5), atom!(WIDE, Ge, 7), zero!(0), zero!(3)],
        clause: &[zero!(0), zero!(3)],
        back_level: 2,
        assert: zero!(3),
    },
];

#[test]
fn what_the_others_imply_goes(rt: HostRuntime) -> Result<(), Fail> {
    assert_taught(&rt, rt.alloc(), &IMPLIED)
}

static IMPLIED_AT_LEVEL_0: [Row; 2] = [
    Row {
        name: "through two that level 0 gives",
        steps: &[
            Step::Imply(atom!(ODD, Le, 0), one!(1)),
            Step::Decide(one!(0)),
            Step::Imply(zero!(1), one!(2)),
            Step::Imply(zero!(2), one!(4)),
            Step::Decide(one!(3)),
        ],
        conflict: &[zero!(4), zero!(3)],
        clause: &[zero!(3)],
        back_level: 0,
        assert: zero!(3),
    },
    Row {
        name: "through one that implies what is asserted",
        steps: &[
            Step::Decide(atom!(WIDE, Le, 7)),
            Step::Imply(atom!(WIDE, Ge, 8), one!(1)),
            Step::Imply(zero!(1), one!(2)),
            Step::Decide(atom!(WIDE, Le, 4)),
        ],
        conflict: &[zero!(2), atom!(WIDE, Ge, 5)],
        clause: &[atom!(WIDE, Ge, 5)],
        back_level: 0,
        assert: atom!(WIDE, Ge, 5),
    },
];

#[test]
fn what_level_0_or_the_assertion_implies_goes(rt: HostRuntime) -> Result<(), Fail> {
    assert_taught(&rt, rt.alloc(), &IMPLIED_AT_LEVEL_0)
}

static NOT_IMPLIED: [Row; 3] = [
    Row {
        name: "where its reasons lead to the decision of a level between",
        steps: &[
            Step::Decide(one!(0)),
            Step::Decide(one!(1)),
            Step::Imply(zero!(1), one!(2)),
            Step::Imply(zero!(2), one!(4)),
            Step::Decide(one!(3)),
        ],
        conflict: &[zero!(0), zero!(4), zero!(3)],
        clause: &[zero!(0), zero!(3), zero!(4)],
        back_level: 2,
        assert: zero!(3),
    },
    Row {
        name: "where each of two leads to the other",
        steps: &[
            Step::Decide(atom!(WIDE, Le, 7)),
            Step::Imply(atom!(WIDE, Ge, 8), one!(0)),
            Step::Imply(zero!(0), atom!(WIDE, Le, 4)),
            Step::Decide(one!(3)),
        ],
        conflict: &[zero!(0), atom!(WIDE, Ge, 5), zero!(3)],
        clause: &[zero!(0), zero!(3)],
        back_level: 1,
        assert: zero!(3),
    },
    Row {
        name: "where the entry that it fell with does not refute it alone",
        steps: &[
            Step::Decide(one!(0)),
            Step::Imply(zero!(0), atom!(ODD, Ge, 2)),
            Step::Decide(one!(3)),
        ],
        conflict: &[zero!(0), atom!(ODD, Le, 2), zero!(3)],
        clause: &[zero!(0), zero!(3), atom!(ODD, Le, 2)],
        back_level: 1,
        assert: zero!(3),
    },
];

#[test]
fn what_they_do_not_imply_stays(rt: HostRuntime) -> Result<(), Fail> {
    assert_taught(&rt, rt.alloc(), &NOT_IMPLIED)
}
