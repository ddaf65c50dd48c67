//! Which decisions are behind an atom that is false.
//!
//! The decisions that are wanted were found by hand, along the reasons of each row. That each is answered once, in the
//! order in which it was made, is seen here alone.

use crate::conflicts::{Nobody, Step, lead};
use crate::minimised::{ODD, WIDE, subjects};
use cps_conflict::decisions_behind;
use cps_literal::{Atom, Op, Truth};
use cps_trail::Store;
use std::alloc::{AllocError, Global};
use std::process::Abort;
use std::test::Fail;

struct Row {
    name: &'static str,
    steps: &'static [Step],
    atom: Atom,
    decisions: &'static [Atom],
}

/// Whether an atom is false and these are the decisions behind it, in order.
fn are_behind(
    alloc: Global,
    store: &Store,
    atom: Atom,
    decisions: &[Atom],
) -> Result<bool, AllocError> {
    if store.len() <= atom.subject as usize {
        return Ok(false);
    }
    match store.truth(atom) {
        Truth::No => {}
        _ => return Ok(false),
    }
    let found = decisions_behind(alloc, store, atom, &Nobody)?;
    Ok(found.as_slice() == decisions)
}

fn check(alloc: Global, row: &Row) -> Result<bool, AllocError> {
    let mut store = subjects(alloc)?;
    lead(alloc, &mut store, row.steps)?;
    are_behind(alloc, &store, row.atom, row.decisions)
}

fn assert_behind(rt: &impl Abort, alloc: Global, rows: &[Row]) -> Result<(), Fail> {
    for row in rows {
        let is_behind = check(alloc, row)?;
        assert!(rt; is_behind, "{}", row.name);
    }
    Ok(())
}

static CHAINS: [Row; 4] = [
    Row {
        name: "a decision is behind its negation",
        steps: &[Step::Decide(one!(0))],
        atom: zero!(0),
        decisions: &[one!(0)],
    },
    Row {
        name: "of two decisions the one that gave it",
        steps: &[
            Step::Decide(one!(0)),
            Step::Imply(zero!(0), one!(1)),
            Step::Decide(one!(3)),
        ],
        atom: zero!(1),
        decisions: &[one!(0)],
    },
    Row {
        name: "along a chain over three subjects",
        steps: &[
            Step::Decide(one!(3)),
            Step::Decide(one!(0)),
            Step::Imply(zero!(0), one!(1)),
            Step::Imply(zero!(1), one!(2)),
        ],
        atom: zero!(2),
        decisions: &[one!(0)],
    },
    Row {
        name: "along a chain over two levels",
        steps: &[
            Step::Decide(one!(0)),
            Step::Imply(zero!(0), one!(1)),
            Step::Decide(one!(3)),
            Step::Imply(zero!(1), one!(2)),
        ],
        atom: zero!(2),
        decisions: &[one!(0)],
    },
];

#[test]
fn reasons_lead_back_to_decisions(rt: HostRuntime) -> Result<(), Fail> {
    assert_behind(&rt, rt.alloc(), &CHAINS)
}

static REFUTED_AT_LEVEL_0: [Row; 2] = [
    Row {
        name: "for a reason",
        steps: &[
            Step::Imply(atom!(ODD, Le, 0), one!(1)),
            Step::Decide(one!(0)),
        ],
        atom: zero!(1),
        decisions: &[],
    },
    Row {
        name: "by the first domain",
        steps: &[Step::Decide(one!(0))],
        atom: atom!(ODD, Le, 0),
        decisions: &[],
    },
];

#[test]
fn none_is_behind_what_level_0_refutes(rt: HostRuntime) -> Result<(), Fail> {
    assert_behind(&rt, rt.alloc(), &REFUTED_AT_LEVEL_0)
}

const ODD_STEPS: [Step; 4] = [
    Step::Decide(one!(0)),
    Step::Imply(zero!(0), atom!(ODD, Ge, 2)),
    Step::Decide(one!(3)),
    Step::Imply(zero!(3), atom!(ODD, Le, 4)),
];

static ABOUT_THE_SUBJECT: [Row; 4] = [
    Row {
        name: "where two together leave the value 3 alone",
        steps: &ODD_STEPS,
        atom: atom!(ODD, Ne, 3),
        decisions: &[one!(0), one!(3)],
    },
    Row {
        name: "but not where the last one refutes it alone",
        steps: &ODD_STEPS,
        atom: atom!(ODD, Ge, 5),
        decisions: &[one!(3)],
    },
    Row {
        name: "nor where they came after it was false",
        steps: &ODD_STEPS,
        atom: atom!(ODD, Le, 2),
        decisions: &[one!(0)],
    },
    Row {
        name: "nor where a later one refutes it too",
        steps: &[
            Step::Decide(atom!(WIDE, Le, 4)),
            Step::Decide(one!(0)),
            Step::Imply(zero!(0), atom!(WIDE, Le, 2)),
        ],
        atom: atom!(WIDE, Ge, 5),
        decisions: &[atom!(WIDE, Le, 4)],
    },
];

#[test]
fn entries_about_the_subject_may_be_behind(rt: HostRuntime) -> Result<(), Fail> {
    assert_behind(&rt, rt.alloc(), &ABOUT_THE_SUBJECT)
}
