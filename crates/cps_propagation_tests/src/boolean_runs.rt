//! Runs of the Boolean kinds: each narrows, meets a conflict, and makes its last enforcement atom false.
//!
//! Each kind has a table of its own: what is posted, what is decided before the run, and what the run comes to, worked
//! out by hand from what the kind means. Two more tables have every kind over an atom that is named twice, and over an
//! atom and its opposite, since there a rule that counts places instead of atoms goes wrong. What reasons name is not
//! looked at here, but how many atoms a conflict has.

use crate::booleans::{Came, Kind, explained_trial};
use cps_literal::{Atom, Op};
use std::alloc::Global;
use std::process::Abort;

/// A kind over literals, and what has to be true for it to be in force.
struct Posted {
    kind: Kind,
    enforcement: &'static [Atom],
    atoms: &'static [Atom],
}

/// A constraint, what is decided before its run, and what the run comes to: how many atoms its conflict has, how many
/// entries there are, and the last one's atom.
struct Row {
    name: &'static str,
    posted: Posted,
    decisions: &'static [Atom],
    conflict: Option<usize>,
    entries: usize,
    last: Atom,
}

fn is_as_said(came: Came, row: &Row) -> bool {
    came.conflict == row.conflict && came.entries == row.entries && came.last == Some(row.last)
}

/// Whether the run of a row comes to what the row says.
fn comes_to(alloc: Global, row: &Row) -> bool {
    let posted = &row.posted;
    match explained_trial(
        alloc,
        posted.kind,
        posted.enforcement,
        posted.atoms,
        row.decisions,
    ) {
        Some((came, _)) => is_as_said(came, row),
        None => false,
    }
}

fn assert_runs(rt: &impl Abort, alloc: Global, rows: &[Row]) {
    for row in rows {
        assert!(rt; comes_to(alloc, row), "{}", row.name);
    }
}

const OR_POSTED: Posted = Posted {
    kind: Kind::Or,
    enforcement: &[yes!(3)],
    atoms: &[yes!(0), yes!(1)],
};

static SOME_TRUE: [Row; 3] = [
    Row {
        name: "the last open atom is true",
        posted: OR_POSTED,
        decisions: &[yes!(3), no!(0)],
        conflict: None,
        entries: 3,
        last: yes!(1),
    },
    Row {
        name: "no atom is open",
        posted: OR_POSTED,
        decisions: &[yes!(3), no!(0), no!(1)],
        conflict: Some(3),
        entries: 3,
        last: no!(1),
    },
    Row {
        name: "what no atom meets is not in force",
        posted: OR_POSTED,
        decisions: &[no!(0), no!(1)],
        conflict: None,
        entries: 3,
        last: no!(3),
    },
];

#[test]
fn some_atom_is_true(rt: HostRuntime) {
    assert_runs(&rt, rt.alloc(), &SOME_TRUE);
}

const AND_POSTED: Posted = Posted {
    kind: Kind::And,
    enforcement: &[yes!(3)],
    atoms: &[yes!(0), yes!(1)],
};

static ALL_TRUE: [Row; 3] = [
    Row {
        name: "each open atom is true",
        posted: AND_POSTED,
        decisions: &[yes!(3), yes!(0)],
        conflict: None,
        entries: 3,
        last: yes!(1),
    },
    Row {
        name: "an atom is false",
        posted: AND_POSTED,
        decisions: &[yes!(3), no!(1)],
        conflict: Some(2),
        entries: 3,
        last: yes!(0),
    },
    Row {
        name: "what an atom denies is not in force",
        posted: AND_POSTED,
        decisions: &[no!(1)],
        conflict: None,
        entries: 2,
        last: no!(3),
    },
];

#[test]
fn all_atoms_are_true(rt: HostRuntime) {
    assert_runs(&rt, rt.alloc(), &ALL_TRUE);
}

const AT_MOST_POSTED: Posted = Posted {
    kind: Kind::AtMostOne,
    enforcement: &[yes!(3)],
    atoms: &[yes!(0), yes!(1), yes!(2)],
};

const AT_MOST_OPPOSITE: [Atom; 3] = [yes!(0), no!(0), yes!(1)];

const AT_MOST_REPEATED: [Atom; 2] = [yes!(0), yes!(0)];

static ONE_AT_MOST: [Row; 5] = [
    Row {
        name: "the others are false",
        posted: AT_MOST_POSTED,
        decisions: &[yes!(3), yes!(1)],
        conflict: None,
        entries: 4,
        last: no!(2),
    },
    Row {
        name: "two atoms are true",
        posted: AT_MOST_POSTED,
        decisions: &[yes!(3), yes!(0), yes!(1)],
        conflict: Some(3),
        entries: 3,
        last: yes!(1),
    },
    Row {
        name: "what two atoms deny is not in force",
        posted: AT_MOST_POSTED,
        decisions: &[yes!(0), yes!(2)],
        conflict: None,
        entries: 3,
        last: no!(3),
    },
    Row {
        name: "one of opposite atoms is true",
        posted: Posted {
            kind: Kind::AtMostOne,
            enforcement: &[],
            atoms: &AT_MOST_OPPOSITE,
        },
        decisions: &[yes!(0)],
        conflict: None,
        entries: 2,
        last: no!(1),
    },
    Row {
        name: "a repeated atom is true",
        posted: Posted {
            kind: Kind::AtMostOne,
            enforcement: &[],
            atoms: &AT_MOST_REPEATED,
        },
        decisions: &[yes!(0)],
        conflict: Some(1),
        entries: 1,
        last: yes!(0),
    },
];

#[test]
fn one_atom_is_true_at_most(rt: HostRuntime) {
    assert_runs(&rt, rt.alloc(), &ONE_AT_MOST);
}

const EXACTLY_POSTED: Posted = Posted {
    kind: Kind::ExactlyOne,
    enforcement: &[yes!(3)],
    atoms: &[yes!(0), yes!(1)],
};

static EXACTLY_ONE: [Row; 4] = [
    Row {
        name: "the last open atom is true",
        posted: EXACTLY_POSTED,
        decisions: &[yes!(3), no!(0)],
        conflict: None,
        entries: 3,
        last: yes!(1),
    },
    Row {
        name: "the other is false",
        posted: EXACTLY_POSTED,
        decisions: &[yes!(3), yes!(0)],
        conflict: None,
        entries: 3,
        last: no!(1),
    },
    Row {
        name: "no atom is open",
        posted: EXACTLY_POSTED,
        decisions: &[yes!(3), no!(0), no!(1)],
        conflict: Some(3),
        entries: 3,
        last: no!(1),
    },
    Row {
        name: "what two atoms deny is not in force",
        posted: EXACTLY_POSTED,
        decisions: &[yes!(0), yes!(1)],
        conflict: None,
        entries: 3,
        last: no!(3),
    },
];

#[test]
fn one_atom_is_true_and_no_other(rt: HostRuntime) {
    assert_runs(&rt, rt.alloc(), &EXACTLY_ONE);
}

const XOR_POSTED: Posted = Posted {
    kind: Kind::Xor,
    enforcement: &[yes!(3)],
    atoms: &[yes!(0), yes!(1), yes!(2)],
};

static ODD_TRUE: [Row; 4] = [
    Row {
        name: "the last atom makes an even number odd",
        posted: XOR_POSTED,
        decisions: &[yes!(3), no!(0), no!(1)],
        conflict: None,
        entries: 4,
        last: yes!(2),
    },
    Row {
        name: "the last atom leaves an odd number odd",
        posted: XOR_POSTED,
        decisions: &[yes!(3), yes!(0), no!(1)],
        conflict: None,
        entries: 4,
        last: no!(2),
    },
    Row {
        name: "an even number of all",
        posted: XOR_POSTED,
        decisions: &[yes!(3), yes!(0), yes!(1), no!(2)],
        conflict: Some(4),
        entries: 4,
        last: no!(2),
    },
    Row {
        name: "what an even number denies is not in force",
        posted: XOR_POSTED,
        decisions: &[no!(0), no!(1), no!(2)],
        conflict: None,
        entries: 4,
        last: no!(3),
    },
];

#[test]
fn an_odd_number_is_true(rt: HostRuntime) {
    assert_runs(&rt, rt.alloc(), &ODD_TRUE);
}

const REPEATED_ATOMS: [Atom; 3] = [yes!(0), yes!(0), yes!(1)];

static TWICE: [Row; 5] = [
    Row {
        name: "the only atom that is open is true",
        posted: Posted {
            kind: Kind::Or,
            enforcement: &[],
            atoms: &REPEATED_ATOMS,
        },
        decisions: &[no!(1)],
        conflict: None,
        entries: 2,
        last: yes!(0),
    },
    Row {
        name: "it cannot be true beside itself",
        posted: Posted {
            kind: Kind::AtMostOne,
            enforcement: &[],
            atoms: &REPEATED_ATOMS,
        },
        decisions: &[],
        conflict: None,
        entries: 1,
        last: no!(0),
    },
    Row {
        name: "what it denies is not in force",
        posted: Posted {
            kind: Kind::AtMostOne,
            enforcement: &[yes!(3)],
            atoms: &REPEATED_ATOMS,
        },
        decisions: &[yes!(0)],
        conflict: None,
        entries: 2,
        last: no!(3),
    },
    Row {
        name: "the other is the one",
        posted: Posted {
            kind: Kind::ExactlyOne,
            enforcement: &[],
            atoms: &REPEATED_ATOMS,
        },
        decisions: &[],
        conflict: None,
        entries: 2,
        last: yes!(1),
    },
    Row {
        name: "it does not count",
        posted: Posted {
            kind: Kind::Xor,
            enforcement: &[],
            atoms: &REPEATED_ATOMS,
        },
        decisions: &[],
        conflict: None,
        entries: 1,
        last: yes!(1),
    },
];

#[test]
fn repeated_atoms_are_one(rt: HostRuntime) {
    assert_runs(&rt, rt.alloc(), &TWICE);
}

const OPPOSITE_ATOMS: [Atom; 3] = [yes!(0), no!(0), yes!(1)];

static OPPOSITE: [Row; 5] = [
    Row {
        name: "some atom is true as it is",
        posted: Posted {
            kind: Kind::Or,
            enforcement: &[],
            atoms: &OPPOSITE_ATOMS,
        },
        decisions: &[no!(1)],
        conflict: None,
        entries: 1,
        last: no!(1),
    },
    Row {
        name: "not all can be true",
        posted: Posted {
            kind: Kind::And,
            enforcement: &[yes!(3)],
            atoms: &OPPOSITE_ATOMS,
        },
        decisions: &[],
        conflict: None,
        entries: 1,
        last: no!(3),
    },
    Row {
        name: "no other is true",
        posted: Posted {
            kind: Kind::AtMostOne,
            enforcement: &[],
            atoms: &OPPOSITE_ATOMS,
        },
        decisions: &[],
        conflict: None,
        entries: 1,
        last: no!(1),
    },
    Row {
        name: "another cannot be the one",
        posted: Posted {
            kind: Kind::ExactlyOne,
            enforcement: &[yes!(3)],
            atoms: &OPPOSITE_ATOMS,
        },
        decisions: &[yes!(1)],
        conflict: None,
        entries: 2,
        last: no!(3),
    },
    Row {
        name: "they count as one",
        posted: Posted {
            kind: Kind::Xor,
            enforcement: &[],
            atoms: &OPPOSITE_ATOMS,
        },
        decisions: &[],
        conflict: None,
        entries: 1,
        last: no!(1),
    },
];

#[test]
fn one_of_opposite_atoms_is_true(rt: HostRuntime) {
    assert_runs(&rt, rt.alloc(), &OPPOSITE);
}
