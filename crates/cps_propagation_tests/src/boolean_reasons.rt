//! Reasons of the Boolean kinds: that one names no more than its rule used is seen here alone.

use crate::booleans::{Kind, explained_trial};
use cps_literal::{Atom, Op};
use std::alloc::Global;
use std::process::Abort;

/// A kind over literals, what is decided before its run, and the reason of the last entry.
struct Reasoned {
    kind: Kind,
    atoms: &'static [Atom],
    decisions: &'static [Atom],
    reason: &'static [Atom],
}

/// Whether the last entry has the reason of a row, where the last subject's literal enforces.
fn is_reasoned(alloc: Global, row: &Reasoned) -> bool {
    match explained_trial(alloc, row.kind, &[yes!(3)], row.atoms, row.decisions) {
        Some((_, reason)) => reason.as_slice() == row.reason,
        None => false,
    }
}

fn assert_reasons(rt: &impl Abort, alloc: Global, rows: &[Reasoned]) {
    for (place, row) in rows.iter().enumerate() {
        assert!(rt; is_reasoned(alloc, row), "row {place}");
    }
}

const THREE: [Atom; 3] = [yes!(0), yes!(1), yes!(2)];

static DECIDED: [Reasoned; 1] = [Reasoned {
    kind: Kind::Or,
    atoms: &[yes!(0), yes!(1)],
    decisions: &[yes!(3), no!(0)],
    reason: &[no!(3), yes!(0), yes!(1)],
}];

#[test]
fn a_reason_names_what_was_decided(rt: HostRuntime) {
    assert_reasons(&rt, rt.alloc(), &DECIDED);
}

static USED: [Reasoned; 7] = [
    Reasoned {
        kind: Kind::And,
        atoms: &THREE,
        decisions: &[yes!(3), yes!(0)],
        reason: &[no!(3), yes!(2)],
    },
    Reasoned {
        kind: Kind::And,
        atoms: &THREE,
        decisions: &[yes!(0), no!(1)],
        reason: &[yes!(1), no!(3)],
    },
    Reasoned {
        kind: Kind::AtMostOne,
        atoms: &THREE,
        decisions: &[yes!(3), no!(0), yes!(1)],
        reason: &[no!(3), no!(1), no!(2)],
    },
    Reasoned {
        kind: Kind::AtMostOne,
        atoms: &THREE,
        decisions: &[no!(0), yes!(1), yes!(2)],
        reason: &[no!(1), no!(2), no!(3)],
    },
    Reasoned {
        kind: Kind::ExactlyOne,
        atoms: &THREE,
        decisions: &[yes!(3), no!(0), yes!(1)],
        reason: &[no!(3), no!(1), no!(2)],
    },
    Reasoned {
        kind: Kind::ExactlyOne,
        atoms: &THREE,
        decisions: &[yes!(3), no!(2), no!(0)],
        reason: &[no!(3), yes!(0), yes!(2), yes!(1)],
    },
    Reasoned {
        kind: Kind::Xor,
        atoms: &THREE,
        decisions: &[yes!(3), no!(1), yes!(0)],
        reason: &[no!(3), no!(0), yes!(1), no!(2)],
    },
];

#[test]
fn a_reason_names_what_its_rule_used_alone(rt: HostRuntime) {
    assert_reasons(&rt, rt.alloc(), &USED);
}

static REPEATED: [Reasoned; 1] = [Reasoned {
    kind: Kind::AtMostOne,
    atoms: &[yes!(0), yes!(0), yes!(1)],
    decisions: &[yes!(3), no!(1)],
    reason: &[no!(3), no!(0)],
}];

#[test]
fn a_reason_of_a_repeated_literal_names_no_other(rt: HostRuntime) {
    assert_reasons(&rt, rt.alloc(), &REPEATED);
}
