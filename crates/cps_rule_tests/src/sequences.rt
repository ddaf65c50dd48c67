//! Two lists that are each other's inverse, and values that are read by an automaton.
//!
//! Rows give the ends of all subjects and what is left of them, worked out by hand. Reasons and conflicts are compared
//! too. An inverse has one fact of the other list, or the positions that fill some places; of the cuts that an
//! automaton may choose only one is wanted.

ghost use Rattle.std.specs.Prelude.{◌≡◌, IfOk, IsTrue, length};
ghost use Rattle.cps_instance.specs.Terms.{Domains};
ghost use Rattle.cps_instance.specs.Fitting.{IsFittingBody};
ghost use Rattle.cps_p_sequence.specs.Networks.{is_automaton};
ghost use Rattle.cps_rule_tests.specs.Ready.{IsPlainTask};

use crate::runs::{Left, Outcome, assert_row, ends_by, leaves, refuses, trial};
use crate::stores::{Comparison, Ends};
use cps_enforce::Enforced;
use cps_instance::{Body, Task};
use cps_literal::Op::{Eq, Ge, Le, Ne};
use cps_model::{Ints, Listed};
use cps_p_sequence::{Automaton, Inverse};
use std::alloc::{AllocError, Global};
use std::process::Abort;
use std::test::Fail;

/// What is left of these ends of all subjects; empty if the constraint cannot hold.
struct Row {
    ends: &'static [Ends],
    left: &'static [Left],
}

/// The propagator of subjects 0 to 3, whose inverse is 4 to 7.
fn inverse(alloc: Global) -> Result<Enforced<Inverse>, AllocError>
    ensures { IfOk result (λ propagator. IsPlainTask propagator) }
{
    let direct = Listed::from_vec(Vec::from_slice(alloc, &[0, 1, 2, 3])?);
    let inverse = Listed::from_vec(Vec::from_slice(alloc, &[4, 5, 6, 7])?);
    let task = Task {
        enforcement: Listed::new(alloc),
        body: Body::Inverse { direct, inverse },
    };
    let propagator = Inverse::of(alloc, &task)?;
    Ok(propagator)
}

fn inverted(
    alloc: Global,
    ends: &[Ends],
    decided: &[Comparison],
) -> Result<Option<Outcome>, AllocError> {
    let mut propagator = inverse(alloc)?;
    trial(alloc, &mut propagator, ends, decided)
}

fn assert_inverted(rt: &impl Abort, alloc: Global, rows: &[Row]) -> Result<(), Fail> {
    for (place, row) in rows.iter().enumerate() {
        let found = inverted(alloc, row.ends, &[])?;
        assert_row(rt, place, leaves(found, row.left));
    }
    Ok(())
}

static MIRRORED: [Row; 2] = [
    // there are four places
    Row {
        ends: &[
            (-1, 5),
            (0, 9),
            (0, 3),
            (0, 3),
            (0, 3),
            (0, 4),
            (-4, 3),
            (-1, 3),
        ],
        left: &[
            (0, 0, 3),
            (1, 0, 3),
            (2, 0, 3),
            (3, 0, 3),
            (4, 0, 3),
            (5, 0, 3),
            (6, 0, 3),
            (7, 0, 3),
        ],
    },
    // the first is at place 0, and so no other is there, and it is at no other
    Row {
        ends: &[
            (0, 0),
            (0, 3),
            (0, 3),
            (0, 3),
            (0, 3),
            (0, 3),
            (0, 3),
            (0, 3),
        ],
        left: &[
            (0, 0, 0),
            (1, 1, 3),
            (2, 1, 3),
            (3, 1, 3),
            (4, 0, 0),
            (5, 1, 3),
            (6, 1, 3),
            (7, 1, 3),
        ],
    },
];

#[test]
fn positions_and_places_say_the_same(rt: HostRuntime) -> Result<(), Fail> {
    assert_inverted(&rt, rt.alloc(), &MIRRORED)
}

static FILLED: [Row; 3] = [
    // two have places 0 and 1 to themselves, and so the others 2 and 3; the mirror alone leaves these 0 to 3
    Row {
        ends: &[
            (0, 1),
            (0, 1),
            (0, 3),
            (0, 3),
            (0, 3),
            (0, 3),
            (0, 3),
            (0, 3),
        ],
        left: &[
            (0, 0, 1),
            (1, 0, 1),
            (2, 2, 3),
            (3, 2, 3),
            (4, 0, 1),
            (5, 0, 1),
            (6, 2, 3),
            (7, 2, 3),
        ],
    },
    // three do not fit into two places, which the mirror alone does not see
    Row {
        ends: &[
            (0, 1),
            (0, 1),
            (0, 1),
            (0, 3),
            (0, 3),
            (0, 3),
            (0, 3),
            (0, 3),
        ],
        left: &[],
    },
    // nor do three places share two positions
    Row {
        ends: &[
            (0, 3),
            (0, 3),
            (0, 3),
            (0, 3),
            (2, 3),
            (2, 3),
            (2, 3),
            (0, 3),
        ],
        left: &[],
    },
];

#[test]
fn places_that_positions_fill_are_left_to_them(rt: HostRuntime) -> Result<(), Fail> {
    assert_inverted(&rt, rt.alloc(), &FILLED)
}

const PLACES: [Ends; 8] = [
    (0, 3),
    (0, 3),
    (0, 3),
    (0, 3),
    (0, 3),
    (0, 3),
    (0, 3),
    (0, 3),
];

/// Ends and decisions, and the reason of what is narrowed last, or the conflict. Bounds that each first value meets are
/// in neither.
struct Told {
    ends: &'static [Ends],
    decided: &'static [Comparison],
    clause: &'static [Comparison],
}

fn assert_inverse_reasons(rt: &impl Abort, alloc: Global, rows: &[Told]) -> Result<(), Fail> {
    for (place, row) in rows.iter().enumerate() {
        let found = inverted(alloc, row.ends, row.decided)?;
        assert_row(rt, place, ends_by(found, row.clause));
    }
    Ok(())
}

/// The second list says that the first two are at places 0 and 1. Of the first list the second position does not yet.
const PAIRED: [Ends; 8] = [
    (0, 1),
    (0, 3),
    (0, 3),
    (2, 3),
    (0, 1),
    (0, 1),
    (2, 3),
    (2, 3),
];

/// The last place has a number too many.
const LONG: [Ends; 8] = [
    (0, 3),
    (0, 3),
    (0, 3),
    (0, 3),
    (0, 3),
    (0, 3),
    (0, 3),
    (0, 5),
];

static INVERSE_REASONS: [Told; 3] = [
    // the second is not at place 2, so at place 2 is not the second; of the third both lists say that it is not at 1
    Told {
        ends: &PLACES,
        decided: &[(2, Ne, 1), (5, Ne, 2), (1, Ne, 2)],
        clause: &[(1, Eq, 2), (6, Ne, 1)],
    },
    // the first two fill places 0 and 1, so the third comes after them, whether it might be at 0 or not
    Told {
        ends: &PAIRED,
        decided: &[(2, Ne, 0), (1, Le, 1)],
        clause: &[(1, Ge, 2), (2, Ge, 2)],
    },
    // there is no position 4, whatever holds
    Told {
        ends: &LONG,
        decided: &[(0, Ne, 3), (7, Ne, 0)],
        clause: &[(7, Le, 3)],
    },
];

#[test]
fn the_other_list_or_full_places_are_the_reason(rt: HostRuntime) -> Result<(), Fail> {
    assert_inverse_reasons(&rt, rt.alloc(), &INVERSE_REASONS)
}

fn assert_inverse_conflicts(rt: &impl Abort, alloc: Global, rows: &[Told]) -> Result<(), Fail> {
    for (place, row) in rows.iter().enumerate() {
        let found = inverted(alloc, row.ends, row.decided)?;
        assert_row(rt, place, refuses(found, row.clause));
    }
    Ok(())
}

static INVERSE_CONFLICTS: [Told; 3] = [
    // the second is at place 2, where it is not
    Told {
        ends: &PLACES,
        decided: &[(2, Ne, 1), (5, Ne, 2), (6, Ne, 1), (1, Eq, 2)],
        clause: &[(1, Ne, 2), (6, Eq, 1)],
    },
    // three have places 0 and 1, wherever the last is
    Told {
        ends: &PLACES,
        decided: &[(3, Ge, 1), (0, Le, 1), (1, Le, 1), (2, Le, 1)],
        clause: &[(0, Ge, 2), (1, Ge, 2), (2, Ge, 2)],
    },
    // and three places have two positions
    Told {
        ends: &PLACES,
        decided: &[(0, Le, 2), (4, Ge, 2), (5, Ge, 2), (7, Ge, 2)],
        clause: &[(4, Le, 1), (5, Le, 1), (7, Le, 1)],
    },
];

#[test]
fn what_a_list_denies_or_has_no_room_for_is_the_conflict(rt: HostRuntime) -> Result<(), Fail> {
    assert_inverse_conflicts(&rt, rt.alloc(), &INVERSE_CONFLICTS)
}

/// These numbers as a list.
fn numbers(alloc: Global, items: &[i64]) -> Result<Ints, AllocError>
    ensures { IfOk result (λ ints. length ints ≡ length items.now) }
{
    Ok(Listed::from_vec(Vec::from_slice(alloc, items)?))
}

/// That subjects 0 to 2 are 1 2 1, 1 3 1 or 7 7 7: from 10 label 1 leads to 20, 2 or 3 to 30, and 1 to the final 40;
/// label 7 leads by 50 and 60. From 20 label 9 leads to 70, and from there nothing leads on.
fn words(alloc: Global) -> Result<Body, AllocError>
    ensures kind { IfOk result (λ body. IsTrue (is_automaton body)) }
    ensures fits { IfOk result (λ body. (first : Domains) → IsFittingBody first body) }
{
    let exprs = Listed::from_vec(Vec::from_slice(alloc, &[0, 1, 2])?);
    let finals = numbers(alloc, &[40])?;
    let tails = numbers(alloc, &[10, 20, 20, 30, 10, 50, 60, 20])?;
    let heads = numbers(alloc, &[20, 30, 30, 40, 50, 60, 40, 70])?;
    let labels = numbers(alloc, &[1, 2, 3, 1, 7, 7, 7, 9])?;
    Ok(Body::Automaton {
        start: 10,
        finals,
        tails,
        heads,
        labels,
        exprs,
    })
}

/// The propagator of these words.
fn automaton(alloc: Global) -> Result<Enforced<Automaton>, AllocError>
    ensures { IfOk result (λ propagator. IsPlainTask propagator) }
{
    let task = Task {
        enforcement: Listed::new(alloc),
        body: words(alloc)?,
    };
    let propagator = Automaton::of(alloc, &task)?;
    Ok(propagator)
}

fn read(
    alloc: Global,
    ends: &[Ends],
    decided: &[Comparison],
) -> Result<Option<Outcome>, AllocError> {
    let mut propagator = automaton(alloc)?;
    trial(alloc, &mut propagator, ends, decided)
}

fn assert_read(rt: &impl Abort, alloc: Global, rows: &[Row]) -> Result<(), Fail> {
    for (place, row) in rows.iter().enumerate() {
        let found = read(alloc, row.ends, &[])?;
        assert_row(rt, place, leaves(found, row.left));
    }
    Ok(())
}

static RUNS: [Row; 4] = [
    // 2 and 3 are labels, but of no run there; 4, 5 and 6 are none at all
    Row {
        ends: &[(0, 9), (0, 9), (0, 9)],
        left: &[
            (0, 1, 1),
            (0, 7, 7),
            (1, 2, 3),
            (1, 7, 7),
            (2, 1, 1),
            (2, 7, 7),
        ],
    },
    // without a last 7 there is no first one
    Row {
        ends: &[(0, 9), (0, 9), (0, 6)],
        left: &[(0, 1, 1), (1, 2, 3), (2, 1, 1)],
    },
    // no run begins with these
    Row {
        ends: &[(2, 6), (0, 9), (0, 9)],
        left: &[],
    },
    // a run of label 9 does not end
    Row {
        ends: &[(0, 9), (9, 9), (0, 9)],
        left: &[],
    },
];

#[test]
fn labels_of_runs_stay_alone(rt: HostRuntime) -> Result<(), Fail> {
    assert_read(&rt, rt.alloc(), &RUNS)
}

/// Three subjects between 0 and 9.
const DIGITS: [Ends; 3] = [(0, 9), (0, 9), (0, 9)];

static REASONS: [Told; 3] = [
    // the last is 1, since it is not 7
    Told {
        ends: &DIGITS,
        decided: &[(2, Le, 3)],
        clause: &[(2, Ge, 7), (2, Le, 1)],
    },
    // the last is not 6, whatever holds: no label is
    Told {
        ends: &DIGITS,
        decided: &[],
        clause: &[(2, Ne, 6)],
    },
    // the last is 1 whatever the first is, since the second is never 7
    Told {
        ends: &[(0, 9), (2, 3), (0, 9)],
        decided: &[(0, Le, 6)],
        clause: &[(2, Le, 1)],
    },
];

fn assert_reasons(rt: &impl Abort, alloc: Global, rows: &[Told]) -> Result<(), Fail> {
    for (place, row) in rows.iter().enumerate() {
        let found = read(alloc, row.ends, row.decided)?;
        assert_row(rt, place, ends_by(found, row.clause));
    }
    Ok(())
}

#[test]
fn reasons_name_what_is_gone_along_a_cut(rt: HostRuntime) -> Result<(), Fail> {
    assert_reasons(&rt, rt.alloc(), &REASONS)
}

fn assert_conflicts(rt: &impl Abort, alloc: Global, rows: &[Told]) -> Result<(), Fail> {
    for (place, row) in rows.iter().enumerate() {
        let found = read(alloc, row.ends, row.decided)?;
        assert_row(rt, place, refuses(found, row.clause));
    }
    Ok(())
}

static CONFLICTS: [Told; 1] = [
    // without a first 7 the last is 1, whatever the second is
    Told {
        ends: &DIGITS,
        decided: &[(1, Le, 8), (0, Le, 3), (2, Ge, 5)],
        clause: &[(0, Ge, 7), (2, Le, 1)],
    },
];

#[test]
fn a_cut_through_every_run_is_the_conflict(rt: HostRuntime) -> Result<(), Fail> {
    assert_conflicts(&rt, rt.alloc(), &CONFLICTS)
}
