//! Elements and tables.
//!
//! What elements leave is compared, and of both kinds the reasons and conflicts as a whole: the contract asks that they
//! follow, and not that they name one fact a place or a row.

ghost use Rattle.std.specs.Prelude.{IfOk, IsTrue};
ghost use Rattle.cps_p_lookup.specs.Bodies.{is_table};
ghost use Rattle.cps_instance.specs.Terms.{Domains};
ghost use Rattle.cps_instance.specs.Fitting.{IsFittingBody};
ghost use Rattle.cps_rule_tests.specs.Ready.{IsPlainTask};

use crate::runs::{Left, Outcome, assert_row, ends_by, leaves, refuses, trial};
use crate::stores::{Comparison, Ends};
use cps_enforce::Enforced;
use cps_instance::{Body, Task};
use cps_literal::Op::{Ge, Le, Ne};
use cps_model::Listed;
use cps_p_lookup::{Element, Table};
use std::alloc::{AllocError, Global};
use std::process::Abort;
use std::test::Fail;

/// The propagator of an element: subject 0 is the index, 1 the target, and 2, 3 and 4 are the expressions.
fn element(alloc: Global) -> Result<Enforced<Element>, AllocError>
    ensures { IfOk result (λ propagator. IsPlainTask propagator) }
{
    let exprs = Listed::from_vec(Vec::from_slice(alloc, &[2, 3, 4])?);
    let task = Task {
        enforcement: Listed::new(alloc),
        body: Body::Element {
            index: 0,
            target: 1,
            exprs,
        },
    };
    let propagator = Element::of(alloc, &task)?;
    Ok(propagator)
}

/// What an element makes of these ends after decisions.
fn looked_up(
    alloc: Global,
    ends: &[Ends],
    decided: &[Comparison],
) -> Result<Option<Outcome>, AllocError> {
    let mut propagator = element(alloc)?;
    trial(alloc, &mut propagator, ends, decided)
}

/// Rows of two values, one after another, and whether the values are to be none of them.
#[derive(Clone, Copy)]
struct Rows {
    values: &'static [i64],
    negated: bool,
}

fn table_body(alloc: Global, rows: Rows) -> Result<Body, AllocError>
    ensures kind { IfOk result (λ body. IsTrue (is_table body)) }
    ensures fits { IfOk result (λ body. (first : Domains) → IsFittingBody first body) }
{
    Ok(Body::Table {
        exprs: Listed::from_vec(Vec::from_slice(alloc, &[0, 1])?),
        values: Listed::from_vec(Vec::from_slice(alloc, rows.values)?),
        negated: rows.negated,
    })
}

/// The propagator of a table over the subjects 0 and 1.
fn table(alloc: Global, rows: Rows) -> Result<Enforced<Table>, AllocError>
    ensures { IfOk result (λ propagator. IsPlainTask propagator) }
{
    let task = Task {
        enforcement: Listed::new(alloc),
        body: table_body(alloc, rows)?,
    };
    let propagator = Table::of(alloc, &task)?;
    Ok(propagator)
}

/// What a table makes of these ends after decisions.
fn tabled(
    alloc: Global,
    rows: Rows,
    ends: &[Ends],
    decided: &[Comparison],
) -> Result<Option<Outcome>, AllocError> {
    let mut propagator = table(alloc, rows)?;
    trial(alloc, &mut propagator, ends, decided)
}

/// Ends of the index, the target and three expressions, and what is left of them; nothing where the element cannot
/// hold.
struct Held {
    ends: [Ends; 5],
    left: &'static [Left],
}

fn assert_left(rt: &impl Abort, alloc: Global, rows: &[Held]) -> Result<(), Fail> {
    for (place, row) in rows.iter().enumerate() {
        let found = looked_up(alloc, &row.ends, &[])?;
        assert_row(rt, place, leaves(found, row.left));
    }
    Ok(())
}

static MEETING: [Held; 4] = [
    // the index is a place, and the target at most the greatest value there
    Held {
        ends: [(-5, 9), (0, 100), (0, 3), (0, 4), (0, 9)],
        left: &[(0, 0, 2), (1, 0, 9), (2, 0, 3), (3, 0, 4), (4, 0, 9)],
    },
    // only the last expression may be 5 or more, and it is the target then
    Held {
        ends: [(0, 2), (5, 100), (0, 3), (0, 4), (0, 9)],
        left: &[(0, 2, 2), (1, 5, 9), (2, 0, 3), (3, 0, 4), (4, 5, 9)],
    },
    Held {
        ends: [(0, 2), (10, 100), (0, 3), (0, 4), (0, 9)],
        left: &[],
    },
    Held {
        ends: [(3, 9), (0, 100), (0, 3), (0, 4), (0, 9)],
        left: &[],
    },
];

#[test]
fn elements_keep_to_places_that_may_meet(rt: HostRuntime) -> Result<(), Fail> {
    assert_left(&rt, rt.alloc(), &MEETING)
}

/// Ends and decisions of an element, and the reason of what is narrowed last, or the conflict. Facts that each first
/// value meets are in neither.
struct Told {
    ends: [Ends; 5],
    decided: &'static [Comparison],
    clause: &'static [Comparison],
}

fn assert_reasons(rt: &impl Abort, alloc: Global, rows: &[Told]) -> Result<(), Fail> {
    for (place, row) in rows.iter().enumerate() {
        let found = looked_up(alloc, &row.ends, row.decided)?;
        assert_row(rt, place, ends_by(found, row.clause));
    }
    Ok(())
}

static REASONS: [Told; 3] = [
    // the target is at most 9 where each expression is
    Told {
        ends: [(0, 2), (0, 100), (0, 100), (0, 100), (0, 100)],
        decided: &[(2, Le, 3), (3, Le, 4), (4, Le, 9)],
        clause: &[(2, Ge, 10), (3, Ge, 10), (4, Ge, 10), (1, Le, 9)],
    },
    // the first expression is at least 5, and the target below
    Told {
        ends: [(0, 2), (0, 100), (5, 9), (0, 100), (0, 100)],
        decided: &[(1, Le, 2)],
        clause: &[(1, Ge, 5), (0, Ne, 0)],
    },
    // the index is one of the first two places
    Told {
        ends: [(0, 2), (0, 100), (0, 100), (0, 100), (0, 100)],
        decided: &[(0, Le, 1), (2, Le, 3), (3, Le, 4)],
        clause: &[(0, Ge, 2), (2, Ge, 5), (3, Ge, 5), (1, Le, 4)],
    },
];

#[test]
fn reasons_of_elements_name_each_place(rt: HostRuntime) -> Result<(), Fail> {
    assert_reasons(&rt, rt.alloc(), &REASONS)
}

fn assert_conflicts(rt: &impl Abort, alloc: Global, rows: &[Told]) -> Result<(), Fail> {
    for (place, row) in rows.iter().enumerate() {
        let found = looked_up(alloc, &row.ends, row.decided)?;
        assert_row(rt, place, refuses(found, row.clause));
    }
    Ok(())
}

static CONFLICTS: [Told; 2] = [
    // the index is the first place, where the expression is at least 5 and the target below
    Told {
        ends: [(0, 2), (0, 100), (5, 9), (0, 100), (0, 100)],
        decided: &[(0, Le, 0), (1, Le, 2)],
        clause: &[(0, Ge, 1), (1, Ge, 5)],
    },
    // each expression is below the target
    Told {
        ends: [(0, 2), (10, 100), (0, 100), (0, 100), (0, 100)],
        decided: &[(2, Le, 9), (3, Le, 9), (4, Le, 9)],
        clause: &[(2, Ge, 10), (3, Ge, 10), (4, Ge, 10)],
    },
];

#[test]
fn conflicts_of_elements_name_each_place(rt: HostRuntime) -> Result<(), Fail> {
    assert_conflicts(&rt, rt.alloc(), &CONFLICTS)
}

/// The rows 0, 3 and 7, 4.
const TWO: Rows = Rows {
    values: &[0, 3, 7, 4],
    negated: false,
};

/// Not a row of 2 and 5.
const NOT_ONE: Rows = Rows {
    values: &[2, 5],
    negated: true,
};

/// A table, ends and decisions of its two subjects, and the reason of what is narrowed last, or the conflict.
struct Row {
    rows: Rows,
    ends: [Ends; 2],
    decided: &'static [Comparison],
    clause: &'static [Comparison],
}

/// The first column is 0 or 7, and the second 3 or 4.
#[test]
fn columns_of_tables_keep_to_the_values_of_their_rows(rt: HostRuntime) -> Result<(), Fail> {
    let found = tabled(rt.alloc(), TWO, &[(-5, 9), (-5, 9)], &[])?;
    assert!(rt; leaves(found, &[(0, 0, 0), (0, 7, 7), (1, 3, 4)]));
    Ok(())
}

fn assert_reasons_of_tables(rt: &impl Abort, alloc: Global, rows: &[Row]) -> Result<(), Fail> {
    for (place, row) in rows.iter().enumerate() {
        let found = tabled(alloc, row.rows, &row.ends, row.decided)?;
        assert_row(rt, place, ends_by(found, row.clause));
    }
    Ok(())
}

static TABLE_REASONS: [Row; 2] = [
    // up to 6 the first value is not 7, so the second is not 4
    Row {
        rows: TWO,
        ends: [(0, 9), (3, 4)],
        decided: &[(0, Le, 2)],
        clause: &[(0, Ge, 7), (1, Le, 3)],
    },
    Row {
        rows: NOT_ONE,
        ends: [(0, 9), (0, 9)],
        decided: &[(0, Le, 2), (0, Ge, 2)],
        clause: &[(0, Ne, 2), (1, Ne, 5)],
    },
];

#[test]
fn reasons_of_tables_name_each_row(rt: HostRuntime) -> Result<(), Fail> {
    assert_reasons_of_tables(&rt, rt.alloc(), &TABLE_REASONS)
}

fn assert_conflicts_of_tables(rt: &impl Abort, alloc: Global, rows: &[Row]) -> Result<(), Fail> {
    for (place, row) in rows.iter().enumerate() {
        let found = tabled(alloc, row.rows, &row.ends, row.decided)?;
        assert_row(rt, place, refuses(found, row.clause));
    }
    Ok(())
}

static TABLE_CONFLICTS: [Row; 2] = [
    // from 1 on the first value is not 0, and up to 3 the second is not 4
    Row {
        rows: TWO,
        ends: [(0, 9), (3, 4)],
        decided: &[(0, Ge, 3), (1, Le, 3)],
        clause: &[(0, Le, 0), (1, Ge, 4)],
    },
    Row {
        rows: NOT_ONE,
        ends: [(0, 2), (5, 9)],
        decided: &[(0, Ge, 2), (1, Le, 5)],
        clause: &[(0, Ne, 2), (1, Ne, 5)],
    },
];

#[test]
fn conflicts_of_tables_name_each_row(rt: HostRuntime) -> Result<(), Fail> {
    assert_conflicts_of_tables(&rt, rt.alloc(), &TABLE_CONFLICTS)
}
