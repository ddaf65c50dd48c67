//! Quotients, what division leaves, products and greatest values.
//!
//! Subject 0 is computed of the subjects 1 and 2. One table has single divisions, since the signs of quotients and of
//! what is left are easily mistaken; another has what bounds of remainders leave to all three. Reasons and conflicts
//! are compared as a whole: the contract asks that they follow, and not that they ask no more than is needed.

ghost use Rattle.std.specs.Prelude.{IfOk, IsTrue};
ghost use Rattle.cps_instance.specs.Terms.{Domains};
ghost use Rattle.cps_instance.specs.Fitting.{IsFittingBody};
ghost use Rattle.cps_p_arith.specs.Demands.{is_arithmetic};
ghost use Rattle.cps_rule_tests.specs.Ready.{IsPlainTask};

use crate::runs::{Left, Outcome, assert_row, ends_by, leaves, refuses, trial};
use crate::stores::{Comparison, Ends};
use cps_enforce::Enforced;
use cps_instance::{Body, Task};
use cps_literal::Op::{Ge, Le};
use cps_model::Listed;
use cps_p_arith::Arithmetic;
use std::alloc::{AllocError, Global};
use std::process::Abort;
use std::test::Fail;

/// How subject 0 is computed of subjects 1 and 2.
#[derive(Clone, Copy)]
enum Kind {
    Quotient,
    Remainder,
    Product,
    Greatest,
}

fn body(alloc: Global, kind: Kind) -> Result<Body, AllocError>
    ensures kind { IfOk result (λ body. IsTrue (is_arithmetic body)) }
    ensures fits { IfOk result (λ body. (first : Domains) → IsFittingBody first body) }
{
    let exprs = Listed::from_vec(Vec::from_slice(alloc, &[1, 2])?);
    match kind {
        Kind::Quotient => Ok(Body::IntDiv { target: 0, exprs }),
        Kind::Remainder => Ok(Body::IntMod { target: 0, exprs }),
        Kind::Product => Ok(Body::IntProd { target: 0, exprs }),
        Kind::Greatest => Ok(Body::LinMax { target: 0, exprs }),
    }
}

/// The propagator of a kind.
fn arithmetic(alloc: Global, kind: Kind) -> Result<Enforced<Arithmetic>, AllocError>
    ensures { IfOk result (λ propagator. IsPlainTask propagator) }
{
    let task = Task {
        enforcement: Listed::new(alloc),
        body: body(alloc, kind)?,
    };
    let propagator = Arithmetic::of(alloc, &task)?;
    Ok(propagator)
}

/// What a kind makes of these ends after decisions.
fn computed(
    alloc: Global,
    kind: Kind,
    ends: &[Ends],
    decided: &[Comparison],
) -> Result<Option<Outcome>, AllocError> {
    let mut propagator = arithmetic(alloc, kind)?;
    trial(alloc, &mut propagator, ends, decided)
}

/// A number, a divisor, the quotient that is rounded towards zero, and what is left.
struct Division {
    number: i64,
    divisor: i64,
    quotient: i64,
    rest: i64,
}

/// Whether a kind gives this value of two numbers.
fn gives(
    alloc: Global,
    kind: Kind,
    number: i64,
    divisor: i64,
    value: i64,
) -> Result<bool, AllocError> {
    let ends = [(-10, 10), (number, number), (divisor, divisor)];
    let left = [
        (0, value, value),
        (1, number, number),
        (2, divisor, divisor),
    ];
    Ok(leaves(computed(alloc, kind, &ends, &[])?, &left))
}

fn assert_divided(rt: &impl Abort, alloc: Global, rows: &[Division]) -> Result<(), Fail> {
    for (place, row) in rows.iter().enumerate() {
        let is_quotient = gives(alloc, Kind::Quotient, row.number, row.divisor, row.quotient)?;
        assert_row(rt, place, is_quotient);
        let is_rest = gives(alloc, Kind::Remainder, row.number, row.divisor, row.rest)?;
        assert_row(rt, place, is_rest);
    }
    Ok(())
}

/// The quotient has the sign of the two signs' product or is 0, and what is left has the sign of the number.
static DIVISIONS: [Division; 6] = [
    Division {
        number: 7,
        divisor: 2,
        quotient: 3,
        rest: 1,
    },
    Division {
        number: -7,
        divisor: 2,
        quotient: -3,
        rest: -1,
    },
    Division {
        number: 7,
        divisor: -2,
        quotient: -3,
        rest: 1,
    },
    Division {
        number: -7,
        divisor: -2,
        quotient: 3,
        rest: -1,
    },
    Division {
        number: 6,
        divisor: 3,
        quotient: 2,
        rest: 0,
    },
    Division {
        number: 1,
        divisor: 5,
        quotient: 0,
        rest: 1,
    },
];

#[test]
fn numbers_are_divided_towards_zero(rt: HostRuntime) -> Result<(), Fail> {
    assert_divided(&rt, rt.alloc(), &DIVISIONS)
}

/// What a kind leaves of these ends; empty if it cannot hold.
struct Row {
    kind: Kind,
    ends: [Ends; 3],
    left: &'static [Left],
}

fn assert_left(rt: &impl Abort, alloc: Global, rows: &[Row]) -> Result<(), Fail> {
    for (place, row) in rows.iter().enumerate() {
        let found = computed(alloc, row.kind, &row.ends, &[])?;
        assert_row(rt, place, leaves(found, row.left));
    }
    Ok(())
}

static REMAINDERS: [Row; 9] = [
    Row {
        kind: Kind::Remainder,
        ends: [(-50, 50), (-20, 20), (2, 4)],
        left: &[(0, -3, 3), (1, -20, 20), (2, 2, 4)],
    },
    // the divisor's sign does not matter, and the number has none below 0
    Row {
        kind: Kind::Remainder,
        ends: [(-50, 50), (0, 20), (-6, 4)],
        left: &[(0, 0, 5), (1, 0, 20), (2, -6, 4)],
    },
    // at least 5 are left by 6 and more alone, and of 5 and more
    Row {
        kind: Kind::Remainder,
        ends: [(5, 9), (0, 20), (-3, 8)],
        left: &[(0, 5, 7), (1, 5, 20), (2, 6, 8)],
    },
    // a number below the divisor is left whole
    Row {
        kind: Kind::Remainder,
        ends: [(2, 10), (-3, 4), (5, 9)],
        left: &[(0, 2, 4), (1, 2, 4), (2, 5, 9)],
    },
    // 13 to 16 lie between 12 and 18
    Row {
        kind: Kind::Remainder,
        ends: [(-50, 50), (13, 16), (6, 6)],
        left: &[(0, 1, 4), (1, 13, 16), (2, 6, 6)],
    },
    Row {
        kind: Kind::Remainder,
        ends: [(-50, 50), (-16, -13), (-6, -6)],
        left: &[(0, -4, -1), (1, -16, -13), (2, -6, -6)],
    },
    // of 6 to 12 only 9 is one more than a multiple of 4
    Row {
        kind: Kind::Remainder,
        ends: [(1, 1), (6, 12), (4, 4)],
        left: &[(0, 1, 1), (1, 9, 9), (2, 4, 4)],
    },
    Row {
        kind: Kind::Remainder,
        ends: [(1, 1), (6, 8), (4, 4)],
        left: &[],
    },
    Row {
        kind: Kind::Remainder,
        ends: [(-9, 9), (7, 7), (0, 0)],
        left: &[],
    },
];

#[test]
fn what_is_left_is_less_than_the_divisor(rt: HostRuntime) -> Result<(), Fail> {
    assert_left(&rt, rt.alloc(), &REMAINDERS)
}

static TARGETS: [Row; 3] = [
    // 15 to 24 are 3 or 4 times 5 and something
    Row {
        kind: Kind::Quotient,
        ends: [(3, 4), (0, 100), (5, 5)],
        left: &[(0, 3, 4), (1, 15, 24), (2, 5, 5)],
    },
    // 4 times 3 is 12, and -1 times anything positive below 0
    Row {
        kind: Kind::Product,
        ends: [(0, 12), (4, 100), (-100, 100)],
        left: &[(0, 0, 12), (1, 4, 100), (2, 0, 3)],
    },
    // no member is above the greatest
    Row {
        kind: Kind::Greatest,
        ends: [(0, 5), (0, 9), (0, 9)],
        left: &[(0, 0, 5), (1, 0, 5), (2, 0, 5)],
    },
];

#[test]
fn what_is_computed_bounds_what_it_is_computed_of(rt: HostRuntime) -> Result<(), Fail> {
    assert_left(&rt, rt.alloc(), &TARGETS)
}

/// A kind, ends and decisions, and the reason of what is narrowed last, or the conflict. Bounds that each first value
/// meets are in neither.
struct Told {
    kind: Kind,
    ends: [Ends; 3],
    decided: &'static [Comparison],
    clause: &'static [Comparison],
}

fn assert_reasons(rt: &impl Abort, alloc: Global, rows: &[Told]) -> Result<(), Fail> {
    for (place, row) in rows.iter().enumerate() {
        let found = computed(alloc, row.kind, &row.ends, row.decided)?;
        assert_row(rt, place, ends_by(found, row.clause));
    }
    Ok(())
}

static REASONS: [Told; 6] = [
    // 17 / 5 is 3, and so is each number's quotient up to 19
    Told {
        kind: Kind::Quotient,
        ends: [(0, 100), (0, 100), (5, 5)],
        decided: &[(1, Le, 17)],
        clause: &[(1, Ge, 20), (0, Le, 3)],
    },
    // less than 5 is left by divisors up to 5, whatever is divided
    Told {
        kind: Kind::Remainder,
        ends: [(0, 50), (0, 100), (1, 8)],
        decided: &[(1, Le, 90), (2, Le, 5)],
        clause: &[(2, Ge, 6), (0, Le, 4)],
    },
    Told {
        kind: Kind::Product,
        ends: [(0, 100), (0, 100), (0, 100)],
        decided: &[(1, Le, 3), (2, Le, 4)],
        clause: &[(1, Ge, 4), (2, Ge, 5), (0, Le, 12)],
    },
    // what makes a product below 0 with a positive factor is below 0
    Told {
        kind: Kind::Product,
        ends: [(-100, 100), (-100, 100), (1, 10)],
        decided: &[(0, Le, -1)],
        clause: &[(0, Ge, 0), (1, Le, -1)],
    },
    // up to 9 the first member does not matter
    Told {
        kind: Kind::Greatest,
        ends: [(0, 100), (0, 100), (0, 100)],
        decided: &[(1, Le, 7), (2, Le, 9)],
        clause: &[(1, Ge, 10), (2, Ge, 10), (0, Le, 9)],
    },
    // the first member falls short of 8 up to 7
    Told {
        kind: Kind::Greatest,
        ends: [(0, 100), (0, 100), (0, 100)],
        decided: &[(0, Ge, 8), (1, Le, 5)],
        clause: &[(0, Le, 7), (1, Ge, 8), (2, Ge, 8)],
    },
];

#[test]
fn reasons_ask_no_more_than_is_needed(rt: HostRuntime) -> Result<(), Fail> {
    assert_reasons(&rt, rt.alloc(), &REASONS)
}

fn assert_conflicts(rt: &impl Abort, alloc: Global, rows: &[Told]) -> Result<(), Fail> {
    for (place, row) in rows.iter().enumerate() {
        let found = computed(alloc, row.kind, &row.ends, row.decided)?;
        assert_row(rt, place, refuses(found, row.clause));
    }
    Ok(())
}

static CONFLICTS: [Told; 4] = [
    // 17 / 5 is 3 at most, as up to 19
    Told {
        kind: Kind::Quotient,
        ends: [(0, 100), (0, 100), (5, 5)],
        decided: &[(0, Ge, 4), (1, Le, 17)],
        clause: &[(0, Le, 3), (1, Ge, 20)],
    },
    Told {
        kind: Kind::Remainder,
        ends: [(0, 50), (0, 100), (1, 8)],
        decided: &[(0, Ge, 5), (1, Le, 90), (2, Le, 5)],
        clause: &[(0, Le, 4), (2, Ge, 6)],
    },
    Told {
        kind: Kind::Product,
        ends: [(0, 100), (0, 100), (0, 100)],
        decided: &[(0, Ge, 13), (1, Le, 3), (2, Le, 4)],
        clause: &[(0, Le, 12), (1, Ge, 4), (2, Ge, 5)],
    },
    Told {
        kind: Kind::Greatest,
        ends: [(0, 100), (0, 100), (0, 100)],
        decided: &[(0, Ge, 10), (1, Le, 9), (2, Le, 9)],
        clause: &[(0, Le, 9), (1, Ge, 10), (2, Ge, 10)],
    },
];

#[test]
fn conflicts_ask_no_more_than_is_needed(rt: HostRuntime) -> Result<(), Fail> {
    assert_conflicts(&rt, rt.alloc(), &CONFLICTS)
}
