//! Logs that a tracer writes: their text, that the checker accepts it, and which hints show a learnt clause.

use crate::judging::assert_refused;
use crate::reading::valid_model;
use cps_literal::{Atom, Op};
use cps_model::{LinearExpr, Listed};
use cps_tracer::Tracer;
use cps_validate::ValidModel;
use std::alloc::{AllocError, Global};
use std::process::Abort;
use std::test::Fail;

/// Three variables of two values, no two of them equal.
const PIGEONS: &str = "\
    variables { domain: [0, 1] } variables { domain: [0, 1] } variables { domain: [0, 1] } \
    constraints { linear { vars: [0, 1] coeffs: [1, -1] domain: [-1, -1, 1, 1] } } \
    constraints { linear { vars: [0, 2] coeffs: [1, -1] domain: [-1, -1, 1, 1] } } \
    constraints { linear { vars: [1, 2] coeffs: [1, -1] domain: [-1, -1, 1, 1] } }";

/// Each of the three variables is 1.
static IS_ONE: [Atom; 3] = [
    Atom {
        subject: 0,
        op: Op::Ge,
        value: 1,
    },
    Atom {
        subject: 1,
        op: Op::Ge,
        value: 1,
    },
    Atom {
        subject: 2,
        op: Op::Ge,
        value: 1,
    },
];

/// Each of the three variables is 0.
static IS_ZERO: [Atom; 3] = [
    Atom {
        subject: 0,
        op: Op::Le,
        value: 0,
    },
    Atom {
        subject: 1,
        op: Op::Le,
        value: 0,
    },
    Atom {
        subject: 2,
        op: Op::Le,
        value: 0,
    },
];

/// Appends a reason, whose clause gets this number.
fn put_reason(
    rt: &impl Abort,
    tracer: &mut Tracer<'_>,
    constraint: u32,
    clause: &[Atom],
    number: u32,
) -> Result<(), Fail> {
    assert!(rt; tracer.is_over(clause));
    let found = tracer.reason(constraint, clause)?;
    assert!(rt; found == number, "clause {found}, not {number}");
    Ok(())
}

/// Hands over a learnt clause, which gets this number, or none where the hints do not show it.
fn put_learnt(
    rt: &impl Abort,
    tracer: &mut Tracer<'_>,
    clause: &[Atom],
    hints: &[u32],
    number: Option<u32>,
) -> Result<(), Fail> {
    let found = tracer.learn(clause, hints)?;
    assert!(rt; found == number, "clause {found:?}, not {number:?}");
    Ok(())
}

/// The reasons by which variable 0 is 1, with the numbers 0 to 2.
fn put_first_reasons(rt: &impl Abort, tracer: &mut Tracer<'_>) -> Result<(), Fail> {
    put_reason(rt, tracer, 0, &[IS_ONE[0], IS_ONE[1]], 0)?;
    put_reason(rt, tracer, 1, &[IS_ONE[0], IS_ONE[2]], 1)?;
    put_reason(rt, tracer, 2, &[IS_ZERO[1], IS_ZERO[2]], 2)
}

/// The reasons by which it is 0, with the numbers 4 to 6.
fn put_last_reasons(rt: &impl Abort, tracer: &mut Tracer<'_>) -> Result<(), Fail> {
    put_reason(rt, tracer, 0, &[IS_ZERO[0], IS_ZERO[1]], 4)?;
    put_reason(rt, tracer, 1, &[IS_ZERO[0], IS_ZERO[2]], 5)?;
    put_reason(rt, tracer, 2, &[IS_ONE[1], IS_ONE[2]], 6)
}

/// Asserts that a tracer's log is this text.
fn assert_log(rt: &impl Abort, tracer: &Tracer<'_>, expected: &str) -> Result<(), Fail> {
    let text = tracer.text()?;
    assert!(rt; text.as_str() == expected, "{text}");
    Ok(())
}

/// Asserts that a response with a log is accepted.
fn assert_accepted(
    rt: &impl Abort,
    alloc: Global,
    model: &ValidModel,
    response: &str,
    log: &str,
) -> Result<(), Fail> {
    let mut text = String::new(alloc);
    text.push_str(response)?;
    text.push_str("%log\n")?;
    text.push_str(log)?;
    text.push_str("%end\n")?;
    assert_refused(rt, alloc, model, text.as_str(), None)
}

/// The log of the three variables, as it is worked out in docs/LOGS.md.
const PIGEON_LOG: &str = "\
    e 0 0>=1 1>=1\ne 1 0>=1 2>=1\ne 2 1<=0 2<=0\nl 0>=1\n\
    e 0 0<=0 1<=0\ne 1 0<=0 2<=0\ne 2 1>=1 2>=1\nl\n";

fn assert_pigeons_traced(rt: &impl Abort, alloc: Global, model: &ValidModel) -> Result<(), Fail> {
    let mut tracer = Tracer::new(alloc, model)?;
    put_first_reasons(rt, &mut tracer)?;
    // One hint is missing, or is of no clause. In which order they stand does not matter.
    put_learnt(rt, &mut tracer, &[IS_ONE[0]], &[0, 1], None)?;
    put_learnt(rt, &mut tracer, &[IS_ONE[0]], &[2, 1, 7], None)?;
    put_learnt(rt, &mut tracer, &[IS_ONE[0]], &[2, 1, 0], Some(3))?;
    put_last_reasons(rt, &mut tracer)?;
    put_learnt(rt, &mut tracer, &[], &[4, 5, 6], None)?;
    put_learnt(rt, &mut tracer, &[], &[3, 4, 5, 6], Some(7))?;
    assert_log(rt, &tracer, PIGEON_LOG)
}

#[test]
fn hints_show_that_three_do_not_fit_into_two(rt: HostRuntime) -> Result<(), Fail> {
    let model = valid_model(&rt, rt.alloc(), PIGEONS)?;
    assert_pigeons_traced(&rt, rt.alloc(), &model)?;
    assert_accepted(&rt, rt.alloc(), &model, "status: INFEASIBLE\n", PIGEON_LOG)
}

/// What is settled needs no hint. The last clause becomes unit only where the first two are settled in turn.
fn assert_settled(rt: &impl Abort, alloc: Global, model: &ValidModel) -> Result<(), Fail> {
    let mut tracer = Tracer::new(alloc, model)?;
    put_reason(rt, &mut tracer, 0, &[IS_ONE[0]], 0)?;
    put_reason(rt, &mut tracer, 0, &[IS_ZERO[0], IS_ONE[1]], 1)?;
    put_reason(rt, &mut tracer, 0, &[IS_ZERO[1], IS_ONE[2]], 2)?;
    put_learnt(rt, &mut tracer, &[IS_ONE[2]], &[2], None)?;
    tracer.settle(0)?;
    put_learnt(rt, &mut tracer, &[IS_ONE[2]], &[2], None)?;
    tracer.settle(1)?;
    put_learnt(rt, &mut tracer, &[IS_ONE[2]], &[2], Some(3))
}

/// A clause whose box is empty needs no hint: one of its atoms is true whatever its subject is. One about a subject
/// that does not exist is never learnt.
fn assert_always_true(rt: &impl Abort, alloc: Global, model: &ValidModel) -> Result<(), Fail> {
    let mut tracer = Tracer::new(alloc, model)?;
    put_learnt(rt, &mut tracer, &[IS_ZERO[1]], &[], None)?;
    put_learnt(rt, &mut tracer, &[IS_ZERO[1], IS_ONE[1]], &[], Some(0))?;
    let least = Atom {
        subject: 2,
        op: Op::Ge,
        value: 0,
    };
    put_learnt(rt, &mut tracer, &[least], &[], Some(1))?;
    let unknown = Atom {
        subject: 3,
        op: Op::Ge,
        value: 0,
    };
    put_learnt(rt, &mut tracer, &[unknown, least], &[], None)
}

#[test]
fn what_is_settled_or_always_true_needs_no_hint(rt: HostRuntime) -> Result<(), Fail> {
    let model = valid_model(&rt, rt.alloc(), PIGEONS)?;
    assert_settled(&rt, rt.alloc(), &model)?;
    assert_always_true(&rt, rt.alloc(), &model)
}

fn at_least(subject: u32, value: i64) -> Atom {
    Atom {
        subject,
        op: Op::Ge,
        value,
    }
}

fn at_most(subject: u32, value: i64) -> Atom {
    Atom {
        subject,
        op: Op::Le,
        value,
    }
}

/// The plan of examples/production.txt.
const PLAN: &str = "\
    variables { domain: [0, 10] } variables { domain: [0, 10] } \
    constraints { linear { vars: [0, 1] coeffs: [1, 1] domain: [-9223372036854775808, 4] } } \
    constraints { linear { vars: [0, 1] coeffs: [1, 3] domain: [-9223372036854775808, 6] } } \
    objective { vars: [0, 1] coeffs: [-3, -2] scaling_factor: -1 }";

const BEST_PLAN: &str = "\
    status: OPTIMAL\nsolution: 4\nsolution: 0\nobjective_value: 12\nbest_objective_bound: 12\n";

/// The log of the best plan, as it is worked out in docs/LOGS.md.
const PLAN_LOG: &str = "\
    e 0 0<=4\no 0>=5 1>=1\ne 0 0<=3 1<=0\no 0>=4 1>=2\ne 1 0<=0 1<=1\ne 1 1<=2\no 0>=1 1>=3\nl\n";

/// Appends what follows from the objective, whose clause gets this number.
fn put_objective(
    rt: &impl Abort,
    tracer: &mut Tracer<'_>,
    clause: &[Atom],
    number: u32,
) -> Result<(), Fail> {
    assert!(rt; tracer.is_over(clause));
    let found = tracer.objective(clause)?;
    assert!(rt; found == number, "clause {found}, not {number}");
    Ok(())
}

fn assert_plan_traced(rt: &impl Abort, alloc: Global, model: &ValidModel) -> Result<(), Fail> {
    let mut tracer = Tracer::new(alloc, model)?;
    put_reason(rt, &mut tracer, 0, &[at_most(0, 4)], 0)?;
    put_objective(rt, &mut tracer, &[at_least(0, 5), at_least(1, 1)], 1)?;
    put_reason(rt, &mut tracer, 0, &[at_most(0, 3), at_most(1, 0)], 2)?;
    put_objective(rt, &mut tracer, &[at_least(0, 4), at_least(1, 2)], 3)?;
    put_reason(rt, &mut tracer, 1, &[at_most(0, 0), at_most(1, 1)], 4)?;
    put_reason(rt, &mut tracer, 1, &[at_most(1, 2)], 5)?;
    put_objective(rt, &mut tracer, &[at_least(0, 1), at_least(1, 3)], 6)?;
    put_learnt(rt, &mut tracer, &[], &[0, 1, 2, 3, 4, 5, 6], Some(7))?;
    assert_log(rt, &tracer, PLAN_LOG)
}

#[test]
fn no_plan_is_better(rt: HostRuntime) -> Result<(), Fail> {
    let model = valid_model(&rt, rt.alloc(), PLAN)?;
    assert_plan_traced(&rt, rt.alloc(), &model)?;
    assert_accepted(&rt, rt.alloc(), &model, BEST_PLAN, PLAN_LOG)
}

/// By constraints 1 and 2 the sum `2 * x0 + x1` is at most 4, and constraint 0 wants 6.
const SUMMED: &str = "\
    variables { domain: [0, 10] } variables { domain: [-5, 5] } \
    constraints { linear { vars: [0, 1] coeffs: [2, 1] domain: [6, 9223372036854775807] } } \
    constraints { linear { vars: [0] coeffs: [1] domain: [0, 2] } } \
    constraints { linear { vars: [1] coeffs: [1] domain: [-5, 0] } }";

/// Subject 2 is the sum and 1 more, and gets no number among the clauses.
const SUM_LOG: &str = "\
    s 1 0 2 1 1\ne 1 0<=2\ne 2 1<=0\nt 2 0>=3 1>=1 2<=5\nl 2<=5\ne 0 0>=3 1>=1\nl\n";

/// The sum that is subject 2.
fn defined_sum(alloc: Global) -> Result<LinearExpr, AllocError> {
    let vars = Vec::from_slice(alloc, &[0, 1])?;
    let coeffs = Vec::from_slice(alloc, &[2, 1])?;
    Ok(LinearExpr {
        vars: Listed::from_vec(vars),
        coeffs: Listed::from_vec(coeffs),
        offset: 1,
    })
}

/// Defines the sum.
fn put_sum(rt: &impl Abort, alloc: Global, tracer: &mut Tracer<'_>) -> Result<(), Fail> {
    let sum = defined_sum(alloc)?;
    assert!(rt; tracer.is_definable(&sum));
    tracer.define(sum)?;
    Ok(())
}

/// Appends what follows from the ends of the sum, whose clause gets this number.
fn put_ends(
    rt: &impl Abort,
    tracer: &mut Tracer<'_>,
    clause: &[Atom],
    number: u32,
) -> Result<(), Fail> {
    assert!(rt; tracer.is_over(clause));
    let found = tracer.ends(2, clause)?;
    assert!(rt; found == number, "clause {found}, not {number}");
    Ok(())
}

fn assert_sum_traced(rt: &impl Abort, alloc: Global, model: &ValidModel) -> Result<(), Fail> {
    let mut tracer = Tracer::new(alloc, model)?;
    put_learnt(rt, &mut tracer, &[at_least(2, -4)], &[], None)?;
    put_sum(rt, alloc, &mut tracer)?;
    put_reason(rt, &mut tracer, 1, &[at_most(0, 2)], 0)?;
    put_reason(rt, &mut tracer, 2, &[at_most(1, 0)], 1)?;
    put_ends(
        rt,
        &mut tracer,
        &[at_least(0, 3), at_least(1, 1), at_most(2, 5)],
        2,
    )?;
    put_learnt(rt, &mut tracer, &[at_most(2, 4)], &[0, 1, 2], None)?;
    put_learnt(rt, &mut tracer, &[at_most(2, 5)], &[0, 1, 2], Some(3))?;
    put_reason(rt, &mut tracer, 0, &[at_least(0, 3), at_least(1, 1)], 4)?;
    put_learnt(rt, &mut tracer, &[], &[0, 1, 4], Some(5))?;
    assert_log(rt, &tracer, SUM_LOG)
}

#[test]
fn sums_are_subjects_of_a_log(rt: HostRuntime) -> Result<(), Fail> {
    let model = valid_model(&rt, rt.alloc(), SUMMED)?;
    assert_sum_traced(&rt, rt.alloc(), &model)?;
    assert_accepted(&rt, rt.alloc(), &model, "status: INFEASIBLE\n", SUM_LOG)
}

/// Variable 0 is assumed to be 1 and variable 1 to be 0, which the clause rules out.
const ASSUMED: &str = "\
    variables { domain: [0, 1] } variables { domain: [0, 1] } \
    constraints { bool_or { literals: [-1, 1] } } assumptions: [0, -2]";

const ASSUMED_RESPONSE: &str = "\
    status: INFEASIBLE\n\
    sufficient_assumptions_for_infeasibility: 0\n\
    sufficient_assumptions_for_infeasibility: -2\n";

const ASSUMED_LOG: &str = "a 0\na 1\ne 0 0<=0 1>=1\nl\n";

fn assert_assumed_traced(rt: &impl Abort, alloc: Global, model: &ValidModel) -> Result<(), Fail> {
    assert!(rt; model.model().assumptions.as_slice().len() == 2);
    let mut tracer = Tracer::new(alloc, model)?;
    let first = tracer.assume(0)?;
    let second = tracer.assume(1)?;
    assert!(rt; first == 0 && second == 1, "clauses {first} and {second}");
    put_reason(rt, &mut tracer, 0, &[IS_ZERO[0], IS_ONE[1]], 2)?;
    put_learnt(rt, &mut tracer, &[], &[0, 2], None)?;
    put_learnt(rt, &mut tracer, &[], &[2, 1, 0], Some(3))?;
    assert_log(rt, &tracer, ASSUMED_LOG)
}

#[test]
fn assumptions_are_clauses_of_a_log(rt: HostRuntime) -> Result<(), Fail> {
    let model = valid_model(&rt, rt.alloc(), ASSUMED)?;
    assert_assumed_traced(&rt, rt.alloc(), &model)?;
    assert_accepted(&rt, rt.alloc(), &model, ASSUMED_RESPONSE, ASSUMED_LOG)
}
