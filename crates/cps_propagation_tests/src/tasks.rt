//! The task of each kind: over which subjects it is, and which spans it has.
//!
//! One model has a constraint of each kind, with expressions that are variables and others that are sums; the subjects
//! of each task are flattened into a list in the order of the body's fields, and compared with a list that was counted
//! by hand.
use crate::reading::valid_model;
use cps_instance::{Body, Instance, Span};
use cps_literal::Atom;
use cps_validate::ValidModel;
use std::alloc::{AllocError, Global};
use std::test::Fail;

/// Four variables, and a constraint of each kind, each in force where variable 1 is 1. The interval is constraint 11.
static MODEL: &str = "\
    variables { domain: [0, 1] }\n\
    variables { domain: [0, 1] }\n\
    variables { domain: [0, 9] }\n\
    variables { domain: [1, 9] }\n\
    constraints { enforcement_literal: 1 int_div { target { vars: 2 coeffs: 1 } \
        exprs { vars: 2 coeffs: 1 } exprs { vars: 3 coeffs: 1 } } }\n\
    constraints { enforcement_literal: 1 int_mod { target { vars: 2 coeffs: 1 } \
        exprs { vars: 2 coeffs: 2 } exprs { vars: 3 coeffs: 1 } } }\n\
    constraints { enforcement_literal: 1 int_prod { target { vars: 2 coeffs: 1 } } }\n\
    constraints { enforcement_literal: 1 lin_max { target { vars: 2 coeffs: 1 } \
        exprs { vars: 2 coeffs: 1 offset: 1 } } }\n\
    constraints { enforcement_literal: 1 element { linear_index { vars: 0 coeffs: 1 } \
        linear_target { vars: 2 coeffs: 1 } exprs { vars: 3 coeffs: 1 } exprs { offset: 7 } } }\n\
    constraints { enforcement_literal: 1 table { vars: [2, 3] values: [1, 2] } }\n\
    constraints { enforcement_literal: 1 all_diff { exprs { vars: 2 coeffs: 1 } exprs { vars: 3 coeffs: 1 } } }\n\
    constraints { enforcement_literal: 1 circuit { tails: 0 heads: 0 literals: -1 } }\n\
    constraints { enforcement_literal: 1 inverse { f_direct: [2, -3] f_inverse: [3, 2] } }\n\
    constraints { enforcement_literal: 1 automaton { starting_state: 0 final_states: 0 \
        transition_tail: 0 transition_head: 0 transition_label: 1 exprs { vars: 2 coeffs: 1 } } }\n\
    constraints { enforcement_literal: 1 no_overlap { intervals: 11 } }\n\
    constraints { enforcement_literal: 1 interval { start { vars: 2 coeffs: 1 } \
        end { vars: 2 coeffs: 1 offset: 7 } size { offset: 7 } } }\n\
    constraints { enforcement_literal: 1 cumulative { capacity { vars: 3 coeffs: 1 } intervals: 11 \
        demands { vars: 0 coeffs: 1 } } }\n\
    constraints { enforcement_literal: 1 reservoir { min_level: 0 max_level: 5 \
        time_exprs { vars: 2 coeffs: 1 } level_changes { vars: 3 coeffs: 1 } active_literals: 0 } }\n\
    constraints { enforcement_literal: 1 no_overlap_2d { x_intervals: 11 y_intervals: 11 } }\n\
";

fn push_all(subjects: &mut Vec<i64>, more: &[u32]) -> Result<(), AllocError> {
    for subject in more {
        subjects.push(i64::from(*subject))?;
    }
    Ok(())
}

fn push_atoms(subjects: &mut Vec<i64>, atoms: &[Atom]) -> Result<(), AllocError> {
    for atom in atoms {
        subjects.push(i64::from(atom.subject))?;
    }
    Ok(())
}

/// Of each span its start, its end, its size, its length or -1, and the subjects of its presence.
fn push_spans(subjects: &mut Vec<i64>, spans: &[Span]) -> Result<(), AllocError> {
    for span in spans {
        push_all(subjects, &[span.start, span.end, span.size])?;
        subjects.push(span.length.unwrap_or(-1))?;
        push_atoms(subjects, span.presence.as_slice())?;
    }
    Ok(())
}

/// The subjects of a kind over time.
fn push_timed(subjects: &mut Vec<i64>, body: &Body) -> Result<(), AllocError> {
    match body {
        Body::Interval { start, end, size } => push_all(subjects, &[*start, *end, *size]),
        Body::NoOverlap(spans) => push_spans(subjects, spans.as_slice()),
        Body::Cumulative {
            capacity,
            intervals,
            demands,
        } => {
            push_all(subjects, &[*capacity])?;
            push_spans(subjects, intervals.as_slice())?;
            push_all(subjects, demands.as_slice())
        }
        Body::Reservoir {
            times,
            changes,
            active,
            ..
        } => {
            push_all(subjects, times.as_slice())?;
            push_all(subjects, changes.as_slice())?;
            push_atoms(subjects, active.as_slice())
        }
        Body::NoOverlap2d { x, y } => {
            push_spans(subjects, x.as_slice())?;
            push_spans(subjects, y.as_slice())
        }
        _ => Ok(()),
    }
}

/// A body's subjects, in the order of its fields.
fn push_body(subjects: &mut Vec<i64>, body: &Body) -> Result<(), AllocError> {
    match body {
        Body::IntDiv { target, exprs }
        | Body::IntMod { target, exprs }
        | Body::IntProd { target, exprs }
        | Body::LinMax { target, exprs } => {
            push_all(subjects, &[*target])?;
            push_all(subjects, exprs.as_slice())
        }
        Body::Element {
            index,
            target,
            exprs,
        } => {
            push_all(subjects, &[*index, *target])?;
            push_all(subjects, exprs.as_slice())
        }
        Body::Table { exprs, .. } | Body::AllDiff(exprs) | Body::Automaton { exprs, .. } => {
            push_all(subjects, exprs.as_slice())
        }
        Body::Circuit { literals, .. } => push_atoms(subjects, literals.as_slice()),
        Body::Inverse { direct, inverse } => {
            push_all(subjects, direct.as_slice())?;
            push_all(subjects, inverse.as_slice())
        }
        _ => push_timed(subjects, body),
    }
}

/// The subjects of each task. Its sums are: twice variable 2 is 4, it with 1 is 5, 7 is 6, its opposite is 7, it with 7
/// is 8, and 7 again is 9.
static SUBJECTS: [&[i64]; 15] = [
    &[2, 2, 3],
    &[2, 4, 3],
    &[2],
    &[2, 5],
    &[0, 2, 3, 6],
    &[2, 3],
    &[2, 3],
    &[0],
    &[2, 7, 3, 2],
    &[2],
    &[2, 8, 9, 7, 1],
    &[2, 8, 9],
    &[3, 2, 8, 9, 7, 1, 0],
    &[2, 3, 0],
    &[2, 8, 9, 7, 1, 2, 8, 9, 7, 1],
];

/// Whether the task of a constraint is over these subjects.
fn is_over(
    alloc: Global,
    instance: &Instance,
    place: usize,
    expected: &[i64],
) -> Result<bool, AllocError> {
    let mut subjects = Vec::new(alloc);
    match instance.tasks().get(place) {
        Some(task) => push_body(&mut subjects, &task.body)?,
        None => return Ok(false),
    }
    Ok(subjects.as_slice() == expected)
}

/// The first constraint whose task is not over the subjects of its row.
fn first_wrong(
    alloc: Global,
    instance: &Instance,
    rows: &[&[i64]],
) -> Result<Option<usize>, AllocError> {
    for (place, expected) in rows.iter().enumerate() {
        if !is_over(alloc, instance, place, expected)? {
            return Ok(Some(place));
        }
    }
    Ok(None)
}

/// That, and how many subjects there are.
fn posted(alloc: Global, model: &ValidModel) -> Result<(Option<usize>, usize), AllocError> {
    let instance = Instance::of(alloc, model)?;
    let wrong = first_wrong(alloc, &instance, &SUBJECTS)?;
    Ok((wrong, instance.domains().len()))
}

#[test]
fn tasks_of_each_kind(rt: HostRuntime) -> Result<(), Fail> {
    let model = valid_model(&rt, rt.alloc(), MODEL)?;
    assert!(rt; posted(rt.alloc(), &model)? == (None, 10));
    Ok(())
}
