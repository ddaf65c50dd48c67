//! What branchers choose first, over small domains with gaps.
//!
//! The atoms were found by hand from what strategies, hints and learnt clauses ask for.

use crate::models::valid_model;
use cps_branch::{ActivityBrancher, Brancher, FixedBrancher, Guidance};
use cps_instance::Instance;
use cps_literal::{Atom, Op};
use cps_trail::Store;
use cps_validate::ValidModel;
use std::alloc::{AllocError, Global};
use std::process::Abort;
use std::test::Fail;

/// Variables with the values 0, 1, 5, 6, 9, then 2 to 5, then -3 and 9 to 12, then 7 alone, then -4 to -1.
const FIVE: &str = "variables { domain: [0, 1, 5, 6, 9, 9] } variables { domain: [2, 5] } \
    variables { domain: [-3, -3, 9, 12] } variables { domain: [7, 7] } variables { domain: [-4, -1] } ";

/// What is chosen first in order, over an instance without sums.
fn first_in_order(alloc: Global, instance: &Instance) -> Result<Option<Atom>, AllocError> {
    if instance.domains().len() != instance.variable_count() {
        return Err(AllocError);
    }
    let store = Store::new(alloc, instance.domains())?;
    let mut brancher = FixedBrancher::of(alloc, instance)?;
    Ok(brancher.choose(&store))
}

/// And by activity, after a clause.
fn first_by_activity(
    alloc: Global,
    instance: &Instance,
    clause: &[Atom],
) -> Result<Option<Atom>, AllocError> {
    if instance.domains().len() != instance.variable_count() {
        return Err(AllocError);
    }
    let store = Store::new(alloc, instance.domains())?;
    let mut brancher = ActivityBrancher::of(alloc, instance)?;
    brancher.learnt(clause);
    Ok(brancher.choose(&store))
}

/// What is chosen first in order, over a model.
fn in_order(alloc: Global, model: &ValidModel) -> Result<Option<Atom>, AllocError> {
    let instance = Instance::of(alloc, model)?;
    first_in_order(alloc, &instance)
}

/// And by activity, after a clause.
fn by_activity(
    alloc: Global,
    model: &ValidModel,
    clause: &[Atom],
) -> Result<Option<Atom>, AllocError> {
    let instance = Instance::of(alloc, model)?;
    first_by_activity(alloc, &instance, clause)
}

/// A strategy, and what is decided by it, or after it in the order of the variables.
struct Row {
    strategy: &'static str,
    decided: Atom,
}

/// What is decided by a strategy over the five variables.
fn decided(rt: &impl Abort, alloc: Global, strategy: &str) -> Result<Option<Atom>, Fail> {
    let model = valid_model(rt, alloc, FIVE, strategy)?;
    Ok(in_order(alloc, &model)?)
}

fn assert_decided(rt: &impl Abort, alloc: Global, rows: &[Row]) -> Result<(), Fail> {
    for row in rows {
        let found = decided(rt, alloc, row.strategy)?;
        assert!(rt; found == Some(row.decided), "{}", row.strategy);
    }
    Ok(())
}

static CHOICES: [Row; 12] = [
    Row {
        strategy: "search_strategy { variables: [3, 1, 0, 2] \
            variable_selection_strategy: CHOOSE_FIRST domain_reduction_strategy: SELECT_MIN_VALUE }",
        decided: atom!(1, Le, 2),
    },
    Row {
        strategy: "search_strategy { variables: [3, 1, 0, 2] \
            variable_selection_strategy: CHOOSE_FIRST domain_reduction_strategy: SELECT_UPPER_HALF }",
        decided: atom!(1, Ge, 4),
    },
    Row {
        strategy: "search_strategy { variables: [3, 1, 0, 2] \
            variable_selection_strategy: CHOOSE_LOWEST_MIN domain_reduction_strategy: SELECT_MAX_VALUE }",
        decided: atom!(2, Ge, 12),
    },
    Row {
        strategy: "search_strategy { variables: [3, 1, 0, 2] \
            variable_selection_strategy: CHOOSE_LOWEST_MIN domain_reduction_strategy: SELECT_LOWER_HALF }",
        decided: atom!(2, Le, 4),
    },
    Row {
        strategy: "search_strategy { variables: [3, 1, 0, 2] \
            variable_selection_strategy: CHOOSE_HIGHEST_MAX domain_reduction_strategy: SELECT_MEDIAN_VALUE }",
        decided: atom!(2, Eq, 10),
    },
    Row {
        strategy: "search_strategy { variables: [3, 1, 0, 2] \
            variable_selection_strategy: CHOOSE_HIGHEST_MAX domain_reduction_strategy: SELECT_MIN_VALUE }",
        decided: atom!(2, Le, -3),
    },
    Row {
        strategy: "search_strategy { variables: [3, 1, 0, 2] \
            variable_selection_strategy: CHOOSE_MIN_DOMAIN_SIZE domain_reduction_strategy: SELECT_MEDIAN_VALUE }",
        decided: atom!(1, Eq, 3),
    },
    Row {
        strategy: "search_strategy { variables: [3, 1, 0, 2] \
            variable_selection_strategy: CHOOSE_MIN_DOMAIN_SIZE domain_reduction_strategy: SELECT_MAX_VALUE }",
        decided: atom!(1, Ge, 5),
    },
    Row {
        strategy: "search_strategy { variables: [3, 1, 0, 2] \
            variable_selection_strategy: CHOOSE_MAX_DOMAIN_SIZE domain_reduction_strategy: SELECT_MEDIAN_VALUE }",
        decided: atom!(0, Eq, 5),
    },
    Row {
        strategy: "search_strategy { variables: [3, 1, 0, 2] \
            variable_selection_strategy: CHOOSE_MAX_DOMAIN_SIZE domain_reduction_strategy: SELECT_UPPER_HALF }",
        decided: atom!(0, Ge, 5),
    },
    // below 0
    Row {
        strategy: "search_strategy { variables: 4 \
            variable_selection_strategy: CHOOSE_FIRST domain_reduction_strategy: SELECT_LOWER_HALF }",
        decided: atom!(4, Le, -3),
    },
    // after the strategy, whose only subject has one value
    Row {
        strategy: "search_strategy { variables: 3 \
            variable_selection_strategy: CHOOSE_FIRST domain_reduction_strategy: SELECT_MAX_VALUE }",
        decided: atom!(0, Le, 0),
    },
];

#[test]
fn strategies_take_and_select(rt: HostRuntime) -> Result<(), Fail> {
    assert_decided(&rt, rt.alloc(), &CHOICES)
}

/// What is chosen first in order and by activity.
fn both(rt: &impl Abort, alloc: Global, text: &str) -> Result<(Option<Atom>, Option<Atom>), Fail> {
    let model = valid_model(rt, alloc, text, "")?;
    let first = in_order(alloc, &model)?;
    Ok((first, by_activity(alloc, &model, &[])?))
}

#[test]
fn nothing_is_chosen_without_variables(rt: HostRuntime) -> Result<(), Fail> {
    assert!(rt; both(&rt, rt.alloc(), "")? == (None, None));
    Ok(())
}

/// A variable from 0 to 9, with a hint of 7.
const SEVEN: &str = "variables { domain: [0, 9] } solution_hint { vars: 0 values: 7 }";

#[test]
fn active_follows_the_hint(rt: HostRuntime) -> Result<(), Fail> {
    let wanted = (Some(atom!(0, Le, 0)), Some(atom!(0, Eq, 7)));
    assert!(rt; both(&rt, rt.alloc(), SEVEN)? == wanted);
    Ok(())
}

/// A hint of a value in the domain, of one in a gap, and by a negated reference; of the largest variable it says
/// nothing.
const HINT: &str = "solution_hint { vars: [1, 0, -5] values: [4, 3, 2] }";

/// Whether these are the hints that a brancher over an instance goes by.
fn are_hints(
    alloc: Global,
    instance: &Instance,
    wanted: &[Option<i64>],
) -> Result<bool, AllocError> {
    let brancher = ActivityBrancher::of(alloc, instance)?;
    match &brancher.into_guidance() {
        Guidance::Hinted(hints) => Ok(hints.as_slice() == wanted),
        Guidance::Steered(_) => Ok(false),
    }
}

/// Whether these are the hints of a model.
fn has_hints(
    alloc: Global,
    model: &ValidModel,
    wanted: &[Option<i64>],
) -> Result<bool, AllocError> {
    let instance = Instance::of(alloc, model)?;
    are_hints(alloc, &instance, wanted)
}

#[test]
fn hints_are_those_of_the_model(rt: HostRuntime) -> Result<(), Fail> {
    let model = valid_model(&rt, rt.alloc(), FIVE, HINT)?;
    let wanted = [Some(3), Some(4), None, None, Some(-2)];
    assert!(rt; has_hints(rt.alloc(), &model, &wanted)?);
    Ok(())
}

/// A subject of which a clause speaks, and what is chosen after the clause by the hints.
struct Hinted {
    subject: u32,
    decided: Atom,
}

static BY_HINTS: [Hinted; 5] = [
    Hinted {
        subject: 0,
        decided: atom!(0, Le, 0),
    },
    Hinted {
        subject: 1,
        decided: atom!(1, Eq, 4),
    },
    Hinted {
        subject: 2,
        decided: atom!(2, Le, -3),
    },
    // It is fixed, and so the first of the others is chosen.
    Hinted {
        subject: 3,
        decided: atom!(0, Le, 0),
    },
    Hinted {
        subject: 4,
        decided: atom!(4, Eq, -2),
    },
];

fn assert_hinted(
    rt: &impl Abort,
    alloc: Global,
    model: &ValidModel,
    rows: &[Hinted],
) -> Result<(), Fail> {
    for row in rows {
        let found = by_activity(alloc, model, &[one!(row.subject)])?;
        assert!(rt; found == Some(row.decided), "{}", row.subject);
    }
    Ok(())
}

#[test]
fn hints_are_tried_where_they_can_be(rt: HostRuntime) -> Result<(), Fail> {
    let model = valid_model(&rt, rt.alloc(), FIVE, HINT)?;
    assert_hinted(&rt, rt.alloc(), &model, &BY_HINTS)
}
