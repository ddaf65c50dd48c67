//! Items that follow from constraints of which each assignment in the box is tried, and how many are too many.
use crate::judging::{Items, assert_items};
use std::test::Fail;

/// Variables 0 to 2 are 0 to 2, and 3 enforces constraint 1. Constraint 2 has only two of the variables, and 3 no kind.
const THREE: &str = "\
    variables { domain: [0, 2] } variables { domain: [0, 2] } variables { domain: [0, 2] } \
    variables { domain: [0, 1] } \
    constraints { all_diff { exprs { vars: 0 coeffs: 1 } exprs { vars: 1 coeffs: 1 } \
        exprs { vars: 2 coeffs: 1 } } } \
    constraints { enforcement_literal: 3 all_diff { exprs { vars: 0 coeffs: 1 } exprs { vars: 1 coeffs: 1 } } } \
    constraints { all_diff { exprs { vars: 0 coeffs: 1 } exprs { vars: 1 coeffs: 1 } } } \
    constraints { }";

const DIFFERENT: Items = Items {
    model: THREE,
    response: "status: INFEASIBLE\n",
    rows: "\
+ e 0 0>=2 1>=2 2>=2
- e 0 0>=2 1>=2
+ e 0 0!=1 1!=1
- e 0 0!=1 1!=0
- e 0
+ e 1 3<=0 0!=1 1!=1
- e 1 0!=1 1!=1
- e 1 3>=1 0!=1 1!=1
- e 3
- e 3 0>=1
+ e 3 0>=0
- e 4 0>=0
",
};

/// Only assignments at which the clause's sums lie in the box are tried. Subject 4 is the sum of variables 0 and 1: at
/// most 0 it has both at 0, at most 1 it leaves 0 and 1, and other than 1 and 3 it leaves 0 and 2. In the last rows it
/// is twice variable 0, which is never 1.
const WITH_SUMS: Items = Items {
    model: THREE,
    response: "status: INFEASIBLE\n",
    rows: "\
+ s 0 0 1 1 1; e 2 4>=1
- s 0 0 1 1 1; e 2 4>=2
+ s 0 0 1 1 1; e 2 4<=3
- s 0 0 1 1 1; e 2 4=1 4=3
+ s 0 0 1 1 1; e 2 4=1 4=2 4=3
- s 0 0 1 1 1; e 2
- s 0 0 1 1 1; s 0 0 1; e 2 5>=1
+ s 0 0 1 1 1; s 0 0 1; e 2 5>=1 4>=1
+ s 0 0 1 1 1; s 0 2 1; e 2 4>=1 5>=1
- s 0 0 1 1 1; s 0 2 1; e 3 4>=1 5>=1
+ s 0 0 2; e 3 4!=1
- s 0 0 2; e 3 4!=2
",
};

/// Two intervals that overlap wherever they are, since both start by 15 and end from 16 on. Variables 0 and 1 are the
/// first one's start and end, 2 and 3 the second's, each of 16 values; 4 and 5 are their sizes, of 101.
const INTERVALS: &str = "\
    variables { domain: [0, 15] } variables { domain: [16, 31] } variables { domain: [0, 15] } \
    variables { domain: [16, 31] } variables { domain: [0, 100] } variables { domain: [0, 100] } \
    constraints { interval { start { vars: 0 coeffs: 1 } end { vars: 1 coeffs: 1 } \
        size { vars: 4 coeffs: 1 } } } \
    constraints { interval { start { vars: 2 coeffs: 1 } end { vars: 3 coeffs: 1 } \
        size { vars: 5 coeffs: 1 } } } \
    constraints { no_overlap { intervals: [0, 1] } }";

/// The 65,536 assignments of the four are tried, whatever the sizes have: they are not read. With three of the four
/// fixed there are 16, and with both sizes there would be too many. A sum that the clause names is read too, and so its
/// variables count, each once: 101 for a size. An interval by itself reads its size.
const MANY: Items = Items {
    model: INTERVALS,
    response: "status: INFEASIBLE\n",
    rows: "\
+ e 2
+ e 2 1>=17 2>=1 3>=17
+ e 2 1>=17 2>=1 3>=17 4>=1
+ e 2 1>=17 2>=1 3>=17 4>=1 5<=99
+ s 0 0 1 1 1; e 2 2>=1 3>=17 6>=30
- s 0 4 1; e 2 6>=50
- s 0 4 1; e 2 3>=17 6>=2
+ s 0 4 1; e 2 2>=1 3>=17 6>=2
- s 0 4 1; e 2 4>=50 6>=2
+ s 0 4 1; e 2 1>=17 2>=1 3>=17 4>=1
- e 0
+ e 0 0>=1 4<=31
- e 0 0>=1 4<=30
",
};

/// With one value more for one start there are 69,632. A clause that takes one away in the midst of the domain leaves
/// as many as before.
const TOO_MANY: Items = Items {
    model: "\
        variables { domain: [-1, 15] } variables { domain: [16, 31] } variables { domain: [0, 15] } \
        variables { domain: [16, 31] } variables { domain: [0, 100] } variables { domain: [0, 100] } \
        constraints { interval { start { vars: 0 coeffs: 1 } end { vars: 1 coeffs: 1 } \
        size { vars: 4 coeffs: 1 } } } \
        constraints { interval { start { vars: 2 coeffs: 1 } end { vars: 3 coeffs: 1 } \
        size { vars: 5 coeffs: 1 } } } \
        constraints { no_overlap { intervals: [0, 1] } }",
    response: "status: INFEASIBLE\n",
    rows: "\
- e 2
+ e 2 0=7
- e 2 4=7
+ e 2 4<=100
",
};

#[test]
fn assignments_are_tried(rt: HostRuntime) -> Result<(), Fail> {
    assert_items(&rt, rt.alloc(), &[DIFFERENT, WITH_SUMS])
}

#[test]
fn at_most_65_536_assignments_are_tried(rt: HostRuntime) -> Result<(), Fail> {
    assert_items(&rt, rt.alloc(), &[MANY])
}

#[test]
fn more_are_not_tried(rt: HostRuntime) -> Result<(), Fail> {
    assert_items(&rt, rt.alloc(), &[TOO_MANY])
}

/// Constraint 0: variable 0 is variable 1 divided by variable 2 and 1. Constraint 1: what that leaves. Constraint 2:
/// variable 0 is the product of 1 and 2, and constraint 3: their greatest value.
const ARITHMETIC: Items = Items {
    model: "\
        variables { domain: [0, 3] } variables { domain: [0, 3] } variables { domain: [0, 3] } \
        constraints { int_div { target { vars: 0 coeffs: 1 } exprs { vars: 1 coeffs: 1 } \
            exprs { vars: 2 coeffs: 1 offset: 1 } } } \
        constraints { int_mod { target { vars: 0 coeffs: 1 } exprs { vars: 1 coeffs: 1 } \
            exprs { vars: 2 coeffs: 1 offset: 1 } } } \
        constraints { int_prod { target { vars: 0 coeffs: 1 } exprs { vars: 1 coeffs: 1 } \
            exprs { vars: 2 coeffs: 1 } } } \
        constraints { lin_max { target { vars: 0 coeffs: 1 } exprs { vars: 1 coeffs: 1 } \
            exprs { vars: 2 coeffs: 1 } } }",
    response: "status: INFEASIBLE\n",
    rows: "\
+ e 0 0!=2 1>=2
- e 0 0!=2 1>=3
- e 1 0<=2
+ e 1 0<=2 2>=3
+ e 1 0<=2 1>=3
+ e 2 0<=2 1=1 1=3
- e 2 0<=2 1=1
+ e 3 0<=1 1>=2 2>=2
- e 3 0<=1 1>=2
",
};

/// Constraint 0: variable 1 is 3, 5 or 7 by variable 0. Constraint 1: the two are a row of a table, and constraint 2:
/// they are none. Constraint 3: variables 0 and 1 are each other's inverse, where both are 0 or 1. Constraint 4: the
/// labels 1 and 1 lead to the final state, no others do.
const LOOKED_UP: Items = Items {
    model: "\
        variables { domain: [0, 2] } variables { domain: [0, 9] } variables { domain: [0, 1] } \
        variables { domain: [0, 1] } \
        constraints { element { linear_index { vars: 0 coeffs: 1 } linear_target { vars: 1 coeffs: 1 } \
            exprs { offset: 3 } exprs { offset: 5 } exprs { offset: 7 } } } \
        constraints { table { exprs { vars: 0 coeffs: 1 } exprs { vars: 1 coeffs: 1 } values: [0, 1, 1, 2, 2, 0] } } \
        constraints { table { exprs { vars: 0 coeffs: 1 } exprs { vars: 1 coeffs: 1 } values: [0, 1, 1, 2, 2, 0] \
            negated: true } } \
        constraints { inverse { f_direct: [0, 1] f_inverse: [0, 1] } } \
        constraints { automaton { starting_state: 0 final_states: 1 transition_tail: [0, 1, 1] \
            transition_head: [1, 0, 1] transition_label: [1, 0, 1] exprs { vars: 2 coeffs: 1 } \
            exprs { vars: 3 coeffs: 1 } } }",
    response: "status: INFEASIBLE\n",
    rows: "\
+ e 0 1=3 1=5 1=7
- e 0 1=3 1=5
+ e 0 0!=1 1=5
- e 0 0!=1 1=3
+ e 0 0=0 1>=5
- e 0 0=0 1>=6
+ e 1 0!=0 1=1
- e 1 0!=0 1=2
+ e 1 1<=2
- e 1 1>=1
+ e 2 0!=0 1!=1
- e 2 0!=0 1!=2
- e 2 0!=0
+ e 3 0!=0 1=1
- e 3 0!=0
+ e 3 0<=1
+ e 4 3>=1
+ e 4 2>=1
- e 4 2<=0
",
};

/// Variables 0 to 2 are literals, 3 and 4 times. Constraint 0: a circuit of three arcs. Constraint 1: an interval from
/// 0 to 3, present where variable 0 is 1; 2: one of size 2 from variable 3 on. Constraint 3: two events of 1, which
/// cannot both be active. Constraints 4 and 6: the two intervals at a capacity of 1, and as boxes that overlap in y.
const TIMED: Items = Items {
    model: "\
        variables { domain: [0, 1] } variables { domain: [0, 1] } variables { domain: [0, 1] } \
        variables { domain: [0, 3] } variables { domain: [0, 3] } \
        constraints { circuit { tails: [0, 1, 2] heads: [1, 2, 0] literals: [0, 1, 2] } } \
        constraints { enforcement_literal: 0 interval { end { offset: 3 } size { offset: 3 } } } \
        constraints { interval { start { vars: 3 coeffs: 1 } end { vars: 3 coeffs: 1 offset: 2 } \
            size { offset: 2 } } } \
        constraints { reservoir { max_level: 1 time_exprs { vars: 3 coeffs: 1 } time_exprs { vars: 4 coeffs: 1 } \
            level_changes { offset: 1 } level_changes { offset: 1 } active_literals: [0, 1] } } \
        constraints { cumulative { capacity { offset: 1 } intervals: [1, 2] demands { offset: 1 } \
            demands { offset: 1 } } } \
        constraints { interval { end { offset: 3 } size { offset: 3 } } } \
        constraints { no_overlap_2d { x_intervals: [1, 2] y_intervals: [5, 5] } }",
    response: "status: INFEASIBLE\n",
    rows: "\
+ e 0 0>=1
+ e 0 2>=1
- e 0 0<=0
- e 0
+ e 3 0<=0 1<=0
- e 3 0<=0
- e 3 0>=1 1<=0
+ e 4 0<=0 3>=3
- e 4 0<=0
- e 4 3>=3
- e 4 0<=0 3>=3 3>=4 5>=0
+ e 6 0<=0 3>=3
- e 6 0<=0 3<=2
- e 6 3>=3
- e 2
- e 5
- e 1 0<=0
",
};

#[test]
fn each_kind_is_tried(rt: HostRuntime) -> Result<(), Fail> {
    assert_items(&rt, rt.alloc(), &[ARITHMETIC, LOOKED_UP, TIMED])
}
