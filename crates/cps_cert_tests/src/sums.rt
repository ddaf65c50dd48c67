//! Items that follow from the ends of sums: linear constraints, the objective, and sums that the log defines.
//!
//! In each table some ends just touch a number that is admitted, and others just miss it.
use crate::judging::{Items, assert_items};
use std::test::Fail;

/// Variable 0 is 0 to 10, 1 is -5 to 5, 2 is 0 to 2 or 8 to 10, and 3 enforces constraint 4.
const LINEAR: &str = "\
    variables { domain: [0, 10] } variables { domain: [-5, 5] } variables { domain: [0, 2, 8, 10] } \
    variables { domain: [0, 1] } \
    constraints { linear { vars: [0, 1] coeffs: [2, 3] domain: [-9223372036854775808, 4] } } \
    constraints { linear { vars: [0, 1] coeffs: [1, 1] domain: [-5, 0, 8, 15] } } \
    constraints { linear { vars: [0, -2] coeffs: [1, 1] domain: [10, 20] } } \
    constraints { linear { vars: [2] coeffs: [1] domain: [3, 7] } } \
    constraints { enforcement_literal: 3 linear { vars: [0] coeffs: [1] domain: [3, 5] } } \
    constraints { linear { vars: [0] coeffs: [1] } } \
    constraints { linear { vars: [0, 0] coeffs: [1, -1] domain: [1, 1] } } \
    constraints { linear { vars: [0] coeffs: [0] domain: [1, 1] } } \
    constraints { linear { domain: [0, 0] } } \
    constraints { linear { domain: [1, 1] } } \
    constraints { linear { vars: [0] coeffs: [1] \
        domain: [-9223372036854775808, -1, 11, 9223372036854775807] } }";

/// Of constraint 0 the least sum decides; of constraint 1 both ends, which lie in a gap of its domain or at an edge of
/// it; of constraint 2, `x0 - x1`, the greatest.
const ENDS: Items = Items {
    model: LINEAR,
    response: "status: INFEASIBLE\n",
    rows: "\
+ e 0 0<=4 1<=-2
+ e 0 0<=3 1<=-2
- e 0 0<=4 1<=-3
- e 0 0<=4
- e 0 0>=5 1>=2
- e 0
+ e 1 0<=2 0>=6 1<=-3 1>=3
- e 1 0<=2 0>=7 1<=-3 1>=3
- e 1 0<=1 0>=6 1<=-3 1>=3
- e 1 0>=6 1<=-3 1>=3
+ e 2 1<=0
- e 2 1<=-1
+ e 2 0>=5
- e 2 0>=6
",
};

/// The gap of variable 2 is not seen by ends that lie on both sides of it, nor that one variable stands in two terms.
/// An enforcement literal has to be fixed. An empty domain admits no sum, and no terms sum to 0.
const SHAPES: Items = Items {
    model: LINEAR,
    response: "status: INFEASIBLE\n",
    rows: "\
+ e 3 2<=2
+ e 3 2<=7
+ e 3 2>=8
+ e 3 2>=3
- e 3
- e 3 2<=1
+ e 3 2!=2
+ e 4 3<=0 0>=3
+ e 4 3<=0 0<=5
- e 4 3<=0 0>=4
- e 4 0>=3
- e 4 3>=1 0>=3
+ e 5
- e 6
- e 6 0<=8
+ e 6 0!=3
+ e 6 0<=9
+ e 7
- e 8
- e 8 0>=1
+ e 9
+ e 10
- e 11
",
};

#[test]
fn sums_of_constraints_lie_outside(rt: HostRuntime) -> Result<(), Fail> {
    assert_items(&rt, rt.alloc(), &[ENDS, SHAPES])
}

/// Variables 0 to 10, -5 to 5, and 0.
const PLAIN: &str =
    "variables { domain: [0, 10] } variables { domain: [-5, 5] } variables { domain: [0, 0] }";

/// The offset and each coefficient times the greatest magnitude of its variable add up to at most 2^62 - 1, which is
/// 4611686018427387903: ten times 461168601842738790, and 3.
const DEFINED: Items = Items {
    model: PLAIN,
    response: "status: INFEASIBLE\n",
    rows: "\
+ s 0
+ s -7 0 -2
+ s 0 0 1 1 1
+ s 0 0 1 0 -1
+ s 1000000000
+ s 3 0 461168601842738790
- s 4 0 461168601842738790
+ s -3 0 -461168601842738790
- s -4 0 -461168601842738790
- s 0 0 461168601842738791
+ s 3 1 461168601842738790 0 230584300921369395
- s 4 1 461168601842738790 0 230584300921369395
+ s 4611686018427387903
- s 4611686018427387904
- s 9223372036854775808
- s -9223372036854775808
+ s 0 2 4611686018427387904
+ s 0 2 -4611686018427387904
- s 0 2 4611686018427387905
- s 0 3 1
- s 0 -1 1
- s 0 0
- s 0 0 1 1
- s
+ s 0 0 1; s 0 1 1
- s 0 0 1; s 0 3 1
",
};

/// Subject 3 is 1 + 2 * x0 + x1, from -4 to 26. The sum of 0 to 10 by itself is subject 4.
const SPLIT: Items = Items {
    model: PLAIN,
    response: "status: INFEASIBLE\n",
    rows: "\
+ s 1 0 2 1 1; t 3 0<=4 3>=6
- s 1 0 2 1 1; t 3 0<=4 3>=7
+ s 1 0 2 1 1; t 3 0>=3 1>=1 3<=5
- s 1 0 2 1 1; t 3 0>=3 1>=1 3<=4
+ s 1 0 2 1 1; t 3 0<=4 3!=5
- s 1 0 2 1 1; t 3 0<=4 3!=6
- s 1 0 2 1 1; t 3 0<=4 3=5
+ s 1 0 2 1 1; t 3 3<=26
+ s 1 0 2 1 1; t 3 3>=-4
- s 1 0 2 1 1; t 3 3<=25
- s 1 0 2 1 1; t 3 3>=-3
- s 1 0 2 1 1; t 3
+ s 1 0 2 1 1; s 0 0 1; t 4 0<=4 4>=5
- s 1 0 2 1 1; s 0 0 1; t 4 0<=4 4>=6
- s 1 0 2 1 1; s 0 0 1; t 3 0<=4 4>=5
- t 3 0<=4 3>=6
- s 1 0 2 1 1; t 2 0<=4 3>=6
- s 1 0 2 1 1; t 4 0<=4 3>=6
- s 1 0 2 1 1; t 2 0>=0
- s 1 0 2 1 1; t 4 0>=0
- s 1 0 2 1 1; t 3 0>=0 4>=0
+ s 1 0 2 1 1; t 3 0>=0
",
};

/// A linear constraint is judged by its variables alone, whatever the box leaves to sums of them.
const UNNARROWED: Items = Items {
    model: "variables { domain: [0, 10] } variables { domain: [-5, 5] } \
        constraints { linear { vars: [0, 1] coeffs: [1, 1] domain: [-5, 4] } }",
    response: "status: INFEASIBLE\n",
    rows: "\
+ s 0 0 1 1 1; e 0 0<=9
- s 0 0 1 1 1; e 0 2<=4
+ s 0 0 1 1 1; e 0 2<=15
- s 0 0 1 1 1; e 0 2<=14
",
};

#[test]
fn sums_are_defined_and_split(rt: HostRuntime) -> Result<(), Fail> {
    assert_items(&rt, rt.alloc(), &[DEFINED, SPLIT, UNNARROWED])
}

/// x0 + 2 * x1, of which the sum 5 at 3 and 1 is shown as 3 * (5 + 100).
const MOVED: Items = Items {
    model: "variables { domain: [0, 10] } variables { domain: [0, 2, 8, 10] } \
        objective { vars: [0, 1] coeffs: [1, 2] offset: 100 scaling_factor: 3 }",
    response: "status: OPTIMAL\nsolution: 3\nsolution: 1\nobjective_value: 315\nbest_objective_bound: 315\n",
    rows: "\
+ o 0<=4
- o 0<=3
+ o 1<=2
+ o 1<=7
- o 1<=1
+ o 1<=1 0<=0
- o 1<=0 0<=1
+ o 1<=0 0<=2
- o 0>=5
- o
",
};

/// The same sum where it has to lie in 0 to 2, 6 to 9 or 20 to 30: one between these is no solution's.
const HOLED: &str = "variables { domain: [0, 10] } variables { domain: [0, 2, 8, 10] } \
    objective { vars: [0, 1] coeffs: [1, 2] domain: [0, 2, 6, 9, 20, 30] }";

const ADMITTED: Items = Items {
    model: HOLED,
    response: "status: INFEASIBLE\n",
    rows: "\
+ o 0<=2 0>=6 1>=1
- o 0<=1 0>=6 1>=1
- o 0<=2 0>=7 1>=1
+ o 0<=9 1>=8
- o 0<=9
- o 0<=8 1>=1
- o
",
};

/// At 6 and 0 the sum is 6, and sums below it that are admitted are 0 to 2.
const ADMITTED_BELOW: Items = Items {
    model: HOLED,
    response: "status: OPTIMAL\nsolution: 6\nsolution: 0\nobjective_value: 6\nbest_objective_bound: 6\n",
    rows: "\
+ o 0<=2
- o 0<=1
+ o 1<=1
- o 1<=0
- o
",
};

/// Without an objective, and with one without terms, the sum is 0: none is below it, and 0 itself is at issue where
/// there is to be no solution at all.
const NONE_BELOW: Items = Items {
    model: "variables { domain: [0, 1] }",
    response: "status: OPTIMAL\nsolution: 1\n",
    rows: "\
+ o
+ o 0>=1
- o 1>=1
",
};

const NOTHING_SHOWN: Items = Items {
    model: "variables { domain: [0, 1] }",
    response: "status: INFEASIBLE\n",
    rows: "\
- o
- o 0>=1
+ o 0>=0
",
};

const EMPTY_BELOW: Items = Items {
    model: "objective { offset: 7 }",
    response: "status: OPTIMAL\nobjective_value: 7\nbest_objective_bound: 7\n",
    rows: "+ o\n",
};

const EMPTY_SUM: Items = Items {
    model: "objective { offset: 7 }",
    response: "status: INFEASIBLE\n",
    rows: "- o\n",
};

const EMPTY_OUTSIDE: Items = Items {
    model: "objective { domain: [1, 1] }",
    response: "status: INFEASIBLE\n",
    rows: "+ o\n",
};

#[test]
fn objectives_at_issue_lie_outside(rt: HostRuntime) -> Result<(), Fail> {
    assert_items(&rt, rt.alloc(), &[MOVED, ADMITTED, ADMITTED_BELOW])?;
    assert_items(&rt, rt.alloc(), &[NONE_BELOW, NOTHING_SHOWN])?;
    assert_items(&rt, rt.alloc(), &[EMPTY_BELOW, EMPTY_SUM, EMPTY_OUTSIDE])
}
