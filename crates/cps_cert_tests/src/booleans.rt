//! Items that follow from Boolean constraints, by the literals that the clause's box fixes.
//!
//! The box of a clause is where all its atoms are false: that of `0>=1 2<=0` has variable 0 at 0 and variable 2 at 1.
use crate::judging::{Items, assert_items};
use std::test::Fail;

/// Variables 0 to 4 are open, and 5 is 1. The literal -3 is true where variable 2 is 0.
const MODEL: &str = "\
    variables { domain: [0, 1] } variables { domain: [0, 1] } variables { domain: [0, 1] } \
    variables { domain: [0, 1] } variables { domain: [0, 1] } variables { domain: [1, 1] } \
    constraints { bool_or { literals: [0, 1, -3] } } \
    constraints { bool_and { literals: [0, -2] } } \
    constraints { at_most_one { literals: [0, 1, -3] } } \
    constraints { exactly_one { literals: [0, 1, -3] } } \
    constraints { bool_xor { literals: [0, 1, -3] } } \
    constraints { enforcement_literal: 4 bool_or { literals: [0, 1] } } \
    constraints { enforcement_literal: [4, -4] at_most_one { literals: [0, 0] } } \
    constraints { bool_or { } } \
    constraints { bool_and { } } \
    constraints { at_most_one { } } \
    constraints { exactly_one { } } \
    constraints { bool_xor { } } \
    constraints { bool_or { literals: [-6, 0] } } \
    constraints { bool_and { literals: [5, 5] } } \
    constraints { exactly_one { literals: [0, 0, 1] } }";

/// A clause of literals is refuted where all are false, and a conjunction where one is.
const ALL_OR_ONE: Items = Items {
    model: MODEL,
    response: "status: INFEASIBLE\n",
    rows: "\
+ e 0 0>=1 1>=1 2<=0
+ e 0 2<=0 1>=1 0>=1
+ e 0 0!=0 1=1 2=0
+ e 0 0>=1 1>=1 2<=0 3>=1
- e 0 0>=1 1>=1
- e 0 0>=1 1>=1 2>=1
- e 0 0<=0 1>=1 2<=0
- e 0
+ e 1 0>=1
+ e 1 1<=0
+ e 1 0>=1 1>=1
- e 1 0<=0
- e 1 0<=0 1>=1
- e 1 2>=1
- e 1
+ e 7
+ e 7 0>=1
- e 8
- e 8 0>=1
+ e 12 0>=1
- e 12
- e 12 0<=0
- e 13
",
};

/// At two positions true; the same literal may stand at both.
const COUNTED: Items = Items {
    model: MODEL,
    response: "status: INFEASIBLE\n",
    rows: "\
+ e 2 0<=0 1<=0
+ e 2 0<=0 2>=1
+ e 2 0<=0 1<=0 2>=1
- e 2 0<=0
- e 2 0<=0 2<=0
- e 2 0>=1 1>=1 2<=0
- e 2
+ e 3 0<=0 1<=0
+ e 3 1<=0 2>=1
+ e 3 0>=1 1>=1 2<=0
- e 3 0>=1 1>=1
- e 3 0<=0 1>=1 2<=0
- e 3
- e 9
+ e 10
+ e 14 0<=0
+ e 14 0>=1 1>=1
- e 14 1<=0
- e 14 1<=0 0>=1
",
};

/// An even number of literals true, none of them open.
const PARITIES: Items = Items {
    model: MODEL,
    response: "status: INFEASIBLE\n",
    rows: "\
+ e 4 0>=1 1>=1 2<=0
+ e 4 0<=0 1<=0 2<=0
+ e 4 0>=1 1<=0 2>=1
- e 4 0<=0 1>=1 2<=0
- e 4 0<=0 1<=0 2>=1
- e 4 0<=0 1<=0
- e 4
+ e 11
",
};

/// Each enforcement literal has to be fixed true.
const ENFORCED: Items = Items {
    model: MODEL,
    response: "status: INFEASIBLE\n",
    rows: "\
+ e 5 4<=0 0>=1 1>=1
- e 5 0>=1 1>=1
- e 5 4>=1 0>=1 1>=1
- e 5 4<=0 0>=1
+ e 6 4<=0 3>=1 0<=0
- e 6 4<=0 3<=0 0<=0
- e 6 4<=0 0<=0
- e 6 3>=1 0<=0
- e 6 4<=0 3>=1 0>=1
",
};

/// A clause that cannot be false is accepted where its line is well formed: of constraint 8 nothing else is.
const ALWAYS_TRUE: Items = Items {
    model: MODEL,
    response: "status: INFEASIBLE\n",
    rows: "\
+ e 8 0>=1 0<=0
+ e 8 3>=0
+ e 8 3<=1
+ e 8 3=0 3=1
+ e 8 3!=0 3!=1
+ e 8 5>=1
+ e 8 5!=0
- e 8 5!=1
- e 8 5<=0
- e 15 3>=0
- e 8 3>=0 6>=1
+ o 3>=0
- o 3>=1
",
};

#[test]
fn boolean_constraints_refute_boxes(rt: HostRuntime) -> Result<(), Fail> {
    assert_items(
        &rt,
        rt.alloc(),
        &[ALL_OR_ONE, COUNTED, PARITIES, ENFORCED, ALWAYS_TRUE],
    )
}
