//! Learnt clauses, which follow by unit propagation, and assumptions.
//!
//! Constraint 0 cannot hold, so each clause may be written as its reason: a table shows what follows from any clauses.
use crate::judging::{Items, assert_items};
use std::test::Fail;

/// Variables 0 to 3 are 0 to 5, and 4 is 0 or 5.
const ANY: &str = "\
    variables { domain: [0, 5] } variables { domain: [0, 5] } variables { domain: [0, 5] } \
    variables { domain: [0, 5] } variables { domain: [0, 0, 5, 5] } \
    constraints { bool_or { } }";

/// Atoms are forced one after another, whatever the order of the clauses, and also by the box.
const CHAINS: Items = Items {
    model: ANY,
    response: "status: INFEASIBLE\n",
    rows: "\
+ e 0 0>=1; e 0 0<=0 1>=1; e 0 1<=0 2>=1; l 2>=1
+ e 0 1<=0 2>=1; e 0 0<=0 1>=1; e 0 0>=1; l 2>=1
+ e 0 2>=1 1<=0; e 0 0>=1; e 0 1>=1 0<=0; l 2>=1
- e 0 0>=1; e 0 1<=0 2>=1; l 2>=1
- e 0 0<=0 1>=1; e 0 1<=0 2>=1; l 2>=1
+ e 0 0<=0 1>=1; e 0 1<=0 2>=1; l 0<=0 2>=1
+ e 0 0<=0 1>=1; l 1>=1 0<=0
+ e 0 0<=0 1>=1; l 1>=1 0<=0 3>=2
- e 0 0<=0 1>=1; l 1>=1
+ e 0 0>=1; l 0>=1; l 0>=1
+ e 0 0>=1 1>=1; e 0 0>=1 1<=0; l 0>=1
- e 0 0>=1 1>=1; e 0 0>=1 1<=0; e 0 0<=0 1>=1; e 0 0<=0 1<=0; l
+ e 0 0>=1 1>=1; e 0 0>=1 1<=0; e 0 0<=0 1>=1; e 0 0<=0 1<=0; l 0>=1; l
+ e 0; l
+ e 0; l 0>=1
- l
- l 0>=1
",
};

/// An atom is false where all values that are left make it so: bounds, holes and single values.
const VALUES: Items = Items {
    model: ANY,
    response: "status: INFEASIBLE\n",
    rows: "\
+ e 0 0<=2; l 0<=3
- e 0 0<=3; l 0<=2
+ e 0 0>=3; l 0>=2
- e 0 0>=2; l 0>=3
+ e 0 0<=3; e 0 0>=3; l 0=3
+ e 0 0=3; l 0<=3
+ e 0 0=3; l 0>=3
+ e 0 0=3; l 0!=2
- e 0 0!=3; l 0<=2
+ e 0 0!=3; e 0 0>=3; l 0>=4
- e 0 0!=3; e 0 0>=2; l 0>=4
+ e 0 0!=3; e 0 0!=2; e 0 0>=2; l 0>=4
+ e 0 0=1 0=2; l 0>=1
+ e 0 0=1 0=2; l 0<=2
- e 0 0=1 0=2; l 0<=1
+ e 0 0=1 0=2; e 0 0=2 0=3; l 0=2
+ e 0 4>=1; l 4>=5
+ e 0 4<=4; l 4=0
+ e 0 4!=5; l 4<=0
+ s 0 0 1 1 1; e 0 5<=3; l 5<=4
- s 0 0 1 1 1; e 0 5<=3; l 5<=2
- s 0 0 1 1 1; e 0 0<=1; e 0 1<=1; l 5<=2
+ s 0 0 1 1 1; e 0 0<=1; e 0 1<=1; t 5 0>=2 1>=2 5<=2; l 5<=2
",
};

/// A clause that has an atom twice is unit as if it had it once. Two atoms on one subject are two.
const REPEATED: Items = Items {
    model: ANY,
    response: "status: INFEASIBLE\n",
    rows: "\
+ e 0 0>=1 0>=1; l 0>=1
+ e 0 0>=1 0>=1; e 0 0<=0 1>=1; e 0 0<=0 1<=0; l
- e 0 0>=1 0>=2; e 0 0<=0 1>=1; e 0 0<=0 1<=0; l
+ e 0 0>=1 0>=2; e 0 0<=0 1>=1; e 0 0<=0 1<=0; l 0>=1; l
+ e 0 1>=1 0>=1 1>=1 0>=1; l 0>=1 1>=1
+ e 0 0>=1; l 0>=1 0>=1
+ e 0 0>=3 0>=2; e 0 0<=1; l
+ e 0 0>=3 0>=2; l 0>=2
",
};

/// A clause that is true at each value of a subject is accepted, if all its subjects are there.
const ALWAYS_TRUE: Items = Items {
    model: ANY,
    response: "status: INFEASIBLE\n",
    rows: "\
+ l 0>=0
+ l 0<=5
- l 0>=1
- l 0<=4
+ l 0>=3 0<=2
- l 0>=4 0<=2
+ l 0=0 0=1 0=2 0=3 0=4 0=5
- l 0=0 0=1 0=2 0=3 0=4
+ l 4=0 4=5
- l 4=0 4=4
+ l 0!=1 0!=2
+ l 0!=6
- l 0=6
- l 0>=0 5>=0
- l 5>=0
+ s 0 0 1; l 5>=0
- s 0 0 1; l 5>=1
- s 0 0 1; l 6>=0
- e 0 5>=1
- o 5>=1
",
};

#[test]
fn learnt_clauses_follow_by_propagation(rt: HostRuntime) -> Result<(), Fail> {
    assert_items(&rt, rt.alloc(), &[CHAINS, VALUES, REPEATED, ALWAYS_TRUE])
}

/// Three literals are assumed: that variable 0 is 1, that 1 is 0, and that 2 is 1.
const ASSUMING: &str = "\
    variables { domain: [0, 1] } variables { domain: [0, 1] } variables { domain: [0, 1] } \
    assumptions: [0, -2, 2]";

/// Where there is to be no solution, only what the response lists may be assumed.
const LISTED: Items = Items {
    model: ASSUMING,
    response: "status: INFEASIBLE\n\
        sufficient_assumptions_for_infeasibility: 0\n\
        sufficient_assumptions_for_infeasibility: -2\n",
    rows: "\
+ a 0
+ a 1
- a 2
- a 3
- a -1
- a
- a 0 1
+ a 0; l 0>=1
- a 0; l 0<=0
+ a 1; l 1<=0
- a 1; l 1>=1
- a 0; l 1<=0
+ a 0; a 1; l 1<=0
",
};

const UNLISTED: Items = Items {
    model: ASSUMING,
    response: "status: INFEASIBLE\n",
    rows: "\
- a 0
- a 1
",
};

/// A solution makes all assumptions true, so for a better one all may be assumed.
const SOLVED: Items = Items {
    model: ASSUMING,
    response: "status: OPTIMAL\nsolution: 1\nsolution: 0\nsolution: 1\n",
    rows: "\
+ a 0
+ a 1
+ a 2
+ a 2; l 2>=1
- a 3
- a 4294967296
",
};

#[test]
fn listed_assumptions_are_assumed(rt: HostRuntime) -> Result<(), Fail> {
    assert_items(&rt, rt.alloc(), &[LISTED, UNLISTED, SOLVED])
}
