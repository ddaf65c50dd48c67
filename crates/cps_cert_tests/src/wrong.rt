//! Logs that are right, and the same logs made wrong at one line.
//!
//! A right log is verified. Each row puts other lines in the place of one of its lines, and names the line that is then
//! refused: often a later one, since a clause that says too little is accepted and lacks where it is needed.
use crate::judging::{assert_refused, refused};
use crate::reading::valid_model;
use cps_validate::ValidModel;
use std::alloc::Global;
use std::process::Abort;
use std::test::Fail;

/// The line that is replaced, counted from 1, by what, and the line that is then refused; 0 if none is.
type Edit = (usize, &'static str, u64);

/// A log that is right, and edits of it.
struct Log {
    model: &'static str,
    text: &'static str,
    edits: &'static [Edit],
}

/// A text with one line replaced by others, each with its line feed.
fn edited(alloc: Global, text: &str, edit: Edit) -> Result<String, Fail> {
    let (place, lines, _) = edit;
    let mut made = String::new(alloc);
    for (i, line) in text.lines().enumerate() {
        if i + 1 == place {
            made.push_str(lines)?;
        } else {
            made.push_str(line)?;
            made.push_str("\n")?;
        }
    }
    Ok(made)
}

fn assert_edits(rt: &impl Abort, alloc: Global, model: &ValidModel, log: &Log) -> Result<(), Fail> {
    for edit in log.edits {
        let text = edited(alloc, log.text, *edit)?;
        let (_, _, line) = *edit;
        let line = if line == 0 { None } else { Some(line) };
        assert_refused(rt, alloc, model, text.as_str(), line)?;
    }
    Ok(())
}

fn assert_log(rt: &impl Abort, alloc: Global, log: &Log) -> Result<(), Fail> {
    let model = valid_model(rt, alloc, log.model)?;
    assert_refused(rt, alloc, &model, log.text, None)?;
    assert_edits(rt, alloc, &model, log)
}

/// Three variables of three values, no two of them equal, with the least sum, 3.
const THREE_IN_THREE: &str = "\
    variables { domain: [0, 2] } variables { domain: [0, 2] } variables { domain: [0, 2] } \
    constraints { linear { vars: [0, 1] coeffs: [1, -1] domain: [-2, -1, 1, 2] } } \
    constraints { linear { vars: [0, 2] coeffs: [1, -1] domain: [-2, -1, 1, 2] } } \
    constraints { linear { vars: [1, 2] coeffs: [1, -1] domain: [-2, -1, 1, 2] } } \
    objective { vars: [0, 1, 2] coeffs: [1, 1, 1] }";

/// Were variable 0 at 0, the others would be at least 1, one of them 2: so it is at least 1, and so is variable 1. Then
/// both would have to be 1. Each line is needed.
const LEAST: Log = Log {
    model: THREE_IN_THREE,
    text: "\
status: OPTIMAL
solution: 0
solution: 1
solution: 2
objective_value: 3
best_objective_bound: 3
%log
e 0 0>=1 1>=1
e 1 0>=1 2>=1
o 1<=1 2<=0
o 1<=0 2<=1
e 2 1!=1 2!=1
l 0>=1
e 2 1>=1 2>=1
o 0<=1 2<=0
o 0<=0 2<=1
e 1 0!=1 2!=1
l 1>=1
o 0<=1 1<=0
o 0<=0 1<=1
e 0 0!=1 1!=1
l
%end
",
    edits: &[
        // a line is left out, and another stands in its place
        (1, "", 1),
        (2, "", 4),
        (5, "", 5),
        (6, "", 6),
        (7, "", 7),
        // a clause is left out, and lacks at the next learnt clause
        (8, "", 12),
        (9, "", 12),
        (10, "", 12),
        (11, "", 12),
        (12, "", 12),
        (14, "", 17),
        (15, "", 17),
        (16, "", 17),
        (17, "", 17),
        (19, "", 21),
        (20, "", 21),
        (21, "", 21),
        // a learnt clause is left out, and lacks at the last one
        (13, "", 21),
        (18, "", 21),
        // the end is left out
        (22, "", 22),
        (23, "", 23),
        // an atom is changed: the difference of the two may be -1, or 1
        (8, "e 0 0>=1 1>=2\n", 8),
        (8, "e 0 0<=0 1>=1\n", 8),
        (12, "e 2 1!=1 2!=2\n", 12),
        // a constraint of other variables, and one that is not there
        (8, "e 1 0>=1 1>=1\n", 8),
        (8, "e 3 0>=1 1>=1\n", 8),
        // the sum may be 2
        (10, "o 1<=0 2<=0\n", 10),
        (19, "o 0<=0 1<=0\n", 19),
        // a clause that follows and says less
        (10, "o 1<=1 2<=1\n", 13),
        (21, "e 0 0!=1 1!=1 2<=0\n", 22),
        // a clause that says more than follows
        (13, "l 0>=2\n", 13),
        (13, "l\n", 13),
        (18, "l 1>=2\n", 18),
        // what is learnt last is not empty
        (22, "l 0>=2\n", 23),
        (22, "l 0>=1\n", 23),
        // another item has this clause, by another reason
        (8, "o 0>=1 1>=1\n", 8),
        (10, "e 2 1<=1 2<=0\n", 10),
        (8, "l 0>=1 1>=1\n", 8),
        // lines behind the empty clause, and behind the end
        (22, "l\nl\n", 23),
        (22, "l\no 0<=0 1<=1 2<=1\n", 23),
        (23, "%end\n%end\n", 24),
        (23, "%end\nl\n", 24),
        (23, "%end\n\n", 24),
        (23, "%end \n", 23),
        (23, "%END\n", 23),
        // the response: no solution, a value outside its domain or too far, another value or bound
        (2, "solution: 1\n", 4),
        (4, "solution: 1\n", 4),
        (4, "solution: 3\n", 4),
        (2, "solution: 4611686018427387904\n", 4),
        (2, "solution: 4611686018427387905\n", 2),
        (2, "solution: 00\n", 2),
        (2, "solution: -0\n", 2),
        (2, "solution: 0 \n", 2),
        (2, "solution:  0\n", 2),
        (2, "solution:0\n", 2),
        (4, "solution: 2\nsolution: 2\n", 5),
        (5, "objective_value: 2\n", 5),
        (5, "objective_value: 4\n", 5),
        (5, "objective_value: 03\n", 5),
        (5, "objective_value: 3.0\n", 5),
        (5, "best_objective_bound: 3\n", 5),
        (6, "best_objective_bound: 2\n", 6),
        (6, "best_objective_bound: 4\n", 6),
        (6, "best_objective_bound: 3\nbest_objective_bound: 3\n", 7),
        // a status that says another thing, or nothing
        (1, "status: INFEASIBLE\n", 2),
        (1, "status: FEASIBLE\n", 1),
        (1, "status: UNKNOWN\n", 1),
        (1, "status: MODEL_INVALID\n", 1),
        (1, "status: OPTIMAL \n", 1),
        (1, "status: Optimal\n", 1),
        (1, "status:OPTIMAL\n", 1),
        (1, "OPTIMAL\n", 1),
        (7, "%Log\n", 7),
        (7, "%log\n%log\n", 8),
        (7, "\n%log\n", 7),
        // what changes nothing
        (8, "e 0 1>=1 0>=1\n", 0),
        (8, "e 0 1>=1 0>=1 1>=1\n", 0),
        (8, "e 0 0!=0 1!=0\n", 0),
        (13, "l 0!=0\n", 0),
        (21, "e 0 0!=1 1!=1 2!=0\n", 0),
        (13, "l 0>=1\nl 0>=1\n", 0),
        (13, "l 0>=1 1>=0\nl 0>=1\n", 0),
        (7, "%log\ns 0 0 1 1 1\n", 0),
        (22, "o 0<=0 1<=0 2<=0\nl\n", 0),
    ],
};

/// x + y is at most 4 and x + 3 * y at most 6; the greatest 3 * x + 2 * y is 12, at 4 and 0.
const PRODUCTION: &str = "\
    variables { domain: [0, 10] } variables { domain: [0, 10] } \
    constraints { linear { vars: [0, 1] coeffs: [1, 1] domain: [-9223372036854775808, 4] } } \
    constraints { linear { vars: [0, 1] coeffs: [1, 3] domain: [-9223372036854775808, 6] } } \
    objective { vars: [0, 1] coeffs: [-3, -2] scaling_factor: -1 }";

/// A better solution has x at most 4, so y at least 1, so x at most 3, so y at least 2, so x at 0, so y at least 3.
const GREATEST: Log = Log {
    model: PRODUCTION,
    text: "\
status: OPTIMAL
solution: 4
solution: 0
objective_value: 12
best_objective_bound: 12
%log
e 0 0<=4
o 0>=5 1>=1
e 0 0<=3 1<=0
o 0>=4 1>=2
e 1 0<=0 1<=1
e 1 1<=2
o 0>=1 1>=3
l
%end
",
    edits: &[
        // a bound is moved by one, and a sum of 4, 6 or -13 is let in
        (7, "e 0 0<=3\n", 7),
        (9, "e 0 0<=2 1<=0\n", 9),
        (11, "e 1 0<=0 1<=0\n", 11),
        (12, "e 1 1<=1\n", 12),
        (8, "o 0>=6 1>=1\n", 8),
        (13, "o 0>=1 1>=8\n", 13),
        (13, "o 0>=2 1>=6\n", 13),
        // a variable is left out
        (9, "e 0 0<=3\n", 9),
        (10, "o 0>=4\n", 10),
        (13, "o 1>=3\n", 13),
        // a clause that follows and says less
        (10, "o 0>=4 1>=1\n", 14),
        // a clause that follows and says as much where it is needed
        (13, "o 0>=1 1>=7\n", 0),
        (13, "o 0>=2 1>=5\n", 0),
        // a clause is left out
        (7, "", 13),
        (8, "", 13),
        (9, "", 13),
        (10, "", 13),
        (11, "", 13),
        (12, "", 13),
        (13, "", 13),
        // another solution, and another value of it
        (2, "solution: 3\n", 4),
        (3, "solution: 1\n", 3),
        (4, "objective_value: -12\n", 4),
        (5, "best_objective_bound: 13\n", 5),
        // a sum that is not used, one that is too great, and two that are none
        (7, "s 0 0 1 1 1\ne 0 0<=4\n", 0),
        (7, "s 0 0 461168601842738790\ns 0 0 461168601842738791\n", 8),
        (7, "s 0 2 1\n", 7),
        (7, "s 0 0 1 1\n", 7),
    ],
};

/// At 3 and 1 the profit is 11. Then -12 is at issue, which the second item's box has, at 4 and 0.
const NOT_GREATEST: &str = "\
status: OPTIMAL
solution: 3
solution: 1
objective_value: 11
best_objective_bound: 11
%log
e 0 0<=4
o 0>=5 1>=1
e 0 0<=3 1<=0
o 0>=4 1>=2
e 1 0<=0 1<=1
e 1 1<=2
o 0>=1 1>=3
l
%end
";

/// That there is no solution at all: then no sum is too great, and the first `o` is refused.
const NO_PLAN: &str = "\
status: INFEASIBLE
%log
e 0 0<=4
o 0>=5 1>=1
l
%end
";

/// Two literals that cannot both be true, and three that are assumed.
const WISHES: Log = Log {
    model: "variables { domain: [0, 1] } variables { domain: [0, 1] } variables { domain: [0, 1] } \
        constraints { bool_or { literals: [-1, -2] } } assumptions: [2, 0, 1]",
    text: "\
status: INFEASIBLE
sufficient_assumptions_for_infeasibility: 0
sufficient_assumptions_for_infeasibility: 1
%log
a 1
a 2
e 0 0<=0 1<=0
l
%end
",
    edits: &[
        // one that is needed is not listed, or not assumed
        (2, "", 4),
        (3, "", 5),
        (5, "", 7),
        (6, "", 7),
        // one that is not listed is assumed
        (5, "a 0\n", 5),
        (6, "a 3\n", 6),
        // what is listed is no assumption, or written in another way
        (2, "sufficient_assumptions_for_infeasibility: -1\n", 2),
        (2, "sufficient_assumptions_for_infeasibility: 3\n", 2),
        (
            2,
            "sufficient_assumptions_for_infeasibility: 4294967296\n",
            2,
        ),
        (2, "sufficient_assumptions_for_infeasibility: 00\n", 2),
        (2, "sufficient_assumptions_for_infeasibility: 0 1\n", 2),
        (2, "solution: 0\n", 2),
        (1, "status: OPTIMAL\n", 2),
        // more is listed than is needed, twice, and in another order
        (
            2,
            "sufficient_assumptions_for_infeasibility: 2\nsufficient_assumptions_for_infeasibility: 0\n",
            0,
        ),
        (
            3,
            "sufficient_assumptions_for_infeasibility: 1\nsufficient_assumptions_for_infeasibility: 0\n",
            0,
        ),
        (5, "a 2\n", 8),
        (5, "a 2\na 1\n", 0),
        (5, "a 1\na 1\n", 0),
    ],
};

/// Three variables of two values, no two of them equal.
const THREE_IN_TWO: Log = Log {
    model: "\
        variables { domain: [0, 1] } variables { domain: [0, 1] } variables { domain: [0, 1] } \
        constraints { linear { vars: [0, 1] coeffs: [1, -1] domain: [-1, -1, 1, 1] } } \
        constraints { linear { vars: [0, 2] coeffs: [1, -1] domain: [-1, -1, 1, 1] } } \
        constraints { linear { vars: [1, 2] coeffs: [1, -1] domain: [-1, -1, 1, 1] } }",
    text: "\
status: INFEASIBLE
%log
e 0 0>=1 1>=1
e 1 0>=1 2>=1
e 2 1<=0 2<=0
l 0>=1
e 0 0<=0 1<=0
e 1 0<=0 2<=0
e 2 1>=1 2>=1
l
%end
",
    edits: &[
        (1, "", 1),
        (2, "", 2),
        (3, "", 5),
        (4, "", 5),
        (5, "", 5),
        (6, "", 9),
        (7, "", 9),
        (8, "", 9),
        (9, "", 9),
        (10, "", 10),
        (11, "", 11),
        (1, "status: OPTIMAL\n", 2),
        (1, "status: FEASIBLE\n", 1),
        (1, "status: UNKNOWN\n", 1),
        (1, "status: INFEASIBLE\nstatus: INFEASIBLE\n", 2),
        (
            1,
            "status: INFEASIBLE\nsufficient_assumptions_for_infeasibility: 0\n",
            2,
        ),
        (5, "e 2 1<=0 2>=1\n", 5),
        (6, "l 0>=1 1>=1\n", 10),
        (9, "o 1>=1 2>=1\n", 9),
        (9, "a 0\n", 9),
    ],
};

#[test]
fn what_is_wrong_is_refused_at_its_line(rt: HostRuntime) -> Result<(), Fail> {
    assert_log(&rt, rt.alloc(), &LEAST)?;
    assert_log(&rt, rt.alloc(), &GREATEST)?;
    assert_log(&rt, rt.alloc(), &WISHES)?;
    assert_log(&rt, rt.alloc(), &THREE_IN_TWO)
}

#[test]
fn claims_that_are_false_are_refused(rt: HostRuntime) -> Result<(), Fail> {
    let model = valid_model(&rt, rt.alloc(), PRODUCTION)?;
    assert_refused(&rt, rt.alloc(), &model, NOT_GREATEST, Some(8))?;
    assert_refused(&rt, rt.alloc(), &model, NO_PLAN, Some(4))
}

/// Asserts that a log that ends at any byte is refused at the line that is not whole.
fn assert_cut_off(rt: &impl Abort, alloc: Global, log: &Log) -> Result<(), Fail> {
    let model = valid_model(rt, alloc, log.model)?;
    let mut line: u64 = 1;
    for (place, byte) in log.text.as_bytes().iter().enumerate() {
        let found = refused(rt, alloc, &model, &log.text.as_bytes()[..place])?;
        assert!(rt; found == Some(line), "cut off at {place}: {found:?}");
        if *byte == b'\n' {
            line = line.saturating_add(1);
        }
    }
    Ok(())
}

#[test]
fn what_is_cut_off_is_refused(rt: HostRuntime) -> Result<(), Fail> {
    assert_cut_off(&rt, rt.alloc(), &LEAST)?;
    assert_cut_off(&rt, rt.alloc(), &WISHES)
}
