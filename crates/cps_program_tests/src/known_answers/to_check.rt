//! Inputs of `check`, with their verdicts.
//!
//! A model's text is one line of the input or none, so that the lines of a response can be counted by eye.
use super::{PRODUCTION, THREE_IN_TWO};

/// A model's text, what stands behind its line, and what is answered.
pub struct Checking {
    pub model: &'static str,
    pub response: &'static str,
    pub exit: u8,
    pub text: &'static str,
}

/// A variable whose value is to be the least.
const LEAST: &str = "variables { domain: [0, 9] } objective { vars: 0 coeffs: 1 }";

/// What is answered to a model and a response with its log.
pub static CHECKS: [Checking; 17] = [
    // The first variable is 1 or 0, and either value gives the other two the same one.
    Checking {
        model: THREE_IN_TWO,
        response: "\n%response\nstatus: INFEASIBLE\n%log\n\
            e 0 0>=1 1>=1\ne 1 0>=1 2>=1\ne 2 1<=0 2<=0\nl 0>=1\n\
            e 0 0<=0 1<=0\ne 1 0<=0 2<=0\ne 2 1>=1 2>=1\nl\n%end\n",
        exit: 0,
        text: "verified\n",
    },
    Checking {
        model: THREE_IN_TWO,
        response: "\n%response\nstatus: INFEASIBLE\n%log\n\
            e 0 0>=1 1>=1\ne 1 0>=1 2>=1\ne 2 1<=0 2<=0\n\
            e 0 0<=0 1<=0\ne 1 0<=0 2<=0\ne 2 1>=1 2>=1\nl\n%end\n",
        exit: 6,
        text: "not verified at line 11\n",
    },
    // No line is left.
    Checking {
        model: THREE_IN_TWO,
        response: "\n",
        exit: 6,
        text: "not verified at line 2\n",
    },
    Checking {
        model: THREE_IN_TWO,
        response: "\n%response",
        exit: 6,
        text: "not verified at line 2\n",
    },
    Checking {
        model: "",
        response: "%response\nstatus: OPTIMAL\n%log\no\nl\n%end\n",
        exit: 0,
        text: "verified\n",
    },
    Checking {
        model: "",
        response: "%response\nstatus: OPTIMAL\n%log\nl\n%end\n",
        exit: 6,
        text: "not verified at line 4\n",
    },
    // The last line has no line feed.
    Checking {
        model: "",
        response: "%response\nstatus: OPTIMAL\n%log\no\nl\n%end",
        exit: 6,
        text: "not verified at line 6\n",
    },
    Checking {
        model: "",
        response: "%response\nstatus: OPTIMAL\n%log\no\nl\n%end\n\n",
        exit: 6,
        text: "not verified at line 7\n",
    },
    Checking {
        model: "",
        response: "%response\nstatus: FEASIBLE\n%log\no\nl\n%end\n",
        exit: 6,
        text: "not verified at line 2\n",
    },
    Checking {
        model: LEAST,
        response: "\n%response\nstatus: OPTIMAL\nsolution: 0\nobjective_value: 0\nbest_objective_bound: 0\n\
            %log\no\nl\n%end\n",
        exit: 0,
        text: "verified\n",
    },
    // The solution is no best one.
    Checking {
        model: LEAST,
        response: "\n%response\nstatus: OPTIMAL\nsolution: 1\nobjective_value: 1\nbest_objective_bound: 1\n\
            %log\no\nl\n%end\n",
        exit: 6,
        text: "not verified at line 8\n",
    },
    // The value is not that of the solution.
    Checking {
        model: LEAST,
        response: "\n%response\nstatus: OPTIMAL\nsolution: 1\nobjective_value: 0\nbest_objective_bound: 0\n\
            %log\no\nl\n%end\n",
        exit: 6,
        text: "not verified at line 5\n",
    },
    // The values break the first sum.
    Checking {
        model: PRODUCTION,
        response: "\n%response\nstatus: OPTIMAL\nsolution: 4\nsolution: 1\n",
        exit: 6,
        text: "not verified at line 5\n",
    },
    // The mark alone ends a model's text.
    Checking {
        model: "",
        response: "%responses\n",
        exit: 1,
        text: "status: MODEL_INVALID\n# text fault at byte 0\n",
    },
    Checking {
        model: "variables {",
        response: "\n%response\nstatus: OPTIMAL\n",
        exit: 1,
        text: "status: MODEL_INVALID\n# text fault at byte 12\n",
    },
    Checking {
        model: "variables { name: 1 }",
        response: "\n%response\n",
        exit: 1,
        text: "status: MODEL_INVALID\n# field fault WrongKind at byte 18\n",
    },
    Checking {
        model: "variables { domain: [3, 2] }",
        response: "\n%response\nstatus: OPTIMAL\n",
        exit: 1,
        text: "status: MODEL_INVALID\n# invalid V1 at variable 0\n",
    },
];
