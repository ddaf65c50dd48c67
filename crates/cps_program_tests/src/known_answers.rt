//! Words and inputs of the program, with the answers that were worked out by hand.
//!
//! The rows are data alone, with named fields; `answers` and its neighbours run them. Each model is small enough that its
//! answer can be found on paper, and has one answer whatever the workers do, so that whole texts are compared. Inputs
//! that are solved are in `to_solve`, those that are only read in `to_read`, those with a response that is checked in
//! `to_check`; command lines and what several rows share are here.
mod to_check;
mod to_read;
mod to_solve;

pub use to_check::{CHECKS, Checking};
pub use to_read::{READINGS, Reading};
pub use to_solve::{INPUTS, Solving};

/// Two variables under two sums, of which the greatest weighted sum is wanted.
pub const PRODUCTION: &str = "variables { domain: [0, 10] } variables { domain: [0, 10] } \
    constraints { linear { vars: [0, 1] coeffs: [1, 1] domain: [-9223372036854775808, 4] } } \
    constraints { linear { vars: [0, 1] coeffs: [1, 3] domain: [-9223372036854775808, 6] } } \
    objective { vars: [0, 1] coeffs: [-3, -2] scaling_factor: -1 }";

/// Its answer.
pub const PRODUCTION_TEXT: &str =
    "status: OPTIMAL\nsolution: 4\nsolution: 0\nobjective_value: 12\nbest_objective_bound: 12\n";

/// Three variables of two values that are all different.
pub const THREE_DIFFERENT: &str =
    "variables { domain: [0, 1] } variables { domain: [0, 1] } variables { domain: [0, 1] } constraints { \
    all_diff { exprs { vars: [0] coeffs: [1] } exprs { vars: [1] coeffs: [1] } exprs { vars: [2] coeffs: \
    [1] } } }";

/// Three variables of two values, no two of them equal.
pub const THREE_IN_TWO: &str =
    "variables { domain: [0, 1] } variables { domain: [0, 1] } variables { domain: [0, 1] } \
    constraints { linear { vars: [0, 1] coeffs: [1, -1] domain: [-1, -1, 1, 1] } } \
    constraints { linear { vars: [0, 2] coeffs: [1, -1] domain: [-1, -1, 1, 1] } } \
    constraints { linear { vars: [1, 2] coeffs: [1, -1] domain: [-1, -1, 1, 1] } }";

/// Three variables of three values, no two of them equal, with the least sum.
pub const THREE_IN_THREE: &str =
    "variables { domain: [0, 2] } variables { domain: [0, 2] } variables { domain: [0, 2] } \
    constraints { linear { vars: [0, 1] coeffs: [1, -1] domain: [-2, -1, 1, 2] } } \
    constraints { linear { vars: [0, 2] coeffs: [1, -1] domain: [-2, -1, 1, 2] } } \
    constraints { linear { vars: [1, 2] coeffs: [1, -1] domain: [-2, -1, 1, 2] } } \
    objective { vars: [0, 1, 2] coeffs: [1, 1, 1] }";

/// Words of `solve`, an input, and what is written.
pub struct Line {
    pub words: &'static [&'static str],
    pub input: &'static str,
    pub text: &'static str,
}

/// Inputs that are solved with options.
pub static LINES: [Line; 10] = [
    Line {
        words: &["solve", "--workers", "1", "--conflicts", "0"],
        input: THREE_IN_TWO,
        text: "status: UNKNOWN\n",
    },
    Line {
        words: &["solve", "--workers", "1", "--conflicts", "1"],
        input: THREE_IN_TWO,
        text: "status: INFEASIBLE\n",
    },
    Line {
        words: &[
            "solve",
            "--workers",
            "3",
            "--conflicts",
            "0",
            "--interleave",
        ],
        input: THREE_IN_TWO,
        text: "status: UNKNOWN\n",
    },
    // The fourth worker searches near solutions, and so does a round of up to 100 conflicts: it needs two.
    Line {
        words: &[
            "solve",
            "--workers",
            "4",
            "--conflicts",
            "0",
            "--interleave",
        ],
        input: THREE_IN_TWO,
        text: "status: INFEASIBLE\n",
    },
    Line {
        words: &["solve", "--workers", "1", "--conflicts", "0"],
        input: THREE_IN_THREE,
        text: "status: FEASIBLE\nsolution: 0\nsolution: 1\nsolution: 2\nobjective_value: 3\nbest_objective_bound: 0\n",
    },
    Line {
        words: &["solve", "--workers", "1", "--conflicts", "0", "--gap", "2"],
        input: THREE_IN_THREE,
        text: "status: FEASIBLE\nsolution: 0\nsolution: 1\nsolution: 2\nobjective_value: 3\nbest_objective_bound: 0\n",
    },
    Line {
        words: &["solve", "--workers", "1", "--conflicts", "0", "--gap", "3"],
        input: THREE_IN_THREE,
        text: "status: OPTIMAL\nsolution: 0\nsolution: 1\nsolution: 2\nobjective_value: 3\nbest_objective_bound: 0\n",
    },
    Line {
        words: &["solve", "--gap", "5"],
        input: THREE_DIFFERENT,
        text: "status: INFEASIBLE\n",
    },
    Line {
        words: &["solve", "--workers", "1"],
        input: "variables { domain: [0, 9] } \
         search_strategy { variables: 0 domain_reduction_strategy: SELECT_MAX_VALUE }",
        text: "status: OPTIMAL\nsolution: 9\n",
    },
    Line {
        words: &["solve", "--workers", "1"],
        input: "variables { domain: [0, 9] } variables { domain: [0, 9] } \
         search_strategy { exprs { vars: [0, 1] coeffs: [1, -1] } domain_reduction_strategy: SELECT_MAX_VALUE }",
        text: "status: OPTIMAL\nsolution: 9\nsolution: 0\n",
    },
];

/// Words behind the program's name that make no command line.
pub static FAULTY_WORDS: [&[&str]; 20] = [
    &[],
    &["solve", "--workers", "0"],
    &["solve", "--workers", "17"],
    &["solve", "--conflicts", "1000000001"],
    &["solve", "--seed", "18446744073709551616"],
    &["solve", "--gap", "9223372036854775808"],
    &["print", "x"],
    &["print", "--conflicts", "1"],
    &["validate", "x"],
    &["validate", "--help"],
    &["validate", "print"],
    &["check", "x"],
    &["check", "--log"],
    &["solve", "--log"],
    &["solve", "--workers", "2", "--log"],
    &["solve", "--workers", "1", "--gap", "1", "--log"],
    &["solves"],
    &["gen", "tour", "1", "5"],
    &["gen", "jobshop", "17", "5"],
    &["gen", "knapsack", "0", "5"],
];

/// The commands that read a model.
pub static COMMANDS: [&str; 4] = ["solve", "validate", "print", "check"];

/// Words of a command and its input, the first three bytes that it writes, and whether it has an outcome.
pub struct Beginning {
    pub words: &'static [&'static str],
    pub input: &'static str,
    pub held: &'static str,
    pub has_outcome: bool,
}

/// What is held of texts of which no more is taken.
pub static BEGINNINGS: [Beginning; 8] = [
    Beginning {
        words: &["solve"],
        input: "",
        held: "sta",
        has_outcome: true,
    },
    Beginning {
        words: &["solve"],
        input: "variables { domain: [0, 1] }",
        held: "sta",
        has_outcome: true,
    },
    Beginning {
        words: &["solve", "--workers", "1", "--log"],
        input: "variables { domain: [0, 1] }",
        held: "sta",
        has_outcome: true,
    },
    Beginning {
        words: &["validate"],
        input: "",
        held: "val",
        has_outcome: false,
    },
    Beginning {
        words: &["print"],
        input: "variables { domain: [0, 1] }",
        held: "var",
        has_outcome: false,
    },
    Beginning {
        words: &["check"],
        input: "",
        held: "not",
        has_outcome: false,
    },
    Beginning {
        words: &["gen", "tour", "2", "7"],
        input: "",
        held: "var",
        has_outcome: false,
    },
    Beginning {
        words: &["demo", "tour", "2", "7"],
        input: "",
        held: "var",
        has_outcome: true,
    },
];
