//! Inputs of `solve`, with their answers.
//!
//! Most are about one kind of constraint at the edge of what it allows; they have one solution or none, or one that is
//! best, so that there is one text whatever the workers do. Objectives, strategies and assumptions are among them.
use super::{PRODUCTION, PRODUCTION_TEXT, THREE_DIFFERENT};

/// An input of `solve`, and its answer.
pub struct Solving {
    pub input: &'static str,
    pub exit: u8,
    pub text: &'static str,
}

/// Inputs of `solve` that have one answer, whatever workers do.
pub const INPUTS: [Solving; 51] = [
    Solving {
        input: "",
        exit: 0,
        text: "status: OPTIMAL\n",
    },
    Solving {
        input: PRODUCTION,
        exit: 0,
        text: PRODUCTION_TEXT,
    },
    Solving {
        input: "variables { domain: [0, 1] } constraints { enforcement_literal: 0 bool_or { } } \
         constraints { bool_or { literals: [-1] } }",
        exit: 0,
        text: "status: OPTIMAL\nsolution: 0\n",
    },
    Solving {
        input: "variables { domain: [0, 1] } constraints { enforcement_literal: 0 bool_or { } } \
         constraints { bool_or { literals: [0] } }",
        exit: 0,
        text: "status: INFEASIBLE\n",
    },
    Solving {
        input: "variables { domain: [1, 1] } variables { domain: [1, 1] } constraints { bool_xor { literals: [0, 1] } }",
        exit: 0,
        text: "status: INFEASIBLE\n",
    },
    Solving {
        input: "variables { domain: [1, 1] } constraints { at_most_one { literals: [0, 0] } }",
        exit: 0,
        text: "status: INFEASIBLE\n",
    },
    Solving {
        input: "variables { domain: [0, 1] } variables { domain: [0, 1] } constraints { at_most_one { literals: [0, 1] } } \
         objective { vars: [0, 1] coeffs: [-1, -2] }",
        exit: 0,
        text: "status: OPTIMAL\nsolution: 0\nsolution: 1\nobjective_value: -2\nbest_objective_bound: -2\n",
    },
    Solving {
        input: "variables { domain: [1, 1] } variables { domain: [0, 1] } variables { domain: [0, 1] } \
         constraints { enforcement_literal: 0 exactly_one { literals: [1, 2] } } \
         constraints { bool_and { literals: [0, -2] } }",
        exit: 0,
        text: "status: OPTIMAL\nsolution: 1\nsolution: 0\nsolution: 1\n",
    },
    Solving {
        input: "variables { domain: [0, 4611686018427387903] } \
         constraints { linear { vars: [0] coeffs: [1] domain: [4611686018427387902, 9223372036854775807] } } \
         objective { vars: [0] coeffs: [1] }",
        exit: 0,
        text: "status: OPTIMAL\nsolution: 4611686018427387902\nobjective_value: 4611686018427387902\n\
         best_objective_bound: 4611686018427387902\n",
    },
    Solving {
        input: "variables { domain: [0, 2147483648] } variables { domain: [0, 2147483648] } \
         constraints { linear { vars: [0, 1] coeffs: [1073741824, 1073741823] domain: [0, 0] } }",
        exit: 0,
        text: "status: OPTIMAL\nsolution: 0\nsolution: 0\n",
    },
    Solving {
        input: "variables { domain: [0, 4611686018427387904] } \
         constraints { linear { vars: [0] coeffs: [1] domain: [4611686018427387902, 9223372036854775807] } } \
         objective { vars: [0] coeffs: [1] }",
        exit: 1,
        text: "status: MODEL_INVALID\n# invalid V2 at variable 0\n",
    },
    Solving {
        input: "variables { domain: [0, 2147483648] } variables { domain: [0, 2147483648] } \
         constraints { linear { vars: [0, 1] coeffs: [1073741824, 1073741824] domain: [0, 0] } }",
        exit: 1,
        text: "status: MODEL_INVALID\n# invalid V6 at constraint 0\n",
    },
    Solving {
        input: "variables { domain: 0",
        exit: 1,
        text: "status: MODEL_INVALID\n# text fault at byte 21\n",
    },
    Solving {
        input: "variables { domain: [089, 90] }",
        exit: 1,
        text: "status: MODEL_INVALID\n# text fault at byte 21\n",
    },
    Solving {
        input: "variables { domian: 0 }",
        exit: 1,
        text: "status: MODEL_INVALID\n# field fault UnknownField at byte 12\n",
    },
    Solving {
        input: "objective { offset: 1 offset: 2 }",
        exit: 1,
        text: "status: MODEL_INVALID\n# field fault Repeated at byte 22\n",
    },
    Solving {
        input: "objective { offset: 0.5 }",
        exit: 1,
        text: "status: MODEL_INVALID\n# field fault NotWhole at byte 20\n",
    },
    Solving {
        input: "objective { offset: 1e+2 scaling_factor: -1.0 }",
        exit: 0,
        text: "status: OPTIMAL\nobjective_value: -100\nbest_objective_bound: -100\n",
    },
    Solving {
        input: "variables { domain: [0, 1] } search_strategy { } search_strategy { variables: 1 }",
        exit: 1,
        text: "status: MODEL_INVALID\n# invalid V3 at strategy 1\n",
    },
    Solving {
        input: "variables { domain: [0, 1] } solution_hint { vars: [0, -1] values: [0, 0] }",
        exit: 1,
        text: "status: MODEL_INVALID\n# invalid V17 at hint\n",
    },
    Solving {
        input: THREE_DIFFERENT,
        exit: 0,
        text: "status: INFEASIBLE\n",
    },
    Solving {
        input: "variables { domain: [-10, 10] } constraints { int_div { target { vars: [0] coeffs: [1] } exprs { \
         offset: -10 } exprs { offset: 3 } } }",
        exit: 0,
        text: "status: OPTIMAL\nsolution: -3\n",
    },
    Solving {
        input: "variables { domain: [-1, 1] } constraints { int_div { exprs { offset: 4 } exprs { vars: [0] coeffs: \
         [1] } } }",
        exit: 1,
        text: "status: MODEL_INVALID\n# invalid V8 at constraint 0\n",
    },
    Solving {
        input: "variables { domain: [0, 9] } constraints { int_prod { target { vars: [0] coeffs: [1] } } }",
        exit: 0,
        text: "status: OPTIMAL\nsolution: 1\n",
    },
    Solving {
        input: "variables { domain: [0, 9] } variables { domain: [-9, 9] } constraints { int_prod { target { vars: [0] \
         coeffs: [1] } } } constraints { lin_max { target { vars: [1] coeffs: [1] } exprs { offset: -3 } exprs { \
         offset: -5 } } }",
        exit: 0,
        text: "status: OPTIMAL\nsolution: 1\nsolution: -3\n",
    },
    Solving {
        input: "variables { domain: [1, 1] } variables { domain: [0, 9] } variables { domain: [4, 4] } variables { \
         domain: [7, 7] } constraints { element { index: 0 target: 1 vars: [2, 3] } }",
        exit: 0,
        text: "status: OPTIMAL\nsolution: 1\nsolution: 7\nsolution: 4\nsolution: 7\n",
    },
    Solving {
        input: "variables { domain: [2, 2] } variables { domain: [0, 9] } variables { domain: [4, 4] } variables { \
         domain: [7, 7] } constraints { element { index: 0 target: 1 vars: [2, 3] } }",
        exit: 0,
        text: "status: INFEASIBLE\n",
    },
    Solving {
        input: "variables { domain: [1, 2] } variables { domain: [1, 2] } constraints { table { vars: [0, 1] values: \
         [1, 1, 2, 2, 2, 1] negated: true } }",
        exit: 0,
        text: "status: OPTIMAL\nsolution: 1\nsolution: 2\n",
    },
    Solving {
        input: "constraints { table { negated: true } } constraints { table { } }",
        exit: 0,
        text: "status: OPTIMAL\n",
    },
    Solving {
        input: "constraints { table { values: 1 } }",
        exit: 1,
        text: "status: MODEL_INVALID\n# invalid V14 at constraint 0\n",
    },
    Solving {
        input: "variables { domain: [0, 1] } constraints { circuit { tails: [0, 1, 2, 3] heads: [1, 0, 3, 2] \
         literals: [0, 0, 0, 0] } }",
        exit: 0,
        text: "status: INFEASIBLE\n",
    },
    Solving {
        input: "variables { domain: [0, 1] } constraints { circuit { tails: [0, 0] heads: [0, 0] literals: [0, -1] } \
         }",
        exit: 1,
        text: "status: MODEL_INVALID\n# invalid V15 at constraint 0\n",
    },
    Solving {
        input: "constraints { interval { end { offset: 5 } size { offset: 5 } } } constraints { interval { start { \
         offset: 3 } end { offset: 3 } } } constraints { no_overlap { intervals: [0, 1] } }",
        exit: 0,
        text: "status: INFEASIBLE\n",
    },
    Solving {
        input: "constraints { interval { end { offset: 5 } size { offset: 5 } } } constraints { interval { start { \
         offset: 5 } end { offset: 5 } } } constraints { no_overlap { intervals: [0, 1] } }",
        exit: 0,
        text: "status: OPTIMAL\n",
    },
    Solving {
        input: "constraints { cumulative { capacity { offset: -1 } } }",
        exit: 0,
        text: "status: INFEASIBLE\n",
    },
    Solving {
        input: "constraints { interval { end { offset: 3 } size { offset: 3 } } } constraints { interval { start { \
         offset: 2 } end { offset: 4 } size { offset: 2 } } } constraints { cumulative { capacity { offset: 3 \
         } intervals: [0, 1] demands { offset: 2 } demands { offset: 2 } } }",
        exit: 0,
        text: "status: INFEASIBLE\n",
    },
    Solving {
        input: "constraints { interval { end { offset: 3 } size { offset: 3 } } } constraints { interval { start { \
         offset: 2 } end { offset: 4 } size { offset: 2 } } } constraints { cumulative { capacity { offset: 4 \
         } intervals: [0, 1] demands { offset: 2 } demands { offset: 2 } } }",
        exit: 0,
        text: "status: OPTIMAL\n",
    },
    Solving {
        input: "variables { domain: [0, 1] } variables { domain: [1, 1] } variables { domain: [0, 1] } variables { \
         domain: [0, 1] } constraints { inverse { f_direct: [0, 1] f_inverse: [2, 3] } }",
        exit: 0,
        text: "status: OPTIMAL\nsolution: 0\nsolution: 1\nsolution: 0\nsolution: 1\n",
    },
    Solving {
        input: "variables { domain: [0, 0] } constraints { inverse { f_direct: 0 } }",
        exit: 1,
        text: "status: MODEL_INVALID\n# invalid V5 at constraint 0\n",
    },
    Solving {
        input: "variables { domain: [-10, 10] } constraints { int_mod { target { vars: [0] coeffs: [1] } exprs { \
         offset: -7 } exprs { offset: 3 } } }",
        exit: 0,
        text: "status: OPTIMAL\nsolution: -1\n",
    },
    Solving {
        input: "variables { domain: [0, 9] } variables { domain: [0, 9] } variables { domain: [0, 9] } constraints { \
         automaton { final_states: 1 transition_tail: [0, 1] transition_head: [1, 0] transition_label: [5, 6] \
         exprs { vars: [0] coeffs: [1] } exprs { vars: [1] coeffs: [1] } exprs { vars: [2] coeffs: [1] } } }",
        exit: 0,
        text: "status: OPTIMAL\nsolution: 5\nsolution: 6\nsolution: 5\n",
    },
    Solving {
        input: "variables { domain: [0, 9] } variables { domain: [0, 9] } variables { domain: [0, 9] } constraints { \
         automaton { final_states: 1 transition_tail: [0, 1] transition_head: [1, 0] transition_label: [5, 6] \
         exprs { vars: [0] coeffs: [1] } exprs { vars: [1] coeffs: [1] } } }",
        exit: 0,
        text: "status: INFEASIBLE\n",
    },
    Solving {
        input: "constraints { interval { end { offset: 2 } size { offset: 2 } } } constraints { interval { end { \
         offset: 2 } size { offset: 2 } } } constraints { interval { start { offset: 1 } end { offset: 3 } \
         size { offset: 2 } } } constraints { interval { start { offset: 1 } end { offset: 3 } size { offset: \
         2 } } } constraints { no_overlap_2d { x_intervals: [0, 2] y_intervals: [1, 3] } }",
        exit: 0,
        text: "status: INFEASIBLE\n",
    },
    Solving {
        input: "constraints { interval { end { offset: 2 } size { offset: 2 } } } constraints { interval { end { \
         offset: 2 } size { offset: 2 } } } constraints { interval { start { offset: 2 } end { offset: 4 } \
         size { offset: 2 } } } constraints { interval { start { offset: 1 } end { offset: 3 } size { offset: \
         2 } } } constraints { no_overlap_2d { x_intervals: [0, 2] y_intervals: [1, 3] } }",
        exit: 0,
        text: "status: OPTIMAL\n",
    },
    Solving {
        input: "variables { domain: [3, 3] } constraints { reservoir { max_level: 1 time_exprs { } time_exprs { vars: \
         0 coeffs: 1 } level_changes { offset: 1 } level_changes { offset: -1 } } }",
        exit: 0,
        text: "status: OPTIMAL\nsolution: 3\n",
    },
    Solving {
        input: "variables { domain: [-2, -1] } constraints { reservoir { max_level: 1 time_exprs { } time_exprs { \
         vars: 0 coeffs: 1 } level_changes { offset: 1 } level_changes { offset: -1 } } }",
        exit: 0,
        text: "status: INFEASIBLE\n",
    },
    Solving {
        input: "constraints { reservoir { min_level: 1 max_level: 2 } }",
        exit: 1,
        text: "status: MODEL_INVALID\n# invalid V19 at constraint 0\n",
    },
    Solving {
        input: "variables { domain: [0, 1] } assumptions: [0, -1]",
        exit: 0,
        text: "status: INFEASIBLE\nsufficient_assumptions_for_infeasibility: 0\n\
            sufficient_assumptions_for_infeasibility: -1\n",
    },
    Solving {
        input: "variables { domain: [0, 1] } variables { domain: [0, 1] } variables { domain: [0, 1] } \
            constraints { bool_or { literals: [-1] } } assumptions: [0, 1, 2]",
        exit: 0,
        text: "status: INFEASIBLE\nsufficient_assumptions_for_infeasibility: 0\n",
    },
    Solving {
        input: "variables { domain: [0, 1] } assumptions: [0]",
        exit: 0,
        text: "status: OPTIMAL\nsolution: 1\n",
    },
    Solving {
        input: "variables { domain: [0, 2] } assumptions: [0]",
        exit: 1,
        text: "status: MODEL_INVALID\n# invalid V4 at assumption 0\n",
    },
];
