//! Inputs of `validate` and `print`, with their answers.
//!
//! Rules of a valid model and faults of texts and fields, most of them broken by an input of one line. Of what `print`
//! writes the whole text is compared. What only solving shows is in `to_solve`.
use super::PRODUCTION;

/// A variable with a domain that is no list of intervals.
const REVERSED: &str = "variables { domain: [3, 2] }";

/// A model with names, a strategy and a hint.
const STEERED: &str = "name: 'a\"b' \"\\303\\xbc\" variables { name: \"x\" domain: [0, 9] } \
    search_strategy { variables: [0, -1] variable_selection_strategy: CHOOSE_HIGHEST_MAX } \
    solution_hint { values: 7 vars: 0 }";

/// The same in canonical form.
const STEERED_TEXT: &str =
    "name: \"a\\\"b\\303\\274\"\nvariables {\n  name: \"x\"\n  domain: [0, 9]\n}\n\
    search_strategy {\n  exprs {\n    vars: [0]\n    coeffs: [1]\n  }\n  exprs {\n    vars: [-1]\n    coeffs: [1]\n  }\n  \
    variable_selection_strategy: CHOOSE_HIGHEST_MAX\n}\nsolution_hint {\n  vars: [0]\n  values: [7]\n}\n";

/// A sum in canonical form.
const TEN: &str = "variables {\n  domain: [0, 10]\n}\n\
    constraints {\n  linear {\n    vars: [0]\n    coeffs: [10]\n    domain: [-5, 10]\n  }\n}\n";

/// A command without options, an input and its answer.
pub struct Reading {
    pub command: &'static str,
    pub input: &'static str,
    pub exit: u8,
    pub text: &'static str,
}

/// What is answered to inputs that are not solved.
pub const READINGS: [Reading; 35] = [
    Reading {
        command: "validate",
        input: "",
        exit: 0,
        text: "valid\n",
    },
    Reading {
        command: "validate",
        input: PRODUCTION,
        exit: 0,
        text: "valid\n",
    },
    Reading {
        command: "validate",
        input: "constraints { linear { } }",
        exit: 0,
        text: "valid\n",
    },
    Reading {
        command: "validate",
        input: REVERSED,
        exit: 1,
        text: "status: MODEL_INVALID\n# invalid V1 at variable 0\n",
    },
    Reading {
        command: "validate",
        input: "variables { domain: [0, 1] } constraints { bool_or { literals: [1] } }",
        exit: 1,
        text: "status: MODEL_INVALID\n# invalid V3 at constraint 0\n",
    },
    Reading {
        command: "validate",
        input: "variables { domain: [0, 2] } constraints { } constraints { bool_or { literals: [0] } }",
        exit: 1,
        text: "status: MODEL_INVALID\n# invalid V4 at constraint 1\n",
    },
    Reading {
        command: "validate",
        input: "variables { domain: [3, 2] domian: 0 }",
        exit: 1,
        text: "status: MODEL_INVALID\n# field fault UnknownField at byte 27\n",
    },
    Reading {
        command: "validate",
        input: "variables { domian: 0",
        exit: 1,
        text: "status: MODEL_INVALID\n# text fault at byte 21\n",
    },
    Reading {
        command: "print",
        input: "",
        exit: 0,
        text: "",
    },
    Reading {
        command: "print",
        input: PRODUCTION,
        exit: 0,
        text: "variables {\n  domain: [0, 10]\n}\nvariables {\n  domain: [0, 10]\n}\n\
         constraints {\n  linear {\n    vars: [0, 1]\n    coeffs: [1, 1]\n    domain: [-9223372036854775808, 4]\n  }\n}\n\
         constraints {\n  linear {\n    vars: [0, 1]\n    coeffs: [1, 3]\n    domain: [-9223372036854775808, 6]\n  }\n}\n\
         objective {\n  vars: [0, 1]\n  coeffs: [-3, -2]\n  scaling_factor: -1\n}\n",
    },
    Reading {
        command: "print",
        input: "variables { domain: [0, 10] } constraints { linear { vars: [0] coeffs: [10] domain: [-5, 10] } }",
        exit: 0,
        text: TEN,
    },
    Reading {
        command: "print",
        input: "variables: < domain: 0; domain: 0x0A, > # ten\n\
         constraints [{ linear: { vars: 0 coeffs: 012 domain: [- 5, 10], } }]",
        exit: 0,
        text: TEN,
    },
    Reading {
        command: "print",
        input: TEN,
        exit: 0,
        text: TEN,
    },
    Reading {
        command: "print",
        input: REVERSED,
        exit: 0,
        text: "variables {\n  domain: [3, 2]\n}\n",
    },
    Reading {
        command: "print",
        input: "objective { vars: 7 scaling_factor: 1 }",
        exit: 0,
        text: "objective {\n  vars: [7]\n}\n",
    },
    Reading {
        command: "print",
        input: "objective { offset: 1 offset: 2 }",
        exit: 1,
        text: "status: MODEL_INVALID\n# field fault Repeated at byte 22\n",
    },
    Reading {
        command: "print",
        input: "variables { domain: [089, 90] }",
        exit: 1,
        text: "status: MODEL_INVALID\n# text fault at byte 21\n",
    },
    Reading {
        command: "print",
        input: "constraints { }",
        exit: 0,
        text: "constraints {\n}\n",
    },
    Reading {
        command: "print",
        input: STEERED,
        exit: 0,
        text: STEERED_TEXT,
    },
    Reading {
        command: "print",
        input: STEERED_TEXT,
        exit: 0,
        text: STEERED_TEXT,
    },
    Reading {
        command: "validate",
        input: STEERED,
        exit: 0,
        text: "valid\n",
    },
    Reading {
        command: "validate",
        input: "variables { domain: [0, 1] } search_strategy { exprs { vars: 0 } }",
        exit: 1,
        text: "status: MODEL_INVALID\n# invalid V5 at strategy 0\n",
    },
    Reading {
        command: "validate",
        input: "variables { domain: [0, 2] } search_strategy { exprs { vars: 0 coeffs: 4611686018427387903 } }",
        exit: 1,
        text: "status: MODEL_INVALID\n# invalid V6 at strategy 0\n",
    },
    Reading {
        command: "validate",
        input: "variables { domain: [0, 1] } solution_hint { vars: 0 }",
        exit: 1,
        text: "status: MODEL_INVALID\n# invalid V17 at hint\n",
    },
    Reading {
        command: "print",
        input: "search_strategy { variables: 0 exprs { } }",
        exit: 1,
        text: "status: MODEL_INVALID\n# field fault MixedForms at byte 31\n",
    },
    Reading {
        command: "validate",
        input: "variables { domain: [0, 4611686018427387904] }",
        exit: 1,
        text: "status: MODEL_INVALID\n# invalid V2 at variable 0\n",
    },
    Reading {
        command: "validate",
        input: "constraints { linear { domain: [1, 0] } }",
        exit: 1,
        text: "status: MODEL_INVALID\n# invalid V7 at constraint 0\n",
    },
    Reading {
        command: "validate",
        input: "constraints { int_mod { exprs { offset: 4 } exprs { } } }",
        exit: 1,
        text: "status: MODEL_INVALID\n# invalid V9 at constraint 0\n",
    },
    Reading {
        command: "validate",
        input: "variables { domain: [2147483648, 2147483648] } \
            constraints { int_prod { exprs { vars: 0 coeffs: 1 } exprs { vars: 0 coeffs: 1 } } }",
        exit: 1,
        text: "status: MODEL_INVALID\n# invalid V10 at constraint 0\n",
    },
    Reading {
        command: "validate",
        input: "constraints { interval { } } constraints { cumulative { intervals: 0 demands { offset: -1 } } }",
        exit: 1,
        text: "status: MODEL_INVALID\n# invalid V11 at constraint 1\n",
    },
    Reading {
        command: "validate",
        input: "constraints { no_overlap { intervals: 0 } }",
        exit: 1,
        text: "status: MODEL_INVALID\n# invalid V12 at constraint 0\n",
    },
    Reading {
        command: "validate",
        input: "constraints { lin_max { } }",
        exit: 1,
        text: "status: MODEL_INVALID\n# invalid V13 at constraint 0\n",
    },
    Reading {
        command: "validate",
        input: "objective { vars: 7 coeffs: 1 }",
        exit: 1,
        text: "status: MODEL_INVALID\n# invalid V3 at objective\n",
    },
    Reading {
        command: "validate",
        input: "variables { domain: [0, 1] } objective { vars: 0 }",
        exit: 1,
        text: "status: MODEL_INVALID\n# invalid V5 at objective\n",
    },
    Reading {
        command: "validate",
        input: "objective { domain: [1, 0] }",
        exit: 1,
        text: "status: MODEL_INVALID\n# invalid V16 at objective\n",
    },
];
