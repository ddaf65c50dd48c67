//! Models in canonical form.
use crate::reading::model;
use crate::rows::assert_text;
use cps_print::model_text;
use std::alloc::Global;
use std::process::Abort;
use std::test::Fail;

/// The canonical text of the model that a text is read as.
fn printed(rt: &impl Abort, alloc: Global, text: &str) -> Result<String, Fail> {
    let model = model(rt, alloc, text)?;
    Ok(model_text(alloc, &model)?)
}

fn assert_printed(rt: &impl Abort, alloc: Global, text: &str, wanted: &str) -> Result<(), Fail> {
    let printed = printed(rt, alloc, text)?;
    assert_text(rt, text, &printed, wanted);
    Ok(())
}

/// A name with each escape, a strategy, a hint and assumptions.
const STEERED: &str =
    "assumptions: [ ] assumptions: [0, -1] solution_hint { values: 1 vars: 0 } name: 'a\"\\\\\\n\\t\\'\\r\\x7f\\u00e9 b' \
    search_strategy { variable_selection_strategy: 3 exprs { offset: -2 coeffs: 1 vars: 0 } }";

const STEERED_TEXT: &str =
    "name: \"a\\\"\\\\\\n\\t\\'\\r\\177\\303\\251 b\"\nsearch_strategy {\n  exprs {\n    vars: [0]\n    coeffs: [1]\n    offset: -2\n  }\n  \
     variable_selection_strategy: CHOOSE_MIN_DOMAIN_SIZE\n}\nsolution_hint {\n  vars: [0]\n  values: [1]\n}\nassumptions: [0, -1]\n";

/// Texts, each with its canonical form.
static TEXTS: [(&str, &str); 7] = [
    ("variables { }", "variables {\n}\n"),
    (
        "variables { domain: [0, 10] } constraints { linear { domain: [-5, 10] coeffs: 10 vars: 0 } }",
        "variables {\n  domain: [0, 10]\n}\n\
         constraints {\n  linear {\n    vars: [0]\n    coeffs: [10]\n    domain: [-5, 10]\n  }\n}\n",
    ),
    (
        "objective { coeffs: 1 vars: 0 offset: 0 scaling_factor: 1 }",
        "objective {\n  vars: [0]\n  coeffs: [1]\n}\n",
    ),
    (
        "objective { scaling_factor: -1 offset: 100 }",
        "objective {\n  offset: 100\n  scaling_factor: -1\n}\n",
    ),
    (
        "constraints { name: \"\\a\\x1f\\U0001F600\" } variables { name: \"\\0001\" } name: ' ~'",
        "name: \" ~\"\nvariables {\n  name: \"\\0001\"\n}\n\
         constraints {\n  name: \"\\007\\037\\360\\237\\230\\200\"\n}\n",
    ),
    (
        "assumptions: -1 variables { domain: [0, 1] } assumptions: [0, 2]",
        "variables {\n  domain: [0, 1]\n}\nassumptions: [-1, 0, 2]\n",
    ),
    (STEERED, STEERED_TEXT),
];

fn assert_all_printed(rt: &impl Abort, alloc: Global, rows: &[(&str, &str)]) -> Result<(), Fail> {
    for (text, wanted) in rows {
        assert_printed(rt, alloc, text, wanted)?;
    }
    Ok(())
}

#[test]
fn models(rt: HostRuntime) -> Result<(), Fail> {
    assert_all_printed(&rt, rt.alloc(), &TEXTS)
}
