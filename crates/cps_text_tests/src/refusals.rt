//! Documents that are refused, each with its first fault and the byte where that is.
use crate::reading::refusal;
use crate::rows::assert_text;
use std::alloc::Global;
use std::process::Abort;
use std::test::Fail;

/// Asserts that a text is refused so: a fault and the byte of its token.
fn assert_refusal(rt: &impl Abort, alloc: Global, text: &str, wanted: &str) -> Result<(), Fail> {
    let (name, byte) = refusal(rt, alloc, text)?;
    let shown = format!(in alloc; "{name:?} at {byte}")?;
    assert_text(rt, text, &shown, wanted);
    Ok(())
}

/// Asserts that each line is a refusal and a text that is refused so.
pub fn assert_refusals(rt: &impl Abort, alloc: Global, lines: &str) -> Result<(), Fail> {
    for line in lines.lines() {
        let (wanted, text) = line.split_once(": ").ok_or("no text")?;
        assert_refusal(rt, alloc, text, wanted)?;
    }
    Ok(())
}

const NAMES: &str = "\
UnknownField at 12: variables { domian: 0 }
Repeated at 22: objective { offset: 1 offset: 2 }
Repeated at 22: objective { offset: 1 offset: x }
Repeated at 14: objective { } objective: 0
Unsupported at 14: constraints { routes { } }
Repeated at 26: constraints { bool_or { } bool_or: 0 }
TwoKinds at 26: constraints { bool_or { } linear: 0 }
TwoKinds at 30: constraints { at_most_one { } exactly_one { } }
Repeated at 10: name: \"a\" name: \"b\"
Repeated at 18: solution_hint { } solution_hint { }
MixedForms at 28: search_strategy { exprs { } variables: 0 }
MixedForms at 33: search_strategy { variables: [ ] exprs: 0 }
Repeated at 49: search_strategy { variable_selection_strategy: 0 variable_selection_strategy: 1.0 }
";

const FORMS: &str = "\
WrongKind at 20: objective { offset: [1] }
WrongKind at 10: objective [ ]
WrongKind at 11: objective: [ ]
WrongKind at 19: objective { offset { } }
WrongKind at 11: variables: 0
WrongKind at 12: variables: [0]
WrongKind at 20: variables { domain: - x }
WrongKind at 6: name: x
WrongKind at 20: constraints { name: 0 }
WrongKind at 6: name: [\"a\"]
WrongKind at 18: variables { name: \"a\" \"\\377\" }
WrongKind at 12: assumptions { }
";

const NUMBERS: &str = "\
OutOfRange at 42: variables { domain: [9223372036854775807, 9223372036854775808] }
OutOfRange at 43: variables { domain: [-9223372036854775808, -9223372036854775809] }
OutOfRange at 21: variables { domain: [9223372036854775808, x] }
OutOfRange at 20: variables { domain: 100000000000000000000000000000000000000000 }
OutOfRange at 20: variables { domain: 0x8000000000000000 }
WrongKind at 20: variables { domain: 1.0 }
WrongKind at 20: variables { domain: -1e3 }
OutOfRange at 34: constraints { bool_or { literals: 2147483648 } }
OutOfRange at 34: constraints { bool_or { literals: 020000000000 } }
WrongKind at 34: constraints { bool_or { literals: 2f } }
OutOfRange at 29: constraints { linear { vars: -2147483649 x: 0 } }
NotWhole at 20: objective { offset: -inf }
NotWhole at 20: objective { offset: 9007199254740993 }
NotWhole at 28: objective { scaling_factor: - 9007199254740993 }
WrongKind at 20: objective { offset: 017 }
WrongKind at 20: objective { offset: -0x1F }
NotWhole at 20: objective { offset: 0.5 }
NotWhole at 20: objective { offset: 1e-5 }
NotWhole at 20: objective { offset: 1e99999999999999999999 }
NotWhole at 20: objective { offset: -9007199254740992.5 }
NotWhole at 28: objective { scaling_factor: 9007199254740993.0 }
";

const MEMBERS: &str = "\
WrongKind at 47: search_strategy { variable_selection_strategy: SELECT_MIN_VALUE }
WrongKind at 47: search_strategy { variable_selection_strategy: SELECT_RANDOM_HALF }
Unsupported at 45: search_strategy { domain_reduction_strategy: SELECT_RANDOM_HALF }
WrongKind at 45: search_strategy { domain_reduction_strategy: - SELECT_MIN_VALUE }
WrongKind at 45: search_strategy { domain_reduction_strategy: 1.0 }
WrongKind at 45: search_strategy { domain_reduction_strategy: { } }
OutOfRange at 45: search_strategy { domain_reduction_strategy: 5 }
OutOfRange at 47: search_strategy { variable_selection_strategy: -1 }
OutOfRange at 47: search_strategy { variable_selection_strategy: 0x100000000 }
WrongKind at 34: search_strategy { exprs { offset: 1f } }
";

static TABLES: [&str; 4] = [NAMES, FORMS, NUMBERS, MEMBERS];

fn assert_tables(rt: &impl Abort, alloc: Global, tables: &[&str]) -> Result<(), Fail> {
    for lines in tables {
        assert_refusals(rt, alloc, lines)?;
    }
    Ok(())
}

#[test]
fn refuses_fields(rt: HostRuntime) -> Result<(), Fail> {
    assert_tables(&rt, rt.alloc(), &TABLES)
}
