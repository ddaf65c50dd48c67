//! What is judged of a response with its log, and tables of items that are accepted or refused.
use crate::reading::valid_model;
use cps_cert::{Verdict, check};
use cps_validate::ValidModel;
use std::alloc::Global;
use std::process::Abort;
use std::test::Fail;

/// The line that is refused, none where all are accepted.
pub fn refused_line(verdict: Verdict) -> Option<u64> {
    match verdict {
        Verdict::Verified => None,
        Verdict::Refused { line } => Some(line),
    }
}

/// The line of a response with its log that is refused, counted from 1.
pub fn refused(
    rt: &impl Abort,
    alloc: Global,
    model: &ValidModel,
    bytes: &[u8],
) -> Result<Option<u64>, Fail> {
    assert!(rt; bytes.len() < 1_000_000);
    Ok(refused_line(check(alloc, model, bytes, 1)?))
}

/// Asserts that a response with its log is refused at this line, or at none.
pub fn assert_refused(
    rt: &impl Abort,
    alloc: Global,
    model: &ValidModel,
    text: &str,
    line: Option<u64>,
) -> Result<(), Fail> {
    let found = refused(rt, alloc, model, text.as_bytes())?;
    assert!(rt;
        found == line,
        "refused at {found:?}, not at {line:?}: {text}"
    );
    Ok(())
}

/// Items of logs of one response to a model. Each row has one log, its items separated by `; `, which ends behind the
/// last of them: `+` stands before it where all are accepted, and `-` where the last is refused.
pub struct Items {
    pub model: &'static str,
    pub response: &'static str,
    pub rows: &'static str,
}

/// Asserts that the last item of a log is accepted, or is the first line that is refused.
fn assert_last(
    rt: &impl Abort,
    alloc: Global,
    model: &ValidModel,
    response: &str,
    row: (&str, &str),
) -> Result<(), Fail> {
    let (sign, items) = row;
    let mut text = String::new(alloc);
    text.push_str(response)?;
    text.push_str("%log\n")?;
    for item in items.split("; ") {
        text.push_str(item)?;
        text.push_str("\n")?;
    }
    let lines = text.as_str().lines().count() as u64;
    // an accepted one is followed by a line that is missing
    let line = if sign == "+" { lines + 1 } else { lines };
    assert_refused(rt, alloc, model, text.as_str(), Some(line))
}

fn assert_rows(
    rt: &impl Abort,
    alloc: Global,
    model: &ValidModel,
    items: &Items,
) -> Result<(), Fail> {
    for line in items.rows.lines() {
        let row = line.split_once(' ').ok_or("no item")?;
        assert_last(rt, alloc, model, items.response, row)?;
    }
    Ok(())
}

/// Asserts that each row of each table is judged as it says.
pub fn assert_items(rt: &impl Abort, alloc: Global, tables: &[Items]) -> Result<(), Fail> {
    for items in tables {
        let model = valid_model(rt, alloc, items.model)?;
        assert_rows(rt, alloc, &model, items)?;
    }
    Ok(())
}
