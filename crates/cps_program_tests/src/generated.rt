//! Models that are generated: what is written of them, and what comes of solving them.
use crate::running::{Given, run, run_unread, unhindered};
use std::alloc::{AllocError, Global};
use std::process::Abort;
use std::sync::Wait;
use std::test::Fail;
use std::thread::Threads;

/// Words of `demo`, each with what is written. The objectives are those that a search through all orders finds.
static DEMONSTRATIONS: [(&[&str], &str); 4] = [
    (
        &["demo", "knapsack", "1", "7"],
        "variables: 1\nconstraints: 1\nstatus: OPTIMAL\nobjective_value: 0\n",
    ),
    (
        &["demo", "jobshop", "1", "7"],
        "variables: 2\nconstraints: 3\nstatus: OPTIMAL\nobjective_value: 13\n",
    ),
    (
        &["demo", "tour", "2", "7"],
        "variables: 2\nconstraints: 1\nstatus: OPTIMAL\nobjective_value: 61\n",
    ),
    (
        &["demo", "jobshop", "3", "1"],
        "variables: 10\nconstraints: 21\nstatus: OPTIMAL\nobjective_value: 54\n",
    ),
];

fn assert_demonstrated<R: Threads + Wait + Sync + Abort>(
    rt: &R,
    alloc: Global,
    rows: &[(&'static [&'static str], &'static str)],
) -> Result<(), Fail> {
    for (words, lines) in rows {
        let seen = run_unread(rt, alloc, words)?;
        assert!(rt; seen.is(0, true, lines), "at {lines}");
    }
    Ok(())
}

#[test]
fn demonstrations_say_what_came_of_them(rt: HostRuntime) -> Result<(), Fail> {
    assert_demonstrated(&rt, rt.alloc(), &DEMONSTRATIONS)
}

#[test]
fn a_demonstration_is_the_same_at_each_run(rt: HostRuntime) -> Result<(), Fail> {
    let words = ["demo", "jobshop", "3", "1"];
    let seen = run_unread(&rt, rt.alloc(), &words)?;
    let again = run_unread(&rt, rt.alloc(), &words)?;
    assert!(rt; seen.exit == 0 && again.exit == 0);
    assert!(rt; seen.text.as_slice() == again.text.as_slice());
    Ok(())
}

#[test]
fn a_generated_model_is_valid(rt: HostRuntime) -> Result<(), Fail> {
    let model = run_unread(&rt, rt.alloc(), &["gen", "knapsack", "100", "3"])?;
    assert_eq!(rt; model.exit, 0);
    let printed = Given {
        input: &model.text,
        ..unhindered(&["validate"], "")
    };
    assert!(rt; run(&rt, rt.alloc(), &printed)?.is(0, false, "valid\n"));
    Ok(())
}
