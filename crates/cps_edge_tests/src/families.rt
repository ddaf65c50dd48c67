//! The names of the families, and the sizes that they have.
use cps_gen::Family;
use std::process::Abort;

/// A family with its name, its least and its greatest size, and the sizes next to these that it does not have.
struct Row {
    family: Family,
    name: &'static str,
    inside: [u32; 2],
    outside: [u32; 2],
}

static FAMILIES: [Row; 3] = [
    Row {
        family: Family::Knapsack,
        name: "knapsack",
        inside: [1, 10_000],
        outside: [0, 10_001],
    },
    Row {
        family: Family::Jobshop,
        name: "jobshop",
        inside: [1, 16],
        outside: [0, 17],
    },
    Row {
        family: Family::Tour,
        name: "tour",
        inside: [2, 60],
        outside: [1, 61],
    },
];

static OTHER_WORDS: [&str; 4] = ["", "Tour", "tours", "job"];

fn assert_names(rt: &impl Abort, rows: &[Row]) {
    for row in rows {
        assert!(rt; row.family.name() == row.name);
        assert!(rt; Family::of_name(row.name) == Some(row.family));
    }
}

fn assert_no_names(rt: &impl Abort, words: &[&str]) {
    for word in words {
        assert!(rt; Family::of_name(word).is_none());
    }
}

#[test]
fn names(rt: HostRuntime) {
    assert_names(&rt, &FAMILIES);
    assert_no_names(&rt, &OTHER_WORDS);
}

fn assert_sizes(rt: &impl Abort, rows: &[Row]) {
    for row in rows {
        let [least, most] = row.inside;
        let [below, beyond] = row.outside;
        assert!(rt; !row.family.is_in_range(below));
        assert!(rt; row.family.is_in_range(least));
        assert!(rt; row.family.is_in_range(most));
        assert!(rt; !row.family.is_in_range(beyond));
    }
}

#[test]
fn sizes(rt: HostRuntime) {
    assert_sizes(&rt, &FAMILIES);
}
