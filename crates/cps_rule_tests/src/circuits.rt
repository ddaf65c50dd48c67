//! Circuits: what degrees, chains and reachability leave.
//!
//! A row is a text of arcs between nodes of one digit, and a text with a sign for each of them: `1` for one that is
//! taken, `0` for one that is not, and `.` for one that is open. The contract asks of circuits what degrees give, so what
//! chains and reachability narrow is seen here; a row's comment says why degrees do not see the same.

ghost use Rattle.std.specs.Prelude.{◌≡◌, IfOk, length};
ghost use Rattle.cps_rule_tests.specs.Ready.{IsFreshStore, IsTaskReady};

use crate::runs::{Left, Outcome, assert_row, ends_by, leaves, refuses, run};
use crate::spans::literals;
use crate::stores::{Comparison, Ends, store_of};
use cps_enforce::Enforced;
use cps_instance::{Body, Task};
use cps_literal::Op::{Ge, Le};
use cps_model::Listed;
use cps_p_circuit::Circuit;
use cps_trail::Store;
use std::alloc::{AllocError, Global};
use std::process::Abort;
use std::test::Fail;

/// The digits that stand in a text at every fourth place from one on.
fn digits(alloc: Global, text: &str, from: usize) -> Result<Vec<i32>, AllocError> {
    let mut digits = Vec::new(alloc);
    for (place, byte) in text.as_bytes().iter().enumerate() {
        if place % 4 == from {
            digits.push(i32::from(*byte) - 48)?;
        }
    }
    Ok(digits)
}

/// The same as a list with a number for each subject; an error where there are more or fewer.
fn nodes(
    alloc: Global,
    text: &str,
    from: usize,
    subjects: &[u32],
) -> Result<Listed<i32>, AllocError>
    ensures { IfOk result (λ nodes. length nodes ≡ length subjects.now) }
{
    let nodes = digits(alloc, text, from)?;
    if nodes.len() != subjects.len() {
        return Err(AllocError);
    }
    Ok(Listed::from_vec(nodes))
}

/// The propagator of a circuit of arcs, each with its own subject as a literal.
fn circuit(
    alloc: Global,
    store: &Store,
    subjects: &[u32],
    arcs: &str,
) -> Result<Enforced<Circuit>, AllocError>
    requires { IsFreshStore store.now }
    ensures { IfOk result (λ propagator. IsTaskReady store.now.first propagator) }
{
    let tails = nodes(alloc, arcs, 0, subjects)?;
    let heads = nodes(alloc, arcs, 2, subjects)?;
    let literals = literals(alloc, store, subjects)?;
    let task = Task {
        enforcement: Listed::new(alloc),
        body: Body::Circuit {
            tails,
            heads,
            literals,
        },
    };
    let propagator = Circuit::of(alloc, &task)?;
    Ok(propagator)
}

/// The decisions that signs of arcs say.
fn decisions(alloc: Global, signs: &str) -> Result<Vec<Comparison>, AllocError> {
    let mut decided = Vec::new(alloc);
    for (place, sign) in signs.as_bytes().iter().enumerate() {
        let subject = u32::try_from(place).map_err(|_| AllocError)?;
        match *sign {
            b'0' => decided.push((subject, Le, 0))?,
            b'1' => decided.push((subject, Ge, 1))?,
            _ => {}
        }
    }
    Ok(decided)
}

/// What is left of arcs with these signs; nothing where there are none.
fn left_of(alloc: Global, signs: &str) -> Result<Vec<Left>, AllocError> {
    let mut left = Vec::new(alloc);
    for (place, sign) in signs.as_bytes().iter().enumerate() {
        let subject = u32::try_from(place).map_err(|_| AllocError)?;
        match *sign {
            b'0' => left.push((subject, 0, 0))?,
            b'1' => left.push((subject, 1, 1))?,
            _ => left.push((subject, 0, 1))?,
        }
    }
    Ok(left)
}

/// What a circuit of arcs makes of decisions.
fn routed(alloc: Global, arcs: &str, decided: &str) -> Result<Option<Outcome>, AllocError> {
    let mut subjects = Vec::new(alloc);
    let mut ends: Vec<Ends> = Vec::new(alloc);
    let count = u32::try_from(decided.len()).map_err(|_| AllocError)?;
    for subject in 0..count {
        subjects.push(subject)?;
        ends.push((0, 1))?;
    }
    let mut store = store_of(alloc, ends.as_slice())?;
    let mut propagator = circuit(alloc, &store, subjects.as_slice(), arcs)?;
    let decided = decisions(alloc, decided)?;
    run(alloc, &mut propagator, &mut store, decided.as_slice())
}

/// Arcs, the decisions of them, and what is left; an empty text if there is no circuit.
struct Row {
    arcs: &'static str,
    decided: &'static str,
    left: &'static str,
}

fn assert_left(rt: &impl Abort, alloc: Global, rows: &[Row]) -> Result<(), Fail> {
    for (place, row) in rows.iter().enumerate() {
        let found = routed(alloc, row.arcs, row.decided)?;
        let left = left_of(alloc, row.left)?;
        assert_row(rt, place, leaves(found, left.as_slice()));
    }
    Ok(())
}

static ARCS: [Row; 7] = [
    // no other arc leaves 0 or enters 1, so 2 goes to 0, and 1 to 2
    Row {
        arcs: "0>1 1>0 0>2 2>0 1>2 2>1",
        decided: "1.....",
        left: "100110",
    },
    // 2 has its loop alone, and so have the others each other
    Row {
        arcs: "0>1 1>0 2>2",
        decided: "...",
        left: "111",
    },
    // 0 and 1 are not a circuit beside 2 and 3, so 1 does not go back; the degrees leave that open
    Row {
        arcs: "0>1 1>0 0>2 2>0 0>3 3>0 1>2 2>1 1>3 3>1 2>3 3>2",
        decided: "1...........",
        left: "100.0..0.0..",
    },
    // without 0>3 nothing leads from 0 to 3 and 4, which stay where they are; degrees leave 3>4 and 4>3 open
    Row {
        arcs: "0>1 1>0 1>2 2>1 2>0 0>2 3>4 4>3 3>3 4>4 0>3 4>1",
        decided: "..........0.",
        left: "......001100",
    },
    // without 4>1 nothing leads back from them
    Row {
        arcs: "0>1 1>0 1>2 2>1 2>0 0>2 3>4 4>3 3>3 4>4 0>3 4>1",
        decided: "...........0",
        left: "......001100",
    },
    // two circuits
    Row {
        arcs: "0>1 1>0 2>3 3>2",
        decided: "....",
        left: "",
    },
    // no arc leaves 3
    Row {
        arcs: "1>3 2>3 1>1 2>2 1>2 2>1",
        decided: "......",
        left: "",
    },
];

#[test]
fn one_circuit_goes_through_all_nodes_without_a_loop(rt: HostRuntime) -> Result<(), Fail> {
    assert_left(&rt, rt.alloc(), &ARCS)
}

/// 1 does not go back to 0, which comes of 0>1 alone. That no other arc leaves 0 or enters 1 is decided before, so
/// nothing else is narrowed.
static REASON: [Comparison; 2] = [(0, Le, 0), (1, Le, 0)];

#[test]
fn a_chain_is_the_reason_that_it_does_not_close(rt: HostRuntime) -> Result<(), Fail> {
    let arcs = "0>1 1>0 0>2 2>0 0>3 3>0 1>2 2>1 1>3 3>1 2>3 3>2";
    let found = routed(rt.alloc(), arcs, "1.0.0..0.0..")?;
    assert!(rt; ends_by(found, &REASON));
    Ok(())
}

/// Only 0>3 leads from 0, 1 and 2 to 3, 4 and 5. Two arcs or more stay open at each end of a node, so degrees say
/// nothing.
static CONFLICT: [Comparison; 1] = [(12, Ge, 1)];

#[test]
fn the_arcs_of_a_cut_are_the_conflict(rt: HostRuntime) -> Result<(), Fail> {
    let arcs = "0>1 1>0 1>2 2>1 2>0 0>2 3>4 4>3 4>5 5>4 5>3 3>5 0>3 4>1 5>2";
    let found = routed(rt.alloc(), arcs, "............00.")?;
    assert!(rt; refuses(found, &CONFLICT));
    Ok(())
}
