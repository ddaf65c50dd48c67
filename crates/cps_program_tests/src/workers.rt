//! Several workers on one model: in threads, side by side, and in turns that a seed draws.
use crate::known_answers::THREE_IN_THREE;
use crate::running::{Seen, run, run_at, unhindered};
use cps_outer::Gate;
use std::sync::atomic::{AtomicBool, AtomicU32, Ordering};
use std::test::Fail;

/// How often a worker looks for the other.
const MOST_LOOKS: u32 = 100_000_000;

/// A gate that holds each of the workers 0 and 1 until the other has arrived, for so many looks at most.
#[derive(Drop)]
struct MeetingGate {
    /// How often worker 0 arrived.
    first: AtomicU32,
    /// How often worker 1 arrived.
    second: AtomicU32,
    met_limit: AtomicBool,
}

impl MeetingGate {
    /// Holds a worker until the other has arrived.
    fn hold(&self, other: &AtomicU32) {
        for _ in 0..MOST_LOOKS {
            if other.load(Ordering::SeqCst) > 0 {
                return;
            }
        }
        self.met_limit.store(true, Ordering::SeqCst);
    }

    /// Counts a worker, and holds it.
    fn meet(&self, own: &AtomicU32, other: &AtomicU32) {
        own.fetch_add(1, Ordering::SeqCst);
        self.hold(other);
    }

    /// Whether each of the two arrived once, and met the other.
    fn is_met(&self) -> bool {
        self.first.load(Ordering::SeqCst) == 1
            && self.second.load(Ordering::SeqCst) == 1
            && !self.met_limit.load(Ordering::SeqCst)
    }
}

impl Gate for MeetingGate {
    fn arrive(&self, worker: u32) {
        match worker {
            0 => self.meet(&self.first, &self.second),
            1 => self.meet(&self.second, &self.first),
            _ => {}
        }
    }
}

/// What is written where an order of 0, 1 and 2 is best, for each order.
static BEST_ORDERS: [&str; 6] = [
    "status: OPTIMAL\nsolution: 0\nsolution: 1\nsolution: 2\nobjective_value: 3\nbest_objective_bound: 3\n",
    "status: OPTIMAL\nsolution: 0\nsolution: 2\nsolution: 1\nobjective_value: 3\nbest_objective_bound: 3\n",
    "status: OPTIMAL\nsolution: 1\nsolution: 0\nsolution: 2\nobjective_value: 3\nbest_objective_bound: 3\n",
    "status: OPTIMAL\nsolution: 1\nsolution: 2\nsolution: 0\nobjective_value: 3\nbest_objective_bound: 3\n",
    "status: OPTIMAL\nsolution: 2\nsolution: 0\nsolution: 1\nobjective_value: 3\nbest_objective_bound: 3\n",
    "status: OPTIMAL\nsolution: 2\nsolution: 1\nsolution: 0\nobjective_value: 3\nbest_objective_bound: 3\n",
];

/// Whether a run ended well, and its text says that some order of 0, 1 and 2 is best.
fn is_best_order(seen: &Seen) -> bool {
    seen.exit == 0
        && BEST_ORDERS
            .iter()
            .any(|text| text.as_bytes() == seen.text.as_slice())
}

#[test]
fn workers_find_a_best_order(rt: HostRuntime) -> Result<(), Fail> {
    let words: [&[&str]; 3] = [
        &["solve"],
        &["solve", "--workers", "16"],
        &["solve", "--workers", "16", "--interleave"],
    ];
    for words in words {
        let seen = run(&rt, rt.alloc(), &unhindered(words, THREE_IN_THREE))?;
        assert!(rt; is_best_order(&seen));
    }
    Ok(())
}

#[test]
fn turns_that_a_seed_draws_are_the_same_at_each_run(rt: HostRuntime) -> Result<(), Fail> {
    let drawn = unhindered(&["solve", "--interleave", "--seed", "7"], THREE_IN_THREE);
    let seen = run(&rt, rt.alloc(), &drawn)?;
    assert!(rt; is_best_order(&seen));
    assert!(rt; run(&rt, rt.alloc(), &drawn)?.text.as_slice() == seen.text.as_slice());
    Ok(())
}

#[test]
fn two_workers_search_side_by_side(rt: HostRuntime) -> Result<(), Fail> {
    let gate = MeetingGate {
        first: AtomicU32::new(0),
        second: AtomicU32::new(0),
        met_limit: AtomicBool::new(false),
    };
    let two = unhindered(&["solve", "--workers", "2"], THREE_IN_THREE);
    let seen = run_at(&rt, rt.alloc(), &two, &gate)?;
    assert!(rt; is_best_order(&seen));
    assert!(rt; gate.is_met());
    Ok(())
}
