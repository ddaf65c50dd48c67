//! Crews of four workers: what they hand each other by the pool, in turns and in threads.
//!
//! In turns the workers are those of the portfolio. A seed is taken by whose draws workers 0 and 1 have each found a
//! solution before worker 3 begins, and what worker 3 then finds is near the later one of these alone. So it shows that
//! solutions come into the pool, and at which of them a worker aims. In threads nobody can say who finds first. There
//! the workers are stand-ins that do not search: one puts a solution into the pool and waits until another has it, which
//! waits for it meanwhile. So both are at work at once, and each is counted at the gate before it is made.
ghost use Rattle.std.specs.Prelude.{◌≡◌};
ghost use Rattle.cps_kinds.specs.Kinds.{AreAllPropagated};

use crate::models::hinted;
use cps_crew::{AnyEnded, Brief, Order, Recruiter, solve_in_threads};
use cps_eval::satisfies;
use cps_options::Options;
use cps_outer::{Gate, Host};
use cps_pool::Pool;
use cps_port::Port;
use cps_portfolio::solve_interleaved;
use cps_validate::ValidModel;
use std::alloc::{AllocError, Global};
use std::sync::Wait;
use std::sync::atomic::{AtomicBool, AtomicU32, Ordering};
use std::test::Fail;
use std::thread::Threads;

/// Four workers that learn from no conflicts. By the words of the seed worker 0 finds its solution before worker 1, and
/// this one before worker 3 begins, which frees the first variable and is done before worker 2 finds anything.
const FOUR: Options = Options {
    workers: 4,
    conflicts: 0,
    seed: 3985,
    interleave: true,
    gap: 0,
    log: false,
};

/// What each worker finds, by number: the least values, those of the hint, the best ones, and near those of the hint
/// the best ones, with the hint's second value.
static FOUND: [[i64; 2]; 4] = [[0, 0], [8, 5], [9, 9], [9, 5]];

/// Whether these are the best solutions that workers found, by number.
fn have_found(ends: &[AnyEnded], found: &[[i64; 2]]) -> bool {
    for (ended, values) in ends.iter().zip(found.iter()) {
        if ended.best() != Some(values.as_slice()) {
            return false;
        }
    }
    ends.len() == found.len()
}

/// Whether four workers that take turns find these.
fn find_in_turns(alloc: Global, model: &ValidModel, found: &[[i64; 2]]) -> Result<bool, AllocError>
    requires kinds { AreAllPropagated model.now }
{
    let outcome = solve_interleaved(alloc, model, &FOUR)?;
    Ok(have_found(outcome.ends.as_slice(), found))
}

#[test]
fn a_worker_searches_near_the_last_solution_of_the_pool(rt: HostRuntime) -> Result<(), Fail> {
    let model = hinted(rt.alloc())?;
    assert!(rt; find_in_turns(rt.alloc(), &model, &FOUND)?);
    Ok(())
}

/// How often worker 3 looks into the pool, and worker 0 at whether it was handed the solution.
const MOST_LOOKS: u32 = 100_000_000;

/// A solution that is put into the pool.
static HANDED: [i64; 2] = [8, 5];

/// A gate, and workers that do not search: number 0 puts a solution into the pool, for which number 3 waits, and goes on
/// once that one has it.
#[derive(Drop)]
struct Handing {
    /// How often each worker came by the gate.
    arrivals: [AtomicU32; 4],
    /// How many workers were made that had come by it once.
    made: AtomicU32,
    /// Whether worker 3 was handed the solution.
    received: AtomicBool,
    /// Whether worker 0 saw that, still at its own work.
    seen: AtomicBool,
}

impl Gate for Handing {
    fn arrive(&self, worker: u32) {
        if let Some(count) = self.arrivals.get(worker as usize) {
            count.fetch_add(1, Ordering::SeqCst);
        }
    }
}

impl Handing {
    fn new() -> Self {
        Handing {
            arrivals: [
                AtomicU32::new(0),
                AtomicU32::new(0),
                AtomicU32::new(0),
                AtomicU32::new(0),
            ],
            made: AtomicU32::new(0),
            received: AtomicBool::new(false),
            seen: AtomicBool::new(false),
        }
    }

    /// A worker of this number is made.
    fn make(&self, number: u32) {
        if let Some(count) = self.arrivals.get(number as usize) {
            if count.load(Ordering::SeqCst) == 1 {
                self.made.fetch_add(1, Ordering::SeqCst);
            }
        }
    }

    /// Waits until worker 3 was handed the solution, for so many looks at most. Whether it was.
    fn sees_receipt(&self) -> bool {
        for _ in 0..MOST_LOOKS {
            if self.received.load(Ordering::SeqCst) {
                return true;
            }
        }
        false
    }

    /// Whether each worker came by the gate once.
    fn have_arrived_once(&self) -> bool {
        for count in &self.arrivals {
            if count.load(Ordering::SeqCst) != 1 {
                return false;
            }
        }
        true
    }
}

/// Puts the solution into a pool, if it is one of the model.
fn hand_over<F: Pool>(alloc: Global, model: &ValidModel, pool: &mut F) -> Result<(), AllocError>
    requires { F.model pool.old ≡ model.now }
{
    if model.model().variables.as_slice().len() != HANDED.len() {
        return Ok(());
    }
    if satisfies(alloc, model, &HANDED)? {
        pool.push(&HANDED)?;
    }
    Ok(())
}

/// Waits until a pool has a solution, for so many looks at most. Whether it is the one that was put there.
fn receives<F: Pool>(pool: &F) -> bool {
    for _ in 0..MOST_LOOKS {
        let count = pool.count();
        if count > 0 {
            if let Some(solution) = pool.get(count - 1) {
                return solution == HANDED.as_slice();
            }
        }
    }
    false
}

impl Recruiter for Handing {
    ghost suits = { AreAllPropagated };

    /// None of them searches, so there is no end of it.
    fn search<Q: Port, F: Pool>(
        &self,
        order: &Order<'_>,
        _port: &mut Q,
        pool: &mut F,
    ) -> Result<AnyEnded, AllocError> {
        self.make(order.number);
        match order.number {
            0 => {
                hand_over(order.alloc, order.model, pool)?;
                self.seen.store(self.sees_receipt(), Ordering::SeqCst);
            }
            3 => self.received.store(receives(pool), Ordering::SeqCst),
            _ => {}
        }
        Err(AllocError)
    }
}

/// Whether a crew of such workers comes to no outcome.
fn gives_up<R: Threads + Wait + Sync>(
    rt: &R,
    alloc: Global,
    model: &ValidModel,
    handing: &Handing,
) -> bool
    requires kinds { AreAllPropagated model.now }
{
    let host = Host {
        rt,
        alloc,
        gate: handing,
    };
    let brief = Brief {
        model,
        options: &FOUR,
        recruiter: handing,
    };
    solve_in_threads(&host, &brief).is_err()
}

#[test]
fn workers_in_threads_are_at_work_at_once_and_have_one_pool(rt: HostRuntime) -> Result<(), Fail> {
    let model = hinted(rt.alloc())?;
    let handing = Handing::new();
    assert!(rt; gives_up(&rt, rt.alloc(), &model, &handing));
    assert!(rt; handing.made.load(Ordering::SeqCst) == 4);
    assert!(rt; handing.have_arrived_once());
    assert!(rt; handing.received.load(Ordering::SeqCst));
    assert!(rt; handing.seen.load(Ordering::SeqCst));
    Ok(())
}
