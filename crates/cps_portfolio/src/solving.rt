//! The search of a model by workers of all kinds.
ghost use Rattle.std.specs.Prelude.{◌≡◌, false, IfOk};
ghost use Rattle.cps_options.specs.Ranges.{AreInRange};
ghost use Rattle.cps_port.specs.Entries.{most_rows};
ghost use Rattle.cps_kinds.specs.Kinds.{AreAllPropagated};
ghost use Rattle.cps_crew.specs.Outcomes.{IsGoodOutcome};
ghost use Rattle.cps_portfolio.specs.Workers.{IsDrawnRun};

use crate::worker::{AnyWorker, EveryKind};
use cps_crew::{Brief, Outcome, solve_in_threads, solve_in_turns};
use cps_options::Options;
use cps_outer::{Gate, Host};
use cps_validate::ValidModel;
use std::alloc::{AllocError, Global};
use std::sync::Wait;
use std::thread::Threads;

/// Solves a model: `options.workers` workers search in threads until the bounds meet, or each has spent its budget or
/// done its rounds. Each passes the gate before it begins. If a worker ran out of memory there is no outcome. A worker
/// that keeps a log takes turns instead (`solve_interleaved`).
pub fn solve<R: Threads + Wait + Sync, G: Gate + Sync>(
    rt: &R,
    alloc: Global,
    model: &ValidModel,
    options: &Options,
    gate: &G,
) -> Result<Outcome, AllocError>
    requires range { AreInRange options.now }
    requires no_log { options.now.log ≡ false }
    requires kinds { AreAllPropagated model.now }
    ensures { IfOk result (IsGoodOutcome model.now options.now) }
{
    let host = Host { rt, alloc, gate };
    let brief = Brief {
        model,
        options,
        recruiter: &EveryKind,
    };
    solve_in_threads(&host, &brief)
}

/// Solves a model: `options.workers` workers take turns until the bounds meet, or each has spent its budget or done its
/// rounds. Each turn's worker is drawn among those that have not ended, in rising order, by a word of
/// `Lcg64Xsh32::new(seed, 0)` modulo their number. That the same options give the same outcome is shown by a
/// test.
pub fn solve_interleaved(
    alloc: Global,
    model: &ValidModel,
    options: &Options,
) -> Result<Outcome, AllocError>
    requires range { AreInRange options.now }
    requires kinds { AreAllPropagated model.now }
    ensures good { IfOk result (IsGoodOutcome model.now options.now) }
    ensures drawn { IfOk result (λ o. IsDrawnRun model.now options.now most_rows o.ends) }
{
    solve_in_turns::<AnyWorker<'_>>(alloc, model, options)
}
