//! The outcome of workers that ended, from the bounds that they left and the end of each.
ghost use Rattle.std.specs.Prelude.{◌≡◌, ℤ, List, All, IfOk, IfSome, IsTrue, false};
ghost use Rattle.cps_model.specs.Statuses.{status_of};
ghost use Rattle.cps_model.specs.Solutions.{IsSolution};
ghost use Rattle.cps_options.specs.Ranges.{AreInRange};
ghost use Rattle.cps_search.specs.Following.{best_bound};
ghost use Rattle.cps_crew.specs.Outcomes.{IsGoodOutcome, CameTo, best_of, core_if, core_of};

use crate::ended::AnyEnded;
use crate::outcome::{Outcome, Reached};
use cps_eval::objective;
use cps_model::{Bound, Ints, Listed, Refs, Status};
use cps_options::Options;
use cps_port::is_closed;
use cps_search::End;
use cps_validate::ValidModel;
use std::alloc::{AllocError, Global};

/// The status that the two final bounds show.
fn status_of(upper: Bound, lower: Bound, gap: u64) -> Status
    ensures { result ≡ status_of upper lower gap }
{
    match (upper, is_closed(lower, upper, gap)) {
        (Bound::At(_), true) => Status::Optimal,
        (Bound::At(_), false) => Status::Feasible,
        (Bound::Infinite, true) => Status::Infeasible,
        (Bound::Infinite, false) => Status::Unknown,
    }
}

/// The solution of the first worker that found one whose objective is the upper bound.
fn solution_of(
    alloc: Global,
    model: &ValidModel,
    upper: Bound,
    ends: &[AnyEnded],
) -> Result<Option<Ints>, AllocError>
    requires found { All (λ e. IfSome e.best (IsSolution model.now)) ends.now }
    requires upper { upper ≡ best_bound model.now (best_of model.now ends.now) }
    ensures { IfOk result (λ solution. solution ≡ best_of model.now ends.now) }
{
    for ended in ends {
        if let Some(values) = ended.best() {
            if Bound::At(objective(model, values)) == upper {
                return Ok(Some(Ints::from_vec(Vec::from_slice(alloc, values)?)));
            }
        }
    }
    Ok(None)
}

/// Whether a worker left no solution at all.
fn leaves_nothing(ended: &AnyEnded) -> bool
    ensures yes { IsTrue result → (other : List ℤ)
        → core_if ended.now.end ended.now.raised ended.now.core other ≡ ended.now.core }
    ensures no { result ≡ false → (other : List ℤ)
        → core_if ended.now.end ended.now.raised ended.now.core other ≡ other }
{
    match (ended.end(), ended.raised()) {
        (End::Exhausted, Some(Bound::Infinite)) => true,
        _ => false,
    }
}

/// The core of the first worker that left no solution at all.
fn core_of(alloc: Global, ends: &[AnyEnded]) -> Result<Refs, AllocError>
    ensures { IfOk result (λ core. core ≡ core_of ends.now) }
{
    for ended in ends {
        if leaves_nothing(ended) {
            return Ok(Refs::from_vec(Vec::from_slice(alloc, ended.core())?));
        }
    }
    Ok(Refs::new(alloc))
}

/// The outcome of workers that ended.
pub fn outcome_of(
    alloc: Global,
    model: &ValidModel,
    options: &Options,
    reached: Reached,
) -> Result<Outcome, AllocError>
    requires range { AreInRange options.now }
    requires came { CameTo model.now options.now reached.upper reached.lower reached.ends.items }
    ensures good { IfOk result (IsGoodOutcome model.now options.now) }
    ensures ends { IfOk result (λ o. o.ends ≡ reached.ends.items) }
{
    let Reached { upper, lower, ends } = reached;
    let solution = solution_of(alloc, model, upper, ends.as_slice())?;
    let core = core_of(alloc, ends.as_slice())?;
    Ok(Outcome {
        status: status_of(upper, lower, options.gap),
        solution,
        upper,
        lower,
        core,
        ends: Listed::from_vec(ends),
    })
}
