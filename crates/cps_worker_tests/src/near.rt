//! A worker that searches near solutions, alone.
ghost use Rattle.std.specs.Prelude.{◌≡◌, ◌≤◌, ◌^◌, IfOk};
ghost use Rattle.cps_kinds.specs.Kinds.{AreAllPropagated};
ghost use Rattle.cps_search.specs.Ends.{IsOver};

use crate::models::{sum, three};
use cps_instance::Instance;
use cps_kinds::{AnyPropagator, engine_of};
use cps_model::Bound;
use cps_neighbourhood::NearWorker;
use cps_port::{CoreState, PlainPort, Port};
use cps_validate::ValidModel;
use std::alloc::{AllocError, Global};
use std::test::Fail;

/// A worker that does its rounds for so many conflicts.
fn near_worker_of<'a>(
    alloc: Global,
    model: &'a ValidModel,
    conflicts: u64,
) -> Result<NearWorker<'a, AnyPropagator>, AllocError>
    requires conflicts { conflicts ≤ 10 ^ 9 }
    requires kinds { AreAllPropagated model.now }
    ensures model { IfOk result (λ worker. worker.search.instance.model ≡ model.entry.now) }
    ensures running { IfOk result (λ worker. IsOver worker.search.phase → ⊥) }
    ensures imported { IfOk result (λ worker. worker.search.imported ≡ 0) }
{
    let instance = Instance::of(alloc, model)?;
    let engine = engine_of(alloc, &instance)?;
    NearWorker::new(alloc, instance, engine, conflicts, 1, 3, 0)
}

/// How many rounds such a worker does up to its end, over a port of its model.
fn rounds_over<Q: Port>(
    alloc: Global,
    model: &ValidModel,
    port: &mut Q,
    conflicts: u64,
) -> Result<u64, AllocError>
    requires conflicts { conflicts ≤ 10 ^ 9 }
    requires kinds { AreAllPropagated model.now }
    requires model { Q.model port.old ≡ model.now }
{
    // A list is dropped as one; the borrow checker does not cover how a worker in a variable is.
    let mut crew = Vec::new(alloc);
    crew.push(near_worker_of(alloc, model, conflicts)?)?;
    crew[0].run(port)?;
    Ok(crew[0].rounds())
}

/// What a worker left: how many rounds it did, and the two bounds.
#[derive(Drop)]
struct Explored {
    rounds: u64,
    upper: Bound,
    lower: Bound,
}

/// Such a worker alone over a state.
fn alone(alloc: Global, model: &ValidModel, conflicts: u64) -> Result<Explored, AllocError>
    requires conflicts { conflicts ≤ 10 ^ 9 }
    requires kinds { AreAllPropagated model.now }
{
    let mut core = CoreState::new(alloc, model, 1, 4)?;
    let mut port = PlainPort {
        core: &mut core,
        actor: 0,
    };
    let rounds = rounds_over(alloc, model, &mut port, conflicts);
    let upper = port.upper();
    let lower = port.lower();
    let PlainPort {
        core: _core,
        actor: _actor,
    } = port;
    Ok(Explored {
        rounds: rounds?,
        upper,
        lower,
    })
}

#[test]
fn a_worker_does_its_rounds_at_most(rt: HostRuntime) -> Result<(), Fail> {
    let model = three(rt.alloc(), 2, Some(sum(rt.alloc())?))?;
    let left = alone(rt.alloc(), &model, 250)?;
    assert!(rt; left.rounds <= 3);
    assert!(rt; left.upper == Bound::At(3) && left.lower == Bound::At(3));
    Ok(())
}
