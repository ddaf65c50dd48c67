//! A worker that goes by cores, alone.
ghost use Rattle.std.specs.Prelude.{◌≡◌, ◌≤◌, length, IfOk};
ghost use Rattle.cps_search.specs.Ends.{IsOver};
ghost use Rattle.cps_kinds.specs.Kinds.{AreAllPropagated};
ghost use Rattle.cps_core_guided.specs.Reforming.{whole};

use crate::models::pair;
use crate::turns::name_of;
use cps_core_guided::CoreWorker;
use cps_instance::Instance;
use cps_kinds::{AnyPropagator, engine_of};
use cps_model::Bound;
use cps_port::{CoreState, PlainPort, Port};
use cps_propagate::Defining;
use cps_search::{ActivityBrancher, Brancher, Turn};
use cps_validate::ValidModel;
use std::alloc::{AllocError, Global};
use std::test::Fail;

/// A core-guided worker with the default budget.
fn core_worker_of<'a>(
    alloc: Global,
    model: &'a ValidModel,
) -> Result<CoreWorker<'a, AnyPropagator, ActivityBrancher>, AllocError>
    requires kinds { AreAllPropagated model.now }
    ensures model { IfOk result (λ worker. worker.0.search.instance.model ≡ model.entry.now) }
    ensures running { IfOk result (λ worker. IsOver (whole worker.0).phase → ⊥) }
    ensures imported { IfOk result (λ worker. worker.0.search.imported ≡ 0) }
{
    let instance = Instance::of(alloc, model)?;
    let engine = engine_of(alloc, &instance)?;
    CoreWorker::new(alloc, instance, engine, 10_000, 0)
}

/// The base of a worker's first reform, after which it runs to its end; `None` where it ends before, or does not reform
/// in a hundred turns.
fn reforms_and_runs<P: Defining, B: Brancher + Drop, Q: Port>(
    worker: &mut CoreWorker<'_, P, B>,
    port: &mut Q,
) -> Result<Option<i64>, AllocError>
    requires running { IsOver (whole worker.old.0).phase → ⊥ }
    requires model { Q.model port.old ≡ worker.old.0.search.instance.model }
    requires imported { worker.old.0.search.imported ≤ length (Q.part port.old).board.taken }
{
    for _ in 0..100 {
        let turn = worker.turn(port)?;
        let (_name, has_ended) = name_of(&turn);
        if has_ended {
            return Ok(None);
        }
        if let Turn::Reformed(base) = turn {
            worker.run(port)?;
            return Ok(Some(base));
        }
    }
    Ok(None)
}

/// What a core-guided worker of a model comes to over a port of that model.
fn base_over<Q: Port>(
    alloc: Global,
    model: &ValidModel,
    port: &mut Q,
) -> Result<Option<i64>, AllocError>
    requires kinds { AreAllPropagated model.now }
    requires model { Q.model port.old ≡ model.now }
{
    // A list is dropped as one; the borrow checker does not cover how a worker in a variable is.
    let mut crew = Vec::new(alloc);
    crew.push(core_worker_of(alloc, model)?)?;
    reforms_and_runs(&mut crew[0], port)
}

/// What a worker left: the base of its first reform, and the two bounds.
#[derive(Drop)]
struct Reformed {
    base: Option<i64>,
    upper: Bound,
    lower: Bound,
}

/// A core-guided worker alone over a state.
fn alone(alloc: Global, model: &ValidModel) -> Result<Reformed, AllocError>
    requires kinds { AreAllPropagated model.now }
{
    let mut core = CoreState::new(alloc, model, 1, 4)?;
    let mut port = PlainPort {
        core: &mut core,
        actor: 0,
    };
    let base = base_over(alloc, model, &mut port);
    let upper = port.upper();
    let lower = port.lower();
    let PlainPort {
        core: _core,
        actor: _actor,
    } = port;
    Ok(Reformed {
        base: base?,
        upper,
        lower,
    })
}

#[test]
fn a_core_guided_worker_reforms_and_closes_the_bounds(rt: HostRuntime) -> Result<(), Fail> {
    let model = pair(rt.alloc())?;
    let left = alone(rt.alloc(), &model)?;
    assert!(rt; left.base == Some(1));
    assert!(rt; left.upper == Bound::At(1) && left.lower == Bound::At(1));
    Ok(())
}
