//! Workers turn by turn, alone and one after the other.
//!
//! The names of a worker's turns are listed and compared with those that were worked out by hand, for small models
//! whose search is determined. The second test shows that a worker goes on from what another one shared.
ghost use Rattle.std.specs.Prelude.{◌≡◌, ◌≤◌, ◌^◌, length, false, None, IfOk};
ghost use Rattle.cps_search.specs.Keeps.{Keeps};
ghost use Rattle.cps_search.specs.Ends.{IsOver, end_of};
ghost use Rattle.cps_kinds.specs.Kinds.{AreAllPropagated};
ghost use Rattle.cps_crew.specs.Workers.{Begins};

use crate::models::{sum, three};
use cps_instance::Instance;
use cps_kinds::{AnyPropagator, engine_of};
use cps_model::Bound;
use cps_port::{CoreState, PlainPort, Port};
use cps_propagate::Propagator;
use cps_search::{ActivityBrancher, Brancher, FixedBrancher, Turn, Worker};
use cps_validate::ValidModel;
use std::alloc::{AllocError, Global};
use std::test::Fail;

/// A worker that takes variables in order, and learns from so many conflicts.
pub fn ordered_worker_of<'a>(
    alloc: Global,
    model: &'a ValidModel,
    conflicts: u64,
) -> Result<Worker<'a, AnyPropagator, FixedBrancher>, AllocError>
    requires budget { conflicts ≤ 10 ^ 9 }
    requires kinds { AreAllPropagated model.now }
    ensures begins { IfOk result (λ worker. Begins model.entry.now 0 conflicts false worker.0) }
    ensures runs { IfOk result (λ worker. IsOver worker.0.phase → ⊥) }
    ensures model { IfOk result (λ worker. worker.0.instance.model ≡ model.entry.now) }
    ensures none_taken { IfOk result (λ worker. worker.0.imported ≡ 0) }
{
    let instance = Instance::of(alloc, model)?;
    let engine = engine_of(alloc, &instance)?;
    let brancher = FixedBrancher::of(alloc, &instance)?;
    Worker::new(alloc, instance, engine, brancher, conflicts, 0, None)
}

/// A worker that takes variables by activity, and learns from so many conflicts.
pub fn active_worker_of<'a>(
    alloc: Global,
    model: &'a ValidModel,
    conflicts: u64,
) -> Result<Worker<'a, AnyPropagator, ActivityBrancher>, AllocError>
    requires budget { conflicts ≤ 10 ^ 9 }
    requires kinds { AreAllPropagated model.now }
    ensures begins { IfOk result (λ worker. Begins model.entry.now 0 conflicts false worker.0) }
    ensures runs { IfOk result (λ worker. IsOver worker.0.phase → ⊥) }
    ensures model { IfOk result (λ worker. worker.0.instance.model ≡ model.entry.now) }
    ensures none_taken { IfOk result (λ worker. worker.0.imported ≡ 0) }
{
    let instance = Instance::of(alloc, model)?;
    let engine = engine_of(alloc, &instance)?;
    let brancher = ActivityBrancher::of(alloc, &instance)?;
    Worker::new(alloc, instance, engine, brancher, conflicts, 0, None)
}

/// What a turn was, and whether the worker has ended.
pub fn name_of(turn: &Turn) -> (&'static str, bool)
    ensures { result.1 ≡ false → end_of turn.now ≡ None }
{
    match turn {
        Turn::Imported => ("imported;", false),
        Turn::Decided => ("decided;", false),
        Turn::Learnt => ("learnt;", false),
        Turn::Found => ("found;", false),
        Turn::Exhausted => ("exhausted;", true),
        Turn::SawClosed => ("saw closed;", true),
        Turn::Spent(_, _) => ("spent;", true),
        Turn::RoundsDone => ("rounds done;", true),
        Turn::Reformed(_) => ("reformed;", false),
    }
}

/// The turns of a worker up to its end, or the first hundred.
fn turns_of<P: Propagator, B: Brancher + Drop, Q: Port>(
    alloc: Global,
    worker: &mut Worker<'_, P, B>,
    port: &mut Q,
) -> Result<String, AllocError>
    requires running { IsOver worker.old.0.phase → ⊥ }
    requires model { Q.model port.old ≡ worker.old.0.instance.model }
    requires imported { worker.old.0.imported ≤ length (Q.part port.old).board.taken }
    ensures keeps { Keeps Q.model Q.rows Q.stays port.old port.new }
{
    let mut turns = String::new(alloc);
    for _ in 0..100 {
        let turn = worker.turn(port)?;
        let (name, has_ended) = name_of(&turn);
        turns.push_str(name)?;
        if has_ended {
            return Ok(turns);
        }
    }
    Ok(turns)
}

/// The turns of a worker that takes the variables in order.
fn turns_in_order<Q: Port>(
    alloc: Global,
    model: &ValidModel,
    port: &mut Q,
    conflicts: u64,
) -> Result<String, AllocError>
    requires budget { conflicts ≤ 10 ^ 9 }
    requires kinds { AreAllPropagated model.now }
    requires model { Q.model port.old ≡ model.now }
    ensures keeps { Keeps Q.model Q.rows Q.stays port.old port.new }
{
    // A list is dropped as one; the borrow checker does not cover how a worker in a variable is.
    let mut crew = Vec::new(alloc);
    crew.push(ordered_worker_of(alloc, model, conflicts)?)?;
    turns_of(alloc, &mut crew[0], port)
}

/// The turns of a worker that takes the variables by activity.
fn turns_by_activity<Q: Port>(
    alloc: Global,
    model: &ValidModel,
    port: &mut Q,
    conflicts: u64,
) -> Result<String, AllocError>
    requires budget { conflicts ≤ 10 ^ 9 }
    requires kinds { AreAllPropagated model.now }
    requires model { Q.model port.old ≡ model.now }
    ensures keeps { Keeps Q.model Q.rows Q.stays port.old port.new }
{
    // As above.
    let mut crew = Vec::new(alloc);
    crew.push(active_worker_of(alloc, model, conflicts)?)?;
    turns_of(alloc, &mut crew[0], port)
}

/// What two workers did, and the bounds that they left.
#[derive(Drop)]
struct Left {
    first: String,
    second: String,
    upper: Bound,
    lower: Bound,
}

/// A worker that takes the variables in order, up to so many conflicts, and then one that takes them by activity, over
/// one shared state.
fn one_after_the_other(
    alloc: Global,
    model: &ValidModel,
    conflicts: u64,
) -> Result<Left, AllocError>
    requires budget { conflicts ≤ 10 ^ 9 }
    requires kinds { AreAllPropagated model.now }
{
    let mut core = CoreState::new(alloc, model, 2, 4)?;
    let mut port = PlainPort {
        core: &mut core,
        actor: 0,
    };
    let first = turns_in_order(alloc, model, &mut port, conflicts);
    let PlainPort {
        core: shared,
        actor: _actor,
    } = port;
    let mut port = PlainPort {
        core: shared,
        actor: 1,
    };
    let second = turns_by_activity(alloc, model, &mut port, 10);
    let upper = port.upper();
    let lower = port.lower();
    let PlainPort {
        core: _core,
        actor: _actor,
    } = port;
    Ok(Left {
        first: first?,
        second: second?,
        upper,
        lower,
    })
}

#[test]
fn a_worker_takes_its_turns(rt: HostRuntime) -> Result<(), Fail> {
    let model = three(rt.alloc(), 1, None)?;
    let left = one_after_the_other(rt.alloc(), &model, 1)?;
    assert_eq!(rt; left.first.as_str(), "decided;learnt;imported;exhausted;");
    assert_eq!(rt; left.second.as_str(), "saw closed;");
    Ok(())
}

#[test]
fn a_worker_goes_on_from_what_another_shared(rt: HostRuntime) -> Result<(), Fail> {
    let model = three(rt.alloc(), 2, Some(sum(rt.alloc())?))?;
    let left = one_after_the_other(rt.alloc(), &model, 1)?;
    assert_eq!(rt;
        left.first.as_str(),
        "decided;decided;found;learnt;imported;spent;"
    );
    assert_eq!(rt;
        left.second.as_str(),
        "imported;decided;learnt;imported;decided;learnt;imported;exhausted;"
    );
    assert!(rt; left.upper == Bound::At(3) && left.lower == Bound::At(3));
    Ok(())
}
