//! A worker of any kind, so that one list holds them all.
//!
//! An enum and not a trait object: there are few kinds, each turn is a match, and the contract of a turn can say of
//! each kind what it owes. Turns are taken here one by one, in threads too, since a solution goes into the pool after
//! the turn that found it, and a neighbourhood worker is aimed before its turn.
ghost use Rattle.std.specs.Prelude.{◌≡◌, ◌+◌, ◌≤◌, ◌^◌, length, max, false, OnOk, IfOk, IfSome, Some, is_some};
ghost use Rattle.cps_model.specs.Solutions.{IsSolution};
ghost use Rattle.cps_branch.specs.Guidances.{AreHintsOf, IsIdleByActivity, IsPlanOf};
ghost use Rattle.cps_kinds.specs.Kinds.{AreAllPropagated};
ghost use Rattle.cps_options.specs.Ranges.{AreInRange};
ghost use Rattle.cps_search.specs.Keeps.{Keeps};
ghost use Rattle.cps_search.specs.Ends.{IsOver, end_of};
ghost use Rattle.cps_core_guided.specs.Reforming.{whole};
ghost use Rattle.cps_neighbourhood.specs.Drawing.{draws_of};
ghost use Rattle.cps_portfolio.specs.Workers.{IsBlankOf};
ghost use Rattle.cps_crew.specs.Workers.{Begins, BeginsCores, BeginsRounds, IsAimed, TurnedBy, TurnedByCores, TurnedNear, PutsFound, aim_by};
ghost use Rattle.cps_pool.specs.Pools.{with_pushed};

use cps_core_guided::CoreWorker;
use cps_crew::{AnyEnded, Member, Order, Recruit, Recruiter, kind_of, search};
use cps_instance::Instance;
use cps_kinds::{AnyPropagator, engine_of};
use cps_neighbourhood::NearWorker;
use cps_options::Options;
use cps_pool::Pool;
use cps_port::Port;
use cps_propagate::{Defining, Propagator};
use cps_search::{ActivityBrancher, Brancher, FixedBrancher, Turn, Worker, WorkerKind};
use cps_tracer::Tracer;
use cps_validate::ValidModel;
use std::alloc::{AllocError, Global};

/// A worker of one of the kinds.
pub enum AnyWorker<'a> {
    /// Follows the model's strategies, and then takes the variables in order.
    Fixed(Worker<'a, AnyPropagator, FixedBrancher>),
    /// Takes the variable with the greatest activity, at the value of the model's hint.
    Activity(Worker<'a, AnyPropagator, ActivityBrancher>),
    /// Assumes that each part of the objective stays at its bound, and raises the lower bound by each core.
    Core(CoreWorker<'a, AnyPropagator, ActivityBrancher>),
    /// Searches near solutions that workers found.
    Near(AimedWorker<'a, AnyPropagator>),
}

// Written out: a drop of an enum that is derived stands in full in each function where one is dropped.
impl Drop for AnyWorker<'_> {
    fn drop(self) {
        match self {
            AnyWorker::Fixed(_worker) => {}
            AnyWorker::Activity(_worker) => {}
            AnyWorker::Core(_worker) => {}
            AnyWorker::Near(_near) => {}
        }
    }
}

/// A neighbourhood worker, and how much of the pool it has seen.
#[derive(Drop)]
pub struct AimedWorker<'a, P: Propagator> {
    /// The worker.
    pub worker: NearWorker<'a, P>,
    /// How many solutions the pool had when the worker was last handed one.
    pub handed: usize,
}

/// A log of a model in which nothing is written, where one is asked for.
fn blank_log<'a>(
    alloc: Global,
    model: &'a ValidModel,
    asked: bool,
) -> Result<Option<Tracer<'a>>, AllocError>
    ensures asked { IfOk result (λ log. is_some log ≡ asked) }
    ensures blank { IfOk result (λ log. IfSome log (IsBlankOf model.entry.now)) }
{
    if asked {
        Ok(Some(Tracer::new(alloc, model)?))
    } else {
        Ok(None)
    }
}

/// A worker that follows the model's strategies, and then takes the variables in order. It keeps a log where the
/// options ask for one.
fn fixed_worker<'a>(
    alloc: Global,
    model: &'a ValidModel,
    options: &Options,
) -> Result<Worker<'a, AnyPropagator, FixedBrancher>, AllocError>
    requires range { AreInRange options.now }
    requires kinds { AreAllPropagated model.now }
    ensures begins { IfOk result (λ worker.
        Begins model.entry.now options.now.gap options.now.conflicts options.now.log worker.0) }
    ensures plan { IfOk result (λ worker. IsPlanOf worker.0.instance worker.1.plan) }
{
    let Options {
        conflicts,
        gap,
        log,
        ..
    } = *options;
    let instance = Instance::of(alloc, model)?;
    let engine = engine_of(alloc, &instance)?;
    let brancher = FixedBrancher::of(alloc, &instance)?;
    let log = blank_log(alloc, model, log)?;
    Worker::new(alloc, instance, engine, brancher, conflicts, gap, log)
}

/// A worker that takes the variable with the greatest activity.
fn activity_worker<'a>(
    alloc: Global,
    model: &'a ValidModel,
    conflicts: u64,
    gap: u64,
) -> Result<Worker<'a, AnyPropagator, ActivityBrancher>, AllocError>
    requires budget { conflicts ≤ 10 ^ 9 }
    requires kinds { AreAllPropagated model.now }
    ensures begins { IfOk result (λ worker. Begins model.entry.now gap conflicts false worker.0) }
    ensures hints { IfOk result (λ worker. AreHintsOf worker.0.instance worker.1.hints) }
    ensures idle { IfOk result (λ worker. IsIdleByActivity worker.1) }
{
    let instance = Instance::of(alloc, model)?;
    let engine = engine_of(alloc, &instance)?;
    let brancher = ActivityBrancher::of(alloc, &instance)?;
    Worker::new(alloc, instance, engine, brancher, conflicts, gap, None)
}

/// A worker that raises the lower bound core by core.
fn core_worker<'a>(
    alloc: Global,
    model: &'a ValidModel,
    conflicts: u64,
    gap: u64,
) -> Result<CoreWorker<'a, AnyPropagator, ActivityBrancher>, AllocError>
    requires budget { conflicts ≤ 10 ^ 9 }
    requires kinds { AreAllPropagated model.now }
    ensures begins { IfOk result (λ worker. BeginsCores model.entry.now gap conflicts worker.0) }
    ensures hints { IfOk result (λ worker. AreHintsOf worker.0.search.instance worker.1.hints) }
    ensures idle { IfOk result (λ worker. IsIdleByActivity worker.1) }
{
    let instance = Instance::of(alloc, model)?;
    let engine = engine_of(alloc, &instance)?;
    CoreWorker::new(alloc, instance, engine, conflicts, gap)
}

/// A worker that searches near solutions. It draws from the stream 16 + `number` of the seed; the turns of an
/// interleaved run are drawn from stream 0.
fn near_worker<'a>(
    alloc: Global,
    model: &'a ValidModel,
    options: &Options,
    number: u32,
) -> Result<AimedWorker<'a, AnyPropagator>, AllocError>
    requires range { AreInRange options.now }
    requires kinds { AreAllPropagated model.now }
    ensures begins { IfOk result (λ near.
        BeginsRounds model.entry.now options.now.gap options.now.conflicts near.worker) }
    ensures draws { IfOk result (λ near. near.worker.draws ≡ draws_of options.now.seed (16 + number)) }
    ensures handed { IfOk result (λ near. near.handed ≡ 0) }
{
    let Options {
        conflicts,
        seed,
        gap,
        ..
    } = *options;
    let instance = Instance::of(alloc, model)?;
    let engine = engine_of(alloc, &instance)?;
    let worker = NearWorker::new(alloc, instance, engine, conflicts, seed, number, gap)?;
    Ok(AimedWorker { worker, handed: 0 })
}

/// Whether a turn ends its worker.
fn is_last(turn: &Turn) -> bool
    ensures { result ≡ is_some (end_of turn.now) }
{
    match turn {
        Turn::Imported | Turn::Decided | Turn::Learnt | Turn::Found | Turn::Reformed(_) => false,
        Turn::Exhausted | Turn::SawClosed | Turn::Spent(_, _) | Turn::RoundsDone => true,
    }
}

/// Puts the solution that a turn found, if it found one, into the pool. Answers whether the turn was the worker's last.
fn note_turn<F: Pool>(pool: &mut F, turn: &Turn, best: Option<&[i64]>) -> Result<bool, AllocError>
    requires { IfSome best (λ solution. IsSolution (F.model pool.old) solution.now) }
    ensures pool { F.model pool.new ≡ F.model pool.old }
    ensures is_read { F.is_read pool.new ≡ F.is_read pool.old }
    ensures found { turn.now ≡ Turn.Found → OnOk result (IfSome best.entry (λ solution.
        F.found pool.new ≡ with_pushed (F.is_read pool.old) (F.found pool.old) solution.now)) }
    ensures others { (turn.now ≡ Turn.Found → ⊥) → F.found pool.new ≡ F.found pool.old }
    ensures last { IfOk result (λ over. over ≡ is_some (end_of turn.now)) }
{
    if let (Turn::Found, Some(solution)) = (turn, best) {
        pool.push(solution)?;
    }
    Ok(is_last(turn))
}

/// Lets a worker take one turn. Answers whether it was the worker's last.
fn turn_of<P: Propagator, B: Brancher + Drop, Q: Port, F: Pool>(
    worker: &mut Worker<'_, P, B>,
    port: &mut Q,
    pool: &mut F,
) -> Result<bool, AllocError>
    requires running { IsOver worker.old.0.phase → ⊥ }
    requires model { Q.model port.old ≡ worker.old.0.instance.model }
    requires pool { F.model pool.old ≡ worker.old.0.instance.model }
    requires imported { worker.old.0.imported ≤ length (Q.part port.old).board.taken }
    ensures keeps { Keeps Q.model Q.rows Q.stays port.old port.new }
    ensures pool { F.model pool.new ≡ F.model pool.old }
    ensures is_read { F.is_read pool.new ≡ F.is_read pool.old }
    ensures found { OnOk result (PutsFound (F.is_read pool.old) (F.found pool.old) (F.found pool.new)
        (Q.rows port.old) worker.old.0 worker.new.0 (Q.part port.old) (Q.part port.new)) }
    ensures turn { IfOk result (TurnedBy (Q.rows port.old) (worker.old.0, B.branching worker.old.1)
        (worker.new.0, B.branching worker.new.1) (Q.part port.old) (Q.part port.new)) }
{
    let turn = worker.turn(port)?;
    note_turn(pool, &turn, worker.best())
}

/// Lets a core-guided worker take a turn, and answers whether it was the last.
fn core_turn_of<P: Defining, B: Brancher + Drop, Q: Port, F: Pool>(
    worker: &mut CoreWorker<'_, P, B>,
    port: &mut Q,
    pool: &mut F,
) -> Result<bool, AllocError>
    requires running { IsOver (whole worker.old.0).phase → ⊥ }
    requires model { Q.model port.old ≡ worker.old.0.search.instance.model }
    requires pool { F.model pool.old ≡ worker.old.0.search.instance.model }
    requires imported { worker.old.0.search.imported ≤ length (Q.part port.old).board.taken }
    ensures keeps { Keeps Q.model Q.rows Q.stays port.old port.new }
    ensures pool { F.model pool.new ≡ F.model pool.old }
    ensures is_read { F.is_read pool.new ≡ F.is_read pool.old }
    ensures found { OnOk result (PutsFound (F.is_read pool.old) (F.found pool.old) (F.found pool.new)
        (Q.rows port.old) worker.old.0.search worker.new.0.search (Q.part port.old) (Q.part port.new)) }
    ensures turn { IfOk result (TurnedByCores (Q.rows port.old) (worker.old.0, B.branching worker.old.1)
        (worker.new.0, B.branching worker.new.1) (Q.part port.old) (Q.part port.new)) }
{
    let turn = worker.turn(port)?;
    note_turn(pool, &turn, worker.best())
}

/// Hands a neighbourhood worker the pool's last solution, unless it was handed that one before. In threads, where others
/// push meanwhile, the contract says only that it is a solution of the model.
fn aim<P: Propagator, F: Pool>(near: &mut AimedWorker<'_, P>, pool: &F)
    requires memory { near.old.worker.search.refused ≡ false }
    requires pool { F.model pool.now ≡ near.old.worker.search.instance.model }
    ensures aimed { IsAimed near.old.worker near.new.worker }
    ensures aim { F.IsAlone → near.new.worker.aim ≡ aim_by (F.found pool.now) near.old.handed near.old.worker.aim }
    ensures handed { F.IsAlone → near.new.handed ≡ max near.old.handed (length (F.found pool.now)) }
{
    let count = pool.count();
    if count > near.handed {
        if let Some(solution) = pool.get(count - 1) {
            near.worker.aim(solution);
            near.handed = count;
        }
    }
}

/// Aims a neighbourhood worker and lets it take one turn. Answers whether it was the worker's last.
fn near_turn_of<P: Propagator, Q: Port, F: Pool>(
    near: &mut AimedWorker<'_, P>,
    port: &mut Q,
    pool: &mut F,
) -> Result<bool, AllocError>
    requires memory { near.old.worker.search.refused ≡ false }
    requires running { IsOver near.old.worker.search.phase → ⊥ }
    requires model { Q.model port.old ≡ near.old.worker.search.instance.model }
    requires pool { F.model pool.old ≡ near.old.worker.search.instance.model }
    requires imported { near.old.worker.search.imported ≤ length (Q.part port.old).board.taken }
    ensures keeps { Keeps Q.model Q.rows Q.stays port.old port.new }
    ensures pool { F.model pool.new ≡ F.model pool.old }
    ensures is_read { F.is_read pool.new ≡ F.is_read pool.old }
    ensures found { OnOk result (PutsFound (F.is_read pool.old) (F.found pool.old) (F.found pool.new)
        (Q.rows port.old) near.old.worker.search near.new.worker.search (Q.part port.old) (Q.part port.new)) }
    ensures aim { F.IsAlone → OnOk result (near.new.worker.aim
        ≡ aim_by (F.found pool.old) near.old.handed near.old.worker.aim) }
    ensures handed { F.IsAlone → near.new.handed ≡ max near.old.handed (length (F.found pool.old)) }
    ensures turn { IfOk result (TurnedNear (Q.rows port.old) near.old.worker near.new.worker (Q.part port.old)
        (Q.part port.new)) }
{
    aim(near, pool);
    let turn = near.worker.turn(port)?;
    note_turn(pool, &turn, near.worker.best())
}

impl<'a> Recruit<'a> for AnyWorker<'a> {
    ghost suits = { AreAllPropagated };

    fn of(
        alloc: Global,
        model: &'a ValidModel,
        options: &Options,
        number: u32,
    ) -> Result<Self, AllocError> {
        let Options { conflicts, gap, .. } = *options;
        match kind_of(number) {
            WorkerKind::Fixed => Ok(AnyWorker::Fixed(fixed_worker(alloc, model, options)?)),
            WorkerKind::Activity => Ok(AnyWorker::Activity(activity_worker(
                alloc, model, conflicts, gap,
            )?)),
            WorkerKind::CoreGuided => Ok(AnyWorker::Core(core_worker(
                alloc, model, conflicts, gap,
            )?)),
            WorkerKind::Near => Ok(AnyWorker::Near(near_worker(alloc, model, options, number)?)),
        }
    }
}

impl Member for AnyWorker<'_> {
    ghost use Rattle.cps_portfolio.specs.Workers.{known_of, handed_to};

    ghost known = { known_of };

    ghost handed = { handed_to };

    /// A neighbourhood worker is aimed before its turn.
    fn turn<Q: Port, F: Pool>(&mut self, port: &mut Q, pool: &mut F) -> Result<bool, AllocError> {
        match self {
            AnyWorker::Fixed(worker) => turn_of(worker, port, pool),
            AnyWorker::Activity(worker) => turn_of(worker, port, pool),
            AnyWorker::Core(worker) => core_turn_of(worker, port, pool),
            AnyWorker::Near(near) => near_turn_of(near, port, pool),
        }
    }

    fn finish(self) -> AnyEnded {
        match self {
            AnyWorker::Fixed(worker) => AnyEnded::plain(worker.finish(WorkerKind::Fixed)),
            AnyWorker::Activity(worker) => AnyEnded::plain(worker.finish(WorkerKind::Activity)),
            AnyWorker::Core(worker) => AnyEnded::guided(worker.finish()),
            AnyWorker::Near(near) => {
                let AimedWorker { worker, .. } = near;
                AnyEnded::plain(worker.finish())
            }
        }
    }
}

/// Makes workers of all kinds.
#[derive(Clone, Copy)]
pub struct EveryKind;

impl Recruiter for EveryKind {
    ghost suits = { AreAllPropagated };

    fn search<Q: Port, F: Pool>(
        &self,
        order: &Order<'_>,
        port: &mut Q,
        pool: &mut F,
    ) -> Result<AnyEnded, AllocError> {
        search::<AnyWorker<'_>, Q, F>(order, port, pool)
    }
}
