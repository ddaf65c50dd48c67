//! The search of a model by workers that take turns over one plain state.
//!
//! Each turn's worker is drawn from a generator with a fixed stream of the seed, so that a run can be repeated: a turn
//! depends on the state alone, and no clock or thread has a part in it. One `PlainPort` serves all workers, and its
//! actor is set before each turn. Workers keep their places in the list when they end, so that a worker's number stays
//! its place. What is proved of the turns rests on what a crew asks of each worker (`Member`).
ghost use Rattle.std.specs.Prelude.{◌≡◌, ◌↔◌, ℕ, ◌<◌, ◌≤◌, length, vec_len, All, IsTrue, IfOk, OnOk, map, false, None, slice_index_or};
ghost use Rattle.rand_pcg.specs.Lcg.{Lcg};
ghost use Rattle.cps_options.specs.Ranges.{AreInRange};
ghost use Rattle.cps_port.specs.Entries.{most_rows};
ghost use Rattle.cps_port.specs.Shared.{actor_count, board_part, part_at};
ghost use Rattle.cps_port.specs.Others.{ActsAlone};
ghost use Rattle.cps_search.specs.Ends.{IsOver};
ghost use Rattle.cps_crew.specs.Workers.{search_in, kind_in, HasTurned, SearchesNear};
ghost use Rattle.cps_crew.specs.Outcomes.{IsGoodOutcome};
ghost use Rattle.cps_crew.specs.Turning.{AreTurning, AreFresh, count_at_work, ended_of, place_at_work, words_of_seed, TakesDrawnTurns, IsDrawnBy};
ghost use Rattle.cps_crew.specs.declared.interleaved.Turning.{Turning as TurningOf};

use crate::conclusion::outcome_of;
use crate::ended::AnyEnded;
use crate::member::{Member, Recruit};
use crate::numbering::reads_pool;
use crate::outcome::{Outcome, Reached};
use cps_options::Options;
use cps_pool::PlainPool;
use cps_port::{CoreState, MOST_ROWS, PlainPort};
use cps_search::WorkerKind;
use cps_validate::ValidModel;
use rand_core::utils::NextWord;
use rand_pcg::Lcg64Xsh32;
use std::alloc::{AllocError, Global};

/// A worker, and whether it has ended.
#[derive(Drop)]
pub struct Turning<W> {
    /// The worker.
    pub worker: W,
    /// Whether it has ended.
    pub over: bool,
}

/// All workers, before their first turns.
fn crew_of<'a, W: Recruit<'a>>(
    alloc: Global,
    model: &'a ValidModel,
    options: &Options,
) -> Result<Vec<Turning<W>>, AllocError>
    requires range { AreInRange options.now }
    requires suits { W.suits model.now }
    ensures count { IfOk result (λ crew. vec_len crew ≡ options.now.workers) }
    ensures each { IfOk result (λ crew. AreFresh W.known model.entry.now options.now crew.items) }
{
    let mut crew = Vec::new(alloc);
    for number in 0..options.workers {
        let worker = W::of(alloc, model, options, number)?;
        crew.push(Turning {
            worker,
            over: false,
        })?;
    }
    Ok(crew)
}

/// How many workers have not ended.
fn count_at_work<W>(crew: &[Turning<W>]) -> usize
    ensures count { result ≡ count_at_work crew.now }
{
    let mut count = 0;
    for turning in crew {
        if !turning.over {
            count += 1;
        }
    }
    count
}

/// The place of the worker of this rank among those that have not ended.
fn place_of<W>(crew: &[Turning<W>], rank: usize) -> usize
    requires { rank < count_at_work crew.now }
    ensures place { result ≡ place_at_work crew.now rank }
    ensures within { result < length crew.now }
    ensures at_work { (d : TurningOf W) → (slice_index_or crew.now result d).over ≡ false }
{
    let mut left = rank;
    for (place, turning) in crew.iter().enumerate() {
        if !turning.over {
            if left == 0 {
                return place;
            }
            left -= 1;
        }
    }
    // The rank is below the number of workers that have not ended.
    unreachable!()
}

/// Lets an actor's worker take one turn. Answers whether it was the worker's last.
fn take_turn<W: Member>(
    port: &mut PlainPort<'_, '_>,
    worker: &mut W,
    pool: &mut PlainPool<'_>,
    actor: u32,
) -> Result<bool, AllocError>
    requires actor { actor < actor_count port.old.core.now }
    requires idle { (board_part port.old.core.now.board actor).drawn ≡ None }
    requires memory { (search_in (W.known worker.old)).refused ≡ false }
    requires running { IsOver (search_in (W.known worker.old)).phase → ⊥ }
    requires model { port.old.core.now.model ≡ (search_in (W.known worker.old)).instance.model }
    requires pool { pool.old.model ≡ (search_in (W.known worker.old)).instance.model }
    requires reads { kind_in (W.known worker.old) ≡ WorkerKind.Near → IsTrue pool.old.is_read }
    requires imported { (search_in (W.known worker.old)).imported ≤ length (part_at port.old.core.now actor).board.taken }
    ensures same { (port.new.core.now.model ≡ port.old.core.now.model)
        × (length port.new.core.now.board.rows ≡ length port.old.core.now.board.rows) }
    ensures idle { (board_part port.new.core.now.board actor).drawn ≡ None }
    ensures alone { ActsAlone actor actor port.old.core.now port.new.core.now }
    ensures pool { pool.new.model ≡ pool.old.model }
    ensures is_read { pool.new.is_read ≡ pool.old.is_read }
    ensures kind { kind_in (W.known worker.new) ≡ kind_in (W.known worker.old) }
    ensures turn { IfOk result (HasTurned (length port.old.core.now.board.rows) (W.known worker.old)
        (W.known worker.new) (part_at port.old.core.now actor) (part_at port.new.core.now actor)) }
{
    port.actor = actor;
    worker.turn(port, pool)
}

/// Lets the workers take turns until all have ended. Each turn's worker is drawn among those that have not ended. The
/// solutions that they find go into the pool.
fn take_turns<W: Member>(
    port: &mut PlainPort<'_, '_>,
    crew: &mut [Turning<W>],
    pool: &mut PlainPool<'_>,
    options: &Options,
) -> Result<(), AllocError>
    requires count { (actor_count port.old.core.now ≡ length crew.old) × (length crew.old ≤ 16) }
    requires idle { (i : ℕ) → (board_part port.old.core.now.board i).drawn ≡ None }
    requires pool { pool.old.model ≡ port.old.core.now.model }
    requires reads { IsTrue pool.old.is_read ↔ SearchesNear (length crew.old) }
    requires rows { length port.old.core.now.board.rows ≡ most_rows }
    requires crew { AreTurning W.known port.old.core.now.model options.now port.old.core.now crew.old }
    ensures same { OnOk result (port.new.core.now.model ≡ port.old.core.now.model) }
    ensures count { OnOk result (actor_count port.new.core.now ≡ actor_count port.old.core.now) }
    ensures len { length crew.new ≡ length crew.old }
    ensures actors { actor_count port.old.core.now ≡ length crew.new }
    ensures crew { OnOk result (AreTurning W.known port.old.core.now.model options.now port.new.core.now crew.new) }
    ensures over { OnOk result (count_at_work crew.new ≡ 0) }
    ensures drawn { OnOk result ((words : Lcg)
        × TakesDrawnTurns W.known most_rows port.old.core.now crew.old
        (words_of_seed options.now.seed) port.new.core.now crew.new words) }
{
    let mut words = Lcg64Xsh32::new(options.seed, 0);
    'turns: loop {
        let count = count_at_work(crew);
        if count == 0 {
            return Ok(());
        }
        let word: u32 = words.next_word();
        let place = place_of(crew, word as usize % count);
        let turning = &mut crew[place];
        turning.over = take_turn(port, &mut turning.worker, pool, place as u32)?;
    }
}

/// The ends of all workers.
fn finish_all<W: Member>(
    alloc: Global,
    mut crew: Vec<Turning<W>>,
) -> Result<Vec<AnyEnded>, AllocError>
    requires { All (λ c. IsOver (search_in (W.known c.worker)).phase) crew.items }
    ensures { IfOk result (λ ends. ends.items ≡ map (ended_of W.known) crew.items) }
{
    let mut ends = Vec::new(alloc);
    while let Some(turning) = crew.pop() {
        let Turning { worker, over: _ } = turning;
        ends.insert(0, worker.finish())?;
    }
    Ok(ends)
}

/// Solves a model: `options.workers` workers take turns until the bounds meet, or each has spent its budget or done its
/// rounds. Each turn's worker is drawn among those that have not ended, in rising order, by a word of
/// `Lcg64Xsh32::new(seed, 0)` modulo their number. That the same options give the same outcome is shown by a
/// test.
pub fn solve_in_turns<'a, W: Recruit<'a>>(
    alloc: Global,
    model: &'a ValidModel,
    options: &Options,
) -> Result<Outcome, AllocError>
    requires range { AreInRange options.now }
    requires suits { W.suits model.now }
    ensures good { IfOk result (IsGoodOutcome model.now options.now) }
    ensures drawn { IfOk result (λ o. IsDrawnBy W.known model.now options.now most_rows o.ends) }
{
    let mut core = CoreState::new(alloc, model, options.workers, MOST_ROWS)?;
    let mut crew = crew_of::<W>(alloc, model, options)?;
    let mut port = PlainPort {
        core: &mut core,
        actor: 0,
    };
    let mut pool = PlainPool::new(alloc, model, reads_pool(options.workers));
    let turns = take_turns(&mut port, crew.as_mut_slice(), &mut pool, options);
    // A port is not `Drop`, so it is taken apart.
    let PlainPort {
        core: shared,
        actor: _actor,
    } = port;
    turns?;
    let upper = shared.upper();
    let lower = shared.lower();
    let ends = finish_all(alloc, crew)?;
    outcome_of(alloc, model, options, Reached { upper, lower, ends })
}
