//! The search of a model by workers in threads.
//!
//! All seats are split from one pair before the threads begin and joined to it after they ended. Only whoever has every
//! split back knows that the final bounds are exactly what the workers offered and raised, so the outcome is made from
//! that pair. A worker that ran out of memory ends the run without an outcome, since nothing is known of how its search
//! ended.
ghost use Rattle.std.specs.Prelude.{◌≡◌, ◌+◌, ◌-◌, ◌/◌, ◌≤◌, vec_len, All, IfOk, OnOk, None, false};
ghost use Rattle.cps_model.specs.declared.model.CpModel.{CpModel};
ghost use Rattle.cps_port.specs.Parts.{newcomer};
ghost use Rattle.cps_port.specs.Totals.{total};
ghost use Rattle.cps_board.specs.Seats as boards;
ghost use Rattle.cps_bounds.specs.Seats as words;
ghost use Rattle.cps_bounds.specs.Rule.{all_splits};
ghost use Rattle.cps_options.specs.declared.options.Options.{Options as OptionsOf};
ghost use Rattle.cps_options.specs.Ranges.{AreInRange};
ghost use Rattle.cps_crew.specs.Ports.{part_of};
ghost use Rattle.cps_crew.specs.Outcomes.{IsGoodOutcome};
ghost use Rattle.cps_crew.specs.Crews.{words_splits, IsBackAt, IsSeated, IsCrew, HaveReturned, AreGathered};

use crate::conclusion::outcome_of;
use crate::ended::AnyEnded;
use crate::numbering::reads_pool;
use crate::outcome::{Outcome, Reached};
use crate::recruiter::Recruiter;
use crate::seats::{Brief, Seated, work_all};
use crate::table_port::TablePort;
use cps_board::Board;
use cps_bounds::Bounds;
use cps_model::Bound;
use cps_outer::{Gate, Host};
use cps_pool::SharedPool;
use cps_port::MOST_ROWS;
use std::alloc::{AllocError, Global};
use std::sync::Wait;
use std::thread::Threads;

/// Seats of this number, which take half of the splits that a port has left.
fn seat<'t>(number: u32, kept: &mut TablePort<'t>) -> Seated<'t>
    requires room { (2 ≤ boards.splits_of kept.old.board_seat) × (2 ≤ words.splits_of kept.old.bounds_seat) }
    requires knows_nothing { part_of kept.old.board_seat kept.old.bounds_seat ≡ newcomer }
    ensures tables { (kept.new.board.now ≡ kept.old.board.now) × (kept.new.bounds.now ≡ kept.old.bounds.now) }
    ensures part { part_of kept.new.board_seat kept.new.bounds_seat ≡ newcomer }
    ensures board_splits { boards.splits_of kept.new.board_seat
        ≡ boards.splits_of kept.old.board_seat - boards.splits_of kept.old.board_seat / 2 }
    ensures splits { words.splits_of kept.new.bounds_seat
        ≡ words.splits_of kept.old.bounds_seat - words.splits_of kept.old.bounds_seat / 2 }
    ensures given { words_splits result ≡ words.splits_of kept.old.bounds_seat / 2 }
    ensures seated { IsSeated kept.old.board.now kept.old.bounds.now number result }
{
    Seated {
        port: kept.split(),
        number,
        ended: None,
    }
}

/// The seats of `workers` workers, split from those of one port.
fn seat_all<'t>(
    alloc: Global,
    workers: u32,
    kept: &mut TablePort<'t>,
) -> Result<Vec<Seated<'t>>, AllocError>
    requires few { workers ≤ 16 }
    requires whole { (boards.splits_of kept.old.board_seat ≡ all_splits)
        × (words.splits_of kept.old.bounds_seat ≡ all_splits) }
    requires knows_nothing { part_of kept.old.board_seat kept.old.bounds_seat ≡ newcomer }
    ensures tables { OnOk result ((kept.new.board.now ≡ kept.old.board.now)
        × (kept.new.bounds.now ≡ kept.old.bounds.now)) }
    ensures part { OnOk result (part_of kept.new.board_seat kept.new.bounds_seat ≡ newcomer) }
    ensures splits { IfOk result (λ crew. words.splits_of kept.new.bounds_seat + total words_splits crew.items
        ≡ all_splits) }
    ensures count { IfOk result (λ crew. vec_len crew ≡ workers) }
    ensures crew { IfOk result (λ crew. IsCrew kept.old.board.now kept.old.bounds.now crew.items) }
{
    let mut crew = Vec::new(alloc);
    for number in 0..workers {
        crew.push(seat(number, kept))?;
    }
    Ok(crew)
}

/// Joins all seats to those of one port, and answers the workers' ends by number. An error says that a worker left no
/// end, since it ran out of memory, or that there was no memory for the list.
fn gather<'t>(
    alloc: Global,
    kept: &mut TablePort<'t>,
    mut crew: Vec<Seated<'t>>,
) -> Result<Vec<AnyEnded>, AllocError>
    requires idle { ((words.part_of kept.old.bounds_seat).offered ≡ Bound.Infinite)
        × ((words.part_of kept.old.bounds_seat).raised ≡ None) }
    requires splits { words.splits_of kept.old.bounds_seat + total words_splits crew.items ≡ all_splits }
    requires crew { All (IsBackAt kept.old.board.now kept.old.bounds.now) crew.items }
    ensures tables { (kept.new.board.now ≡ kept.old.board.now) × (kept.new.bounds.now ≡ kept.old.bounds.now) }
    ensures splits { OnOk result (words.splits_of kept.new.bounds_seat ≡ all_splits) }
    ensures gathered { IfOk result (λ ends. (m : CpModel) (o : OptionsOf)
        → HaveReturned m o kept.old.board.now kept.old.bounds.now crew.entry.items
        → AreGathered m o 0 (vec_len crew.entry) (words.part_of kept.new.bounds_seat) ends.items) }
{
    let mut ends = Vec::new(alloc);
    while let Some(seated) = crew.pop() {
        let Seated { port, ended, .. } = seated;
        kept.join(port);
        let Some(ended) = ended else {
            return Err(AllocError);
        };
        ends.insert(0, ended)?;
    }
    Ok(ends)
}

/// Solves a model: `options.workers` workers search in threads until the bounds meet, or each has spent its budget or
/// done its rounds. Each passes the gate before it begins. If a worker ran out of memory there is no outcome. No log is
/// kept.
pub fn solve_in_threads<T: Recruiter + Sync, R: Threads + Wait + Sync, G: Gate + Sync>(
    host: &Host<'_, R, G>,
    brief: &Brief<'_, T>,
) -> Result<Outcome, AllocError>
    requires range { AreInRange brief.now.options.now }
    requires no_log { brief.now.options.now.log ≡ false }
    requires suits { T.suits brief.now.model.now }
    ensures { IfOk result (IsGoodOutcome brief.now.model.now brief.now.options.now) }
{
    let alloc = host.alloc;
    let options = brief.options;
    let (bounds, bounds_seat) = Bounds::new(alloc, brief.model)?;
    let (board, board_seat) = Board::new(alloc, brief.model, MOST_ROWS)?;
    let pool = SharedPool::new(alloc, brief.model, reads_pool(options.workers))?;
    let mut kept = TablePort {
        board: &board,
        board_seat,
        bounds: &bounds,
        bounds_seat,
    };
    let mut crew = seat_all(alloc, options.workers, &mut kept)?;
    work_all(host, brief, crew.as_mut_slice(), &pool);
    let ends = gather(alloc, &mut kept, crew)?;
    // Taken apart for its seats, with which the tables are closed.
    let TablePort {
        board: _,
        board_seat,
        bounds: _,
        bounds_seat,
    } = kept;
    board.close(board_seat);
    let (upper, lower) = bounds.close(bounds_seat);
    outcome_of(alloc, brief.model, options, Reached { upper, lower, ends })
}
