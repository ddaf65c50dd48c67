//! Two workers, turn about, over the two tables that workers in threads share.
ghost use Rattle.std.specs.Prelude.{◌≡◌, ◌≤◌, ◌^◌, length, false, IfOk, OnOk};
ghost use Rattle.cps_bounds.specs.Seats as words;
ghost use Rattle.cps_search.specs.Ends.{IsOver};
ghost use Rattle.cps_kinds.specs.Kinds.{AreAllPropagated};

use crate::models::{sum, three};
use crate::turns::{active_worker_of, name_of, ordered_worker_of};
use cps_board::Board;
use cps_bounds::Bounds;
use cps_model::Bound;
use cps_port::Port;
use cps_portfolio::TablePort;
use cps_propagate::Propagator;
use cps_search::{Brancher, Worker};
use cps_validate::ValidModel;
use std::alloc::{AllocError, Global};
use std::test::Fail;

/// Takes a turn of a worker that is not over. Whether it is over then.
fn take_turn<P: Propagator, B: Brancher + Drop, Q: Port>(
    worker: &mut Worker<'_, P, B>,
    port: &mut Q,
    is_over: bool,
) -> Result<bool, AllocError>
    requires running { is_over ≡ false → IsOver worker.old.0.phase → ⊥ }
    requires model { Q.model port.old ≡ worker.old.0.instance.model }
    requires imported { worker.old.0.imported ≤ length (Q.part port.old).board.taken }
    ensures running { IfOk result (λ over. over ≡ false → IsOver worker.new.0.phase → ⊥) }
    ensures model { OnOk result (Q.model port.new ≡ worker.new.0.instance.model) }
    ensures imported { OnOk result (worker.new.0.imported ≤ length (Q.part port.new).board.taken) }
{
    if is_over {
        return Ok(true);
    }
    let turn = worker.turn(port)?;
    let named = name_of(&turn);
    Ok(named.1)
}

/// Lets two workers take turns, each at a port of its own, until both are over, or for a hundred turns. Whether both
/// are over.
fn turn_about<P: Propagator, B: Brancher + Drop, C: Brancher + Drop, Q: Port>(
    first: &mut Worker<'_, P, B>,
    first_port: &mut Q,
    second: &mut Worker<'_, P, C>,
    second_port: &mut Q,
) -> Result<bool, AllocError>
    requires first_runs { IsOver first.old.0.phase → ⊥ }
    requires first_model { Q.model first_port.old ≡ first.old.0.instance.model }
    requires first_imported { first.old.0.imported ≤ length (Q.part first_port.old).board.taken }
    requires second_runs { IsOver second.old.0.phase → ⊥ }
    requires second_model { Q.model second_port.old ≡ second.old.0.instance.model }
    requires second_imported { second.old.0.imported ≤ length (Q.part second_port.old).board.taken }
{
    let mut first_over = false;
    let mut second_over = false;
    for _ in 0..100 {
        first_over = take_turn(first, first_port, first_over)?;
        second_over = take_turn(second, second_port, second_over)?;
    }
    Ok(first_over && second_over)
}

/// Lets a worker that takes variables in order and one that takes them by activity search to their ends. Whether both
/// came to one.
fn search_about<'a>(
    alloc: Global,
    model: &ValidModel,
    first_port: &mut TablePort<'a>,
    second_port: &mut TablePort<'a>,
) -> Result<bool, AllocError>
    requires kinds { AreAllPropagated model.now }
    requires first { words.model_of first_port.old.bounds.now ≡ model.now }
    requires second { words.model_of second_port.old.bounds.now ≡ model.now }
{
    // Lists are dropped as one; the borrow checker does not cover how a worker in a variable is.
    let mut first = Vec::new(alloc);
    first.push(ordered_worker_of(alloc, model, 10)?)?;
    let mut second = Vec::new(alloc);
    second.push(active_worker_of(alloc, model, 10)?)?;
    turn_about(&mut first[0], first_port, &mut second[0], second_port)
}

/// The bounds that two workers leave that came to their ends, where the board has one row; `None` if one of them did
/// not.
fn bounds_left(alloc: Global, model: &ValidModel) -> Result<Option<(Bound, Bound)>, AllocError>
    requires kinds { AreAllPropagated model.now }
{
    let (bounds, bounds_seat) = Bounds::new(alloc, model)?;
    let (board, board_seat) = Board::new(alloc, model, 1)?;
    let mut first_port = TablePort {
        board: &board,
        board_seat,
        bounds: &bounds,
        bounds_seat,
    };
    let mut second_port = first_port.split();
    let are_over = search_about(alloc, model, &mut first_port, &mut second_port)?;
    if !are_over {
        return Ok(None);
    }
    Ok(Some((first_port.upper(), first_port.lower())))
}

#[test]
fn two_workers_turn_about_on_a_board_of_one_row(rt: HostRuntime) -> Result<(), Fail> {
    let model = three(rt.alloc(), 2, Some(sum(rt.alloc())?))?;
    let left = bounds_left(rt.alloc(), &model)?;
    assert!(rt; left == Some((Bound::At(3), Bound::At(3))));
    Ok(())
}
