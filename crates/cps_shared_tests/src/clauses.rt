//! Worked runs on the board.
//!
//! With one thread the answers of each call follow from the order of calls; with two threads the rows that each seat
//! drew may be either, and what is compared holds in both cases.
ghost use Rattle.std.specs.Prelude.{ℤ, pos};
ghost use Rattle.cps_port.specs.Incumbents.{IsAttained};
ghost use Rattle.cps_board.specs.Seats.{model_of, IsBoardSeatOf};
ghost use Rattle.cps_shared_tests.specs.Worked.{IsMinimised, IsNine};

use crate::models::{is_attained, minimised, nine};
use cps_board::{Board, BoardSeat};
use cps_literal::{Atom, Op};
use cps_model::Bound;
use cps_port::{Entry, Share, Taken};
use cps_validate::{ValidModel, validate};
use std::alloc::{AllocError, Global};
use std::test::Fail;
use std::thread::{Threads, join};

const AT_MOST_SIX: Atom = Atom {
    subject: 0,
    op: Op::Le,
    value: 6,
};

/// Shares `x <= 6`, which holds below 7.
fn share_six(board: &Board, seat: &mut BoardSeat) -> Share
    requires own { IsBoardSeatOf board.now seat.old }
    requires minimised { IsMinimised (model_of board.now) }
    requires seven { IsAttained (model_of board.now) (pos 7) }
    ensures { IsBoardSeatOf board.now seat.new }
{
    board.share(seat, Bound::At(7), &[AT_MOST_SIX])
}

/// One of nine variables is 1.
const ONE_OF_NINE: [Atom; 9] = [
    Atom {
        subject: 0,
        op: Op::Ge,
        value: 1,
    },
    Atom {
        subject: 1,
        op: Op::Ge,
        value: 1,
    },
    Atom {
        subject: 2,
        op: Op::Ge,
        value: 1,
    },
    Atom {
        subject: 3,
        op: Op::Ge,
        value: 1,
    },
    Atom {
        subject: 4,
        op: Op::Ge,
        value: 1,
    },
    Atom {
        subject: 5,
        op: Op::Ge,
        value: 1,
    },
    Atom {
        subject: 6,
        op: Op::Ge,
        value: 1,
    },
    Atom {
        subject: 7,
        op: Op::Ge,
        value: 1,
    },
    Atom {
        subject: 8,
        op: Op::Ge,
        value: 1,
    },
];

/// Shares that one of nine variables is 1.
fn share_nine(board: &Board, seat: &mut BoardSeat) -> Share
    requires own { IsBoardSeatOf board.now seat.old }
    requires nine { IsNine (model_of board.now) }
    ensures { IsBoardSeatOf board.now seat.new }
{
    board.share(seat, Bound::Infinite, &ONE_OF_NINE)
}

/// The entry of `x <= 6` in a row.
fn six_in(row: u32) -> Taken {
    Taken::Entry(Entry::of(row, Bound::At(7), &[AT_MOST_SIX]))
}

/// Two threads share `x <= 6`, each on its seat.
fn share_twice<R: Threads + Sync>(
    rt: &R,
    board: &Board,
    first: BoardSeat,
    second: BoardSeat,
) -> (BoardSeat, BoardSeat)
    requires own { IsBoardSeatOf board.now first × IsBoardSeatOf board.now second }
    requires minimised { IsMinimised (model_of board.now) }
    requires seven { IsAttained (model_of board.now) (pos 7) }
    ensures { IsBoardSeatOf board.now result.0 × IsBoardSeatOf board.now result.1 }
{
    join(
        rt,
        || -> BoardSeat
            requires own { IsBoardSeatOf board.now first }
            requires minimised { IsMinimised (model_of board.now) }
            requires seven { IsAttained (model_of board.now) (pos 7) }
            ensures { IsBoardSeatOf board.entry.now result }
        { with_six(board, first) },
        || -> BoardSeat
            requires own { IsBoardSeatOf board.now second }
            requires minimised { IsMinimised (model_of board.now) }
            requires seven { IsAttained (model_of board.now) (pos 7) }
            ensures { IsBoardSeatOf board.entry.now result }
        { with_six(board, second) },
    )
}

fn with_six(board: &Board, mut seat: BoardSeat) -> BoardSeat
    requires own { IsBoardSeatOf board.now seat }
    requires minimised { IsMinimised (model_of board.now) }
    requires seven { IsAttained (model_of board.now) (pos 7) }
    ensures { IsBoardSeatOf board.now result }
{
    share_six(board, &mut seat);
    seat
}

/// One seat shares on a board of two rows. The other one takes before that and twice after it, and then the first one.
fn taken_by_each(alloc: Global, model: &ValidModel) -> Result<(Share, [Taken; 4]), AllocError>
    requires minimised { IsMinimised model.now }
    requires seven { IsAttained model.now (pos 7) }
{
    let (board, mut a) = Board::new(alloc, model, 2)?;
    let mut b = board.split(&mut a);
    let before = board.take(&mut b);
    let shared = share_six(&board, &mut a);
    let second = board.take(&mut b);
    let third = board.take(&mut b);
    Ok((shared, [before, second, third, board.take(&mut a)]))
}

/// One seat shares twice on a board of one row, and the other one takes twice. After the join, the splits and the
/// draws.
fn drawn_past_the_end(
    alloc: Global,
    model: &ValidModel,
) -> Result<([Share; 2], [Taken; 2], [u64; 2]), AllocError>
    requires minimised { IsMinimised model.now }
    requires seven { IsAttained model.now (pos 7) }
{
    let (board, mut a) = Board::new(alloc, model, 1)?;
    let mut b = board.split(&mut a);
    let shared = [share_six(&board, &mut a), share_six(&board, &mut a)];
    let taken = [board.take(&mut b), board.take(&mut b)];
    board.join(&mut a, b);
    let splits = a.splits();
    Ok((shared, taken, [splits, board.close(a)]))
}

/// Two threads share on a board of two rows. After the join, what is taken, and the draws.
fn raced<R: Threads + Sync>(
    rt: &R,
    alloc: Global,
    model: &ValidModel,
) -> Result<([Taken; 3], u64), AllocError>
    requires minimised { IsMinimised model.now }
    requires seven { IsAttained model.now (pos 7) }
{
    let (board, mut a) = Board::new(alloc, model, 2)?;
    let b = board.split(&mut a);
    let (mut a, b) = share_twice(rt, &board, a, b);
    board.join(&mut a, b);
    let first = board.take(&mut a);
    let second = board.take(&mut a);
    let third = board.take(&mut a);
    Ok(([first, second, third], board.close(a)))
}

/// One seat shares nine atoms, and the other one takes them.
fn nine_taken(alloc: Global, model: &ValidModel) -> Result<(Share, Taken), AllocError>
    requires { IsNine model.now }
{
    let (board, mut a) = Board::new(alloc, model, 1)?;
    let mut b = board.split(&mut a);
    let shared = share_nine(&board, &mut a);
    Ok((shared, board.take(&mut b)))
}

/// What is shared and taken first; an error where 7 is the objective of no solution.
fn each_takes(alloc: Global, model: &ValidModel) -> Result<(Share, [Taken; 4]), AllocError>
    requires { IsMinimised model.now }
{
    if !is_attained(alloc, model, 7)? {
        return Err(AllocError);
    }
    taken_by_each(alloc, model)
}

#[test]
fn a_clause_is_taken_once_by_each_seat(rt: HostRuntime) -> Result<(), Fail> {
    let alloc = rt.alloc();
    let model = validate(alloc, minimised(alloc)?)?;
    let (shared, taken) = each_takes(alloc, &model)?;
    assert!(rt; shared == Share::Row(0));
    assert!(rt; taken == [Taken::NotYet, six_in(0), Taken::NotYet, six_in(0)]);
    Ok(())
}

/// What comes of a board of one row; an error where 7 is the objective of no solution.
fn draws_past_the_end(
    alloc: Global,
    model: &ValidModel,
) -> Result<([Share; 2], [Taken; 2], [u64; 2]), AllocError>
    requires { IsMinimised model.now }
{
    if !is_attained(alloc, model, 7)? {
        return Err(AllocError);
    }
    drawn_past_the_end(alloc, model)
}

#[test]
fn a_full_board_takes_no_more(rt: HostRuntime) -> Result<(), Fail> {
    let alloc = rt.alloc();
    let model = validate(alloc, minimised(alloc)?)?;
    let (shared, taken, counts) = draws_past_the_end(alloc, &model)?;
    assert!(rt; shared == [Share::Row(0), Share::Full]);
    assert!(rt; taken == [six_in(0), Taken::End]);
    assert!(rt; counts == [4294967296, 2]);
    Ok(())
}

/// What two threads leave; an error where 7 is the objective of no solution.
fn races<R: Threads + Sync>(
    rt: &R,
    alloc: Global,
    model: &ValidModel,
) -> Result<([Taken; 3], u64), AllocError>
    requires { IsMinimised model.now }
{
    if !is_attained(alloc, model, 7)? {
        return Err(AllocError);
    }
    raced(rt, alloc, model)
}

#[test]
fn threads_share_in_rows_of_their_own(rt: HostRuntime) -> Result<(), Fail> {
    let alloc = rt.alloc();
    let model = validate(alloc, minimised(alloc)?)?;
    let (taken, draws) = races(&rt, alloc, &model)?;
    assert!(rt; taken == [six_in(0), six_in(1), Taken::End]);
    assert!(rt; draws == 2);
    Ok(())
}

#[test]
fn a_clause_of_nine_atoms_is_taken(rt: HostRuntime) -> Result<(), Fail> {
    let alloc = rt.alloc();
    let model = validate(alloc, nine(alloc)?)?;
    let (shared, taken) = nine_taken(alloc, &model)?;
    assert!(rt; shared == Share::Row(0));
    assert!(rt; taken == Taken::Entry(Entry::of(0, Bound::Infinite, &ONE_OF_NINE)));
    Ok(())
}
