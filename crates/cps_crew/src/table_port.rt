//! The port of one worker over the two shared tables.
ghost use Rattle.std.specs.Prelude.{◌≡◌};
ghost use Rattle.cps_board.specs.Rows as board_rows;
ghost use Rattle.cps_board.specs.Seats as boards;
ghost use Rattle.cps_bounds.specs.Seats as words;

use cps_board::{Board, BoardSeat};
use cps_bounds::{Bounds, BoundsSeat};
use cps_literal::Atom;
use cps_model::Bound;
use cps_port::{Port, Share, Taken};

/// A worker's seats at the board and at the two bounds of one model.
#[derive(Drop)]
pub struct TablePort<'a> {
    /// The board that all workers share.
    pub board: &'a Board,
    /// This worker's seat at it.
    pub board_seat: BoardSeat,
    /// The two bounds that all workers share.
    pub bounds: &'a Bounds,
    /// This worker's seat at them.
    pub bounds_seat: BoundsSeat,
    ghost one_model: { boards.model_of board.now ≡ words.model_of bounds.now },
    ghost at_board: { boards.IsBoardSeatOf board.now board_seat },
    ghost at_bounds: { words.IsSeatOf bounds.now bounds_seat },
}

impl<'a> TablePort<'a> {
    ghost use Rattle.std.specs.Prelude.{◌+◌, ◌-◌, ◌/◌, ◌≤◌, min};
    ghost use Rattle.cps_bounds.specs.Rule.{all_splits, both_parts, newly};

    /// A port with half of the splits that this one has left. It has offered and raised nothing.
    pub fn split(&mut self) -> TablePort<'a>
        requires board { 2 ≤ boards.splits_of self.old.board_seat }
        requires bounds { 2 ≤ words.splits_of self.old.bounds_seat }
        ensures tables { (self.new.board.now ≡ self.old.board.now) × (self.new.bounds.now ≡ self.old.bounds.now) }
        ensures other_tables { (result.board.now ≡ self.old.board.now) × (result.bounds.now ≡ self.old.bounds.now) }
        ensures part { words.part_of self.new.bounds_seat ≡ words.part_of self.old.bounds_seat }
        ensures other_part { words.part_of result.bounds_seat ≡ newly (words.part_of self.old.bounds_seat) }
        ensures seat { boards.part_of self.new.board_seat ≡ boards.part_of self.old.board_seat }
        ensures other_seat { boards.part_of result.board_seat ≡ board_rows.newly (boards.part_of self.old.board_seat) }
        ensures board_splits { boards.splits_of self.new.board_seat
            ≡ boards.splits_of self.old.board_seat - boards.splits_of self.old.board_seat / 2 }
        ensures splits { words.splits_of self.new.bounds_seat
            ≡ words.splits_of self.old.bounds_seat - words.splits_of self.old.bounds_seat / 2 }
        ensures other_splits { words.splits_of result.bounds_seat ≡ words.splits_of self.old.bounds_seat / 2 }
    {
        TablePort {
            board: self.board,
            board_seat: self.board.split(&mut self.board_seat),
            bounds: self.bounds,
            bounds_seat: self.bounds.split(&mut self.bounds_seat),
        }
    }

    /// Takes over what another port of the same tables knows, and its splits.
    pub fn join(&mut self, other: TablePort<'a>)
        requires { (other.board.now ≡ self.old.board.now) × (other.bounds.now ≡ self.old.bounds.now) }
        ensures tables { (self.new.board.now ≡ self.old.board.now) × (self.new.bounds.now ≡ self.old.bounds.now) }
        ensures part { words.part_of self.new.bounds_seat
            ≡ both_parts (words.part_of self.old.bounds_seat) (words.part_of other.entry.bounds_seat) }
        ensures seat { boards.part_of self.new.board_seat
            ≡ board_rows.both_parts (boards.part_of self.old.board_seat) (boards.part_of other.entry.board_seat) }
        ensures splits { words.splits_of self.new.bounds_seat
            ≡ min (words.splits_of self.old.bounds_seat + words.splits_of other.entry.bounds_seat) all_splits }
    {
        let TablePort {
            board: _,
            board_seat,
            bounds: _,
            bounds_seat,
        } = other;
        self.board.join(&mut self.board_seat, board_seat);
        self.bounds.join(&mut self.bounds_seat, bounds_seat);
    }
}

impl Port for TablePort<'_> {
    ghost use Rattle.cps_crew.specs.Ports.{part_of, SeatsStay, stays_unmoved, stays_moved_on};

    ghost model = { λ p. words.model_of p.bounds.now };

    ghost rows = { λ p. boards.rows_of p.board.now };

    ghost part = { λ p. part_of p.board_seat p.bounds_seat };

    ghost stays = { λ p q. SeatsStay p.board.now q.board.now p.bounds.now q.bounds.now
        p.board_seat q.board_seat p.bounds_seat q.bounds_seat };

    ghost few = { λ p. p.board.now.few };

    ghost none_drawn = { λ p. p.board_seat.none_drawn };

    ghost unmoved = { λ p. stays_unmoved p.board.now p.bounds.now p.board_seat p.bounds_seat };

    ghost moved_on = { λ p q r. stays_moved_on p.board.now q.board.now r.board.now
        p.bounds.now q.bounds.now r.bounds.now p.board_seat q.board_seat r.board_seat
        p.bounds_seat q.bounds_seat r.bounds_seat };

    fn upper(&mut self) -> Bound {
        self.bounds.upper(&mut self.bounds_seat)
    }

    fn lower(&mut self) -> Bound {
        self.bounds.lower(&mut self.bounds_seat)
    }

    fn offer(&mut self, value: i64) -> Bound {
        self.bounds.offer(&mut self.bounds_seat, value)
    }

    fn raise(&mut self, value: Bound) -> Bound {
        self.bounds.raise(&mut self.bounds_seat, value)
    }

    fn share(&mut self, below: Bound, clause: &[Atom]) -> Share {
        self.board.share(&mut self.board_seat, below, clause)
    }

    fn take(&mut self) -> Taken {
        self.board.take(&mut self.board_seat)
    }
}
