//! The calls of a board and its seats.
//!
//! Each step on a word is one atomic operation, named by the step that it is in the rule (`Draw`, `Put`, `Publish`,
//! `Look`, `Read`). A row is drawn by one `fetch_add` of the claim word, so two seats never write the same row; it is
//! filled while its flag is 0, and opened by the one store that sets the flag. So nothing is retried, and a reader that
//! found a flag set reads words that never change. A seat that drew past the end remembers that, and draws no more: so
//! the claim word cannot wrap.
ghost use Rattle.std.specs.Prelude.{◌≡◌, ℕ, ◌+◌, ◌-◌, ◌/◌, ◌<◌, ◌≤◌, length, min, true, if◌then◌else◌, IfOk};
ghost use Rattle.cps_port.specs.Incumbents.{HoldsBelow, IsIncumbent};
ghost use Rattle.cps_port.specs.Entries.{most_rows, IsShareable};
ghost use Rattle.cps_port.specs.Parts.{no_rows};
ghost use Rattle.cps_port.specs.Says.{ShareSays, TakeSays};
ghost use Rattle.cps_board.specs.Rows.{all_splits, newly, both_parts};
ghost use Rattle.cps_board.specs.Seats.{model_of, rows_of, part_of, splits_of, draws_of, IsBoardSeatOf};

use crate::plays::{Both, Draw, Halves, Look};
use crate::row::{ROW_WORDS, fill, read_row};
use crate::seats::{Board, BoardSeat};
use atomic_table::Table;
use cps_literal::Atom;
use cps_model::Bound;
use cps_port::{Share, Taken};
use cps_validate::ValidModel;
use std::alloc::{AllocError, Global};

/// The splits of a whole table: 2^32, which can be halved for 32 workers.
const ALL_SPLITS: u64 = 4294967296;

/// Whether one of two is true.
fn either(first: bool, second: bool) -> bool
    ensures { result ≡ (if first then true else second) }
{
    if first { true } else { second }
}

impl Board {
    /// A board of `rows` closed rows, of a model, and the first seat.
    pub fn new(
        alloc: Global,
        model: &ValidModel,
        rows: u32,
    ) -> Result<(Board, BoardSeat), AllocError>
        requires { (1 ≤ rows) × (rows ≤ most_rows) }
        ensures board { IfOk result (λ t. (model_of t.0 ≡ model.now) × (rows_of t.0 ≡ rows)) }
        ensures seat { IfOk result (λ t. IsBoardSeatOf t.0 t.1 × (part_of t.1 ≡ no_rows)) }
        ensures splits { IfOk result (λ t. (splits_of t.1 ≡ all_splits) × (draws_of t.1 ≡ 0)) }
    {
        // Reading the model gives the proof its invariant: the model keeps every rule.
        let _ = model.model();
        let words = vec![in alloc; 0u64; ROW_WORDS * rows as usize + 1]?;
        let slots = vec![in alloc; (); rows as usize]?;
        let Ok((table, seat)) = Table::new(alloc, words.as_slice(), slots, model) else {
            return Err(AllocError);
        };
        Ok((
            Board { table, rows },
            BoardSeat {
                seat,
                splits: ALL_SPLITS,
                taken: 0,
                full: false,
            },
        ))
    }

    /// Puts a clause into a row of its own, and opens the row. `Full` if no row is left, now or at an earlier call.
    pub fn share(&self, seat: &mut BoardSeat, below: Bound, clause: &[Atom]) -> Share
        requires own { IsBoardSeatOf self.now seat.old }
        requires clause { IsShareable (model_of self.now) clause.now }
        requires holds { HoldsBelow (model_of self.now) below clause.now }
        requires incumbent { IsIncumbent (model_of self.now) below }
        ensures own { IsBoardSeatOf self.now seat.new × (splits_of seat.new ≡ splits_of seat.old) }
        ensures said { ShareSays (rows_of self.now) below clause.now (part_of seat.old) (part_of seat.new) result }
        ensures draws { draws_of seat.new
            ≡ (if (part_of seat.old).full then draws_of seat.old else draws_of seat.old + 1) }
    {
        if seat.full {
            return Share::Full;
        }
        let shared = &self.table.shared;
        let row = shared.fetch_add::<Draw>(&mut seat.seat, 0, 1);
        if row >= u64::from(self.rows) {
            seat.full = true;
            return Share::Full;
        }
        fill(shared, &mut seat.seat, row as u32, below, clause);
        Share::Row(row as u32)
    }

    /// The entry of the first row that this seat has not taken, its own rows among them.
    pub fn take(&self, seat: &mut BoardSeat) -> Taken
        requires { IsBoardSeatOf self.now seat.old }
        ensures own { IsBoardSeatOf self.now seat.new × (splits_of seat.new ≡ splits_of seat.old)
            × (draws_of seat.new ≡ draws_of seat.old) }
        ensures said { TakeSays (model_of self.now) (rows_of self.now) (part_of seat.old) (part_of seat.new) result }
        ensures misses { result ≡ Taken.NotYet → (part_of seat.new).misses ≡ (part_of seat.old).misses + 1 }
    {
        let row = seat.taken;
        if row >= self.rows {
            return Taken::End;
        }
        let shared = &self.table.shared;
        let flag = shared.load::<Look>(&mut seat.seat, ROW_WORDS * row as usize + 1);
        if flag == 0 {
            return Taken::NotYet;
        }
        let entry = read_row(shared, &mut seat.seat, row);
        seat.taken += 1;
        Taken::Entry(entry)
    }

    /// Gives half of the splits to a new seat, which took what this one took, and has published nothing.
    pub fn split(&self, seat: &mut BoardSeat) -> BoardSeat
        requires own { IsBoardSeatOf self.now seat.old }
        requires room { 2 ≤ splits_of seat.old }
        ensures kept { IsBoardSeatOf self.now seat.new × (part_of seat.new ≡ part_of seat.old)
            × (draws_of seat.new ≡ draws_of seat.old) }
        ensures given { IsBoardSeatOf self.now result × (part_of result ≡ newly (part_of seat.old)) × (draws_of result ≡ 0) }
        ensures splits { (splits_of result ≡ splits_of seat.old / 2)
            × (splits_of seat.new ≡ splits_of seat.old - splits_of seat.old / 2) }
    {
        let half = seat.splits / 2;
        let other = self.table.shared.split_seat::<Halves>(&mut seat.seat);
        seat.splits -= half;
        BoardSeat {
            seat: other,
            splits: half,
            taken: seat.taken,
            full: seat.full,
        }
    }

    /// Takes over what another seat has and knows; the other seat is gone.
    pub fn join(&self, seat: &mut BoardSeat, other: BoardSeat)
        requires own { IsBoardSeatOf self.now seat.old }
        requires other { IsBoardSeatOf self.now other }
        ensures own { IsBoardSeatOf self.now seat.new }
        ensures part { part_of seat.new ≡ both_parts (part_of seat.old) (part_of other) }
        ensures splits { splits_of seat.new ≡ min (splits_of seat.old + splits_of other) all_splits }
        ensures draws { draws_of seat.new ≡ draws_of seat.old + draws_of other }
    {
        let BoardSeat {
            seat: token,
            splits,
            taken,
            full,
        } = other;
        self.table.shared.join_seat::<Both>(&mut seat.seat, token);
        seat.splits = (seat.splits + splits).min(ALL_SPLITS);
        seat.taken = seat.taken.max(taken);
        seat.full = either(seat.full, full);
    }

    /// How many rows were drawn, with the draws past the last row, no fewer than the seat drew or took. A seat with all
    /// splits knows it.
    pub fn close(self, seat: BoardSeat) -> u64
        requires { IsBoardSeatOf self seat }
        ensures at_most { result ≤ rows_of self + all_splits }
        ensures drawn { draws_of seat ≤ result }
        ensures taken { length (part_of seat).taken ≤ result }
        ensures whole { splits_of seat ≡ all_splits → result ≡ draws_of seat }
    {
        let Board { table, rows: _ } = self;
        let BoardSeat {
            seat: token,
            splits: _,
            taken: _,
            full: _,
        } = seat;
        let mut closed = table.close_with(token);
        let draws = closed.word(0);
        let mut i = 0;
        while i < closed.slot_count() {
            closed.take(i);
            i += 1;
        }
        closed.free();
        draws
    }
}

impl BoardSeat {
    /// How much of the table the seat has, of 2^32.
    pub fn splits(&self) -> u64
        ensures { result ≡ splits_of self.now }
    {
        self.splits
    }
}
