//! The board and its seats.
ghost use Rattle.std.specs.Prelude.{◌≡◌, ◌+◌, ◌*◌, ◌<◌, ◌≤◌, [], length, None};
ghost use Rattle.cps_model.specs.Validity.{IsValid};
ghost use Rattle.cps_port.specs.Entries.{most_rows};

use crate::rule::OpenRows;
use crate::view::View;
use atomic_table::{Seat, Table};
use cps_validate::ValidModel;
use std::alloc::Global;

/// The rows of shared clauses, of a model.
#[derive(Drop)]
pub struct Board {
    pub(crate) table: Table<(), View, ValidModel, OpenRows, Global>,
    pub(crate) rows: u32,
    ghost wide: { table.shared.table_id.words ≡ 35 * rows + 1 },
    ghost slots: { table.shared.table_id.slots ≡ rows },
    ghost few: { rows ≤ most_rows },
    ghost valid: { IsValid table.shared.key },
}

/// The right of one worker to use the board.
#[derive(Drop)]
pub struct BoardSeat {
    pub(crate) seat: Seat<(), View>,
    pub(crate) splits: u64,
    /// How many rows it took.
    pub(crate) taken: u32,
    /// Whether it drew past the last row.
    pub(crate) full: bool,
    ghost same_splits: { splits ≡ seat.me.0.splits },
    ghost some_part: { 0 < splits },
    ghost not_more: { splits ≤ 4294967296 },
    ghost same_taken: { taken ≡ length seat.me.0.part.taken },
    ghost same_full: { full ≡ seat.me.0.part.full },
    ghost none_drawn: { seat.me.0.part.drawn ≡ None },
    ghost holds_none: { seat.me.1 ≡ [] },
}
