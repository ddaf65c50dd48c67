//! The table and its seats.
ghost use Rattle.std.specs.Prelude.{◌≡◌, ◌<◌, ◌≤◌, []};
ghost use Rattle.cps_model.specs.Validity.{IsValid};

use crate::rule::TwoBounds;
use crate::view::View;
use atomic_table::{Seat, Table};
use cps_validate::ValidModel;
use std::alloc::Global;

/// The two words, of a model.
#[derive(Drop)]
pub struct Bounds {
    pub(crate) table: Table<(), View, ValidModel, TwoBounds, Global>,
    ghost two: { table.shared.table_id.words ≡ 2 },
    ghost no_slot: { table.shared.table_id.slots ≡ 0 },
    ghost valid: { IsValid table.shared.key },
}

/// The right of one worker to use the two words.
#[derive(Drop)]
pub struct BoundsSeat {
    pub(crate) seat: Seat<(), View>,
    pub(crate) splits: u64,
    ghost same: { splits ≡ seat.me.0.splits },
    ghost some_part: { 0 < splits },
    ghost not_more: { splits ≤ 4294967296 },
    ghost holds_none: { seat.me.1 ≡ [] },
}
