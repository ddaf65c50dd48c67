//! The rule of the board. The table has a slot of no bytes for each row, so that a step knows how many rows there are.
use crate::view::View;
use atomic_table::TableRule;
use cps_validate::ValidModel;

/// Each row is drawn by one seat, opened once, and never changes after that; an open row has a sound entry.
pub struct OpenRows;

impl TableRule<(), View, ValidModel> for OpenRows {
    ghost use Rattle.cps_board.specs.Rows.{KeptRows, first_view};

    ghost holds = { KeptRows };

    ghost first = { first_view };
}
