//! What each step tells its seat.
ghost use Rattle.cps_board.specs.Rows.{row_drawn, word_put, row_opened, row_looked_at, word_read, kept_half, given_half, joined, spent};

use crate::view::View;
use atomic_table::{Join, Play, Split};

/// Draws the next row.
pub struct Draw;

impl Play<(), View> for Draw {
    ghost then = { row_drawn };
}

/// Stores a word of the row that was drawn.
pub struct Put;

impl Play<(), View> for Put {
    ghost then = { word_put };
}

/// Opens the row that was drawn.
pub struct Publish;

impl Play<(), View> for Publish {
    ghost then = { row_opened };
}

/// Looks at the flag of the next row.
pub struct Look;

impl Play<(), View> for Look {
    ghost then = { row_looked_at };
}

/// Loads a word of a row that was taken.
pub struct Read;

impl Play<(), View> for Read {
    ghost then = { word_read };
}

/// Shares out the splits of a seat between it and a new one, which has published nothing.
pub struct Halves;

impl Split<View> for Halves {
    ghost left = { kept_half };

    ghost right = { given_half };
}

/// Makes one seat of two, which has what both had.
pub struct Both;

impl Join<View> for Both {
    ghost both = { joined };

    ghost spent = { spent };
}
