//! Rows and actors as the shared state stores them.
use crate::entry::{BLANK, Entry, MOST_ATOMS};
use cps_model::Bound;

/// A row of the board.
#[derive(Clone, Copy)]
pub struct Row {
    /// Whether it has an entry.
    pub published: bool,
    /// The number of the actor that published it.
    pub owner: u32,
    /// The entry, where there is one.
    pub entry: Entry,
}

/// What the state stores of an actor, beside its part of the bounds.
#[derive(Clone, Copy)]
pub struct Seat {
    /// The row that it drew and has not published.
    pub drawn: Option<u32>,
    /// How many rows it took.
    pub taken: u32,
    /// Whether it drew past the last row.
    pub full: bool,
    /// How often it found the next row closed.
    pub misses: u64,
}

/// A row that is not published.
pub const NO_ROW: Row = Row {
    published: false,
    owner: 0,
    entry: Entry {
        row: 0,
        below: Bound::Infinite,
        len: 0,
        atoms: [BLANK; MOST_ATOMS],
    },
};

/// An actor before its first event.
pub const NO_SEAT: Seat = Seat {
    drawn: None,
    taken: 0,
    full: false,
    misses: 0,
};
