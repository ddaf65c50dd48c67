//! What an actor knows of the shared state.
use crate::entry::Entry;
use cps_model::Bound;
use std::collections::LinkedList;

/// What an actor knows of the board. It stands in contracts only: the program never makes a value of it.
pub struct BoardPart {
    /// The row that it drew and has not published.
    pub drawn: Option<u32>,
    /// The entries that it published.
    pub mine: LinkedList<Entry>,
    /// The entries that it took, from row 0 on.
    pub taken: LinkedList<Entry>,
    /// Whether it drew past the last row.
    pub full: bool,
    /// How often it found the next row closed.
    pub misses: u64,
}

/// What an actor knows of the two bounds.
#[derive(Clone, Copy, Debug, PartialEq, Eq)]
pub struct BoundsPart {
    /// The least upper bound that it saw or offered.
    pub saw_upper: Bound,
    /// Its least offer, `Infinite` without one.
    pub offered: Bound,
    /// The greatest lower bound that it saw or raised.
    pub saw_lower: Option<Bound>,
    /// The greatest bound to which it raised.
    pub raised: Option<Bound>,
    /// How often it loaded the upper bound.
    pub upper_loads: u64,
    /// The upper bound that it last loaded.
    pub upper_last: Option<Bound>,
    /// How often it loaded the lower bound.
    pub lower_loads: u64,
    /// The lower bound that it last loaded.
    pub lower_last: Option<Bound>,
}

/// An actor's part of the shared state.
pub struct Part {
    /// What it knows of the board.
    pub board: BoardPart,
    /// What it knows of the two bounds.
    pub bounds: BoundsPart,
}

/// What an actor knows of the bounds before its first event.
pub(crate) const NO_BOUNDS: BoundsPart = BoundsPart {
    saw_upper: Bound::Infinite,
    offered: Bound::Infinite,
    saw_lower: None,
    raised: None,
    upper_loads: 0,
    upper_last: None,
    lower_loads: 0,
    lower_last: None,
};
