//! Events of the shared state.
use crate::entry::Entry;
use cps_model::Bound;

/// What an actor does to the shared state, in one step.
#[derive(Clone, Copy, Debug, PartialEq, Eq)]
pub enum Event {
    /// Takes the number of the next row.
    Draw,
    /// Opens the row that was drawn, with the entry, which names it.
    Publish(Entry),
    /// Looks at the first row that it has not taken.
    Look,
    /// Lowers the upper bound to a solution's objective.
    Offer(i64),
    /// Raises the lower bound.
    Raise(Bound),
    /// Loads the upper bound.
    SeeUpper,
    /// Loads the lower bound.
    SeeLower,
}

/// What the actor learns from its event.
#[derive(Clone, Copy, Debug, PartialEq, Eq)]
pub enum Seen {
    /// The row that was drawn.
    Row(u32),
    /// There was no row left to draw.
    Past,
    /// The row is open.
    Done,
    /// The row that was looked at is open, with this entry, which is taken now.
    Open(Entry),
    /// The row that was looked at is not open.
    Shut,
    /// The bound after the step.
    Word(Bound),
}
