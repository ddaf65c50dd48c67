//! What kinds are made of at an assignment, as plain numbers.

/// A present interval.
#[derive(Clone, Copy)]
pub struct Run {
    pub start: i64,
    pub end: i64,
}

/// A present interval that demands some of a capacity while it runs.
#[derive(Clone, Copy)]
pub struct Use {
    pub start: i64,
    pub end: i64,
    pub demand: i64,
}

/// A box whose two intervals are present.
#[derive(Clone, Copy)]
pub struct Area {
    pub x: Run,
    pub y: Run,
}

/// An active event of a reservoir.
#[derive(Clone, Copy)]
pub struct Event {
    pub time: i64,
    pub change: i64,
}

/// An arc between two nodes.
#[derive(Clone, Copy)]
pub struct Arc {
    pub tail: i32,
    pub head: i32,
}

/// A step of an automaton from a state to a state by a label.
#[derive(Clone, Copy)]
pub struct Transition {
    pub tail: i64,
    pub head: i64,
    pub label: i64,
}
