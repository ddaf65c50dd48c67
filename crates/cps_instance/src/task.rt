//! What is to hold of the values of subjects.
//!
//! Values are given by the numbers of subjects, literals as atoms, and an interval by the span of its start, end and
//! size, so that a propagator is made from a task and asks no model. `Body` and `Task` have a written drop: a derived one
//! would stand once more in every crate that may drop it.

use crate::term::Term;
use cps_literal::Atom;
use cps_model::Listed;

/// An interval, present where all its presence atoms are true.
#[derive(Drop)]
pub struct Span {
    pub start: u32,
    pub end: u32,
    pub size: u32,
    pub presence: Listed<Atom>,
    /// How far the end is from the start, where that is the same at all values of the model's variables.
    pub length: Option<i64>,
}

/// What a task demands where it is in force. Atoms stand for literals, subjects for expressions, and spans for
/// intervals.
pub enum Body {
    /// Nothing.
    Empty,
    /// At least one atom is true.
    BoolOr(Listed<Atom>),
    /// Every atom is true.
    BoolAnd(Listed<Atom>),
    /// At most one position has a true atom.
    AtMostOne(Listed<Atom>),
    /// Exactly one position has a true atom.
    ExactlyOne(Listed<Atom>),
    /// An odd number of positions have a true atom.
    BoolXor(Listed<Atom>),
    /// The sum of the terms lies in one of the domain's intervals. An empty domain admits no sum.
    Linear {
        terms: Listed<Term>,
        domain: Listed<i64>,
    },
    /// The target is the first of two values divided by the second, rounded towards zero.
    IntDiv {
        target: u32,
        exprs: Listed<u32>,
    },
    /// The target is what is left of the first of two values after it was divided so by the second.
    IntMod {
        target: u32,
        exprs: Listed<u32>,
    },
    /// The target is the product of the values.
    IntProd {
        target: u32,
        exprs: Listed<u32>,
    },
    /// The target is the greatest of the values.
    LinMax {
        target: u32,
        exprs: Listed<u32>,
    },
    /// The target is the value whose number is the index.
    Element {
        index: u32,
        target: u32,
        exprs: Listed<u32>,
    },
    /// The values are a row of the table, whose rows stand in `values` one after another; where it is negated, they are
    /// none. Without subjects it says nothing.
    Table {
        exprs: Listed<u32>,
        values: Listed<i64>,
        negated: bool,
    },
    /// No two positions have the same value.
    AllDiff(Listed<u32>),
    /// The arcs whose atoms are true lead into and out of each node once, those that are no loops in one circuit.
    Circuit {
        tails: Listed<i32>,
        heads: Listed<i32>,
        literals: Listed<Atom>,
    },
    /// The size is not negative, and takes the start to the end.
    Interval {
        start: u32,
        end: u32,
        size: u32,
    },
    /// Of each two present spans one ends before the other starts, or as it starts.
    NoOverlap(Listed<Span>),
    /// At no time do the present spans that run then demand more than the capacity.
    Cumulative {
        capacity: u32,
        intervals: Listed<Span>,
        demands: Listed<u32>,
    },
    /// Each of two lists of values says at which place of the other its own places stand.
    Inverse {
        direct: Listed<u32>,
        inverse: Listed<u32>,
    },
    /// The values are the labels of a run from the start to a final state. The transitions stand in three lists.
    Automaton {
        start: i64,
        finals: Listed<i64>,
        tails: Listed<i64>,
        heads: Listed<i64>,
        labels: Listed<i64>,
        exprs: Listed<u32>,
    },
    /// After each active event the changes up to its time add up to a level between `min` and `max`. Without atoms each
    /// event is active.
    Reservoir {
        min: i64,
        max: i64,
        times: Listed<u32>,
        changes: Listed<u32>,
        active: Listed<Atom>,
    },
    /// Of each two boxes whose spans are present, the one ends before the other starts, or as it starts, in one
    /// direction.
    NoOverlap2d {
        x: Listed<Span>,
        y: Listed<Span>,
    },
    /// The subject has the value of the sum of the terms and the offset.
    Sum {
        subject: u32,
        terms: Listed<Term>,
        offset: i64,
    },
    /// The objective's sum lies in one of the domain's intervals. An empty domain admits every sum.
    ObjectiveList {
        terms: Listed<Term>,
        domain: Listed<i64>,
    },
    /// The objective's sum is at most `upper`, where there is such an end.
    Cut {
        terms: Listed<Term>,
        upper: Option<i64>,
    },
}

// Written out: a drop of an enum that is derived stands in full in each function where one is dropped.
impl Drop for Body {
    fn drop(self) {
        match self {
            Body::Empty => {}
            Body::BoolOr(_list)
            | Body::BoolAnd(_list)
            | Body::AtMostOne(_list)
            | Body::ExactlyOne(_list)
            | Body::BoolXor(_list) => {}
            Body::Linear {
                terms: _terms,
                domain: _domain,
            }
            | Body::ObjectiveList {
                terms: _terms,
                domain: _domain,
            } => {}
            Body::IntDiv {
                target: _target,
                exprs: _exprs,
            }
            | Body::IntMod {
                target: _target,
                exprs: _exprs,
            }
            | Body::IntProd {
                target: _target,
                exprs: _exprs,
            }
            | Body::LinMax {
                target: _target,
                exprs: _exprs,
            } => {}
            Body::Element {
                index: _index,
                target: _target,
                exprs: _exprs,
            } => {}
            Body::Table {
                exprs: _exprs,
                values: _values,
                negated: _negated,
            } => {}
            Body::AllDiff(_list) => {}
            Body::Circuit {
                tails: _tails,
                heads: _heads,
                literals: _literals,
            } => {}
            Body::Interval {
                start: _start,
                end: _end,
                size: _size,
            } => {}
            Body::NoOverlap(_list) => {}
            Body::Cumulative {
                capacity: _capacity,
                intervals: _intervals,
                demands: _demands,
            } => {}
            Body::Inverse {
                direct: _direct,
                inverse: _inverse,
            } => {}
            Body::Automaton {
                start: _start,
                finals: _finals,
                tails: _tails,
                heads: _heads,
                labels: _labels,
                exprs: _exprs,
            } => {}
            Body::Reservoir {
                min: _min,
                max: _max,
                times: _times,
                changes: _changes,
                active: _active,
            } => {}
            Body::NoOverlap2d { x: _x, y: _y } => {}
            Body::Sum {
                subject: _subject,
                terms: _terms,
                offset: _offset,
            } => {}
            Body::Cut {
                terms: _terms,
                upper: _upper,
            } => {}
        }
    }
}

/// A demand, in force where all its enforcement atoms are true.
pub struct Task {
    pub enforcement: Listed<Atom>,
    pub body: Body,
}

// Written out, so that crates above do not prove it anew.
impl Drop for Task {
    fn drop(self) {
        let Task {
            enforcement: _enforcement,
            body: _body,
        } = self;
    }
}
