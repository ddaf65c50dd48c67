//! A constraint and the kinds that there are.
//!
//! A kind is kept as it was given: its fields are the message's, and what it demands of an assignment is defined in
//! `specs/`. The enforcement literals stand beside the kind, since they mean the same for all of them. Each type has a
//! written drop: a derived one would stand once more in every crate that may drop it.
use crate::exprs::Exprs;
use crate::listed::Listed;
use crate::model::LinearExpr;
use crate::text::Text;

/// What a constraint demands. Literals and variables are given by references, intervals by the numbers of the
/// constraints that they are.
pub enum Kind {
    /// Nothing.
    Empty,
    /// At least one literal is true.
    BoolOr(Listed<i32>),
    /// Every literal is true.
    BoolAnd(Listed<i32>),
    /// At most one position has a true literal.
    AtMostOne(Listed<i32>),
    /// Exactly one position has a true literal.
    ExactlyOne(Listed<i32>),
    /// An odd number of positions have a true literal.
    BoolXor(Listed<i32>),
    /// The sum of coefficients times values lies in one of the domain's intervals. An empty domain admits no sum.
    Linear {
        vars: Listed<i32>,
        coeffs: Listed<i64>,
        domain: Listed<i64>,
    },
    /// The target is the first of two expressions divided by the second, rounded towards zero; never by 0.
    IntDiv {
        target: LinearExpr,
        exprs: Listed<LinearExpr>,
    },
    /// The target is what is left of the first of two expressions after it was divided so by the second, never by 0.
    IntMod {
        target: LinearExpr,
        exprs: Listed<LinearExpr>,
    },
    /// The target is the product of the expressions.
    IntProd {
        target: LinearExpr,
        exprs: Listed<LinearExpr>,
    },
    /// The target is the greatest of the expressions.
    LinMax {
        target: LinearExpr,
        exprs: Listed<LinearExpr>,
    },
    /// The target is the expression whose number is the index.
    Element {
        index: LinearExpr,
        target: LinearExpr,
        exprs: Exprs,
    },
    /// The expressions' values are a row of the table, whose rows stand in `values` one after another; where it is
    /// negated, they are none. Without expressions it says nothing.
    Table {
        exprs: Exprs,
        values: Listed<i64>,
        negated: bool,
    },
    /// No two positions have the same value.
    AllDiff(Listed<LinearExpr>),
    /// The arcs whose literals are true lead into and out of each node once, those that are no loops in at most one
    /// circuit.
    Circuit {
        tails: Listed<i32>,
        heads: Listed<i32>,
        literals: Listed<i32>,
    },
    /// An interval, which is present where the constraint is in force: the size is not negative, and takes the start
    /// to the end.
    Interval {
        start: LinearExpr,
        end: LinearExpr,
        size: LinearExpr,
    },
    /// Of each two present intervals one ends before the other starts, or as it starts.
    NoOverlap(Listed<i32>),
    /// At no time do the present intervals that run then demand more than the capacity.
    Cumulative {
        capacity: LinearExpr,
        intervals: Listed<i32>,
        demands: Listed<LinearExpr>,
    },
    /// Each of two lists of variables says at which place of the other its own places stand.
    Inverse {
        direct: Listed<i32>,
        inverse: Listed<i32>,
    },
    /// The expressions' values are the labels of a run from the start to a final state. The transitions stand in three
    /// lists.
    Automaton {
        start: i64,
        finals: Listed<i64>,
        tails: Listed<i64>,
        heads: Listed<i64>,
        labels: Listed<i64>,
        exprs: Exprs,
    },
    /// After each active event the changes up to its time add up to a level between `min` and `max`. Without literals
    /// each event is active.
    Reservoir {
        min: i64,
        max: i64,
        times: Listed<LinearExpr>,
        changes: Listed<LinearExpr>,
        active: Listed<i32>,
    },
    /// Of each two boxes whose intervals are present, the one ends before the other starts, or as it starts, in one
    /// direction.
    NoOverlap2d {
        x: Listed<i32>,
        y: Listed<i32>,
    },
}

// Written out: a drop of an enum that is derived stands in full in each function where one is dropped.
impl Drop for Kind {
    fn drop(self) {
        match self {
            Kind::Empty => {}
            Kind::BoolOr(_refs)
            | Kind::BoolAnd(_refs)
            | Kind::AtMostOne(_refs)
            | Kind::ExactlyOne(_refs)
            | Kind::BoolXor(_refs)
            | Kind::NoOverlap(_refs) => {}
            Kind::Linear {
                vars: _vars,
                coeffs: _coeffs,
                domain: _domain,
            } => {}
            Kind::IntDiv {
                target: _target,
                exprs: _exprs,
            }
            | Kind::IntMod {
                target: _target,
                exprs: _exprs,
            }
            | Kind::IntProd {
                target: _target,
                exprs: _exprs,
            }
            | Kind::LinMax {
                target: _target,
                exprs: _exprs,
            } => {}
            Kind::Element {
                index: _index,
                target: _target,
                exprs: _exprs,
            } => {}
            Kind::Table {
                exprs: _exprs,
                values: _values,
                negated: _negated,
            } => {}
            Kind::AllDiff(_exprs) => {}
            Kind::Circuit {
                tails: _tails,
                heads: _heads,
                literals: _literals,
            } => {}
            Kind::Interval {
                start: _start,
                end: _end,
                size: _size,
            } => {}
            Kind::Cumulative {
                capacity: _capacity,
                intervals: _intervals,
                demands: _demands,
            } => {}
            Kind::Inverse {
                direct: _direct,
                inverse: _inverse,
            } => {}
            Kind::Automaton {
                start: _start,
                finals: _finals,
                tails: _tails,
                heads: _heads,
                labels: _labels,
                exprs: _exprs,
            } => {}
            Kind::Reservoir {
                min: _min,
                max: _max,
                times: _times,
                changes: _changes,
                active: _active,
            } => {}
            Kind::NoOverlap2d { x: _x, y: _y } => {}
        }
    }
}

/// A constraint, in force where all its enforcement literals are true.
pub struct Constraint {
    pub name: Text,
    pub enforcement: Listed<i32>,
    pub kind: Kind,
}

// Written out, so that crates above do not prove it anew.
impl Drop for Constraint {
    fn drop(self) {
        let Constraint {
            name: _name,
            enforcement: _enforcement,
            kind: _kind,
        } = self;
    }
}
