//! Hints: what a narrowing was found by, in two numbers. Nowhere else are claims numbers.
//!
//! The remainder of the second number by `CODES` is the claim's code. The rest of it and the first number are arcs,
//! nodes or witnesses.

ghost use Rattle.std.specs.Prelude.{pos, ◌≤ℤ◌, ◌^◌};

use crate::clash::Witness;
use cps_rule::Hint;

/// The way in which a search goes by arcs.
#[derive(Clone, Copy)]
pub enum Way {
    Forward,
    Back,
}

/// Two nodes that are on the circuit: forward, the first does not lead to the other, and back, the other does not lead
/// to it.
#[derive(Clone, Copy)]
pub struct Parting {
    pub way: Way,
    pub root: Witness,
    pub other: Witness,
}

/// Taken arcs that come back to the tail of the first of them, and a node elsewhere that is on the circuit.
#[derive(Clone, Copy)]
pub struct Subtour {
    pub arc: usize,
    pub outer: Witness,
}

/// Why arcs cannot be a circuit.
#[derive(Clone, Copy)]
pub enum Claim {
    /// Two taken arcs leave one node.
    TwoOut(usize, usize),
    /// Two taken arcs enter one node.
    TwoIn(usize, usize),
    /// No arc is taken that leaves this node.
    NoneOut(usize),
    /// No arc is taken that enters this node.
    NoneIn(usize),
    /// Taken arcs come back to where they began, and another node is on the circuit too.
    Tour(Subtour),
    /// No arcs that may be taken lead from one node that is on the circuit to another.
    Parted(Parting),
    /// Something else.
    Other,
}

/// Indices of arcs and of nodes in hints are below this.
const MOST: usize = 1 << 40;

/// There are as many codes.
const CODES: i64 = 8;

const TWO_OUT: i64 = 0;

const TWO_IN: i64 = 1;

const NONE_OUT: i64 = 2;

const NONE_IN: i64 = 3;

const TOUR: i64 = 4;

const PARTED_FORWARD: i64 = 5;

const PARTED_BACK: i64 = 6;

const OTHER: i64 = 7;

/// An index as a number; 0 for one that is too great.
fn packed(index: usize) -> i64
    ensures low { pos 0 ≤ℤ result }
    ensures high { result ≤ℤ pos (2 ^ 40) }
{
    if index < MOST { index as i64 } else { 0 }
}

/// A witness as a number: twice its arc, and 1 more where it says that the arc is taken.
fn packed_witness(witness: Witness) -> i64
    ensures low { pos 0 ≤ℤ result }
    ensures high { result ≤ℤ pos (2 ^ 42) }
{
    packed(witness.arc) * 2 + if witness.moves { 1 } else { 0 }
}

/// A number as an index.
fn index_of(number: i64) -> usize {
    if number < 0 { 0 } else { number as usize }
}

/// A number as a witness.
fn witness_of(number: usize) -> Witness {
    Witness {
        arc: number / 2,
        moves: number % 2 == 1,
    }
}

/// The parting of two numbers.
fn parting_of(way: Way, first: usize, second: usize) -> Parting {
    Parting {
        way,
        root: witness_of(first),
        other: witness_of(second),
    }
}

/// The hint of a claim.
pub fn hint_of(claim: Claim) -> Hint {
    match claim {
        Claim::TwoOut(i, j) => Hint {
            a: packed(i),
            b: packed(j) * CODES + TWO_OUT,
        },
        Claim::TwoIn(i, j) => Hint {
            a: packed(i),
            b: packed(j) * CODES + TWO_IN,
        },
        Claim::NoneOut(node) => Hint {
            a: packed(node),
            b: NONE_OUT,
        },
        Claim::NoneIn(node) => Hint {
            a: packed(node),
            b: NONE_IN,
        },
        Claim::Tour(subtour) => Hint {
            a: packed(subtour.arc),
            b: packed_witness(subtour.outer) * CODES + TOUR,
        },
        Claim::Parted(parting) => Hint {
            a: packed_witness(parting.root),
            b: packed_witness(parting.other) * CODES
                + match parting.way {
                    Way::Forward => PARTED_FORWARD,
                    Way::Back => PARTED_BACK,
                },
        },
        Claim::Other => Hint { a: 0, b: OTHER },
    }
}

/// The claim of a hint.
pub fn claim_of(hint: Hint) -> Claim {
    let first = index_of(hint.a);
    let second = index_of(hint.b / CODES);
    match hint.b % CODES {
        TWO_OUT => Claim::TwoOut(first, second),
        TWO_IN => Claim::TwoIn(first, second),
        NONE_OUT => Claim::NoneOut(first),
        NONE_IN => Claim::NoneIn(first),
        TOUR => Claim::Tour(Subtour {
            arc: first,
            outer: witness_of(second),
        }),
        PARTED_FORWARD => Claim::Parted(parting_of(Way::Forward, first, second)),
        PARTED_BACK => Claim::Parted(parting_of(Way::Back, first, second)),
        _ => Claim::Other,
    }
}
