//! What the rules of the kinds are lent: a task's literals, what a narrowing rests on, and room for a reason.

use cps_literal::Atom;
use std::alloc::Global;

/// A task's number, its enforcement atoms, and the atoms of its body.
#[derive(Clone, Copy)]
pub struct Rule<'a> {
    pub number: u32,
    pub enforcement: &'a [Atom],
    /// The place of the one enforcement atom that is open while all others are true; the list's length if all are true.
    pub last: usize,
    pub atoms: &'a [Atom],
}

/// What a narrowing rests on: the atoms of the body that are used, and the two places of its note.
#[derive(Clone, Copy)]
pub struct Cause<'a> {
    pub used: &'a [Atom],
    pub places: (i64, i64),
}

/// Two places of a list of atoms, the first below the second once they were looked for.
#[derive(Clone, Copy)]
pub struct Watches {
    pub first: usize,
    pub second: usize,
}

/// What a propagator keeps from visit to visit.
#[derive(Drop)]
pub struct Scratch {
    /// The clause of the conflict, where one was met. Its memory is kept for the next.
    pub conflict: Vec<Atom>,
    pub watches: Watches,
}

impl Scratch {
    /// Nothing was looked for yet.
    pub fn new(alloc: Global) -> Self {
        Scratch {
            conflict: Vec::new(alloc),
            watches: Watches {
                first: 0,
                second: 0,
            },
        }
    }
}
