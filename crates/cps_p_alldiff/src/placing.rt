//! Where positions were put.
//!
//! Nothing is promised of it. Who believes it counts again.

use std::alloc::{AllocError, Global};

/// A number for each position, and for each number the position that has it.
#[derive(Drop)]
pub(crate) struct Placing {
    pub(crate) values: Vec<i64>,
    /// The number that is first in `owners`.
    pub(crate) base: i64,
    pub(crate) owners: Vec<usize>,
    /// Room for the numbers in order.
    pub(crate) sorted: Vec<i64>,
}

/// Up to how many numbers for each position have an owner.
const MOST_A_POSITION: u64 = 8;

impl Placing {
    /// No position is put anywhere.
    pub(crate) fn new(alloc: Global) -> Self {
        Placing {
            values: Vec::new(alloc),
            base: 0,
            owners: Vec::new(alloc),
            sorted: Vec::new(alloc),
        }
    }

    /// Makes room for `positions`, whose numbers are between `low` and `high`. Where these are far apart no number has
    /// an owner.
    pub(crate) fn begin(
        &mut self,
        positions: usize,
        low: i64,
        high: i64,
    ) -> Result<(), AllocError> {
        self.base = low;
        if self.values.len() != positions {
            self.values.clear();
            self.values.resize(positions, 0)?;
        }
        let most = (positions as u64).wrapping_mul(MOST_A_POSITION);
        let span = high.abs_diff(low);
        if span <= most {
            let needed = span.wrapping_add(1) as usize;
            for _ in self.owners.len()..needed {
                self.owners.push(0)?;
            }
        }
        Ok(())
    }

    /// Puts a position at a number.
    pub(crate) fn put(&mut self, place: usize, number: i64) {
        if place < self.values.len() {
            self.values[place] = number;
        }
        let at = number.abs_diff(self.base) as usize;
        if at < self.owners.len() {
            self.owners[at] = place;
        }
    }

    /// The position that was last put at a number; 0 where none was.
    pub(crate) fn owner(&self, number: i64) -> usize {
        match self.owners.get(number.abs_diff(self.base) as usize) {
            Some(place) => *place,
            None => 0,
        }
    }
}
