//! Which fixed positions need not be looked at again.
//!
//! Nothing is promised of it. A position may count as settled a while after it was taken back, which costs strength
//! alone.

use crate::interval::Interval;
use cps_trail::EntryView;
use std::alloc::{AllocError, Global};

/// A position that is settled, with how many entries there were when it was, and the last of them.
#[derive(Clone, Copy)]
struct Settling {
    place: usize,
    seen: usize,
    last: EntryView,
}

/// The positions that are fixed and whose value has left the others, as of a history.
#[derive(Drop)]
pub(crate) struct Settled {
    /// Whether each position is.
    places: Vec<bool>,
    /// Those that are, in the order in which they were settled.
    order: Vec<Settling>,
    /// How many entries there are in this look, and the last of them.
    seen: usize,
    last: EntryView,
}

/// Whether a position is fixed, and the history goes on from the one in which it was settled: the last entry seen is
/// where it was.
fn stands(settling: &Settling, entries: &[EntryView], ends: &[Interval]) -> bool {
    match ends.get(settling.place) {
        Some(each) => {
            if each.low != each.high {
                return false;
            }
        }
        None => return false,
    }
    match entries.get(settling.seen.wrapping_sub(1)) {
        Some(entry) => *entry == settling.last,
        None => settling.seen == 0,
    }
}

impl Settled {
    /// No position is settled.
    pub(crate) fn new(alloc: Global) -> Self {
        Settled {
            places: Vec::new(alloc),
            order: Vec::new(alloc),
            seen: 0,
            last: EntryView::default(),
        }
    }

    /// Begins a look at positions with these ends. Those that were settled after the entries that still stand are so
    /// no more.
    pub(crate) fn begin(
        &mut self,
        entries: &[EntryView],
        ends: &[Interval],
    ) -> Result<(), AllocError> {
        for _ in 0..self.order.len() {
            let place = match self.order.last() {
                Some(settling) => {
                    if stands(settling, entries, ends) {
                        break;
                    }
                    settling.place
                }
                None => break,
            };
            self.set(place, false);
            self.order.pop();
        }
        for _ in self.places.len()..ends.len() {
            self.places.push(false)?;
        }
        match entries.last() {
            Some(entry) => self.last = *entry,
            None => {}
        }
        self.seen = entries.len();
        Ok(())
    }

    /// Whether a position is settled.
    pub(crate) fn has(&self, place: usize) -> bool {
        place < self.places.len() && self.places[place]
    }

    /// Settles a position.
    pub(crate) fn add(&mut self, place: usize) -> Result<(), AllocError> {
        self.set(place, true);
        self.order.push(Settling {
            place,
            seen: self.seen,
            last: self.last,
        })?;
        Ok(())
    }

    /// Writes whether a position is settled, if there is one.
    fn set(&mut self, place: usize, settled: bool) {
        if place < self.places.len() {
            self.places[place] = settled;
        }
    }
}
