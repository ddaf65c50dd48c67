//! One sweep of the positions by their greatest values, each put at the least free number that it may have.
//!
//! A settled position and its number are left out: the number has left all others, so what is full or crowded without
//! the two is so with them.
//!
//! Nothing is promised of what it finds: the calls here are safe and end, and each number is read and written where
//! there is one.

use crate::interval::Interval;
use crate::order::{End, Which, arrange};
use crate::placing::Placing;
use crate::settled::Settled;
use std::alloc::{AllocError, Global};

/// From which side the positions are swept. From above they are mirrored at 0.
#[derive(Clone, Copy)]
enum Side {
    Below,
    Above,
}

/// A number at which a position can be put.
#[derive(Clone, Copy)]
struct Slot {
    number: i64,
    /// The way to the least free slot from this one on; itself where it is free.
    next: usize,
    /// For a free slot, the first of the filled ones that stand before it without a gap; itself where there is none.
    first: usize,
}

/// What a sweep finds, and its room.
#[derive(Drop)]
pub(crate) struct Finder {
    /// The positions by their least and by their greatest values.
    by_least: Vec<End>,
    by_greatest: Vec<End>,
    /// Of a side, the positions that are not settled by their least values, and the numbers of the others, rising.
    row: Vec<End>,
    taken: Vec<i64>,
    /// For each position, the slot of the least number that it may have.
    starts: Vec<usize>,
    /// The slots by their numbers, rising. After each block of numbers one next to the other stands a slot that stays
    /// free.
    slots: Vec<Slot>,
    /// The full intervals so far, apart and rising.
    full: Vec<Interval>,
    /// Where the positions were put.
    pub(crate) placing: Placing,
    /// Full intervals that hold an end of another position.
    pub(crate) halls: Vec<Interval>,
}

/// The numbers from `number` on that are not taken.
#[derive(Drop)]
struct Untaken<'a> {
    taken: &'a [i64],
    /// How many of the taken ones are less than `number`.
    less: usize,
    number: i64,
}

impl<'a> Untaken<'a> {
    fn new(taken: &'a [i64]) -> Self {
        Untaken {
            taken,
            less: 0,
            number: 0,
        }
    }

    /// Goes on to the first number from `number` on that is not taken.
    fn move_to(&mut self, number: i64) {
        self.number = number;
        for _ in self.less..self.taken.len() {
            match self.taken.get(self.less) {
                Some(next) => {
                    if self.number < *next {
                        break;
                    }
                    if self.number == *next {
                        self.number = self.number.wrapping_add(1);
                    }
                    self.less = self.less.wrapping_add(1);
                }
                None => break,
            }
        }
    }
}

/// The slot at a place; the number 0 where there is none.
fn slot_at(slots: &[Slot], at: usize) -> Slot {
    match slots.get(at) {
        Some(slot) => *slot,
        None => Slot {
            number: 0,
            next: 0,
            first: 0,
        },
    }
}

/// Writes the way on from a slot, if there is one.
fn set_next(slots: &mut [Slot], at: usize, next: usize) {
    if at < slots.len() {
        slots[at].next = next;
    }
}

/// Writes the first slot filled before one, if there is one.
fn set_first(slots: &mut [Slot], at: usize, first: usize) {
    if at < slots.len() {
        slots[at].first = first;
    }
}

/// Adds a free slot.
fn push_slot(slots: &mut Vec<Slot>, number: i64) -> Result<(), AllocError> {
    let at = slots.len();
    slots.push(Slot {
        number,
        next: at,
        first: at,
    })?;
    Ok(())
}

/// The least free slot from `slot` on. The way there becomes shorter.
fn free_from(slots: &mut [Slot], slot: usize) -> usize {
    let mut free = slot;
    for _ in 0..slots.len() {
        let further = slot_at(slots, free).next;
        if further == free {
            break;
        }
        free = further;
    }
    let mut at = slot;
    for _ in 0..slots.len() {
        let further = slot_at(slots, at).next;
        if further == free || further == at {
            break;
        }
        set_next(slots, at, free);
        at = further;
    }
    free
}

/// Fills a free slot, and answers the numbers of the filled ones next to it and of itself.
fn fill(slots: &mut [Slot], slot: usize) -> Interval {
    let start = slot_at(slots, slot).first;
    set_next(slots, slot, slot.wrapping_add(1));
    let after = free_from(slots, slot.wrapping_add(1));
    set_first(slots, after, start);
    Interval {
        low: slot_at(slots, start).number,
        high: slot_at(slots, after.wrapping_sub(1)).number,
    }
}

/// The end at an index of an order, from a side: the greatest first from above, each mirrored at 0.
fn end_at(order: &[End], index: usize, side: Side) -> Option<End> {
    match side {
        Side::Below => order.get(index).copied(),
        Side::Above => {
            let end = order.get(order.len().wrapping_sub(1).wrapping_sub(index))?;
            Some(End {
                number: 0i64.wrapping_sub(end.number),
                place: end.place,
            })
        }
    }
}

/// The first slot from `from` on whose number is at least `number`.
fn slot_from(slots: &[Slot], from: usize, number: i64) -> usize {
    let mut at = from;
    for _ in from..slots.len() {
        if number <= slot_at(slots, at).number {
            break;
        }
        at = at.wrapping_add(1);
    }
    at
}

/// The interval in which a number lies, of intervals that are apart and rise.
fn interval_at(full: &[Interval], number: i64) -> Option<Interval> {
    let mut low: usize = 0;
    let mut high = full.len();
    // 64 halvings are enough for any length.
    for _ in 0..64 {
        if high <= low {
            break;
        }
        let middle = low.wrapping_add(high.wrapping_sub(low) / 2);
        match full.get(middle) {
            Some(interval) => {
                if interval.high < number {
                    low = middle.wrapping_add(1);
                } else {
                    high = middle;
                }
            }
            None => break,
        }
    }
    match full.get(low) {
        Some(interval) => {
            if interval.low <= number {
                return Some(*interval);
            }
            None
        }
        None => None,
    }
}

/// Adds an interval at the end, where it is not the last.
fn add_hall(halls: &mut Vec<Interval>, hall: Interval) -> Result<(), AllocError> {
    match halls.last() {
        Some(last) => {
            if *last == hall {
                return Ok(());
            }
        }
        None => {}
    }
    halls.push(hall)?;
    Ok(())
}

/// Adds a full interval in place of those that begin in it.
fn add_full(full: &mut Vec<Interval>, interval: Interval) -> Result<(), AllocError> {
    for _ in 0..full.len() {
        match full.last() {
            Some(last) => {
                if last.low < interval.low {
                    break;
                }
            }
            None => break,
        }
        full.pop();
    }
    full.push(interval)?;
    Ok(())
}

/// An interval seen from the other side of 0.
fn mirror(interval: &Interval) -> Interval {
    Interval {
        low: 0i64.wrapping_sub(interval.high),
        high: 0i64.wrapping_sub(interval.low),
    }
}

impl Finder {
    /// A sweep that found nothing yet.
    pub(crate) fn new(alloc: Global) -> Self {
        Finder {
            by_least: Vec::new(alloc),
            by_greatest: Vec::new(alloc),
            row: Vec::new(alloc),
            taken: Vec::new(alloc),
            starts: Vec::new(alloc),
            slots: Vec::new(alloc),
            full: Vec::new(alloc),
            placing: Placing::new(alloc),
            halls: Vec::new(alloc),
        }
    }

    /// Brings the positions in order, and makes room for them.
    fn begin(&mut self, ends: &[Interval]) -> Result<(), AllocError> {
        arrange(&mut self.by_least, ends, Which::Least)?;
        arrange(&mut self.by_greatest, ends, Which::Greatest)?;
        for _ in self.starts.len()..ends.len() {
            self.starts.push(0)?;
        }
        let low = match self.by_least.first() {
            Some(end) => end.number,
            None => 0,
        };
        let high = match self.by_greatest.last() {
            Some(end) => end.number,
            None => 0,
        };
        self.placing.begin(ends.len(), low, high)?;
        self.halls.clear();
        Ok(())
    }

    /// The end at `index`, in the order in which positions are laid out from a side.
    fn least_at(&self, index: usize, side: Side) -> Option<End> {
        match side {
            Side::Below => end_at(self.by_least.as_slice(), index, side),
            Side::Above => end_at(self.by_greatest.as_slice(), index, side),
        }
    }

    /// The end at `index`, in the order in which positions are swept from a side.
    fn greatest_at(&self, index: usize, side: Side) -> Option<End> {
        match side {
            Side::Below => end_at(self.by_greatest.as_slice(), index, side),
            Side::Above => end_at(self.by_least.as_slice(), index, side),
        }
    }

    /// Parts the positions into those that must be put and those that are settled, which have their numbers.
    fn part(&mut self, settled: &Settled, side: Side) -> Result<(), AllocError> {
        self.row.clear();
        self.taken.clear();
        for index in 0..self.starts.len() {
            let Some(end) = self.least_at(index, side) else {
                break;
            };
            if !settled.has(end.place) {
                self.row.push(end)?;
                continue;
            }
            self.taken.push(end.number)?;
            match side {
                Side::Below => self.placing.put(end.place, end.number),
                Side::Above => {}
            }
        }
        Ok(())
    }

    /// Lays out the numbers at which positions can be put: for each, by its least, the first free one from its least on
    /// that is not taken.
    fn lay_out(&mut self) -> Result<(), AllocError> {
        self.slots.clear();
        let mut untaken = Untaken::new(self.taken.as_slice());
        let mut start: usize = 0;
        for end in self.row.iter() {
            if self.slots.is_empty() || untaken.number < end.number {
                if !self.slots.is_empty() {
                    push_slot(&mut self.slots, untaken.number)?;
                }
                untaken.move_to(end.number);
            }
            start = slot_from(self.slots.as_slice(), start, end.number);
            if end.place < self.starts.len() {
                self.starts[end.place] = start;
            }
            push_slot(&mut self.slots, untaken.number)?;
            let beyond = untaken.number.wrapping_add(1);
            untaken.move_to(beyond);
        }
        push_slot(&mut self.slots, untaken.number)
    }

    /// Puts one position at the least free number that it may have, and answers an interval that is crowded where that
    /// is past its end.
    fn put(&mut self, end: End, side: Side) -> Result<Option<Interval>, AllocError> {
        let start = match self.starts.get(end.place) {
            Some(start) => *start,
            None => 0,
        };
        let at = free_from(self.slots.as_mut_slice(), start);
        if at != start {
            let least = slot_at(self.slots.as_slice(), start).number;
            match interval_at(self.full.as_slice(), least) {
                Some(hall) => add_hall(&mut self.halls, hall)?,
                None => {}
            }
        }
        let slot = slot_at(self.slots.as_slice(), at);
        if end.number < slot.number {
            let first = slot_at(self.slots.as_slice(), slot.first).number;
            return Ok(Some(Interval {
                low: first.min(end.number),
                high: end.number,
            }));
        }
        match side {
            Side::Below => self.placing.put(end.place, slot.number),
            Side::Above => {}
        }
        let filled = fill(self.slots.as_mut_slice(), at);
        if filled.high == end.number {
            add_full(&mut self.full, filled)?;
        }
        Ok(None)
    }

    /// One sweep from a side: an interval that is crowded, or full intervals that hold an end of another position.
    fn sweep_from(
        &mut self,
        settled: &Settled,
        side: Side,
    ) -> Result<Option<Interval>, AllocError> {
        self.part(settled, side)?;
        self.lay_out()?;
        self.full.clear();
        for index in 0..self.starts.len() {
            let Some(end) = self.greatest_at(index, side) else {
                break;
            };
            if settled.has(end.place) {
                continue;
            }
            match self.put(end, side)? {
                Some(hall) => return Ok(Some(hall)),
                None => {}
            }
        }
        Ok(None)
    }

    /// Looks for an interval that is crowded. Where none was found, `halls` are full ones that hold an end of another
    /// position, and `placing` says where the positions were put.
    pub(crate) fn sweep(
        &mut self,
        ends: &[Interval],
        settled: &Settled,
    ) -> Result<Option<Interval>, AllocError> {
        self.begin(ends)?;
        let _ = self.sweep_from(settled, Side::Above)?;
        for hall in self.halls.iter_mut() {
            *hall = mirror(hall);
        }
        let found = self.sweep_from(settled, Side::Below)?;
        Ok(found)
    }
}
