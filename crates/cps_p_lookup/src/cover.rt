//! A choice of few facts that rule rows out together.
//!
//! A row is ruled out by a column whose subject lacks the row's value. Where a fact that is chosen already does so,
//! none is added; else the first such column in the order of the numbers of their values has one more. So the facts
//! speak of columns where one fact rules out many rows. Values past the ends that a subject had need one bound on each
//! side, the weakest that serves. Nothing is promised here but that the calls are safe: each fact is tested where it is
//! taken, and each row where it is left out.

ghost use Rattle.std.specs.Prelude.{◌≡◌, ◌<◌, length, All};
ghost use Rattle.cps_p_lookup.specs.Cells.{IsCellIn};

use crate::facts::atom;
use crate::index::Cell;
use crate::numbering::{Numbering, set_number};
use crate::rows::{Grid, row_at};
use cps_literal::{Op, Truth};
use cps_trail::Before;
use std::alloc::{AllocError, Global};

/// The state of a value that was not asked for.
const UNKNOWN: u32 = 0;

/// The state of a value that a subject had.
const LEFT: u32 = 1;

/// The state of a value whose lack is the first fact; that of the next fact is one more.
const CITED: u32 = 2;

/// A fact: how a column's subject compares with a value.
#[derive(Clone, Copy)]
pub(crate) struct Choice {
    pub(crate) column: usize,
    pub(crate) op: Op,
    pub(crate) value: i64,
}

/// Where a row is ruled out: a column, and the place of the fact about its subject.
#[derive(Clone, Copy)]
pub(crate) struct Barrier {
    pub(crate) column: usize,
    pub(crate) fact: usize,
}

/// A column's ends, and the bounds on its subject that are chosen.
#[derive(Clone, Copy)]
struct Span {
    ends: (i64, i64),
    /// The greatest value below the ends that is to be ruled out, and the place of the bound that does it.
    below: Option<i64>,
    lower: usize,
    /// The least value above the ends that is to be ruled out, and the place of the bound that does it.
    above: Option<i64>,
    upper: usize,
}

impl Span {
    /// Whether the lower bound rules a value out.
    fn is_below(&self, value: i64) -> bool {
        match self.below {
            Some(low) => value <= low,
            None => false,
        }
    }

    /// Whether the upper bound rules a value out.
    fn is_above(&self, value: i64) -> bool {
        match self.above {
            Some(high) => high <= value,
            None => false,
        }
    }

    /// Has a bound rule a value out, if it is past an end.
    fn reach(&mut self, value: i64) -> bool {
        if value < self.ends.0 {
            if !self.is_below(value) {
                self.below = Some(value);
            }
            return true;
        }
        if self.ends.1 < value {
            if !self.is_above(value) {
                self.above = Some(value);
            }
            return true;
        }
        false
    }
}

/// Facts that rule rows out.
#[derive(Drop)]
pub(crate) struct Cover {
    spans: Vec<Span>,
    /// For each value of a column, by number, what is known of it.
    states: Vec<u32>,
    pub(crate) choices: Vec<Choice>,
}

/// Whether a subject lacked a value.
fn is_out(past: &Before, subject: u32, value: i64) -> bool
    requires { subject < length past.now.first }
{
    match past.truth(atom(subject, Op::Ne, value)) {
        Truth::Yes => true,
        _ => false,
    }
}

impl Cover {
    /// No facts.
    fn new(alloc: Global, past: &Before, exprs: &[u32], values: usize) -> Result<Self, AllocError>
        requires fits { All (λ e. e < length past.now.first) exprs.now }
    {
        let mut spans = Vec::new(alloc);
        for subject in exprs {
            spans.push(Span {
                ends: past.ends(*subject),
                below: None,
                lower: 0,
                above: None,
                upper: 0,
            })?;
        }
        let mut states = Vec::new(alloc);
        states.resize(values, UNKNOWN)?;
        Ok(Cover {
            spans,
            states,
            choices: Vec::new(alloc),
        })
    }

    /// The state of a value by its number.
    fn state(&self, number: u32) -> u32 {
        match self.states.get(number as usize) {
            Some(state) => *state,
            None => LEFT,
        }
    }

    /// The place of the fact that rules a value of a column out, if one is chosen.
    fn fact_at(&self, column: usize, value: i64, number: u32) -> Option<usize> {
        match self.spans.get(column) {
            Some(span) => {
                if span.is_below(value) {
                    return Some(span.lower);
                }
                if span.is_above(value) {
                    return Some(span.upper);
                }
            }
            None => return None,
        }
        let state = self.state(number);
        if state < CITED {
            return None;
        }
        Some(state.wrapping_sub(CITED) as usize)
    }

    /// Where a row is ruled out, if it is.
    pub(crate) fn barrier(
        &self,
        numbering: &Numbering,
        values: &[i64],
        row: usize,
    ) -> Option<Barrier> {
        for (column, value) in values.iter().enumerate() {
            let number = numbering.number_of(row, column);
            if let Some(fact) = self.fact_at(column, *value, number) {
                return Some(Barrier { column, fact });
            }
        }
        None
    }

    /// Chooses the fact that a column's subject lacked a value, if it did.
    fn cite(
        &mut self,
        past: &Before,
        subject: u32,
        cell: &Cell,
        number: u32,
    ) -> Result<bool, AllocError>
        requires { subject < length past.now.first }
    {
        if cell.column < self.spans.len() && self.spans[cell.column].reach(cell.value) {
            return Ok(true);
        }
        if self.state(number) != UNKNOWN {
            return Ok(false);
        }
        if !is_out(past, subject, cell.value) {
            set_number(self.states.as_mut_slice(), number as usize, LEFT);
            return Ok(false);
        }
        let Ok(place) = u32::try_from(self.choices.len()) else {
            return Ok(false);
        };
        set_number(
            self.states.as_mut_slice(),
            number as usize,
            CITED.wrapping_add(place),
        );
        self.choices.push(Choice {
            column: cell.column,
            op: Op::Ne,
            value: cell.value,
        })?;
        Ok(true)
    }

    /// Chooses a fact that rules a row out, if there is one and none is chosen.
    fn close(
        &mut self,
        past: &Before,
        exprs: &[u32],
        numbering: &Numbering,
        values: &[i64],
        row: usize,
    ) -> Result<(), AllocError>
        requires fits { All (λ e. e < length past.now.first) exprs.now }
        requires long { length values.now ≡ length exprs.now }
    {
        if self.barrier(numbering, values, row).is_some() {
            return Ok(());
        }
        for column in numbering.order.as_slice() {
            let column = *column;
            if column < exprs.len() {
                let cell = Cell {
                    column,
                    value: values[column],
                    row,
                };
                let number = numbering.number_of(row, column);
                if self.cite(past, exprs[column], &cell, number)? {
                    return Ok(());
                }
            }
        }
        Ok(())
    }

    /// Chooses the bounds.
    fn bound(&mut self) -> Result<(), AllocError> {
        for (column, span) in self.spans.as_mut_slice().iter_mut().enumerate() {
            if let Some(low) = span.below {
                span.lower = self.choices.len();
                self.choices.push(Choice {
                    column,
                    op: Op::Ge,
                    value: low.saturating_add(1),
                })?;
            }
            if let Some(high) = span.above {
                span.upper = self.choices.len();
                self.choices.push(Choice {
                    column,
                    op: Op::Le,
                    value: high.saturating_sub(1),
                })?;
            }
        }
        Ok(())
    }

    /// Facts that rule the rows of some cells out.
    pub(crate) fn of(
        alloc: Global,
        past: &Before,
        grid: &Grid,
        numbering: &Numbering,
        cells: &[Cell],
    ) -> Result<Self, AllocError>
        requires fits { All (λ e. e < length past.now.first) grid.now.exprs.now }
        requires cells { All (IsCellIn (length grid.now.exprs.now) grid.now.values.now) cells.now }
    {
        let width = grid.exprs.len();
        let mut cover = Cover::new(alloc, past, grid.exprs, numbering.count())?;
        for cell in cells {
            let values = row_at(grid.values, width, cell.row);
            cover.close(past, grid.exprs, numbering, values, cell.row)?;
        }
        cover.bound()?;
        Ok(cover)
    }
}
