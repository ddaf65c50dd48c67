//! A task's sum, what it can be in a store, and one end of one of its terms.
ghost use Rattle.std.specs.Prelude.{◌≡◌, false};

use crate::admitted::Admitted;
use crate::ends::{Ends, Side};
use crate::facts::Facts;
use crate::gauge::Gauge;
use cps_instance::Term;
use cps_literal::Atom;
use std::alloc::Global;

/// A sum that is to be one of the admitted numbers where all enforcement atoms are true.
#[derive(Clone, Copy)]
pub(crate) struct SumTask<'a> {
    pub(crate) enforcement: &'a [Atom],
    pub(crate) terms: &'a [Term],
    pub(crate) admitted: &'a Admitted,
}

/// A sum, and what it can be now.
#[derive(Clone, Copy)]
pub(crate) struct Measured<'a> {
    pub(crate) task: SumTask<'a>,
    /// The ends of the values of each term's subject.
    pub(crate) values: &'a [Ends],
    /// The ends of the sum.
    pub(crate) sum: Ends,
}

/// An end of one term of a measured sum, and what the sum is to be at each end.
#[derive(Clone, Copy)]
pub(crate) struct TermEnd<'a> {
    pub(crate) measured: Measured<'a>,
    /// The first and the last admitted number between the ends of the sum.
    pub(crate) goal: Ends,
    /// The term's place.
    pub(crate) place: usize,
    pub(crate) side: Side,
}

/// A measured sum, what it is to be at each end, and which of its terms may be past their room.
#[derive(Clone, Copy)]
pub(crate) struct WideTerms<'a> {
    pub(crate) measured: Measured<'a>,
    /// The first and the last admitted number between the ends of the sum.
    pub(crate) goal: Ends,
    /// The places of the terms that may be past their room.
    pub(crate) places: &'a [usize],
}

/// Room that is kept between visits.
#[derive(Drop)]
pub(crate) struct Scratch {
    /// Room for the ends of each subject's values.
    pub(crate) values: Vec<Ends>,
    /// Room for an explanation.
    pub(crate) facts: Facts,
    /// What is remembered of the sum, if it is long.
    pub(crate) gauge: Gauge,
}

impl Scratch {
    /// Room that is empty.
    pub(crate) fn new(alloc: Global) -> Self
        ensures { result.gauge.is_read ≡ false }
    {
        Scratch {
            values: Vec::new(alloc),
            facts: Facts::new(alloc),
            gauge: Gauge::new(alloc),
        }
    }
}
