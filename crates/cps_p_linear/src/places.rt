//! Where the terms of a long sum stand, by their subjects.
//!
//! Subjects with one remainder are chained, each term to the one before it, so that the terms of a subject are found
//! without a walk over all.
ghost use Rattle.std.specs.Prelude.{◌≡◌, ℕ, ◌+◌, ◌%◌, ◌<◌, ◌≤◌, List, length, OnOk};
ghost use Rattle.cps_instance.specs.declared.term.Term.{Term as TermOf};
ghost use Rattle.cps_p_linear.specs.Chains.{IsIndexed, IsOnChain, NoneBetween};

use cps_instance::Term;
use std::alloc::{AllocError, Global};

/// The places of terms in chains.
#[derive(Drop)]
pub(crate) struct Places {
    /// By remainder, one more than the last place of such a subject; 0 if there is none.
    heads: Vec<usize>,
    /// By place, one more than the place before it with the same remainder; 0 if there is none.
    nexts: Vec<usize>,
}

/// The remainder of a subject.
fn remainder(subject: u32, size: usize) -> usize
    requires { 0 < size }
    ensures is { result ≡ subject % size }
    ensures below { result < size }
{
    subject as usize % size
}

impl Places {
    /// No place.
    pub(crate) fn new(alloc: Global) -> Self {
        Places {
            heads: Vec::new(alloc),
            nexts: Vec::new(alloc),
        }
    }

    /// The places of these terms, of which there are some.
    pub(crate) fn fill(&mut self, terms: &[Term]) -> Result<(), AllocError>
        requires { 0 < length terms.now }
        ensures { OnOk result (IsIndexed terms.now self.new) }
    {
        let size = terms.len();
        self.heads.clear();
        self.heads.resize(size, 0)?;
        self.nexts.clear();
        for place in 0..terms.len() {
            let head = remainder(terms[place].subject, size);
            self.nexts.push(self.heads[head])?;
            self.heads[head] = place + 1;
        }
        Ok(())
    }

    /// One more than the last place of a term that may be about a subject; 0 if there is none.
    pub(crate) fn last(&self, subject: u32) -> usize
        requires { 0 < length self.now.heads.items }
        ensures chain { (ts : List TermOf) → IsIndexed ts self.now → IsOnChain ts self.now subject result }
        ensures none { (ts : List TermOf) → IsIndexed ts self.now → NoneBetween ts subject result (length ts) }
    {
        self.heads[remainder(subject, self.heads.len())]
    }

    /// One more than the next place, from a place on down, of a term that may be about the same subject; 0 if there is
    /// none.
    pub(crate) fn before(&self, place: usize) -> usize
        requires { place < length self.now.nexts.items }
        ensures falls { (ts : List TermOf) → IsIndexed ts self.now → result ≤ place }
        ensures chain { (ts : List TermOf) (subject : ℕ) → IsIndexed ts self.now
            → IsOnChain ts self.now subject (place + 1) → IsOnChain ts self.now subject result }
        ensures none { (ts : List TermOf) (subject : ℕ) → IsIndexed ts self.now
            → IsOnChain ts self.now subject (place + 1) → NoneBetween ts subject result place }
    {
        self.nexts[place]
    }
}
