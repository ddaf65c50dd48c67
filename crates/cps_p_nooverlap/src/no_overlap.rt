//! Spans that do not overlap.
ghost use Rattle.std.specs.Prelude.{◌≡◌, IfOk};

use crate::desk::Desk;
use crate::sets::{explain_both, meet_both, refute_both};
use cps_enforce::Enforced;
use cps_instance::{Body, Span, Task};
use cps_literal::Atom;
use cps_model::Listed;
use cps_p_span::{Seen, copy_spans, push_spans, see};
use cps_rule::{Hint, Look, Narrowing, Rule};
use cps_trail::{Before, Store};
use std::alloc::{AllocError, Global};

/// The rule of spans that do not overlap.
pub struct NoOverlap {
    spans: Listed<Span>,
    /// What the store leaves to each span. Its memory is kept for the next look.
    seen: Vec<Seen>,
    alloc: Global,
    desk: Desk,
}

// Written out, so that crates above do not prove it anew.
impl Drop for NoOverlap {
    fn drop(self) {
        let NoOverlap {
            spans: _spans,
            seen: _seen,
            alloc: _alloc,
            desk: _desk,
        } = self;
    }
}

impl NoOverlap {
    /// The rule of these spans.
    pub(crate) fn new(alloc: Global, spans: &[Span]) -> Result<Self, AllocError>
        ensures { IfOk result (λ rule. rule.spans ≡ spans.now) }
    {
        let copies = copy_spans(alloc, spans)?;
        Ok(NoOverlap {
            spans: Listed::from_vec(copies),
            seen: Vec::new(alloc),
            alloc,
            desk: Desk::new(alloc),
        })
    }
}

impl NoOverlap {
    ghost use Rattle.std.specs.Prelude.{◌≡◌, true, IfOk};
    ghost use Rattle.cps_p_span.specs.Spans.{is_no_overlap};

    /// The propagator of a task that asks that spans do not overlap.
    pub fn of(alloc: Global, task: &Task) -> Result<Enforced<NoOverlap>, AllocError>
        requires { is_no_overlap task.now.body ≡ true }
        ensures { IfOk result (λ propagator. propagator ≡ task.now) }
    {
        match &task.body {
            Body::NoOverlap(spans) => {
                let rule = NoOverlap::new(alloc, spans.as_slice())?;
                Enforced::new(alloc, task.enforcement.as_slice(), rule)
            }
            _ => unreachable!(),
        }
    }
}

impl Rule for NoOverlap {
    ghost use Rattle.cps_instance.specs.declared.task.Body.TheVariants.{NoOverlap};

    ghost body = { λ r. NoOverlap r.spans };

    fn look(&mut self, store: &Store, found: &mut Vec<Narrowing>) -> Result<Look, AllocError> {
        found.clear();
        see(store, self.spans.as_slice(), &mut self.seen)?;
        let spans = self.spans.as_slice();
        let seen = self.seen.as_slice();
        match meet_both(store, spans, seen, &mut self.desk, found)? {
            Some(hint) => Ok(Look::Impossible(hint)),
            None => Ok(Look::Possible),
        }
    }

    fn explain(
        &self,
        past: &Before,
        target: Atom,
        hint: Hint,
        facts: &mut Vec<Atom>,
    ) -> Result<bool, AllocError> {
        let wanted = Narrowing { target, hint };
        explain_both(self.alloc, past, self.spans.as_slice(), wanted, facts)
    }

    fn refute(&self, past: &Before, hint: Hint, facts: &mut Vec<Atom>) -> Result<bool, AllocError> {
        refute_both(self.alloc, past, self.spans.as_slice(), hint, facts)
    }

    fn push_subjects(&self, subjects: &mut Vec<u32>) -> Result<(), AllocError> {
        push_spans(self.spans.as_slice(), subjects)
    }
}
