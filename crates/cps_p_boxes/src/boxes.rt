//! Boxes that do not overlap.
ghost use Rattle.std.specs.Prelude.{◌≡◌, IfOk, IfSome};
ghost use Rattle.cps_p_boxes.specs.Boxes.{AreBoxes};

use crate::explain::{Claim, explain_boxes, refute_boxes};
use crate::pairs::{Direction, count_of, meet_all};
use cps_enforce::Enforced;
use cps_instance::{Body, Span, Task};
use cps_literal::Atom;
use cps_model::Listed;
use cps_p_span::{Pair, copy_spans, pair_of, push_spans};
use cps_rule::{Hint, Look, Narrowing, Rule};
use cps_trail::{Before, Store};
use std::alloc::{AllocError, Global};

/// The rule of boxes that do not overlap.
pub struct Boxes {
    x: Direction,
    y: Direction,
}

// Written out, so that crates above do not prove it anew.
impl Drop for Boxes {
    fn drop(self) {
        let Boxes { x: _x, y: _y } = self;
    }
}

/// A direction of boxes with these spans, of which nothing is seen yet.
fn direction_of(alloc: Global, spans: &[Span]) -> Result<Direction, AllocError>
    ensures { IfOk result (λ direction. direction.spans ≡ spans.now) }
{
    let copies = copy_spans(alloc, spans)?;
    Ok(Direction {
        spans: Listed::from_vec(copies),
        seen: Vec::new(alloc),
    })
}

/// The two boxes that a hint names, where they are two of them.
fn boxes_of(hint: Hint, x: &[Span], y: &[Span]) -> Option<Pair>
    ensures { IfSome result (AreBoxes x.now y.now) }
{
    pair_of(hint, count_of(x, y))
}

impl Boxes {
    /// The rule of boxes with these spans.
    fn new(alloc: Global, x: &[Span], y: &[Span]) -> Result<Self, AllocError>
        ensures x { IfOk result (λ rule. rule.x.spans ≡ x.now) }
        ensures y { IfOk result (λ rule. rule.y.spans ≡ y.now) }
    {
        Ok(Boxes {
            x: direction_of(alloc, x)?,
            y: direction_of(alloc, y)?,
        })
    }
}

impl Boxes {
    ghost use Rattle.std.specs.Prelude.{◌≡◌, true, IfOk};
    ghost use Rattle.cps_p_boxes.specs.Boxes.{is_no_overlap_2d};

    /// The propagator of a task that asks that boxes do not overlap.
    pub fn of(alloc: Global, task: &Task) -> Result<Enforced<Boxes>, AllocError>
        requires { is_no_overlap_2d task.now.body ≡ true }
        ensures { IfOk result (λ propagator. propagator ≡ task.now) }
    {
        match &task.body {
            Body::NoOverlap2d { x, y } => {
                let rule = Boxes::new(alloc, x.as_slice(), y.as_slice())?;
                Enforced::new(alloc, task.enforcement.as_slice(), rule)
            }
            _ => unreachable!(),
        }
    }
}

impl Rule for Boxes {
    ghost use Rattle.cps_instance.specs.declared.task.Body.TheVariants.{NoOverlap2d};

    ghost body = { λ r. NoOverlap2d r.x.spans r.y.spans };

    fn look(&mut self, store: &Store, found: &mut Vec<Narrowing>) -> Result<Look, AllocError> {
        found.clear();
        self.x.look(store)?;
        self.y.look(store)?;
        let count = count_of(self.x.spans.as_slice(), self.y.spans.as_slice());
        match meet_all(&self.x, &self.y, count, found)? {
            Some(pair) => Ok(Look::Impossible(pair.hint())),
            None => Ok(Look::Possible),
        }
    }

    fn explain(
        &self,
        past: &Before,
        target: Atom,
        hint: Hint,
        facts: &mut Vec<Atom>,
    ) -> Result<bool, AllocError> {
        let x = self.x.spans.as_slice();
        let y = self.y.spans.as_slice();
        match boxes_of(hint, x, y) {
            Some(pair) => explain_boxes(past, x, y, Claim { pair, target }, facts),
            None => Ok(false),
        }
    }

    fn refute(&self, past: &Before, hint: Hint, facts: &mut Vec<Atom>) -> Result<bool, AllocError> {
        facts.clear();
        let x = self.x.spans.as_slice();
        let y = self.y.spans.as_slice();
        match boxes_of(hint, x, y) {
            Some(pair) => refute_boxes(past, x, y, pair, facts),
            None => Ok(false),
        }
    }

    fn push_subjects(&self, subjects: &mut Vec<u32>) -> Result<(), AllocError> {
        push_spans(self.x.spans.as_slice(), subjects)?;
        push_spans(self.y.spans.as_slice(), subjects)
    }
}
