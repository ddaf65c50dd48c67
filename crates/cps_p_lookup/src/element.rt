//! An element: the target is the value of the expression whose number is the index.

ghost use Rattle.std.specs.Prelude.{◌≡◌, IfOk, IsTrue};
ghost use Rattle.cps_instance.specs.declared.task.Body.TheVariants.{Element as ElementOf};

use crate::gaps::Gaps;
use crate::justify::justify;
use crate::places::{Lookup, look_up};
use cps_enforce::Enforced;
use cps_instance::{Body, Task};
use cps_literal::Atom;
use cps_model::Listed;
use cps_rule::{Hint, Look, Narrowing, Rule};
use cps_trail::{Before, Store};
use std::alloc::{AllocError, Global};

/// The rule of an element.
pub struct Element {
    index: u32,
    target: u32,
    exprs: Listed<u32>,
    /// Room for a search of gaps in the target's domain.
    gaps: Gaps,
}

// Written out, so that crates above do not prove it anew.
impl Drop for Element {
    fn drop(self) {
        let Element {
            index: _index,
            target: _target,
            exprs: _exprs,
            gaps: _gaps,
        } = self;
    }
}

impl Element {
    ghost use Rattle.cps_p_lookup.specs.Bodies.{is_element, element_of};

    /// The rule of a body that is `Element`.
    fn new(alloc: Global, body: &Body) -> Result<Self, AllocError>
        requires { IsTrue (is_element body.now) }
        ensures { IfOk result (λ rule. element_of rule.index rule.target rule.exprs ≡ body.now) }
    {
        match body {
            Body::Element {
                index,
                target,
                exprs,
            } => Ok(Element {
                index: *index,
                target: *target,
                exprs: Listed::from_vec(Vec::from_slice(alloc, exprs.as_slice())?),
                gaps: Gaps::new(alloc),
            }),
            _ => unreachable!(),
        }
    }

    /// The propagator of a task whose body is `Element`.
    pub fn of(alloc: Global, task: &Task) -> Result<Enforced<Element>, AllocError>
        requires { IsTrue (is_element task.now.body) }
        ensures { IfOk result (λ propagator. propagator ≡ task.now) }
    {
        let rule = Element::new(alloc, &task.body)?;
        let propagator = Enforced::new(alloc, task.enforcement.as_slice(), rule)?;
        Ok(propagator)
    }

    /// The index, the target and the expressions.
    fn lookup(&self) -> Lookup<'_>
        ensures index { result.index ≡ self.now.index }
        ensures target { result.target ≡ self.now.target }
        ensures exprs { result.exprs.now ≡ self.now.exprs }
    {
        Lookup {
            index: self.index,
            target: self.target,
            exprs: self.exprs.as_slice(),
        }
    }
}

impl Rule for Element {
    ghost body = { λ e. ElementOf e.index e.target e.exprs };

    fn look(&mut self, store: &Store, found: &mut Vec<Narrowing>) -> Result<Look, AllocError> {
        let lookup = Lookup {
            index: self.index,
            target: self.target,
            exprs: self.exprs.as_slice(),
        };
        look_up(store, &lookup, &mut self.gaps, found)
    }

    fn explain(
        &self,
        past: &Before,
        target: Atom,
        _hint: Hint,
        facts: &mut Vec<Atom>,
    ) -> Result<bool, AllocError> {
        let lookup = self.lookup();
        justify(past, Some(target), &lookup, facts)
    }

    fn refute(
        &self,
        past: &Before,
        _hint: Hint,
        facts: &mut Vec<Atom>,
    ) -> Result<bool, AllocError> {
        let lookup = self.lookup();
        justify(past, None, &lookup, facts)
    }

    fn push_subjects(&self, subjects: &mut Vec<u32>) -> Result<(), AllocError> {
        subjects.push(self.index)?;
        subjects.push(self.target)?;
        subjects.extend_from_slice(self.exprs.as_slice())
    }
}
