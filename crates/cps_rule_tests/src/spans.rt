//! Spans of tasks, by their shapes, and literals.

ghost use Rattle.std.specs.Prelude.{◌≡◌, length, IfOk, All};
ghost use Rattle.cps_instance.specs.Fitting.{IsFittingSpan, IsLiteral};
ghost use Rattle.cps_rule_tests.specs.Ready.{IsFreshStore};

use cps_instance::Span;
use cps_literal::{Atom, Op};
use cps_model::Listed;
use cps_trail::Store;
use std::alloc::{AllocError, Global};

/// A span, as rows write it.
#[derive(Clone, Copy)]
pub enum Shape {
    /// The subject of the start, and how long the span is.
    Fixed(u32, i64),
    /// The same of a span that may be absent, and the subject that is 1 where it is present.
    Optional(u32, i64, u32),
    /// The subjects of the start and of the end.
    Varying(u32, u32),
}

/// The subjects of a span's start and end, and how long it is where that is fixed.
fn times(shape: Shape) -> (u32, u32, Option<i64>) {
    match shape {
        Shape::Fixed(start, length) | Shape::Optional(start, length, _) => {
            (start, start, Some(length))
        }
        Shape::Varying(start, end) => (start, end, None),
    }
}

/// The atom that a subject is 1; an error where it has other values than 0 and 1.
fn literal(store: &Store, subject: u32) -> Result<Atom, AllocError>
    requires { IsFreshStore store.now }
    ensures { IfOk result (IsLiteral store.now.first) }
{
    if store.len() <= subject as usize {
        return Err(AllocError);
    }
    let domain = store.domain(subject);
    let low = domain.min();
    let high = domain.max();
    if low < 0 || high > 1 {
        return Err(AllocError);
    }
    Ok(Atom {
        subject,
        op: Op::Ge,
        value: 1,
    })
}

/// The atoms that say that a span is present; empty if it always is.
fn presence(alloc: Global, store: &Store, shape: Shape) -> Result<Vec<Atom>, AllocError>
    requires { IsFreshStore store.now }
    ensures { IfOk result (λ atoms. All (IsLiteral store.now.first) atoms.items) }
{
    let mut atoms = Vec::new(alloc);
    if let Shape::Optional(_, _, subject) = shape {
        let atom = literal(store, subject)?;
        atoms.push(atom)?;
    }
    Ok(atoms)
}

/// The atoms that subjects are 1; an error where one has other values than 0 and 1.
pub fn literals(alloc: Global, store: &Store, subjects: &[u32]) -> Result<Listed<Atom>, AllocError>
    requires { IsFreshStore store.now }
    ensures fit { IfOk result (λ atoms. All (IsLiteral store.now.first) atoms) }
    ensures count { IfOk result (λ atoms. length atoms ≡ length subjects.now) }
{
    let mut atoms = Vec::new(alloc);
    for subject in subjects {
        let atom = literal(store, *subject)?;
        atoms.push(atom)?;
    }
    Ok(Listed::from_vec(atoms))
}

/// The span of a shape; an error where its literal is a subject with other values than 0 and 1.
fn span(alloc: Global, store: &Store, shape: Shape) -> Result<Span, AllocError>
    requires { IsFreshStore store.now }
    ensures { IfOk result (IsFittingSpan store.now.first) }
{
    let atoms = presence(alloc, store, shape)?;
    let (start, end, length) = times(shape);
    Ok(Span {
        start,
        end,
        size: 0,
        presence: Listed::from_vec(atoms),
        length,
    })
}

/// The spans of shapes.
pub fn spans(alloc: Global, store: &Store, shapes: &[Shape]) -> Result<Listed<Span>, AllocError>
    requires { IsFreshStore store.now }
    ensures fit { IfOk result (λ spans. All (IsFittingSpan store.now.first) spans) }
    ensures count { IfOk result (λ spans. length spans ≡ length shapes.now) }
{
    let mut spans = Vec::new(alloc);
    for shape in shapes {
        let next = span(alloc, store, *shape)?;
        spans.push(next)?;
    }
    Ok(Listed::from_vec(spans))
}
