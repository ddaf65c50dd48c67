//! A resource that spans use.
ghost use Rattle.std.specs.Prelude.{◌≡◌, ◌++◌, OnOk, IfOk};
ghost use Rattle.cps_instance.specs.Tasks.{subjects_of_span, span_subjects};

use cps_instance::Span;
use cps_model::Listed;
use cps_propagate::push_atom_subjects;
use std::alloc::{AllocError, Global};

/// A resource: a capacity, and spans with their demands.
#[derive(Drop)]
pub(crate) struct Resource {
    pub(crate) capacity: u32,
    pub(crate) spans: Listed<Span>,
    pub(crate) demands: Listed<u32>,
}

/// Adds the subjects of a span at the end of a list.
fn push_span_subjects(span: &Span, subjects: &mut Vec<u32>) -> Result<(), AllocError>
    ensures { OnOk result (subjects.new.items ≡ subjects.old.items ++ subjects_of_span span.now) }
{
    subjects.push(span.start)?;
    subjects.push(span.end)?;
    push_atom_subjects(span.presence.as_slice(), subjects)
}

/// Adds the subjects of spans at the end of a list, in order.
pub(crate) fn push_spans_subjects(spans: &[Span], subjects: &mut Vec<u32>) -> Result<(), AllocError>
    ensures { OnOk result (subjects.new.items ≡ subjects.old.items ++ span_subjects spans.now) }
{
    for span in spans {
        push_span_subjects(span, subjects)?;
    }
    Ok(())
}

/// A copy of a span.
fn copy_of_span(alloc: Global, span: &Span) -> Result<Span, AllocError>
    ensures { IfOk result (λ again. again ≡ span.now) }
{
    Ok(Span {
        start: span.start,
        end: span.end,
        size: span.size,
        presence: Listed::from_vec(Vec::from_slice(alloc, span.presence.as_slice())?),
        length: span.length,
    })
}

/// A copy of a list of spans.
fn copy_of_spans(alloc: Global, spans: &[Span]) -> Result<Listed<Span>, AllocError>
    ensures { IfOk result (λ list. list ≡ spans.now) }
{
    let mut list = Vec::new(alloc);
    for span in spans {
        list.push(copy_of_span(alloc, span)?)?;
    }
    Ok(Listed::from_vec(list))
}

/// A resource of these spans and demands.
pub(crate) fn resource_of(
    alloc: Global,
    capacity: u32,
    spans: &[Span],
    demands: &[u32],
) -> Result<Resource, AllocError>
    ensures { IfOk result (λ resource. resource ≡ record {
      capacity = capacity;
      spans = spans.now;
      demands = demands.now;
    }) }
{
    Ok(Resource {
        capacity,
        spans: copy_of_spans(alloc, spans)?,
        demands: Listed::from_vec(Vec::from_slice(alloc, demands)?),
    })
}
