//! Lists of spans: copies of them, and the subjects that they read.
ghost use Rattle.std.specs.Prelude.{◌≡◌, ◌++◌, OnOk, IfOk};
ghost use Rattle.cps_instance.specs.Tasks.{span_subjects};

use cps_instance::Span;
use cps_model::Listed;
use cps_propagate::push_atom_subjects;
use std::alloc::{AllocError, Global};

/// Adds the subjects of spans at the end of a list.
pub fn push_spans(spans: &[Span], subjects: &mut Vec<u32>) -> Result<(), AllocError>
    ensures { OnOk result (subjects.new.items ≡ subjects.old.items ++ span_subjects spans.now) }
{
    for span in spans {
        subjects.push(span.start)?;
        subjects.push(span.end)?;
        push_atom_subjects(span.presence.as_slice(), subjects)?;
    }
    Ok(())
}

/// A copy of a span.
fn copy_span(alloc: Global, span: &Span) -> Result<Span, AllocError>
    ensures { IfOk result (λ copy. copy ≡ span.now) }
{
    Ok(Span {
        start: span.start,
        end: span.end,
        size: span.size,
        presence: Listed::from_vec(Vec::from_slice(alloc, span.presence.as_slice())?),
        length: span.length,
    })
}

/// A copy of each span.
pub fn copy_spans(alloc: Global, spans: &[Span]) -> Result<Vec<Span>, AllocError>
    ensures { IfOk result (λ copies. copies.items ≡ spans.now) }
{
    let mut copies = Vec::new(alloc);
    for span in spans {
        copies.push(copy_span(alloc, span)?)?;
    }
    Ok(copies)
}
