//! The compulsory parts of spans, as a store leaves them.
ghost use Rattle.std.specs.Prelude.{◌≡◌, ◌<◌, ◌<ℤ◌, ℤ, false, IsTrue, All, length, OnOk};
ghost use Rattle.cps_instance.specs.Tasks.{span_subjects};
ghost use Rattle.cps_trail.specs.Trail.{IsTrueNow};
ghost use Rattle.cps_propagate.specs.Strength.{EndsAfter};
ghost use Rattle.cps_p_cumulative.specs.Running.{IsSpanOf};
ghost use Rattle.cps_p_cumulative.specs.Measuring.{IsPartMeasured, IsProfile};

use crate::part::Part;
use cps_instance::Span;
use cps_literal::{Atom, Truth};
use cps_trail::Before;
use std::alloc::AllocError;

/// Whether each of these atoms was true.
pub(crate) fn are_true(past: &Before, atoms: &[Atom]) -> bool
    requires { All (λ u. u.subject < length past.now.first) atoms.now }
    ensures yes { IsTrue result → All (IsTrueNow past.now) atoms.now }
    ensures no { result ≡ false → All (IsTrueNow past.now) atoms.now → ⊥ }
{
    for atom in atoms {
        match past.truth(*atom) {
            Truth::Yes => {}
            _ => return false,
        }
    }
    true
}

/// The least end of a span.
pub(crate) fn least_end(past: &Before, span: &Span) -> i128
    requires { IsSpanOf past.now.first span.now }
    ensures runs { (t : ℤ) → t <ℤ result → EndsAfter past.now t span.now.start span.now.end span.now.length }
    ensures ends { (t : ℤ) → EndsAfter past.now t span.now.start span.now.end span.now.length → t <ℤ result }
{
    match span.length {
        Some(length) => i128::from(past.ends(span.start).0) + i128::from(length),
        None => i128::from(past.ends(span.end).0),
    }
}

/// The compulsory part of a span; without one, a part that demands nothing.
fn part_of(past: &Before, span: &Span, demand: u32) -> Part
    requires span { IsSpanOf past.now.first span.now }
    requires demand { demand < length past.now.first }
    ensures { IsPartMeasured past.now span.now demand result }
{
    let from = past.ends(span.start).1;
    let to = least_end(past, span);
    let least = past.ends(demand).0;
    let none = Part {
        from,
        to: i128::from(from),
        demand: 0,
    };
    if to <= i128::from(from) {
        return none;
    }
    if least <= 0 {
        return none;
    }
    if !are_true(past, span.presence.as_slice()) {
        return none;
    }
    Part {
        from,
        to,
        demand: least as u64,
    }
}

/// The compulsory parts of all spans that demand something.
pub(crate) fn measure(
    past: &Before,
    spans: &[Span],
    demands: &[u32],
    parts: &mut Vec<Part>,
) -> Result<(), AllocError>
    requires spans { All (λ i. i < length past.now.first) (span_subjects spans.now) }
    requires demands { All (λ i. i < length past.now.first) demands.now }
    ensures { OnOk result (IsProfile past.now spans.now demands.now parts.new.items) }
{
    parts.clear();
    let count = spans.len().min(demands.len());
    for k in 0..count {
        let part = part_of(past, &spans[k], demands[k]);
        if part.demand > 0 {
            parts.push(part)?;
        }
    }
    Ok(())
}
