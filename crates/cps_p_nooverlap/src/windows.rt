//! Why spans are counted in a window of time.
//!
//! Spans that do not overlap and lie in a window are no longer in all than the window is. So too many of them cannot
//! be, and a span for which there is no room beside them comes before or after some of them.
//!
//! A span whose length varies is counted by its least end less its greatest start. A task says when spans start and
//! end, and nothing of their sizes, so this is the least length that follows from it.
ghost use Rattle.std.specs.Prelude.{◌≡◌, ◌<◌, ◌≤ℤ◌, ℤ, List, true, length, IsTrue};
ghost use Rattle.cps_instance.specs.Tasks.{span_subjects, subjects_of_span};
ghost use Rattle.cps_p_span.specs.Citing.{Cites};
ghost use Rattle.cps_p_nooverlap.specs.Crowds.{far_at, IsRun, AreRuns, LastsAt};
ghost use Rattle.cps_p_span.specs.Spans.{IsSpan, AreSpans};

use crate::crowd::{Ends, PushedSpan, Window};
use crate::sides::{cite_high, cite_low};
use cps_instance::Span;
use cps_literal::Atom;
use cps_p_span::{cite_all, cite_end_from, cite_start_up_to, least_end};
use cps_trail::Before;
use std::alloc::AllocError;

/// Whether a span has a fixed length of so much or more.
fn lasts(span: &Span, weight: u64) -> bool
    ensures { IsTrue result → (xs : List ℤ) → LastsAt xs span.now weight }
{
    if let Some(far) = span.length {
        let needed = weight as i128;
        let taken = far as i128;
        if needed <= taken {
            return true;
        }
    }
    false
}

/// Adds why a span takes so long.
pub(crate) fn cite_length(
    past: &Before,
    span: &Span,
    weight: u64,
    facts: &mut Vec<Atom>,
) -> Result<bool, AllocError>
    requires { IsSpan past.now.first span.now }
    ensures { result ≡ Ok true → Cites past.now (subjects_of_span span.now) facts.old.items facts.new.items (λ xs. LastsAt xs span.now weight) }
{
    if lasts(span, weight) {
        return Ok(true);
    }
    let end = least_end(past, span);
    match end.checked_sub(weight as i128) {
        Some(start) => {
            if !cite_end_from(past, span, end, facts)? {
                return Ok(false);
            }
            cite_start_up_to(past, span, start, facts)
        }
        None => Ok(false),
    }
}

/// Adds that a span is present, takes so long and lies in a window.
fn cite_run(
    past: &Before,
    span: &Span,
    weight: u64,
    window: Window,
    facts: &mut Vec<Atom>,
) -> Result<bool, AllocError>
    requires { IsSpan past.now.first span.now }
    ensures { result ≡ Ok true → Cites past.now (subjects_of_span span.now) facts.old.items facts.new.items
        (λ xs. IsRun window.ends window.is_reversed xs span.now weight window.from window.to) }
{
    if !cite_all(past, span.presence.as_slice(), facts)? {
        return Ok(false);
    }
    if !cite_length(past, span, weight, facts)? {
        return Ok(false);
    }
    if !cite_low(past, span, window, facts)? {
        return Ok(false);
    }
    cite_high(past, span, window, facts)
}

/// Adds the same of a span that is counted, and nothing of another.
fn cite_counted(
    past: &Before,
    span: &Span,
    weight: u64,
    window: Window,
    facts: &mut Vec<Atom>,
) -> Result<bool, AllocError>
    requires { IsSpan past.now.first span.now }
    ensures { result ≡ Ok true → Cites past.now (subjects_of_span span.now) facts.old.items facts.new.items
        (λ xs. 0 < weight → IsRun window.ends window.is_reversed xs span.now weight window.from window.to) }
{
    if weight == 0 {
        return Ok(true);
    }
    cite_run(past, span, weight, window, facts)
}

/// Adds the same of each span that is counted.
pub(crate) fn cite_runs(
    past: &Before,
    spans: &[Span],
    weights: &[u64],
    window: Window,
    facts: &mut Vec<Atom>,
) -> Result<bool, AllocError>
    requires spans { AreSpans past.now.first spans.now }
    requires each { length weights.now ≡ length spans.now }
    ensures { result ≡ Ok true → Cites past.now (span_subjects spans.now) facts.old.items facts.new.items
        (λ xs. AreRuns window.ends window.is_reversed xs spans.now weights.now window.from window.to) }
{
    for place in 0..spans.len() {
        if !cite_counted(past, &spans[place], weights[place], window, facts)? {
            return Ok(false);
        }
    }
    Ok(true)
}

/// Adds that the span that is pushed ends at a time or later.
pub(crate) fn cite_late(
    past: &Before,
    span: &Span,
    pushed: PushedSpan,
    end: i64,
    facts: &mut Vec<Atom>,
) -> Result<bool, AllocError>
    requires { IsSpan past.now.first span.now }
    ensures { result ≡ Ok true → Cites past.now (subjects_of_span span.now) facts.old.items facts.new.items
        (λ xs. end ≤ℤ far_at pushed.is_reversed xs span.now) }
{
    let late = Window {
        ends: Ends::End,
        is_reversed: pushed.is_reversed,
        from: end,
        to: end,
    };
    cite_low(past, span, late, facts)
}
