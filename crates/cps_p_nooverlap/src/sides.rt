//! Atoms that say when a span starts or ends, in time or with time reversed.
ghost use Rattle.std.specs.Prelude.{◌≡◌, ◌≤ℤ◌, ◌-ℤ◌, pos, IfSome, true};
ghost use Rattle.cps_instance.specs.Tasks.{subjects_of_span};
ghost use Rattle.cps_p_span.specs.Citing.{Cites};
ghost use Rattle.cps_p_nooverlap.specs.Crowds.{near_at, far_at, low_at, high_at};
ghost use Rattle.cps_p_span.specs.Spans.{SaysOfTimes, IsSpan};

use crate::crowd::{Ends, Window};
use cps_instance::Span;
use cps_literal::Atom;
use cps_p_span::{cite, end_from, end_up_to, start_from, start_up_to};
use cps_trail::Before;
use std::alloc::AllocError;

/// The same time with time reversed.
fn opposite(time: i64) -> i128
    ensures { result ≡ pos 0 -ℤ time }
{
    0 - time as i128
}

/// That a span starts at a time or later.
fn near_from(span: &Span, time: i64, is_reversed: bool) -> Option<Atom>
    ensures { IfSome result (λ u. SaysOfTimes span.now u (λ xs. time ≤ℤ near_at is_reversed xs span.now)) }
{
    if is_reversed {
        return end_up_to(span, opposite(time));
    }
    start_from(span, time as i128)
}

/// That a span starts at a time or earlier.
fn near_up_to(span: &Span, time: i64, is_reversed: bool) -> Option<Atom>
    ensures { IfSome result (λ u. SaysOfTimes span.now u (λ xs. near_at is_reversed xs span.now ≤ℤ time)) }
{
    if is_reversed {
        return end_from(span, opposite(time));
    }
    start_up_to(span, time as i128)
}

/// That a span ends at a time or later.
fn far_from(span: &Span, time: i64, is_reversed: bool) -> Option<Atom>
    ensures { IfSome result (λ u. SaysOfTimes span.now u (λ xs. time ≤ℤ far_at is_reversed xs span.now)) }
{
    if is_reversed {
        return start_up_to(span, opposite(time));
    }
    end_from(span, time as i128)
}

/// That a span ends at a time or earlier.
fn far_up_to(span: &Span, time: i64, is_reversed: bool) -> Option<Atom>
    ensures { IfSome result (λ u. SaysOfTimes span.now u (λ xs. far_at is_reversed xs span.now ≤ℤ time)) }
{
    if is_reversed {
        return start_from(span, opposite(time));
    }
    end_up_to(span, time as i128)
}

/// That a span does not lie before a window with the ends of which it speaks.
pub(crate) fn low_atom(span: &Span, window: Window) -> Option<Atom>
    ensures { IfSome result (λ u. SaysOfTimes span.now u
        (λ xs. window.from ≤ℤ low_at window.ends window.is_reversed xs span.now)) }
{
    match window.ends {
        Ends::Both => near_from(span, window.from, window.is_reversed),
        Ends::Start => near_from(span, window.from, window.is_reversed),
        Ends::End => far_from(span, window.from, window.is_reversed),
    }
}

/// That a span does not lie after a window with the ends of which it speaks.
fn high_atom(span: &Span, window: Window) -> Option<Atom>
    ensures { IfSome result (λ u. SaysOfTimes span.now u
        (λ xs. high_at window.ends window.is_reversed xs span.now ≤ℤ window.to)) }
{
    match window.ends {
        Ends::Both => far_up_to(span, window.to, window.is_reversed),
        Ends::Start => near_up_to(span, window.to, window.is_reversed),
        Ends::End => far_up_to(span, window.to, window.is_reversed),
    }
}

/// Adds that a span does not lie before a window.
pub(crate) fn cite_low(
    past: &Before,
    span: &Span,
    window: Window,
    facts: &mut Vec<Atom>,
) -> Result<bool, AllocError>
    requires { IsSpan past.now.first span.now }
    ensures { result ≡ Ok true → Cites past.now (subjects_of_span span.now) facts.old.items facts.new.items
        (λ xs. window.from ≤ℤ low_at window.ends window.is_reversed xs span.now) }
{
    match low_atom(span, window) {
        Some(atom) => cite(past, atom, facts),
        None => Ok(false),
    }
}

/// Adds that a span does not lie after a window.
pub(crate) fn cite_high(
    past: &Before,
    span: &Span,
    window: Window,
    facts: &mut Vec<Atom>,
) -> Result<bool, AllocError>
    requires { IsSpan past.now.first span.now }
    ensures { result ≡ Ok true → Cites past.now (subjects_of_span span.now) facts.old.items facts.new.items
        (λ xs. high_at window.ends window.is_reversed xs span.now ≤ℤ window.to) }
{
    match high_atom(span, window) {
        Some(atom) => cite(past, atom, facts),
        None => Ok(false),
    }
}
