//! Why a crowd pushes a span, or a window holds too much.
//!
//! The facts are put into a list anew: what surely runs in the window, and of the span that is pushed its presence, or
//! the start that it cannot have.
ghost use Rattle.std.specs.Prelude.{[], ◌≡◌, true, IfOk, IfSome, All};
ghost use Rattle.cps_instance.specs.Parts.{span_runs};
ghost use Rattle.cps_model.specs.Scheduling.{IsNoOverlap};
ghost use Rattle.cps_instance.specs.Tasks.{span_subjects, subjects_of_span};
ghost use Rattle.cps_p_span.specs.Citing.{Cites};
ghost use Rattle.cps_p_nooverlap.specs.Crowds.{pushed_by, IsReasoned, IsAboutOne, StartsBeforeUnless, StartsFrom};
ghost use Rattle.cps_p_span.specs.Spans.{AreSpans, IsSmallAtom, IsSpan};

use crate::crowd::{Crowd, Ends, Marks, PushedSpan, Window};
use crate::desk::Desk;
use crate::detectable::cite_precedences;
use crate::edge_finding::cite_edge;
use crate::not_first::cite_not_first;
use crate::overload::{Overload, refute_window};
use crate::sides::{cite_high, low_atom};
use cps_instance::Span;
use cps_literal::Atom;
use cps_p_span::{cite_all, cite_others};
use cps_trail::Before;
use std::alloc::AllocError;

/// Replaces `facts` by those by which a window holds too much.
pub(crate) fn refute_anew(
    past: &Before,
    spans: &[Span],
    weights: &[u64],
    overload: Overload,
    facts: &mut Vec<Atom>,
) -> Result<bool, AllocError>
    requires { AreSpans past.now.first spans.now }
    ensures { result ≡ Ok true → Cites past.now (span_subjects spans.now) [] facts.new.items (λ xs. IsNoOverlap (span_runs xs spans.now) → ⊥) }
{
    facts.clear();
    refute_window(past, spans, weights, overload, facts)
}

/// Adds why the span that a crowd pushes starts at a time or later, if it is present.
fn cite_push(
    past: &Before,
    spans: &[Span],
    marks: &Marks,
    crowd: Crowd,
    facts: &mut Vec<Atom>,
) -> Result<bool, AllocError>
    requires { AreSpans past.now.first spans.now }
    ensures { result ≡ Ok true → Cites past.now (span_subjects spans.now) facts.old.items facts.new.items
        (λ xs. StartsFrom (pushed_by crowd).is_reversed xs spans.now (pushed_by crowd).place (pushed_by crowd).time) }
{
    match crowd {
        Crowd::Detectable(crowd) => cite_precedences(past, spans, marks, crowd, facts),
        Crowd::NotFirst(crowd) => cite_not_first(past, spans, marks, crowd, facts),
        Crowd::EdgeFinding(crowd) => cite_edge(past, spans, marks, crowd, facts),
    }
}

/// Replaces `facts` by those by which a surely present span starts at a time or later, and returns that it does.
fn give_bound(
    past: &Before,
    spans: &[Span],
    marks: &Marks,
    crowd: Crowd,
    facts: &mut Vec<Atom>,
) -> Result<Option<Atom>, AllocError>
    requires { AreSpans past.now.first spans.now }
    ensures { IfOk result (λ answer. IfSome answer (λ u. IsReasoned past.now spans.now facts.new.items u)) }
{
    facts.clear();
    let pushed = crowd.pushed();
    if pushed.place >= spans.len() {
        return Ok(None);
    }
    let span = &spans[pushed.place];
    if !cite_push(past, spans, marks, crowd, facts)? {
        return Ok(None);
    }
    if !cite_all(past, span.presence.as_slice(), facts)? {
        return Ok(None);
    }
    let time = Window {
        ends: Ends::Start,
        is_reversed: pushed.is_reversed,
        from: pushed.time,
        to: pushed.time,
    };
    match low_atom(span, time) {
        Some(target) => Ok(Some(target)),
        None => Ok(None),
    }
}

/// That the atom of a span's presence is false that is said to be open.
fn denied_atom(span: &Span, pushed: PushedSpan) -> Option<Atom>
    requires { All IsSmallAtom span.now.presence }
    ensures { IfSome result (IsAboutOne span.now.presence) }
{
    let atoms = span.presence.as_slice();
    let open = pushed.open?;
    if open < atoms.len() {
        return Some(atoms[open].negate());
    }
    None
}

/// Adds that a span is present and starts before it is pushed to, if an atom is false.
fn cite_absence(
    past: &Before,
    span: &Span,
    pushed: PushedSpan,
    target: Atom,
    facts: &mut Vec<Atom>,
) -> Result<bool, AllocError>
    requires { IsSpan past.now.first span.now }
    ensures { result ≡ Ok true → Cites past.now (subjects_of_span span.now) facts.old.items facts.new.items
        (λ xs. StartsBeforeUnless pushed.is_reversed xs span.now pushed.time target) }
{
    let sooner = pushed.time.saturating_sub(1);
    if pushed.time <= sooner {
        return Ok(false);
    }
    if !cite_others(past, span.presence.as_slice(), target, facts)? {
        return Ok(false);
    }
    let time = Window {
        ends: Ends::Start,
        is_reversed: pushed.is_reversed,
        from: sooner,
        to: sooner,
    };
    cite_high(past, span, time, facts)
}

/// Puts why a span cannot be present that would start too late in the place of what a list holds, and answers that one
/// of its atoms is false.
fn give_absence(
    past: &Before,
    spans: &[Span],
    marks: &Marks,
    crowd: Crowd,
    facts: &mut Vec<Atom>,
) -> Result<Option<Atom>, AllocError>
    requires { AreSpans past.now.first spans.now }
    ensures { IfOk result (λ answer. IfSome answer (λ u. IsReasoned past.now spans.now facts.new.items u)) }
{
    facts.clear();
    let pushed = crowd.pushed();
    if pushed.place >= spans.len() {
        return Ok(None);
    }
    let span = &spans[pushed.place];
    match denied_atom(span, pushed) {
        Some(target) => {
            if !cite_push(past, spans, marks, crowd, facts)? {
                return Ok(None);
            }
            if !cite_absence(past, span, pushed, target, facts)? {
                return Ok(None);
            }
            Ok(Some(target))
        }
        None => Ok(None),
    }
}

/// Replaces the desk's facts by those by which a crowd pushes a span, and returns what follows.
pub(crate) fn give(
    past: &Before,
    spans: &[Span],
    desk: &mut Desk,
    crowd: Crowd,
) -> Result<Option<Atom>, AllocError>
    requires { AreSpans past.now.first spans.now }
    ensures { IfOk result (λ answer. IfSome answer (λ u. IsReasoned past.now spans.now desk.new.facts.items u)) }
{
    if crowd.pushed().open.is_some() {
        return give_absence(past, spans, &desk.marks, crowd, &mut desk.facts);
    }
    give_bound(past, spans, &desk.marks, crowd, &mut desk.facts)
}
