//! Why two spans give what they give.
//!
//! That one span cannot come before another needs two facts: that it ends at some time or later, and that the other
//! starts before that time. The time is the least end that there was, so the second fact is loosened as far as the
//! first allows.
ghost use Rattle.std.specs.Prelude.{ℤ, List, [], ◌++◌, not, ◌≡◌, ◌<◌, ◌≤ℤ◌, ◌<ℤ◌, All, length, true, IsTrue, IfSome, slice_index_or};
ghost use Rattle.std.specs.List.{list_all};
ghost use Rattle.cps_model.specs.Scheduling.{IsNoOverlap};
ghost use Rattle.cps_literal.specs.Truth.{atom_holds};
ghost use Rattle.cps_literal.specs.declared.atom.Atom.{Atom as AtomOf};
ghost use Rattle.cps_instance.specs.Parts.{span_runs};
ghost use Rattle.cps_instance.specs.Tasks.{subjects_of_span, span_subjects};
ghost use Rattle.cps_p_span.specs.Citing.{Cites};
ghost use Rattle.cps_p_span.specs.Spans.{start_at, end_at, is_present, IsSmallAtom, IsSpan, AreSpans, IsPair, OrdersAt, ClashesAt};

use crate::edges::{end_from, end_up_to, start_from, start_up_to};
use crate::facts::{cite, cite_all, same_atom};
use crate::pairs::Pair;
use cps_instance::Span;
use cps_literal::Atom;
use cps_rule::Hint;
use cps_trail::Before;
use std::alloc::AllocError;

/// The two places that a hint names, if they are two different ones below `count`.
pub fn pair_of(hint: Hint, count: usize) -> Option<Pair>
    ensures { IfSome result (IsPair count) }
{
    let before = usize::try_from(hint.a).ok()?;
    let after = usize::try_from(hint.b).ok()?;
    if before < count && after < count && before != after {
        return Some(Pair { before, after });
    }
    None
}

/// Adds that a span starts at a time or earlier.
pub fn cite_start_up_to(
    past: &Before,
    span: &Span,
    time: i128,
    facts: &mut Vec<Atom>,
) -> Result<bool, AllocError>
    requires { IsSpan past.now.first span.now }
    ensures { result ≡ Ok true → Cites past.now (subjects_of_span span.now) facts.old.items facts.new.items
        (λ xs. start_at xs span.now ≤ℤ time) }
{
    match start_up_to(span, time) {
        Some(atom) => cite(past, atom, facts),
        None => Ok(false),
    }
}

/// Adds that a span ends at a time or later.
pub fn cite_end_from(
    past: &Before,
    span: &Span,
    time: i128,
    facts: &mut Vec<Atom>,
) -> Result<bool, AllocError>
    requires { IsSpan past.now.first span.now }
    ensures { result ≡ Ok true → Cites past.now (subjects_of_span span.now) facts.old.items facts.new.items
        (λ xs. time ≤ℤ end_at xs span.now) }
{
    match end_from(span, time) {
        Some(atom) => cite(past, atom, facts),
        None => Ok(false),
    }
}

/// When a span ended at the earliest.
pub fn least_end(past: &Before, span: &Span) -> i128
    requires { IsSpan past.now.first span.now }
{
    match span.length {
        Some(far) => past.ends(span.start).0 as i128 + far as i128,
        None => past.ends(span.end).0 as i128,
    }
}

/// Adds that one span ends after another starts.
pub fn cite_late(
    past: &Before,
    late: &Span,
    early: &Span,
    facts: &mut Vec<Atom>,
) -> Result<bool, AllocError>
    requires late { IsSpan past.now.first late.now }
    requires early { IsSpan past.now.first early.now }
    ensures { result ≡ Ok true → Cites past.now (subjects_of_span late.now ++ subjects_of_span early.now)
        facts.old.items facts.new.items
        (λ xs. start_at xs early.now <ℤ end_at xs late.now) }
{
    let end = least_end(past, late);
    match end.checked_sub(1) {
        Some(start) => {
            if !cite_end_from(past, late, end, facts)? {
                return Ok(false);
            }
            cite_start_up_to(past, early, start, facts)
        }
        None => Ok(false),
    }
}

/// Adds that two spans are present.
pub fn cite_present(
    past: &Before,
    one: &Span,
    other: &Span,
    facts: &mut Vec<Atom>,
) -> Result<bool, AllocError>
    requires one { IsSpan past.now.first one.now }
    requires other { IsSpan past.now.first other.now }
    ensures { result ≡ Ok true → Cites past.now (subjects_of_span one.now ++ subjects_of_span other.now)
        facts.old.items facts.new.items
        (λ xs. (is_present xs one.now ≡ true) × (is_present xs other.now ≡ true)) }
{
    if !cite_all(past, one.presence.as_slice(), facts)? {
        return Ok(false);
    }
    cite_all(past, other.presence.as_slice(), facts)
}

/// Adds why one span comes before another.
fn cite_order(
    past: &Before,
    spans: &[Span],
    pair: Pair,
    facts: &mut Vec<Atom>,
) -> Result<bool, AllocError>
    requires spans { AreSpans past.now.first spans.now }
    requires pair { IsPair (length spans.now) pair }
    ensures { result ≡ Ok true → Cites past.now (span_subjects spans.now) facts.old.items facts.new.items
        (λ xs. OrdersAt xs spans.now pair) }
{
    let before = &spans[pair.before];
    let after = &spans[pair.after];
    if !cite_present(past, before, after, facts)? {
        return Ok(false);
    }
    cite_late(past, after, before, facts)
}

/// Adds why two spans cannot both be present: each ends after the other starts.
pub fn cite_clash(
    past: &Before,
    spans: &[Span],
    pair: Pair,
    facts: &mut Vec<Atom>,
) -> Result<bool, AllocError>
    requires spans { AreSpans past.now.first spans.now }
    requires pair { IsPair (length spans.now) pair }
    ensures { result ≡ Ok true → Cites past.now (span_subjects spans.now) facts.old.items facts.new.items
        (λ xs. ClashesAt xs spans.now pair) }
{
    let before = &spans[pair.before];
    let after = &spans[pair.after];
    if !cite_late(past, after, before, facts)? {
        return Ok(false);
    }
    cite_late(past, before, after, facts)
}

/// Adds why two spans leave no way.
pub fn refute_pair(
    past: &Before,
    spans: &[Span],
    pair: Pair,
    facts: &mut Vec<Atom>,
) -> Result<bool, AllocError>
    requires spans { AreSpans past.now.first spans.now }
    requires pair { IsPair (length spans.now) pair }
    ensures { result ≡ Ok true → Cites past.now (span_subjects spans.now) facts.old.items facts.new.items
        (λ xs. IsNoOverlap (span_runs xs spans.now) → ⊥) }
{
    if !cite_present(past, &spans[pair.before], &spans[pair.after], facts)? {
        return Ok(false);
    }
    cite_clash(past, spans, pair, facts)
}

/// Adds why the later of two spans starts when a target says.
fn explain_start(
    past: &Before,
    spans: &[Span],
    pair: Pair,
    target: Atom,
    facts: &mut Vec<Atom>,
) -> Result<bool, AllocError>
    requires spans { AreSpans past.now.first spans.now }
    requires pair { IsPair (length spans.now) pair }
    ensures { result ≡ Ok true → Cites past.now (span_subjects spans.now) facts.old.items facts.new.items
        (λ xs. IsNoOverlap (span_runs xs spans.now) → atom_holds xs target ≡ true) }
{
    let time = target.value as i128;
    match start_from(&spans[pair.after], time) {
        Some(atom) => {
            if !same_atom(atom, target) {
                return Ok(false);
            }
        }
        None => return Ok(false),
    }
    if !cite_order(past, spans, pair, facts)? {
        return Ok(false);
    }
    cite_end_from(past, &spans[pair.before], time, facts)
}

/// Adds why the earlier of two spans ends when a target says.
fn explain_end(
    past: &Before,
    spans: &[Span],
    pair: Pair,
    target: Atom,
    facts: &mut Vec<Atom>,
) -> Result<bool, AllocError>
    requires spans { AreSpans past.now.first spans.now }
    requires pair { IsPair (length spans.now) pair }
    ensures { result ≡ Ok true → Cites past.now (span_subjects spans.now) facts.old.items facts.new.items
        (λ xs. IsNoOverlap (span_runs xs spans.now) → atom_holds xs target ≡ true) }
{
    let time = target.value as i128 + spans[pair.before].length.unwrap_or(0) as i128;
    match end_up_to(&spans[pair.before], time) {
        Some(atom) => {
            if !same_atom(atom, target) {
                return Ok(false);
            }
        }
        None => return Ok(false),
    }
    if !cite_order(past, spans, pair, facts)? {
        return Ok(false);
    }
    cite_start_up_to(past, &spans[pair.after], time, facts)
}

/// The place of the atom that a target negates; the number of atoms if there is none.
pub fn denied_place(atoms: &[Atom], target: Atom) -> usize
    requires { All IsSmallAtom atoms.now }
    ensures { result < length atoms.now → (d : AtomOf) (xs : List ℤ)
        → atom_holds xs target ≡ not (atom_holds xs (slice_index_or atoms.now result d)) }
{
    for (place, atom) in atoms.iter().enumerate() {
        if atom.negate() == target {
            return place;
        }
    }
    atoms.len()
}

/// Adds why the first of two spans is absent, as a target says.
fn explain_absence(
    past: &Before,
    spans: &[Span],
    pair: Pair,
    target: Atom,
    facts: &mut Vec<Atom>,
) -> Result<bool, AllocError>
    requires spans { AreSpans past.now.first spans.now }
    requires pair { IsPair (length spans.now) pair }
    ensures { result ≡ Ok true → Cites past.now (span_subjects spans.now) facts.old.items facts.new.items
        (λ xs. IsNoOverlap (span_runs xs spans.now) → atom_holds xs target ≡ true) }
{
    let atoms = spans[pair.before].presence.as_slice();
    let place = denied_place(atoms, target);
    if place >= atoms.len() {
        return Ok(false);
    }
    if !cite_all(past, &atoms[..place], facts)? {
        return Ok(false);
    }
    if !cite_all(past, &atoms[place + 1..], facts)? {
        return Ok(false);
    }
    if !cite_all(past, spans[pair.after].presence.as_slice(), facts)? {
        return Ok(false);
    }
    cite_clash(past, spans, pair, facts)
}

/// Replaces `facts` by those by which two spans imply a target.
pub fn explain_pair(
    past: &Before,
    spans: &[Span],
    pair: Pair,
    target: Atom,
    facts: &mut Vec<Atom>,
) -> Result<bool, AllocError>
    requires spans { AreSpans past.now.first spans.now }
    requires pair { IsPair (length spans.now) pair }
    ensures { result ≡ Ok true → Cites past.now (span_subjects spans.now) [] facts.new.items
        (λ xs. IsNoOverlap (span_runs xs spans.now) → atom_holds xs target ≡ true) }
{
    facts.clear();
    if explain_start(past, spans, pair, target, facts)? {
        return Ok(true);
    }
    facts.clear();
    if explain_end(past, spans, pair, target, facts)? {
        return Ok(true);
    }
    facts.clear();
    explain_absence(past, spans, pair, target, facts)
}
