//! Why two boxes give what they give.
//!
//! That one box comes before another in a direction needs the facts that they are present, that neither span can come
//! first across it, and that the order cannot be the other way round; and then the bound that is passed on.
ghost use Rattle.std.specs.Prelude.{◌++◌, [], ◌≡◌, true};
ghost use Rattle.cps_literal.specs.Truth.{atom_holds};
ghost use Rattle.cps_instance.specs.declared.task.Span.{Span as SpanOf};
ghost use Rattle.cps_instance.specs.Tasks.{span_subjects};
ghost use Rattle.cps_p_span.specs.Citing.{Cites};
ghost use Rattle.cps_p_span.specs.Spans.{AreSpans, ClashesAt};
ghost use Rattle.cps_p_boxes.specs.Boxes.{AreBoxes, ArePresent, AreDisjoint, OrdersBoxes};

use cps_instance::Span;
use cps_literal::Atom;
use cps_p_span::{
    Pair, cite_clash, cite_end_from, cite_late, cite_others, cite_present, cite_start_up_to,
    end_up_to, same_atom, start_from,
};
use cps_trail::Before;
use std::alloc::AllocError;

/// An atom, and two boxes that are said to give it.
#[derive(Clone, Copy)]
pub(crate) struct Claim {
    pub(crate) pair: Pair,
    pub(crate) target: Atom,
}

/// Adds that two boxes are present.
fn cite_boxes(
    past: &Before,
    along: &[Span],
    across: &[Span],
    pair: Pair,
    facts: &mut Vec<Atom>,
) -> Result<bool, AllocError>
    requires along { AreSpans past.now.first along.now }
    requires across { AreSpans past.now.first across.now }
    requires pair { AreBoxes along.now across.now pair }
    ensures { result ≡ Ok true → Cites past.now (span_subjects along.now ++ span_subjects across.now)
        facts.old.items facts.new.items
        (λ xs. (d : SpanOf) → ArePresent xs along.now pair d × ArePresent xs across.now pair d) }
{
    if !cite_present(past, &along[pair.before], &along[pair.after], facts)? {
        return Ok(false);
    }
    cite_present(past, &across[pair.before], &across[pair.after], facts)
}

/// Adds why one box comes before another in a direction.
fn cite_first(
    past: &Before,
    along: &[Span],
    across: &[Span],
    pair: Pair,
    facts: &mut Vec<Atom>,
) -> Result<bool, AllocError>
    requires along { AreSpans past.now.first along.now }
    requires across { AreSpans past.now.first across.now }
    requires pair { AreBoxes along.now across.now pair }
    ensures { result ≡ Ok true → Cites past.now (span_subjects along.now ++ span_subjects across.now)
        facts.old.items facts.new.items
        (λ xs. OrdersBoxes xs along.now across.now pair) }
{
    if !cite_boxes(past, along, across, pair, facts)? {
        return Ok(false);
    }
    if !cite_clash(past, across, pair, facts)? {
        return Ok(false);
    }
    cite_late(past, &along[pair.after], &along[pair.before], facts)
}

/// Adds why the later of two boxes starts when a target says.
fn explain_start(
    past: &Before,
    along: &[Span],
    across: &[Span],
    claim: Claim,
    facts: &mut Vec<Atom>,
) -> Result<bool, AllocError>
    requires along { AreSpans past.now.first along.now }
    requires across { AreSpans past.now.first across.now }
    requires pair { AreBoxes along.now across.now claim.pair }
    ensures { result ≡ Ok true → Cites past.now (span_subjects along.now ++ span_subjects across.now)
        facts.old.items facts.new.items
        (λ xs. AreDisjoint xs along.now across.now → atom_holds xs claim.target ≡ true) }
{
    let pair = claim.pair;
    let time = claim.target.value as i128;
    match start_from(&along[pair.after], time) {
        Some(atom) => {
            if !same_atom(atom, claim.target) {
                return Ok(false);
            }
        }
        None => return Ok(false),
    }
    if !cite_first(past, along, across, pair, facts)? {
        return Ok(false);
    }
    cite_end_from(past, &along[pair.before], time, facts)
}

/// Adds why the earlier of two boxes ends when a target says.
fn explain_end(
    past: &Before,
    along: &[Span],
    across: &[Span],
    claim: Claim,
    facts: &mut Vec<Atom>,
) -> Result<bool, AllocError>
    requires along { AreSpans past.now.first along.now }
    requires across { AreSpans past.now.first across.now }
    requires pair { AreBoxes along.now across.now claim.pair }
    ensures { result ≡ Ok true → Cites past.now (span_subjects along.now ++ span_subjects across.now)
        facts.old.items facts.new.items
        (λ xs. AreDisjoint xs along.now across.now → atom_holds xs claim.target ≡ true) }
{
    let pair = claim.pair;
    let time = claim.target.value as i128 + along[pair.before].length.unwrap_or(0) as i128;
    match end_up_to(&along[pair.before], time) {
        Some(atom) => {
            if !same_atom(atom, claim.target) {
                return Ok(false);
            }
        }
        None => return Ok(false),
    }
    if !cite_first(past, along, across, pair, facts)? {
        return Ok(false);
    }
    cite_start_up_to(past, &along[pair.after], time, facts)
}

/// Replaces `facts` by those by which two boxes imply a bound in a direction.
fn explain_along(
    past: &Before,
    along: &[Span],
    across: &[Span],
    claim: Claim,
    facts: &mut Vec<Atom>,
) -> Result<bool, AllocError>
    requires along { AreSpans past.now.first along.now }
    requires across { AreSpans past.now.first across.now }
    requires pair { AreBoxes along.now across.now claim.pair }
    ensures { result ≡ Ok true → Cites past.now (span_subjects along.now ++ span_subjects across.now) [] facts.new.items
        (λ xs. AreDisjoint xs along.now across.now → atom_holds xs claim.target ≡ true) }
{
    facts.clear();
    if explain_start(past, along, across, claim, facts)? {
        return Ok(true);
    }
    facts.clear();
    explain_end(past, along, across, claim, facts)
}

/// Adds why two boxes overlap in both directions.
fn cite_overlap(
    past: &Before,
    x: &[Span],
    y: &[Span],
    pair: Pair,
    facts: &mut Vec<Atom>,
) -> Result<bool, AllocError>
    requires x { AreSpans past.now.first x.now }
    requires y { AreSpans past.now.first y.now }
    requires pair { AreBoxes x.now y.now pair }
    ensures { result ≡ Ok true → Cites past.now (span_subjects x.now ++ span_subjects y.now)
        facts.old.items facts.new.items
        (λ xs. ClashesAt xs x.now pair × ClashesAt xs y.now pair) }
{
    if !cite_clash(past, x, pair, facts)? {
        return Ok(false);
    }
    cite_clash(past, y, pair, facts)
}

/// Adds why the first of two boxes is absent, as a target says.
fn explain_absence(
    past: &Before,
    x: &[Span],
    y: &[Span],
    claim: Claim,
    facts: &mut Vec<Atom>,
) -> Result<bool, AllocError>
    requires x { AreSpans past.now.first x.now }
    requires y { AreSpans past.now.first y.now }
    requires pair { AreBoxes x.now y.now claim.pair }
    ensures { result ≡ Ok true → Cites past.now (span_subjects x.now ++ span_subjects y.now)
        facts.old.items facts.new.items
        (λ xs. AreDisjoint xs x.now y.now → atom_holds xs claim.target ≡ true) }
{
    let pair = claim.pair;
    if !cite_others(
        past,
        x[pair.before].presence.as_slice(),
        claim.target,
        facts,
    )? {
        return Ok(false);
    }
    if !cite_others(
        past,
        y[pair.before].presence.as_slice(),
        claim.target,
        facts,
    )? {
        return Ok(false);
    }
    if !cite_present(past, &x[pair.after], &y[pair.after], facts)? {
        return Ok(false);
    }
    cite_overlap(past, x, y, pair, facts)
}

/// Replaces `facts` by those by which two boxes imply a target.
pub(crate) fn explain_boxes(
    past: &Before,
    x: &[Span],
    y: &[Span],
    claim: Claim,
    facts: &mut Vec<Atom>,
) -> Result<bool, AllocError>
    requires x { AreSpans past.now.first x.now }
    requires y { AreSpans past.now.first y.now }
    requires pair { AreBoxes x.now y.now claim.pair }
    ensures { result ≡ Ok true → Cites past.now (span_subjects x.now ++ span_subjects y.now) [] facts.new.items
        (λ xs. AreDisjoint xs x.now y.now → atom_holds xs claim.target ≡ true) }
{
    if explain_along(past, x, y, claim, facts)? {
        return Ok(true);
    }
    if explain_along(past, y, x, claim, facts)? {
        return Ok(true);
    }
    facts.clear();
    explain_absence(past, x, y, claim, facts)
}

/// Adds why two boxes leave no way.
pub(crate) fn refute_boxes(
    past: &Before,
    x: &[Span],
    y: &[Span],
    pair: Pair,
    facts: &mut Vec<Atom>,
) -> Result<bool, AllocError>
    requires x { AreSpans past.now.first x.now }
    requires y { AreSpans past.now.first y.now }
    requires pair { AreBoxes x.now y.now pair }
    ensures { result ≡ Ok true → Cites past.now (span_subjects x.now ++ span_subjects y.now)
        facts.old.items facts.new.items (λ xs. AreDisjoint xs x.now y.now → ⊥) }
{
    if !cite_boxes(past, x, y, pair, facts)? {
        return Ok(false);
    }
    cite_overlap(past, x, y, pair, facts)
}
