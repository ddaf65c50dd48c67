//! Proposals: what the compulsory parts of others leave to a span.
//!
//! Each proposal is an atom and a time. It counts only if its denial is seen to overload that time (`offer`), so that
//! nothing has to be proved of how it was found. Proposed are a later start, an earlier end, a smaller demand, a
//! greater capacity, and the absence of a span that has no room.
ghost use Rattle.std.specs.Prelude.{◌≡◌, ◌<◌, All, length, OnOk, IfSome};
ghost use Rattle.cps_rule.specs.Rules.{IsGiven};
ghost use Rattle.cps_p_cumulative.specs.Running.{IsTimeOf, IsResourceOf, body_of};

use crate::charge::{Case, at_least, at_most, charge, is_inside};
use crate::measure::are_true;
use crate::resource::Resource;
use crate::segments::{
    Place, Segment, Segments, first_full, fullest, highest, last_full, place_of, surely_full,
    time_of,
};
use cps_instance::Span;
use cps_literal::{Atom, Truth};
use cps_rule::{Hint, Narrowing};
use cps_trail::Before;
use std::alloc::{AllocError, Global};

/// The segments of the parts, and room for the facts that certify what is found.
#[derive(Drop)]
pub(crate) struct Scratch {
    pub(crate) segments: Segments,
    facts: Vec<Atom>,
}

impl Scratch {
    /// No segment.
    pub(crate) fn new(alloc: Global) -> Self {
        Scratch {
            segments: Segments::new(alloc),
            facts: Vec::new(alloc),
        }
    }
}

/// An atom, and the time that its denial overloads.
fn narrowing(target: Atom, time: i64) -> Narrowing
    ensures { result.target ≡ target }
{
    Narrowing {
        target,
        hint: Hint { a: time, b: 1 },
    }
}

/// Adds an atom whose denial overloads a time.
fn offer(
    past: &Before,
    resource: &Resource,
    narrowing: Narrowing,
    facts: &mut Vec<Atom>,
    found: &mut Vec<Narrowing>,
) -> Result<(), AllocError>
    requires resource { IsResourceOf past.now.first resource.now }
    requires subject { narrowing.target.subject < length past.now.first }
    requires found { All (λ n. IsGiven (body_of resource.now) past.now n.target) found.old.items }
    ensures { OnOk result (All (λ n. IsGiven (body_of resource.now) past.now n.target) found.new.items) }
{
    facts.clear();
    if !is_inside(narrowing.target.value) {
        return Ok(());
    }
    let case = Case {
        time: narrowing.hint.a,
        width: narrowing.hint.b,
        assumed: narrowing.target.negate(),
    };
    if charge(past, case, resource, facts)? {
        found.push(narrowing)?;
    }
    Ok(())
}

/// Adds a proposal, if there is one.
fn offer_some(
    past: &Before,
    resource: &Resource,
    proposed: Option<Narrowing>,
    facts: &mut Vec<Atom>,
    found: &mut Vec<Narrowing>,
) -> Result<(), AllocError>
    requires resource { IsResourceOf past.now.first resource.now }
    requires subject { IfSome proposed (λ n. n.target.subject < length past.now.first) }
    requires found { All (λ n. IsGiven (body_of resource.now) past.now n.target) found.old.items }
    ensures { OnOk result (All (λ n. IsGiven (body_of resource.now) past.now n.target) found.new.items) }
{
    match proposed {
        Some(proposed) => offer(past, resource, proposed, facts, found),
        None => Ok(()),
    }
}

/// Adds those proposals that there are.
fn offer_each(
    past: &Before,
    resource: &Resource,
    proposed: &[Option<Narrowing>],
    facts: &mut Vec<Atom>,
    found: &mut Vec<Narrowing>,
) -> Result<(), AllocError>
    requires resource { IsResourceOf past.now.first resource.now }
    requires subjects { All (λ o. IfSome o (λ n. n.target.subject < length past.now.first)) proposed.now }
    requires found { All (λ n. IsGiven (body_of resource.now) past.now n.target) found.old.items }
    ensures { OnOk result (All (λ n. IsGiven (body_of resource.now) past.now n.target) found.new.items) }
{
    for one in proposed {
        offer_some(past, resource, *one, facts, found)?;
    }
    Ok(())
}

/// That a span starts after the last time of the first full segment in which it would run at its earliest.
fn start_later(span: &Span, place: &Place, segments: &[Segment]) -> Option<Narrowing>
    ensures { IfSome result (λ n. n.target.subject ≡ span.now.start) }
{
    match first_full(place, segments) {
        Some(time) => Some(narrowing(at_least(span.start, time.wrapping_add(1)), time)),
        None => None,
    }
}

/// That a span ends by a time.
fn end_by(span: &Span, time: i64) -> Narrowing
    ensures { IsTimeOf span.now result.target.subject }
{
    match span.length {
        Some(length) => {
            let last = time_of(i128::from(time) - i128::from(length));
            narrowing(at_most(span.start, last), time)
        }
        None => narrowing(at_most(span.end, time), time),
    }
}

/// That a span ends by the first time of the last full segment in which it would run at its latest.
fn end_earlier(span: &Span, place: &Place, segments: &[Segment]) -> Option<Narrowing>
    ensures { IfSome result (λ n. IsTimeOf span.now n.target.subject) }
{
    match last_full(place, segments) {
        Some(time) => Some(end_by(span, time)),
        None => None,
    }
}

/// That a demand is at most what others leave.
fn demand_less(demand: u32, place: &Place, segments: &[Segment]) -> Option<Narrowing>
    ensures { IfSome result (λ n. n.target.subject ≡ demand) }
{
    match fullest(place, segments) {
        Some((time, room)) => {
            if room < place.demand.1 {
                return Some(narrowing(at_most(demand, room), time));
            }
            None
        }
        None => None,
    }
}

/// The one atom of a list that is not true.
fn open_atom(past: &Before, atoms: &[Atom]) -> Option<Atom>
    requires { All (λ u. u.subject < length past.now.first) atoms.now }
    ensures { IfSome result (λ u. u.subject < length past.now.first) }
{
    let mut open: Option<Atom> = None;
    for atom in atoms {
        match past.truth(*atom) {
            Truth::Yes => {}
            _ => {
                if open.is_some() {
                    return None;
                }
                open = Some(*atom);
            }
        }
    }
    open
}

/// That a span is absent that has no room where it would surely run.
fn absent(past: &Before, atoms: &[Atom], place: &Place, segments: &[Segment]) -> Option<Narrowing>
    requires { All (λ u. u.subject < length past.now.first) atoms.now }
    ensures { IfSome result (λ n. n.target.subject < length past.now.first) }
{
    let Some(time) = surely_full(place, segments) else {
        return None;
    };
    let Some(atom) = open_atom(past, atoms) else {
        return None;
    };
    if !is_inside(atom.value) {
        return None;
    }
    Some(narrowing(atom.negate(), time))
}

/// Adds what the segments leave to one span.
fn propose_span(
    past: &Before,
    resource: &Resource,
    k: usize,
    scratch: &mut Scratch,
    found: &mut Vec<Narrowing>,
) -> Result<(), AllocError>
    requires resource { IsResourceOf past.now.first resource.now }
    requires span { k < length resource.now.spans }
    requires demand { k < length resource.now.demands }
    requires found { All (λ n. IsGiven (body_of resource.now) past.now n.target) found.old.items }
    ensures { OnOk result (All (λ n. IsGiven (body_of resource.now) past.now n.target) found.new.items) }
{
    let spans = resource.spans.as_slice();
    let span = &spans[k];
    let demand = resource.demands.as_slice()[k];
    let mut place = place_of(past, span, demand, past.ends(resource.capacity).1);
    let segments = scratch.segments.list.as_slice();
    if !are_true(past, span.presence.as_slice()) {
        let proposed = absent(past, span.presence.as_slice(), &place, segments);
        return offer_some(past, resource, proposed, &mut scratch.facts, found);
    }
    place.is_present = true;
    let later = start_later(span, &place, segments);
    let earlier = end_earlier(span, &place, segments);
    let less = demand_less(demand, &place, segments);
    offer_each(
        past,
        resource,
        &[later, earlier, less],
        &mut scratch.facts,
        found,
    )
}

/// That the capacity is at least what is demanded at some time.
fn capacity_more(past: &Before, capacity: u32, segments: &[Segment]) -> Option<Narrowing>
    requires { capacity < length past.now.first }
    ensures { IfSome result (λ n. n.target.subject < length past.now.first) }
{
    let (time, level) = match highest(segments) {
        Some(highest) => highest,
        None => (0, 0),
    };
    if past.ends(capacity).0 < level {
        return Some(narrowing(at_least(capacity, level), time));
    }
    None
}

/// Adds what the segments leave to each span, and to the capacity.
pub(crate) fn propose(
    past: &Before,
    resource: &Resource,
    scratch: &mut Scratch,
    found: &mut Vec<Narrowing>,
) -> Result<(), AllocError>
    requires resource { IsResourceOf past.now.first resource.now }
    requires found { All (λ n. IsGiven (body_of resource.now) past.now n.target) found.old.items }
    ensures { OnOk result (All (λ n. IsGiven (body_of resource.now) past.now n.target) found.new.items) }
{
    let more = capacity_more(past, resource.capacity, scratch.segments.list.as_slice());
    offer_some(past, resource, more, &mut scratch.facts, found)?;
    let count = resource.spans.len().min(resource.demands.len());
    for k in 0..count {
        propose_span(past, resource, k, scratch, found)?;
    }
    Ok(())
}
