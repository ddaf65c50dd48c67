//! What two boxes give that do not overlap.
//!
//! Where neither of two spans can come first in one direction, the boxes are apart in the other one, and there they are
//! ordered as two spans are that do not overlap. Where neither can come first in either direction, one of the boxes is
//! absent, or the body cannot hold. Each step is written for a direction `along` which boxes are ordered and one
//! `across` it, and serves both ways.
ghost use Rattle.std.specs.Prelude.{◌≡◌, ◌<◌, length, slice_index_or, true, false, OnOk, IfOk, IfSome, IsTrue, ◌↔◌};
ghost use Rattle.cps_p_span.specs.Citing.{KeepsTargets};
ghost use Rattle.cps_p_span.specs.Spans.{IsPair, IsSmallAtom, no_seen};
ghost use Rattle.cps_p_boxes.specs.Boxes.{IsKnown, AreBoxes, AddsGiven, LeavesNoBody, IsBoxAbsent, IsLate, IsOpenOrder, Overlap, MayBeApart, IsSureBox, AreBoxesAllowed, AllowsBoxes, AreAllAllowed, IsLastAtom, IsLastOfBox, IsCount, Settles, IsSettledAlong, AreBoxesSettled, AreFirstSettled, AreAllSettled};

use cps_instance::Span;
use cps_literal::Atom;
use cps_model::Listed;
use cps_p_span::{Pair, Seen, follow, see};
use cps_rule::Narrowing;
use cps_trail::Store;
use std::alloc::AllocError;

/// One direction of boxes: their spans there, and what a store leaves to each. Its memory is kept for the next look.
pub(crate) struct Direction {
    pub(crate) spans: Listed<Span>,
    pub(crate) seen: Vec<Seen>,
}

// Written out, so that what drops a direction does not walk through its fields.
impl Drop for Direction {
    fn drop(self) {
        let Direction {
            spans: _spans,
            seen: _seen,
        } = self;
    }
}

impl Direction {
    ghost use Rattle.std.specs.Prelude.{◌≡◌, length, OnOk};
    ghost use Rattle.cps_p_span.specs.Spans.{AreSpans, AddsOrdered, SettlesOrder, IsPair};
    ghost use Rattle.cps_p_boxes.specs.Boxes.{IsDirection, IsKnown};

    /// Looks at what a store leaves to the spans.
    pub(crate) fn look(&mut self, store: &Store) -> Result<(), AllocError>
        requires { AreSpans store.now.first self.old.spans }
        ensures spans { self.new.spans ≡ self.old.spans }
        ensures seen { OnOk result (IsDirection store.now self.new) }
    {
        see(store, self.spans.as_slice(), &mut self.seen)
    }

    /// Adds what follows if one box comes before another in this direction.
    fn follow(&self, pair: Pair, found: &mut Vec<Narrowing>) -> Result<(), AllocError>
        requires known { IsKnown self.now }
        requires pair { IsPair (length self.now.spans) pair }
        ensures given { OnOk result (AddsOrdered self.now.spans self.now.seen.items pair
            found.old.items found.new.items) }
        ensures rest { OnOk result (SettlesOrder self.now.spans self.now.seen.items pair
            found.old.items found.new.items) }
    {
        follow(self.spans.as_slice(), self.seen.as_slice(), pair, found)
    }
}

/// How many boxes have a span in each of two directions.
pub(crate) fn count_of(x: &[Span], y: &[Span]) -> usize
    ensures { IsCount (length x.now) (length y.now) result }
{
    x.len().min(y.len())
}

/// What stands at a place.
fn read(seen: &[Seen], place: usize) -> Seen
    requires { place < length seen.now }
    ensures { result ≡ slice_index_or seen.now place no_seen }
{
    seen[place]
}

/// What was seen of a span.
fn seen_of(direction: &Direction, place: usize) -> Seen
    requires direction { IsKnown direction.now }
    requires place { place < length direction.now.spans }
    ensures { result ≡ slice_index_or direction.now.seen.items place no_seen }
{
    read(direction.seen.as_slice(), place)
}

/// Whether the first of two boxes cannot come after the second one in a direction.
fn is_late(direction: &Direction, pair: Pair) -> bool
    requires direction { IsKnown direction.now }
    requires pair { IsPair (length direction.now.spans) pair }
    ensures late { IsTrue result → IsLate direction.now.seen.items pair }
    ensures open { result ≡ false → IsOpenOrder direction.now.seen.items pair }
{
    let before = seen_of(direction, pair.before);
    let after = seen_of(direction, pair.after);
    before.times.start_high < after.times.end_low
}

/// Whether neither of two boxes can come first in a direction.
fn overlap(direction: &Direction, pair: Pair) -> bool
    requires direction { IsKnown direction.now }
    requires pair { IsPair (length direction.now.spans) pair }
    ensures yes { IsTrue result → Overlap direction.now.seen.items pair }
    ensures no { result ≡ false → MayBeApart direction.now.seen.items pair }
{
    is_late(direction, pair) && is_late(direction, pair.swapped())
}

/// Whether a box is surely present.
fn is_sure(along: &Direction, across: &Direction, place: usize) -> bool
    requires along { IsKnown along.now }
    requires across { IsKnown across.now }
    requires in_along { place < length along.now.spans }
    requires in_across { place < length across.now.spans }
    ensures { IsTrue result ↔ IsSureBox along.now.seen.items across.now.seen.items place }
{
    let one = seen_of(along, place);
    let other = seen_of(across, place);
    one.presence.sure && other.presence.sure
}

/// Adds what two boxes give in a direction, which overlap across it.
fn order(
    along: &Direction,
    across: &Direction,
    pair: Pair,
    found: &mut Vec<Narrowing>,
) -> Result<(), AllocError>
    requires along { IsKnown along.now }
    requires across { IsKnown across.now }
    requires pair { AreBoxes along.now.spans across.now.spans pair }
    requires overlap { Overlap across.now.seen.items pair }
    requires apart { MayBeApart along.now.seen.items pair }
    ensures given { OnOk result (AddsGiven along.now across.now found.old.items found.new.items) }
    ensures rest { OnOk result (Settles along.now across.now (IsSettledAlong along.now across.now pair)
        found.old.items found.new.items) }
{
    let before = is_sure(along, across, pair.before);
    let after = is_sure(along, across, pair.after);
    if !before || !after {
        return Ok(());
    }
    if is_late(along, pair) {
        return along.follow(pair, found);
    }
    let turned = pair.swapped();
    if is_late(along, turned) {
        return along.follow(turned, found);
    }
    Ok(())
}

/// The only atom of a span that may be false, if there is exactly one.
fn last_atom(direction: &Direction, place: usize) -> Option<Atom>
    requires direction { IsKnown direction.now }
    requires place { place < length direction.now.spans }
    ensures small { IfSome result IsSmallAtom }
    ensures present { IfSome result (IsLastAtom direction.now place) }
{
    let span = &direction.spans.as_slice()[place];
    let atoms = span.presence.as_slice();
    let last = seen_of(direction, place).presence.last;
    if last < atoms.len() {
        return Some(atoms[last]);
    }
    None
}

/// The only atom of two spans that may be false, if both have it and neither has another.
fn common_atom(along: &Direction, across: &Direction, place: usize) -> Option<Atom>
    requires along { IsKnown along.now }
    requires across { IsKnown across.now }
    requires in_along { place < length along.now.spans }
    requires in_across { place < length across.now.spans }
    ensures small { IfSome result IsSmallAtom }
    ensures present { IfSome result (IsLastOfBox along.now across.now place) }
{
    let one = last_atom(along, place)?;
    let other = last_atom(across, place)?;
    if one == other {
        return Some(one);
    }
    None
}

/// The only atom of a box that may be false, if there is exactly one.
fn last_of_box(along: &Direction, across: &Direction, place: usize) -> Option<Atom>
    requires along { IsKnown along.now }
    requires across { IsKnown across.now }
    requires in_along { place < length along.now.spans }
    requires in_across { place < length across.now.spans }
    ensures small { IfSome result IsSmallAtom }
    ensures present { IfSome result (IsLastOfBox along.now across.now place) }
{
    if seen_of(along, place).presence.sure {
        return last_atom(across, place);
    }
    if seen_of(across, place).presence.sure {
        return last_atom(along, place);
    }
    common_atom(along, across, place)
}

/// Adds that a box is absent, if exactly one of its atoms is open.
fn exclude(
    x: &Direction,
    y: &Direction,
    pair: Pair,
    found: &mut Vec<Narrowing>,
) -> Result<(), AllocError>
    requires x { IsKnown x.now }
    requires y { IsKnown y.now }
    requires in_x { pair.before < length x.now.spans }
    requires in_y { pair.before < length y.now.spans }
    requires absent { IsBoxAbsent x.now y.now pair.before }
    ensures given { OnOk result (AddsGiven x.now y.now found.old.items found.new.items) }
    ensures kept { OnOk result (KeepsTargets found.old.items found.new.items) }
{
    if let Some(atom) = last_of_box(x, y, pair.before) {
        found.push(Narrowing {
            target: atom.negate(),
            hint: pair.hint(),
        })?;
    }
    Ok(())
}

/// Adds what two boxes give that overlap in both directions. Answers true where both are surely present.
fn clash(
    x: &Direction,
    y: &Direction,
    pair: Pair,
    found: &mut Vec<Narrowing>,
) -> Result<bool, AllocError>
    requires x { IsKnown x.now }
    requires y { IsKnown y.now }
    requires pair { AreBoxes x.now.spans y.now.spans pair }
    requires in_x { Overlap x.now.seen.items pair }
    requires in_y { Overlap y.now.seen.items pair }
    ensures given { OnOk result (AddsGiven x.now y.now found.old.items found.new.items) }
    ensures impossible { result ≡ Ok true → LeavesNoBody x.now y.now }
    ensures allowed { result ≡ Ok false → AreBoxesAllowed x.now.seen.items y.now.seen.items pair }
    ensures kept { OnOk result (KeepsTargets found.old.items found.new.items) }
{
    let before = is_sure(x, y, pair.before);
    let after = is_sure(x, y, pair.after);
    if before && after {
        return Ok(true);
    }
    if after {
        exclude(x, y, pair, found)?;
    } else if before {
        exclude(x, y, pair.swapped(), found)?;
    }
    Ok(false)
}

/// Adds what two boxes give. Answers true if they leave no way.
fn meet(
    x: &Direction,
    y: &Direction,
    pair: Pair,
    found: &mut Vec<Narrowing>,
) -> Result<bool, AllocError>
    requires x { IsKnown x.now }
    requires y { IsKnown y.now }
    requires pair { AreBoxes x.now.spans y.now.spans pair }
    ensures given { OnOk result (AddsGiven x.now y.now found.old.items found.new.items) }
    ensures impossible { result ≡ Ok true → LeavesNoBody x.now y.now }
    ensures allowed { result ≡ Ok false → AreBoxesAllowed x.now.seen.items y.now.seen.items pair }
    ensures rest { result ≡ Ok false → Settles x.now y.now (AreBoxesSettled x.now y.now pair)
        found.old.items found.new.items }
{
    let in_x = overlap(x, pair);
    let in_y = overlap(y, pair);
    if in_x && in_y {
        return clash(x, y, pair, found);
    }
    if in_y {
        order(x, y, pair, found)?;
    } else if in_x {
        order(y, x, pair, found)?;
    }
    Ok(false)
}

/// Adds what one box implies with each that stands before it, or finds one that it must overlap.
fn meet_below(
    x: &Direction,
    y: &Direction,
    place: usize,
    found: &mut Vec<Narrowing>,
) -> Result<Option<Pair>, AllocError>
    requires x { IsKnown x.now }
    requires y { IsKnown y.now }
    requires place_x { place < length x.now.spans }
    requires place_y { place < length y.now.spans }
    ensures given { OnOk result (AddsGiven x.now y.now found.old.items found.new.items) }
    ensures impossible { IfOk result (λ answer. IfSome answer (λ pair. LeavesNoBody x.now y.now)) }
    ensures allowed { result ≡ Ok None → AllowsBoxes x.now.seen.items y.now.seen.items place place }
    ensures rest { result ≡ Ok None → Settles x.now y.now (AreFirstSettled x.now y.now place place)
        found.old.items found.new.items }
{
    for other in 0..place {
        let pair = Pair {
            before: place,
            after: other,
        };
        if meet(x, y, pair, found)? {
            return Ok(Some(pair));
        }
    }
    Ok(None)
}

/// Adds what each two boxes give, or finds two that leave no way.
pub(crate) fn meet_all(
    x: &Direction,
    y: &Direction,
    count: usize,
    found: &mut Vec<Narrowing>,
) -> Result<Option<Pair>, AllocError>
    requires x { IsKnown x.now }
    requires y { IsKnown y.now }
    requires count { IsCount (length x.now.spans) (length y.now.spans) count }
    ensures given { OnOk result (AddsGiven x.now y.now found.old.items found.new.items) }
    ensures impossible { IfOk result (λ answer. IfSome answer (λ pair. LeavesNoBody x.now y.now)) }
    ensures allowed { result ≡ Ok None → AreAllAllowed x.now.seen.items y.now.seen.items count }
    ensures rest { result ≡ Ok None → Settles x.now y.now (AreAllSettled x.now y.now count)
        found.old.items found.new.items }
{
    for place in 0..count {
        if let Some(pair) = meet_below(x, y, place, found)? {
            return Ok(Some(pair));
        }
    }
    Ok(None)
}
