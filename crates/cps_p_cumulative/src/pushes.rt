//! What the level at a time leaves to single events.
//!
//! The room of an event is what the least level leaves up to the limit without the event's own share. An event whose
//! least change passes its room comes later or not at all. Where the room is below 0 the event is needed: it takes
//! place by the time, with a change no greater than the room.
//!
//! Nothing is claimed here: what is found is certified before it is used.
ghost use Rattle.std.specs.Prelude.{◌≡◌, ◌<◌, length, IfSome};
ghost use Rattle.cps_p_cumulative.specs.Levels.{IsMoveOf};

use crate::charge::{at_least, at_most, is_inside};
use crate::level::{has_surely_acted, may_have_acted, share};
use crate::segments::time_of;
use crate::tank::{Move, Side};
use cps_literal::{Atom, Truth};
use cps_trail::Before;

/// What the least level at a time leaves up to the limit of a side.
#[derive(Clone, Copy)]
pub(crate) struct Slack {
    pub(crate) side: Side,
    pub(crate) time: i64,
    pub(crate) room: i128,
}

/// What the side's limit leaves to one event beside the others, and what the event counts at least and at most.
#[derive(Clone, Copy)]
struct Bounds {
    room: i128,
    least: i128,
    most: i128,
}

/// The bounds of an event.
fn bounds_of(past: &Before, slack: Slack, event: &Move) -> Bounds
    requires { IsMoveOf past.now.first event.now }
{
    let room = slack
        .room
        .wrapping_add(share(past, slack.time, slack.side, event));
    let (low, high) = past.ends(event.change);
    let (low, high) = (i128::from(low), i128::from(high));
    match slack.side {
        Side::Over => Bounds {
            room,
            least: low,
            most: high,
        },
        Side::Under => Bounds {
            room,
            least: -high,
            most: -low,
        },
    }
}

/// Whether an event takes place wherever it may be, or is known not to.
fn is_decided(past: &Before, active: Option<Atom>) -> bool
    requires { IfSome active (λ u. u.subject < length past.now.first) }
{
    match active {
        Some(atom) => match past.truth(atom) {
            Truth::Undecided => false,
            _ => true,
        },
        None => true,
    }
}

/// That an event comes after the time, or by then.
fn push_time(past: &Before, slack: Slack, event: &Move, bounds: Bounds) -> Option<Atom>
    requires { IsMoveOf past.now.first event.now }
    ensures { IfSome result (λ u. u.subject < length past.now.first) }
{
    let (early, late) = past.ends(event.time);
    if slack.time < early || late <= slack.time || !is_inside(slack.time) {
        return None;
    }
    if bounds.room < 0 {
        return Some(at_most(event.time, slack.time));
    }
    if bounds.room < bounds.least && is_decided(past, event.active) {
        return Some(at_least(event.time, slack.time + 1));
    }
    None
}

/// That an event takes place, or does not.
fn push_active(past: &Before, slack: Slack, event: &Move, bounds: Bounds) -> Option<Atom>
    requires { IsMoveOf past.now.first event.now }
    ensures { IfSome result (λ u. u.subject < length past.now.first) }
{
    let Some(atom) = event.active else {
        return None;
    };
    if is_decided(past, event.active) || !is_inside(atom.value) {
        return None;
    }
    if bounds.room < 0 {
        return Some(atom);
    }
    if bounds.room < bounds.least && past.ends(event.time).1 <= slack.time {
        return Some(atom.negate());
    }
    None
}

/// That a change counts no more towards a side than so much, as near as an atom says it.
fn at_most_toward(side: Side, change: u32, most: i128) -> Atom
    ensures { result.subject ≡ change }
{
    let most = time_of(most);
    match side {
        Side::Over => at_most(change, most),
        Side::Under => at_least(change, most.wrapping_neg()),
    }
}

/// That a change counts no more than is left.
fn push_change(past: &Before, slack: Slack, event: &Move, bounds: Bounds) -> Option<Atom>
    requires { IsMoveOf past.now.first event.now }
    ensures { IfSome result (λ u. u.subject < length past.now.first) }
{
    if bounds.most <= bounds.room {
        return None;
    }
    if bounds.room < 0 || has_surely_acted(past, slack.time, event) {
        return Some(at_most_toward(slack.side, event.change, bounds.room));
    }
    None
}

/// What the level at the time leaves to one event.
#[derive(Clone, Copy)]
pub(crate) struct Pushes {
    pub(crate) time: Option<Atom>,
    pub(crate) active: Option<Atom>,
    pub(crate) change: Option<Atom>,
}

/// What the level at a time leaves to one event.
pub(crate) fn pushes_of(past: &Before, slack: Slack, event: &Move) -> Pushes
    requires { IsMoveOf past.now.first event.now }
    ensures time { IfSome result.time (λ u. u.subject < length past.now.first) }
    ensures active { IfSome result.active (λ u. u.subject < length past.now.first) }
    ensures change { IfSome result.change (λ u. u.subject < length past.now.first) }
{
    let bounds = bounds_of(past, slack, event);
    if !may_have_acted(past, slack.time, event) {
        return Pushes {
            time: None,
            active: None,
            change: None,
        };
    }
    Pushes {
        time: push_time(past, slack, event, bounds),
        active: push_active(past, slack, event, bounds),
        change: push_change(past, slack, event, bounds),
    }
}
