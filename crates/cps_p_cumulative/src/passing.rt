//! Why a level passes a limit.
//!
//! One search for facts serves conflicts and narrowings alike, as for resources: it sums what events add towards a side
//! by a time, by facts that were true and one atom that is assumed, and sees that the sum passes the limit. An event
//! that adds counts where it is seen to take place by the time, one that takes away is left out where it is seen not
//! to, and of any other the change alone is bounded.
ghost use Rattle.std.specs.Prelude.{◌≡◌, ◌<◌, ◌+ℤ◌, true, false, ℤ, length, IfSome, Ok, Some};
ghost use Rattle.cps_instance.specs.Tasks.{HoldsBody, subjects_of_body};
ghost use Rattle.cps_rule.specs.Rules.{AreFacts};
ghost use Rattle.cps_p_cumulative.specs.Levels.{IsMoveOf, IsTankOf, IsTowardBound, IsAdded, AreAdded, IsRest, is_active, has_acted, active_subjects, move_subjects, moves_of, tank_body};
ghost use Rattle.cps_p_cumulative.specs.Relying.{Relies};

use crate::charge::{Case, at_least, at_most, is_inside, is_known, rely};
use crate::tank::{Move, Side, Tank, toward};
use cps_literal::{Atom, Op};
use cps_rule::Hint;
use cps_trail::Before;
use std::alloc::AllocError;

/// A side, and an event that is to have taken place where the limit is beyond 0.
#[derive(Clone, Copy)]
pub(crate) struct Point {
    pub(crate) side: Side,
    pub(crate) place: usize,
}

/// The point that a hint tells.
pub(crate) fn point_of(hint: Hint) -> Point {
    if hint.b < 0 {
        return Point {
            side: Side::Under,
            place: (-1 - hint.b) as usize,
        };
    }
    Point {
        side: Side::Over,
        place: hint.b as usize,
    }
}

/// That a change counts so much towards a side, or more, where that is an atom.
fn toward_bound(side: Side, change: u32, value: i128) -> Option<Atom>
    ensures { IfSome result (IsTowardBound side change value) }
{
    if value < -(1 << 62) || (1 << 62) < value {
        return None;
    }
    match side {
        Side::Over => Some(at_least(change, value as i64)),
        Side::Under => Some(at_most(change, -(value as i64))),
    }
}

/// Sees that an event takes place.
fn rely_active(
    past: &Before,
    case: Case,
    active: Option<Atom>,
    facts: &mut Vec<Atom>,
) -> Result<bool, AllocError>
    requires subject { IfSome active (λ u. u.subject < length past.now.first) }
    requires facts { AreFacts past.now facts.old.items }
    ensures { result ≡ Ok true → Relies past.now case.assumed (active_subjects active)
        (λ xs. is_active xs active ≡ true) facts.old.items facts.new.items }
{
    match active {
        Some(atom) => rely(past, case, atom, facts),
        None => Ok(true),
    }
}

/// Sees that an event has taken place by the time.
fn rely_acted(
    past: &Before,
    case: Case,
    event: &Move,
    facts: &mut Vec<Atom>,
) -> Result<bool, AllocError>
    requires event { IsMoveOf past.now.first event.now }
    requires facts { AreFacts past.now facts.old.items }
    ensures { result ≡ Ok true → Relies past.now case.assumed (move_subjects event.now)
        (λ xs. has_acted xs case.time event.now ≡ true) facts.old.items facts.new.items }
{
    if !rely_active(past, case, event.active, facts)? {
        return Ok(false);
    }
    rely(past, case, at_most(event.time, case.time), facts)
}

/// The denial of the atom with which an event takes place, where it is known.
fn absence_of(past: &Before, case: Case, event: &Move) -> Option<Atom>
    requires { IsMoveOf past.now.first event.now }
    ensures { IfSome result (IsRest past.now.first case.time event.now) }
{
    let Some(atom) = event.active else {
        return None;
    };
    if !is_inside(atom.value) {
        return None;
    }
    let denial = atom.negate();
    if is_known(past, case, denial) {
        return Some(denial);
    }
    None
}

/// That an event comes after the time, where it is known.
fn lateness_of(past: &Before, case: Case, event: &Move) -> Option<Atom>
    requires { IsMoveOf past.now.first event.now }
    ensures { IfSome result (IsRest past.now.first case.time event.now) }
{
    if !is_inside(case.time) {
        return None;
    }
    let later = at_least(event.time, case.time + 1);
    if is_known(past, case, later) {
        return Some(later);
    }
    None
}

/// Whether an event seems to have taken place by the time.
fn seems_acting(past: &Before, case: Case, event: &Move) -> bool
    requires { IsMoveOf past.now.first event.now }
{
    let is_active = match event.active {
        Some(atom) => is_known(past, case, atom),
        None => true,
    };
    is_active && is_known(past, case, at_most(event.time, case.time))
}

/// What a change seems to count towards a side at least.
fn seeming_change(past: &Before, case: Case, side: Side, change: u32) -> i128
    requires { change < length past.now.first }
{
    let (low, high) = past.ends(change);
    let is_assumed = case.assumed.subject == change;
    match (side, case.assumed.op) {
        (Side::Over, Op::Ge) if is_assumed => toward(side, low.max(case.assumed.value)),
        (Side::Under, Op::Le) if is_assumed => toward(side, high.min(case.assumed.value)),
        (Side::Over, _) => toward(side, low),
        (Side::Under, _) => toward(side, high),
    }
}

/// What an event seems to add towards a side by the time at least.
fn seeming_share(past: &Before, case: Case, side: Side, event: &Move) -> i128
    requires { IsMoveOf past.now.first event.now }
{
    let least = seeming_change(past, case, side, event.change);
    if 0 < least && !seems_acting(past, case, event) {
        return 0;
    }
    least
}

/// A known atom that says that an event which would take away has not taken place by the time.
fn rest_of(past: &Before, case: Case, event: &Move, seeming: i128) -> Option<Atom>
    requires { IsMoveOf past.now.first event.now }
    ensures { IfSome result (IsRest past.now.first case.time event.now) }
{
    if 0 <= seeming {
        return None;
    }
    match absence_of(past, case, event) {
        Some(absence) => Some(absence),
        None => lateness_of(past, case, event),
    }
}

/// Sees what one event adds towards a side by the time. None where that is not seen.
fn charge_move(
    past: &Before,
    case: Case,
    side: Side,
    event: &Move,
    facts: &mut Vec<Atom>,
) -> Result<Option<i128>, AllocError>
    requires event { IsMoveOf past.now.first event.now }
    requires facts { AreFacts past.now facts.old.items }
    ensures { (v : ℤ) → result ≡ Ok (Some v)
        → Relies past.now case.assumed (move_subjects event.now)
        (IsAdded side case.time event.now v) facts.old.items facts.new.items }
{
    let counted = seeming_share(past, case, side, event);
    if let Some(rest) = rest_of(past, case, event, counted) {
        if rely(past, case, rest, facts)? {
            return Ok(Some(0));
        }
        return Ok(None);
    }
    let Some(bound) = toward_bound(side, event.change, counted) else {
        return Ok(None);
    };
    if !rely(past, case, bound, facts)? {
        return Ok(None);
    }
    if counted <= 0 {
        return Ok(Some(counted));
    }
    if !rely_acted(past, case, event, facts)? {
        return Ok(None);
    }
    Ok(Some(counted))
}

/// A number beyond which no sum of changes is looked at.
const FAR: i128 = 1 << 100;

/// A sum of two numbers that are not far.
fn plus_within(sum: i128, added: i128) -> Option<i128>
    ensures { IfSome result (λ v. v ≡ sum +ℤ added) }
{
    if sum < -FAR || FAR < sum || added < -FAR || FAR < added {
        return None;
    }
    Some(sum + added)
}

/// Sees what all events add towards a side by the time.
fn charge_moves(
    past: &Before,
    case: Case,
    side: Side,
    tank: &Tank,
    facts: &mut Vec<Atom>,
) -> Result<Option<i128>, AllocError>
    requires tank { IsTankOf past.now.first tank.now }
    requires facts { AreFacts past.now facts.old.items }
    ensures { (v : ℤ) → result ≡ Ok (Some v)
        → Relies past.now case.assumed (subjects_of_body (tank_body tank.now))
        (AreAdded side case.time (moves_of tank.now) v) facts.old.items facts.new.items }
{
    let mut sum: i128 = 0;
    for k in 0..tank.count() {
        let Some(added) = charge_move(past, case, side, &tank.move_at(k), facts)? else {
            return Ok(None);
        };
        let Some(next) = plus_within(sum, added) else {
            return Ok(None);
        };
        sum = next;
    }
    Ok(Some(sum))
}

/// Adds facts by which, with the assumed atom, the level passes the limit of a side. Returns false if it finds none.
pub(crate) fn charge_level(
    past: &Before,
    case: Case,
    point: Point,
    tank: &Tank,
    facts: &mut Vec<Atom>,
) -> Result<bool, AllocError>
    requires tank { IsTankOf past.now.first tank.now }
    requires facts { AreFacts past.now facts.old.items }
    ensures { result ≡ Ok true → Relies past.now case.assumed (subjects_of_body (tank_body tank.now))
        (λ xs. HoldsBody (tank_body tank.now) xs → ⊥) facts.old.items facts.new.items }
{
    let limit = tank.limit(point.side);
    let Some(sum) = charge_moves(past, case, point.side, tank, facts)? else {
        return Ok(false);
    };
    if sum <= limit {
        return Ok(false);
    }
    if 0 <= limit {
        return Ok(true);
    }
    if tank.count() <= point.place {
        return Ok(false);
    }
    rely_acted(past, case, &tank.move_at(point.place), facts)
}
