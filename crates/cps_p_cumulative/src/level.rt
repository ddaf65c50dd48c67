//! Whether the level at a time surely passes a limit.
//!
//! An event that has surely taken place by the time counts its least change, one that surely has not counts nothing,
//! and any other whichever is less. That sum is no more than what the level comes to, and where all is fixed it is the
//! level. It rises only at an event's greatest time, where the event becomes sure, so the levels at these times tell of
//! every time. Before any event the level is 0, which lies between the limits.
ghost use Rattle.std.specs.Prelude.{◌≡◌, ◌≤◌, ◌<◌, ◌^◌, ◌-◌, ◌+ℤ◌, unsigned_abs, length, false, true, IsTrue, IfSome, None};
ghost use Rattle.cps_rule.specs.Rules.{IsImpossible, IsAtRest};
ghost use Rattle.cps_p_cumulative.specs.Levels.{IsMoveOf, IsTankOf, IsShare, IsLevel, IsMoveSure, IsSureFixed, IsLeastToward, AllowsZero, HasRoomAfter, moves_of, tank_body};

use crate::tank::{Move, Side, Tank, toward};
use cps_literal::Truth;
use cps_rule::Hint;
use cps_trail::Before;

/// The least that a change counts towards a side.
fn least_toward(past: &Before, side: Side, change: u32) -> i128
    requires { change < length past.now.first }
    ensures { IsLeastToward past.now side change result }
{
    let (low, high) = past.ends(change);
    match side {
        Side::Over => toward(side, low),
        Side::Under => toward(side, high),
    }
}

/// Whether an event has surely taken place by a time.
pub(crate) fn has_surely_acted(past: &Before, time: i64, event: &Move) -> bool
    requires { IsMoveOf past.now.first event.now }
    ensures yes { IsTrue result → IsMoveSure past.now time event.now true }
    ensures no { result ≡ false → IsSureFixed past.now time event.now false }
{
    if time < past.ends(event.time).1 {
        return false;
    }
    match event.active {
        Some(atom) => match past.truth(atom) {
            Truth::Yes => true,
            _ => false,
        },
        None => true,
    }
}

/// Whether an event may have taken place by a time.
pub(crate) fn may_have_acted(past: &Before, time: i64, event: &Move) -> bool
    requires { IsMoveOf past.now.first event.now }
    ensures no { result ≡ false → IsMoveSure past.now time event.now false }
    ensures yes { IsTrue result → IsSureFixed past.now time event.now true }
{
    if time < past.ends(event.time).0 {
        return false;
    }
    match event.active {
        Some(atom) => match past.truth(atom) {
            Truth::No => false,
            _ => true,
        },
        None => true,
    }
}

/// What an event adds towards a side by a time at least.
pub(crate) fn share(past: &Before, time: i64, side: Side, event: &Move) -> i128
    requires { IsMoveOf past.now.first event.now }
    ensures { IsShare past.now time side event.now result }
{
    if !may_have_acted(past, time, event) {
        return 0;
    }
    let least = least_toward(past, side, event.change);
    if has_surely_acted(past, time, event) {
        return least;
    }
    if least < 0 {
        return least;
    }
    0
}

/// A sum and one share more.
fn plus(sum: i128, share: i128) -> i128
    requires sum { unsigned_abs sum ≤ 2 ^ 127 - 2 ^ 64 }
    requires share { unsigned_abs share ≤ 2 ^ 63 }
    ensures { result ≡ sum +ℤ share }
{
    sum + share
}

/// What all events add towards a side by a time at least.
pub(crate) fn least_level(past: &Before, time: i64, side: Side, tank: &Tank) -> i128
    requires { IsTankOf past.now.first tank.now }
    ensures { IsLevel past.now time side (moves_of tank.now) result }
{
    let mut sum: i128 = 0;
    for k in 0..tank.count() {
        sum = plus(sum, share(past, time, side, &tank.move_at(k)));
    }
    sum
}

/// Whether the level surely passes a side's limit at an event's greatest time.
fn passes(past: &Before, tank: &Tank, side: Side, event: &Move) -> bool
    requires tank { IsTankOf past.now.first tank.now }
    requires zero { AllowsZero tank.now }
    requires event { IsMoveOf past.now.first event.now }
    ensures over { IsTrue result → IsImpossible (tank_body tank.now) past.now }
    ensures room { result ≡ false → HasRoomAfter past.now tank.now side event.now }
{
    let time = past.ends(event.time).1;
    let limit = tank.limit(side);
    let level = least_level(past, time, side, tank);
    if limit < level {
        return true;
    }
    false
}

/// A time at which the level surely passes a limit.
pub(crate) fn passing(past: &Before, tank: &Tank) -> Option<Hint>
    requires tank { IsTankOf past.now.first tank.now }
    requires zero { AllowsZero tank.now }
    ensures over { IfSome result (λ hint. IsImpossible (tank_body tank.now) past.now) }
    ensures kept { result ≡ None → IsAtRest (tank_body tank.now) past.now }
{
    for k in 0..tank.count() {
        let event = tank.move_at(k);
        if passes(past, tank, Side::Over, &event) {
            return Some(hint_at(past.ends(event.time).1, Side::Over, k));
        }
        if passes(past, tank, Side::Under, &event) {
            return Some(hint_at(past.ends(event.time).1, Side::Under, k));
        }
    }
    None
}

/// A hint of a time, a side, and an event that has taken place by then.
pub(crate) fn hint_at(time: i64, side: Side, k: usize) -> Hint {
    let place = k.min(1 << 62) as i64;
    match side {
        Side::Over => Hint { a: time, b: place },
        Side::Under => Hint {
            a: time,
            b: -1 - place,
        },
    }
}
