//! Reservoirs: active events change a level, which stays between two bounds.
ghost use Rattle.std.specs.Prelude.{◌≡◌, ◌↔◌, ◌++◌, IfOk, IsTrue, length};
ghost use Rattle.std.specs.List.{list_all};
ghost use Rattle.cps_model.specs.Reservoirs.{event_of, all_events, active_events, events, IsReservoir};
ghost use Rattle.cps_model.specs.Rules.{is_none_or_each};
ghost use Rattle.cps_model.specs.Ready.{are_named, are_small, is_ready};
ghost use Rattle.cps_eval.specs.Levels.{has_small_change, have_small_changes};

use crate::levels::levels_lie_between;
use crate::values::{expression_value, literal_holds};
use cps_model::{Event, LinearExpr};
use std::alloc::{AllocError, Global};

/// The event of a time and a change.
fn event_of(time: &LinearExpr, change: &LinearExpr, values: &[i64]) -> Event
    requires time { IsTrue (is_ready values.now time.now) }
    requires change { IsTrue (is_ready values.now change.now) }
    requires small { IsTrue (are_small values.now) }
    ensures value { result ≡ event_of values.now time.now change.now }
    ensures near { IsTrue (has_small_change result) }
{
    Event {
        time: expression_value(time, values),
        change: expression_value(change, values),
    }
}

/// An event of each time with its change.
fn all_events(
    alloc: Global,
    times: &[LinearExpr],
    changes: &[LinearExpr],
    values: &[i64],
) -> Result<Vec<Event>, AllocError>
    requires paired { length times.now ≡ length changes.now }
    requires times { IsTrue (list_all (is_ready values.now) times.now) }
    requires changes { IsTrue (list_all (is_ready values.now) changes.now) }
    requires small { IsTrue (are_small values.now) }
    ensures value { IfOk result (λ found. found.items ≡ all_events values.now times.now changes.now) }
    ensures near { IfOk result (λ found. IsTrue (have_small_changes found.items)) }
{
    let mut found = Vec::new(alloc);
    for (k, time) in times.iter().enumerate() {
        found.push(event_of(time, &changes[k], values))?;
    }
    Ok(found)
}

/// The events whose literals are true.
fn active_events(
    alloc: Global,
    times: &[LinearExpr],
    changes: &[LinearExpr],
    active: &[i32],
    values: &[i64],
) -> Result<Vec<Event>, AllocError>
    requires paired { length times.now ≡ length changes.now }
    requires literals { length active.now ≡ length times.now }
    requires times { IsTrue (list_all (is_ready values.now) times.now) }
    requires changes { IsTrue (list_all (is_ready values.now) changes.now) }
    requires named { IsTrue (are_named values.now active.now) }
    requires small { IsTrue (are_small values.now) }
    ensures value { IfOk result (λ found. found.items ≡ active_events values.now times.now changes.now active.now) }
    ensures near { IfOk result (λ found. IsTrue (have_small_changes found.items)) }
{
    let mut found = Vec::new(alloc);
    for (k, time) in times.iter().enumerate() {
        if !literal_holds(active[k], values) {
            continue;
        }
        found.push(event_of(time, &changes[k], values))?;
    }
    Ok(found)
}

/// The events that are active: without literals all of them.
pub fn events(
    alloc: Global,
    times: &[LinearExpr],
    changes: &[LinearExpr],
    active: &[i32],
    values: &[i64],
) -> Result<Vec<Event>, AllocError>
    requires paired { length times.now ≡ length changes.now }
    requires literals { IsTrue (is_none_or_each (length active.now) (length times.now)) }
    requires sums { IsTrue (list_all (is_ready values.now) (times.now ++ changes.now)) }
    requires named { IsTrue (are_named values.now active.now) }
    requires small { IsTrue (are_small values.now) }
    ensures value { IfOk result (λ found. found.items ≡ events values.now times.now changes.now active.now) }
    ensures near { IfOk result (λ found. IsTrue (have_small_changes found.items)) }
{
    if active.is_empty() {
        all_events(alloc, times, changes, values)
    } else {
        active_events(alloc, times, changes, active, values)
    }
}

/// Whether the level stays between two bounds.
pub fn is_reservoir(least: i64, greatest: i64, events: Vec<Event>) -> bool
    requires { IsTrue (have_small_changes events.items) }
    ensures { IsTrue result ↔ IsReservoir least greatest events.items }
{
    levels_lie_between(events, i128::from(least), i128::from(greatest))
}
