//! A level that events change. The events are sorted by time and added up in that order; the level is looked at after
//! the last event of each time, since only there it is the level at that time.
ghost use Rattle.std.specs.Prelude.{◌≡◌, ◌<◌, ◌≤◌, ◌+◌, ◌^◌, ◌↔◌, ◌+ℤ◌, ◌≤ℤ◌, IsTrue, IsPermutation, length, unsigned_abs};
ghost use Rattle.cps_model.specs.Reservoirs.{IsReservoir};
ghost use Rattle.cps_eval.specs.Levels.{AreInOrder, have_small_changes, is_last_of_time};

use cps_model::Event;

/// A level after one change more.
fn after_change(level: i128, change: i64) -> i128
    requires level { unsigned_abs level < 2 ^ 126 }
    requires change { unsigned_abs change < 2 ^ 62 }
    ensures { result ≡ level +ℤ change }
{
    level + i128::from(change)
}

/// Whether a level lies between two others.
fn lies_between(level: i128, least: i128, greatest: i128) -> bool
    ensures { IsTrue result ↔ ((least ≤ℤ level) × (level ≤ℤ greatest)) }
{
    least <= level && level <= greatest
}

/// Whether no later event has the time of this one, of events in order of time.
fn is_last_of_time(events: &[Event], k: usize) -> bool
    requires { k < length events.now }
    ensures { result ≡ is_last_of_time events.now k }
{
    events.len() <= k + 1 || events[k].time < events[k + 1].time
}

/// Whether the level at each event's time lies between two others, of events in order of time.
fn ordered_levels_lie_between(events: &[Event], least: i128, greatest: i128) -> bool
    requires order { AreInOrder events.now }
    requires small { IsTrue (have_small_changes events.now) }
    ensures { IsTrue result ↔ IsReservoir least greatest events.now }
{
    let mut level: i128 = 0;
    for (k, event) in events.iter().enumerate() {
        level = after_change(level, event.change);
        if is_last_of_time(events, k) && !lies_between(level, least, greatest) {
            return false;
        }
    }
    true
}

/// Sorts events by time.
fn sort_by_time(events: &mut Vec<Event>)
    ensures order { AreInOrder events.new.items }
    ensures moved { IsPermutation events.old.items events.new.items }
{
    events.sort_unstable_by_key(|event| event.time);
}

/// Whether the level at each event's time lies between two others.
pub fn levels_lie_between(mut events: Vec<Event>, least: i128, greatest: i128) -> bool
    requires { IsTrue (have_small_changes events.items) }
    ensures { IsTrue result ↔ IsReservoir least greatest events.items }
{
    sort_by_time(&mut events);
    ordered_levels_lie_between(events.as_slice(), least, greatest)
}
