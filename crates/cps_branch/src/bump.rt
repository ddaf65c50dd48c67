//! How a learnt clause bumps the activities of its variables.
ghost use Rattle.std.specs.Prelude.{ℕ, ◌≡◌, ◌↔◌, ◌<◌, ◌≤◌, ◌/◌, ◌^◌, IsTrue, length, map, false, true, slice_index, slice_index_or};
ghost use Rattle.cps_branch.specs.Activities.{speaks_of, AreGained, AreBumped, AreSmall, NoneMarked, ReachesLimit, MarksOne};

use cps_literal::Atom;

/// All activities are halved when one reaches this, which keeps the counts small. No worker of the program comes to it:
/// it learns from some 10^9 conflicts at most.
const MOST: u64 = 1 << 40;

/// Bumps a subject that is a variable and is not marked, and marks it. Answers whether its activity reached the limit.
fn bump_one(activities: &mut [u64], marks: &mut [bool], subject: usize) -> bool
    requires same_length { length marks.old ≡ length activities.old }
    requires small { (i : ℕ) → i < length activities.old → slice_index activities.old i ≤ 2 ^ 40 }
    requires unmarked { (i : ℕ) → i < length activities.old → slice_index_or marks.old i false ≡ false
        → slice_index activities.old i < 2 ^ 40 }
    ensures bumps { MarksOne subject marks.old marks.new activities.old activities.new }
    ensures reached { IsTrue result
        ↔ ((subject < length activities.new) × (2 ^ 40 ≤ slice_index activities.new subject)) }
{
    if activities.len() <= subject {
        return false;
    }
    if !marks[subject] {
        marks[subject] = true;
        activities[subject] += 1;
    }
    MOST <= activities[subject]
}

/// Bumps each variable of the clause by 1, and marks it. Answers whether one reached the limit.
fn bump(activities: &mut [u64], marks: &mut [bool], clause: &[Atom]) -> bool
    requires same_length { length marks.old ≡ length activities.old }
    requires small { AreSmall activities.old }
    requires unmarked { NoneMarked marks.old }
    ensures gains { AreGained clause.now activities.old activities.new }
    ensures marked { (i : ℕ) → i < length activities.old → slice_index_or marks.new i false ≡ speaks_of clause.now i }
    ensures reached { IsTrue result ↔ ReachesLimit activities.new }
{
    let mut reached = false;
    for atom in clause {
        if bump_one(activities, marks, atom.subject as usize) {
            reached = true;
        }
    }
    reached
}

/// Takes back the marks of the clause's variables.
fn unmark(marks: &mut [bool], clause: &[Atom])
    requires { (i : ℕ) → i < length marks.old → slice_index_or marks.old i false ≡ speaks_of clause.now i }
    ensures { NoneMarked marks.new }
{
    for atom in clause {
        let subject = atom.subject as usize;
        if subject < marks.len() {
            marks[subject] = false;
        }
    }
}

/// Halves each activity.
fn halve(activities: &mut [u64])
    ensures { activities.new ≡ map (λ a. a / 2) activities.old }
{
    for activity in activities.iter_mut() {
        *activity /= 2;
    }
}

/// Bumps each variable of the clause by 1, and halves all activities where one reached the limit. Answers whether it
/// did.
pub(crate) fn bump_all(activities: &mut [u64], marks: &mut [bool], clause: &[Atom]) -> bool
    requires same_length { length marks.old ≡ length activities.old }
    requires small { AreSmall activities.old }
    requires unmarked { NoneMarked marks.old }
    ensures bumped { AreBumped clause.now activities.old activities.new }
    ensures gained { result ≡ false → AreGained clause.now activities.old activities.new }
    ensures halved { result ≡ true → AreGained clause.now activities.old activities.new → ⊥ }
    ensures small { AreSmall activities.new }
    ensures unmarked { NoneMarked marks.new }
{
    let reached = bump(activities, marks, clause);
    unmark(marks, clause);
    if reached {
        halve(activities);
    }
    reached
}
