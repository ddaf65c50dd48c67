//! The facts by which an element gives an atom, or cannot hold.
//!
//! An element says that one of its cases holds: the index is that place, and the expression there has the target's
//! value. For each case one or two facts close it (the index is elsewhere, or two ends keep expression and target
//! apart), or make the atom true in it. The index's two bounds come first, since each closes many cases.

ghost use Rattle.std.specs.Prelude.{ℕ, ◌≡◌, ◌<◌, ◌^◌, length, Ok, true, false, IfSome};
ghost use Rattle.cps_instance.specs.declared.task.Body.TheVariants.{Element};
ghost use Rattle.cps_rule.specs.Facts.{GivesGoal};
ghost use Rattle.cps_p_lookup.specs.Elements.{IsFitElement, Closes, IsAtomMoved, ArePart, IsLeft};

use crate::facts::{LIMIT, atom, is_met, push_both, push_fact, push_where};
use crate::places::{Lookup, end_of_places, first_place};
use cps_literal::{Atom, Op};
use cps_trail::Before;
use std::alloc::AllocError;

/// The index is a place, and the expression there has the target's value.
#[derive(Clone, Copy)]
struct Case {
    index: u32,
    target: u32,
    expr: u32,
    place: usize,
}

/// The atom of the target that gives one of the expression, or the other way round.
fn moved(case: &Case, goal: Atom) -> Option<Atom>
    ensures { IfSome result (IsAtomMoved case.now.expr case.now.target goal) }
{
    if goal.subject == case.target {
        return Some(atom(case.expr, goal.op, goal.value));
    }
    if goal.subject == case.expr {
        return Some(atom(case.target, goal.op, goal.value));
    }
    None
}

/// Adds the fact with which a case gives an atom, where one is needed. Answers false where it does not give it.
fn give(
    past: &Before,
    goal: Option<Atom>,
    case: &Case,
    facts: &mut Vec<Atom>,
) -> Result<bool, AllocError>
    requires target { case.now.target < length past.now.first }
    requires expr { case.now.expr < length past.now.first }
    requires place { case.now.place < 2 ^ 62 }
    ensures yes { result ≡ Ok true → Closes past.now
        case.now.index case.now.target case.now.expr case.now.place goal facts.old.items facts.new.items }
    ensures no { result ≡ Ok false → facts.new.items ≡ facts.old.items }
{
    let Some(atom) = goal else {
        return Ok(false);
    };
    if atom.subject == case.index && is_met(atom, case.place as i64) {
        return Ok(true);
    }
    match moved(case, atom) {
        Some(fact) => push_fact(past, fact, facts),
        None => Ok(false),
    }
}

/// Two atoms that keep the expression and the target apart, by their least and greatest values.
fn parting(expr: u32, ends: (i64, i64), target: u32, others: (i64, i64)) -> (Atom, Atom)
    ensures { ArePart expr target result.0 result.1 }
{
    if ends.1 < others.0 {
        return (atom(expr, Op::Le, ends.1), atom(target, Op::Ge, ends.1 + 1));
    }
    if others.1 < ends.0 {
        return (atom(expr, Op::Ge, ends.0), atom(target, Op::Le, ends.0 - 1));
    }
    if ends.0 == ends.1 {
        return (atom(expr, Op::Eq, ends.0), atom(target, Op::Ne, ends.0));
    }
    (atom(expr, Op::Ne, others.0), atom(target, Op::Eq, others.0))
}

/// Adds facts that close a case, or with which it gives an atom.
fn close(
    past: &Before,
    goal: Option<Atom>,
    case: &Case,
    facts: &mut Vec<Atom>,
) -> Result<bool, AllocError>
    requires index { case.now.index < length past.now.first }
    requires target { case.now.target < length past.now.first }
    requires expr { case.now.expr < length past.now.first }
    requires place { case.now.place < 2 ^ 62 }
    ensures { result ≡ Ok true → Closes past.now
        case.now.index case.now.target case.now.expr case.now.place goal facts.old.items facts.new.items }
{
    if give(past, goal, case, facts)? {
        return Ok(true);
    }
    let off = atom(case.index, Op::Ne, case.place as i64);
    if push_fact(past, off, facts)? {
        return Ok(true);
    }
    let ends = past.ends(case.expr);
    let others = past.ends(case.target);
    let (first, second) = parting(case.expr, ends, case.target, others);
    push_both(past, first, second, facts)
}

/// Whether an atom is about a subject.
fn is_about(goal: Option<Atom>, subject: u32) -> bool {
    match goal {
        Some(atom) => atom.subject == subject,
        None => false,
    }
}

/// The places that facts leave to the index; all of them, without facts, where the atom that is to be given is about
/// the index.
fn places_left(
    past: &Before,
    goal: Option<Atom>,
    lookup: &Lookup,
    facts: &mut Vec<Atom>,
) -> Result<Option<(usize, usize)>, AllocError>
    requires { lookup.now.index < length past.now.first }
    ensures { (window : ℕ × ℕ) → result ≡ Ok (Some window)
        → IsLeft past.now lookup.now.index lookup.now.exprs.now facts.old.items facts.new.items window }
{
    let places = lookup.exprs.len();
    if places > LIMIT as usize {
        return Ok(None);
    }
    if is_about(goal, lookup.index) {
        return Ok(Some((0, places)));
    }
    let (low, high) = past.ends(lookup.index);
    let from = first_place(low);
    let to = end_of_places(high, places);
    if !push_where(past, from > 0, atom(lookup.index, Op::Ge, low), facts)? {
        return Ok(None);
    }
    if !push_where(past, to < places, atom(lookup.index, Op::Le, high), facts)? {
        return Ok(None);
    }
    Ok(Some((from, to)))
}

/// Makes the facts those by which an element gives an atom, or by which it cannot hold where there is none to give.
pub(crate) fn justify(
    past: &Before,
    goal: Option<Atom>,
    lookup: &Lookup,
    facts: &mut Vec<Atom>,
) -> Result<bool, AllocError>
    requires { IsFitElement past.now.first lookup.now.index lookup.now.target lookup.now.exprs.now }
    ensures { result ≡ Ok true → GivesGoal
        (Element lookup.now.index lookup.now.target lookup.now.exprs.now) past.now goal facts.new.items }
{
    facts.clear();
    let Some(window) = places_left(past, goal, lookup, facts)? else {
        return Ok(false);
    };
    for place in window.0..window.1 {
        let case = Case {
            index: lookup.index,
            target: lookup.target,
            expr: lookup.exprs[place],
            place,
        };
        if !close(past, goal, &case, facts)? {
            return Ok(false);
        }
    }
    Ok(true)
}
