//! Reasons of a Boolean task's narrowings, made when they are asked for from the domains as they stood before. The note
//! says at which places the literals stand that gave the narrowing. What it says is tested: where the kind's rule does
//! not give the atom, no reason is made here.

ghost use Rattle.std.specs.Prelude.{◌≡◌, ◌<◌, ◌≤◌, [], ◌∷◌, true, Ok, IsTrue, All, List, length, slice_index_or};
ghost use Rattle.cps_literal.specs.declared.atom.Atom.{Atom as AtomOf};
ghost use Rattle.cps_instance.specs.declared.task.Body.{Body};
ghost use Rattle.cps_instance.specs.declared.task.Body.TheVariants.{BoolAnd, ExactlyOne, BoolXor};
ghost use Rattle.cps_trail.specs.Trail.{IsTrueNow, IsFalseNow};
ghost use Rattle.cps_propagate.specs.Notes.{IsReasonBy};
ghost use Rattle.cps_p_bool.specs.Seeking.{IsInForce};
ghost use Rattle.cps_p_bool.specs.Denying.{IsFit, AreLiterals, Denies, GivesAtom, task_of};
ghost use Rattle.cps_p_bool.specs.Explaining.{IsExplanation, IsRuledOut, AsksForOne};
ghost use Rattle.cps_p_bool.specs.Rules.{LimitsToOne};
ghost use Rattle.cps_p_bool.specs.Normal.{IsNormalForm};
ghost use Rattle.cps_p_bool.specs.Bodies.{body_of};

use crate::boolean::Kind;
use crate::odd::count_true;
use crate::reasons::{deny_all, deny_antecedents, explain};
use crate::seek::{Sought, in_force, seek};
use cps_literal::{Atom, Truth};
use cps_trail::{Before, Store};
use std::alloc::AllocError;

/// A task as its propagator keeps it: where the enforcement literals are true, those of `sure` are, and `rest` holds of
/// `live`.
#[derive(Drop)]
pub struct TaskForm<'a> {
    pub enforcement: &'a [Atom],
    pub sure: &'a [Atom],
    pub rest: Kind,
    pub live: &'a [Atom],
}

/// An entry's atom, and the two places that its note has.
#[derive(Clone, Copy)]
pub struct Noted {
    atom: Atom,
    place: usize,
    other: usize,
}

/// What a narrowing follows from: the enforcement literals, and the literals of the body that are used.
#[derive(Clone, Copy)]
struct Antecedents<'a> {
    enforcement: &'a [Atom],
    used: &'a [Atom],
}

/// The reason of an atom, if it is the one that the used literals give.
fn explain_as(
    past: &Before,
    from: &Antecedents<'_>,
    given: Atom,
    atom: Atom,
    reason: &mut Vec<Atom>,
) -> Result<bool, AllocError>
    requires fits { AreLiterals past.now.first from.now.enforcement.now }
    requires used_fit { AreLiterals past.now.first from.now.used.now }
    requires subject { given.subject < length past.now.first }
    ensures { result ≡ Ok true → (body : Body)
        → GivesAtom past.now (task_of from.now.enforcement.now body) from.now.used.now given
        → IsExplanation past.now (task_of from.now.enforcement.now body) atom reason.new.items }
{
    if given == atom {
        explain(reason, past, from.enforcement, from.used, atom)?;
        return Ok(true);
    }
    Ok(false)
}

/// The reason of a literal, where all literals must be true.
fn explain_each(
    past: &Before,
    enforcement: &[Atom],
    atoms: &[Atom],
    noted: Noted,
    reason: &mut Vec<Atom>,
) -> Result<bool, AllocError>
    requires fits { AreLiterals past.now.first enforcement.now }
    requires atoms_fit { AreLiterals past.now.first atoms.now }
    requires enforced { All (IsTrueNow past.now) enforcement.now }
    ensures { result ≡ Ok true → IsExplanation past.now
        (task_of enforcement.now (BoolAnd atoms.now)) noted.atom reason.new.items }
{
    if noted.place >= atoms.len() {
        return Ok(false);
    }
    let from = Antecedents {
        enforcement,
        used: &[],
    };
    explain_as(past, &from, atoms[noted.place], noted.atom, reason)
}

/// The first place of an atom in a list; the list's length where it is not there.
fn place_of(atoms: &[Atom], atom: Atom) -> usize
    ensures within { result ≤ length atoms.now }
    ensures found { (d : AtomOf) → result < length atoms.now → slice_index_or atoms.now result d ≡ atom }
{
    for place in 0..atoms.len() {
        if atoms[place] == atom {
            return place;
        }
    }
    atoms.len()
}

/// Adds an atom to a reason if it was false, and answers whether it was.
fn deny_if_false(past: &Before, atom: Atom, reason: &mut Vec<Atom>) -> Result<bool, AllocError>
    requires { IsFit past.now.first atom }
    ensures denies { result ≡ Ok true → Denies past.now reason.old.items reason.new.items (atom ∷ []) }
    ensures false_then { result ≡ Ok true → IsFalseNow past.now atom }
{
    match past.truth(atom) {
        Truth::No => {
            reason.push(atom)?;
            Ok(true)
        }
        _ => Ok(false),
    }
}

/// Adds the atoms of a list to a reason, as long as they were false, and answers whether all were. So the test that
/// they were and the reason are one walk.
fn deny_false(past: &Before, atoms: &[Atom], reason: &mut Vec<Atom>) -> Result<bool, AllocError>
    requires { AreLiterals past.now.first atoms.now }
    ensures denies { result ≡ Ok true → Denies past.now reason.old.items reason.new.items atoms.now }
    ensures all_false { result ≡ Ok true → All (IsFalseNow past.now) atoms.now }
{
    for atom in atoms {
        if !deny_if_false(past, *atom, reason)? {
            return Ok(false);
        }
    }
    Ok(true)
}

/// The reason of the one literal that was not false, where one must be true.
fn explain_last(
    past: &Before,
    enforcement: &[Atom],
    atoms: &[Atom],
    atom: Atom,
    reason: &mut Vec<Atom>,
) -> Result<bool, AllocError>
    requires fits { AreLiterals past.now.first enforcement.now }
    requires atoms_fit { AreLiterals past.now.first atoms.now }
    requires enforced { All (IsTrueNow past.now) enforcement.now }
    ensures { result ≡ Ok true → (body : Body) → AsksForOne body atoms.now
        → IsExplanation past.now (task_of enforcement.now body) atom reason.new.items }
{
    let place = place_of(atoms, atom);
    if place == atoms.len() {
        return Ok(false);
    }
    reason.clear();
    deny_all(reason, past, enforcement)?;
    if !deny_false(past, &atoms[..place], reason)? {
        return Ok(false);
    }
    if !deny_false(past, &atoms[place + 1..], reason)? {
        return Ok(false);
    }
    reason.push(atom)?;
    Ok(true)
}

/// The reason of the opposite of a literal beside one that was true, where one may be.
fn explain_beside(
    past: &Before,
    enforcement: &[Atom],
    atoms: &[Atom],
    noted: Noted,
    reason: &mut Vec<Atom>,
) -> Result<bool, AllocError>
    requires fits { AreLiterals past.now.first enforcement.now }
    requires atoms_fit { AreLiterals past.now.first atoms.now }
    requires enforced { All (IsTrueNow past.now) enforcement.now }
    ensures { result ≡ Ok true → (body : Body) → LimitsToOne body atoms.now
        → IsExplanation past.now (task_of enforcement.now body) noted.atom reason.new.items }
{
    let place = noted.place;
    let chosen = noted.other;
    if place >= atoms.len() {
        return Ok(false);
    }
    if chosen >= atoms.len() {
        return Ok(false);
    }
    if place == chosen {
        return Ok(false);
    }
    let used = [atoms[chosen]];
    if !past.truth(used[0]).is_yes() {
        return Ok(false);
    }
    let given = atoms[place].negate();
    let from = Antecedents {
        enforcement,
        used: used.as_slice(),
    };
    explain_as(past, &from, given, noted.atom, reason)
}

/// The reason of a literal or of its opposite, where exactly one must be true.
fn explain_one(
    past: &Before,
    enforcement: &[Atom],
    atoms: &[Atom],
    noted: Noted,
    reason: &mut Vec<Atom>,
) -> Result<bool, AllocError>
    requires fits { AreLiterals past.now.first enforcement.now }
    requires atoms_fit { AreLiterals past.now.first atoms.now }
    requires enforced { All (IsTrueNow past.now) enforcement.now }
    ensures { result ≡ Ok true → IsExplanation past.now
        (task_of enforcement.now (ExactlyOne atoms.now)) noted.atom reason.new.items }
{
    if noted.place == noted.other {
        return explain_last(past, enforcement, atoms, noted.atom, reason);
    }
    explain_beside(past, enforcement, atoms, noted, reason)
}

/// The reason of the one literal that was open or of its opposite, where an odd number must be true.
fn explain_odd(
    past: &Before,
    enforcement: &[Atom],
    atoms: &[Atom],
    atom: Atom,
    reason: &mut Vec<Atom>,
) -> Result<bool, AllocError>
    requires fits { AreLiterals past.now.first enforcement.now }
    requires atoms_fit { AreLiterals past.now.first atoms.now }
    requires enforced { All (IsTrueNow past.now) enforcement.now }
    ensures { result ≡ Ok true → IsExplanation past.now
        (task_of enforcement.now (BoolXor atoms.now)) atom reason.new.items }
{
    let place = seek(past, atoms, 0, Sought::Open);
    if place == atoms.len() {
        return Ok(false);
    }
    let second = seek(past, atoms, place + 1, Sought::Open);
    if second < atoms.len() {
        return Ok(false);
    }
    let before = count_true(past, &atoms[..place]);
    let after = count_true(past, &atoms[place + 1..]);
    let from = Antecedents {
        enforcement,
        used: atoms,
    };
    if (before + after) % 2 == 0 {
        return explain_as(past, &from, atoms[place], atom, reason);
    }
    let given = atoms[place].negate();
    explain_as(past, &from, given, atom, reason)
}

/// The reason of an atom that a kind's rule gave where the task was in force.
fn explain_given(
    past: &Before,
    form: &TaskForm<'_>,
    noted: Noted,
    reason: &mut Vec<Atom>,
) -> Result<bool, AllocError>
    requires fits { AreLiterals past.now.first form.now.enforcement.now }
    requires live_fits { AreLiterals past.now.first form.now.live.now }
    requires enforced { All (IsTrueNow past.now) form.now.enforcement.now }
    ensures { result ≡ Ok true → IsExplanation past.now
        (task_of form.now.enforcement.now (body_of form.now.rest form.now.live.now)) noted.atom reason.new.items }
{
    let enforcement = form.enforcement;
    let atoms = form.live;
    match form.rest {
        Kind::Empty => Ok(false),
        Kind::Or => explain_last(past, enforcement, atoms, noted.atom, reason),
        Kind::And => explain_each(past, enforcement, atoms, noted, reason),
        Kind::AtMostOne => explain_beside(past, enforcement, atoms, noted, reason),
        Kind::ExactlyOne => explain_one(past, enforcement, atoms, noted, reason),
        Kind::Xor => explain_odd(past, enforcement, atoms, noted.atom, reason),
    }
}

/// Denies a literal that was false, where all must be true.
fn deny_failed(
    past: &Before,
    enforcement: &[Atom],
    atoms: &[Atom],
    place: usize,
    reason: &mut Vec<Atom>,
) -> Result<bool, AllocError>
    requires fits { AreLiterals past.now.first enforcement.now }
    requires atoms_fit { AreLiterals past.now.first atoms.now }
    ensures { result ≡ Ok true → IsRuledOut past.now enforcement.now (BoolAnd atoms.now) reason.new.items }
{
    if place >= atoms.len() {
        return Ok(false);
    }
    let used = [atoms[place]];
    if !past.truth(used[0]).is_no() {
        return Ok(false);
    }
    deny_antecedents(reason, past, enforcement, used.as_slice())?;
    Ok(true)
}

/// Denies all literals, where one must be true and all were false.
fn deny_none(
    past: &Before,
    enforcement: &[Atom],
    atoms: &[Atom],
    reason: &mut Vec<Atom>,
) -> Result<bool, AllocError>
    requires fits { AreLiterals past.now.first enforcement.now }
    requires atoms_fit { AreLiterals past.now.first atoms.now }
    ensures { result ≡ Ok true → (body : Body) → AsksForOne body atoms.now
        → IsRuledOut past.now enforcement.now body reason.new.items }
{
    reason.clear();
    deny_all(reason, past, enforcement)?;
    deny_false(past, atoms, reason)
}

/// Denies two literals that were true, where one may be.
fn deny_two(
    past: &Before,
    enforcement: &[Atom],
    atoms: &[Atom],
    noted: Noted,
    reason: &mut Vec<Atom>,
) -> Result<bool, AllocError>
    requires fits { AreLiterals past.now.first enforcement.now }
    requires atoms_fit { AreLiterals past.now.first atoms.now }
    ensures { result ≡ Ok true → (body : Body) → LimitsToOne body atoms.now
        → IsRuledOut past.now enforcement.now body reason.new.items }
{
    let first = noted.place;
    let second = noted.other;
    if first >= second {
        return Ok(false);
    }
    if second >= atoms.len() {
        return Ok(false);
    }
    let pair = [atoms[first], atoms[second]];
    if !past.truth(pair[0]).is_yes() {
        return Ok(false);
    }
    if !past.truth(pair[1]).is_yes() {
        return Ok(false);
    }
    deny_antecedents(reason, past, enforcement, pair.as_slice())?;
    Ok(true)
}

/// Denies the literals that break exactly one: two that were true, or all where none was.
fn deny_one(
    past: &Before,
    enforcement: &[Atom],
    atoms: &[Atom],
    noted: Noted,
    reason: &mut Vec<Atom>,
) -> Result<bool, AllocError>
    requires fits { AreLiterals past.now.first enforcement.now }
    requires atoms_fit { AreLiterals past.now.first atoms.now }
    ensures { result ≡ Ok true → IsRuledOut past.now enforcement.now (ExactlyOne atoms.now) reason.new.items }
{
    if noted.place == noted.other {
        return deny_none(past, enforcement, atoms, reason);
    }
    deny_two(past, enforcement, atoms, noted, reason)
}

/// Denies all literals, where an odd number must be true and an even number was.
fn deny_even(
    past: &Before,
    enforcement: &[Atom],
    atoms: &[Atom],
    reason: &mut Vec<Atom>,
) -> Result<bool, AllocError>
    requires fits { AreLiterals past.now.first enforcement.now }
    requires atoms_fit { AreLiterals past.now.first atoms.now }
    ensures { result ≡ Ok true → IsRuledOut past.now enforcement.now (BoolXor atoms.now) reason.new.items }
{
    let place = seek(past, atoms, 0, Sought::Open);
    if place < atoms.len() {
        return Ok(false);
    }
    if count_true(past, atoms) % 2 == 1 {
        return Ok(false);
    }
    deny_antecedents(reason, past, enforcement, atoms)?;
    Ok(true)
}

/// Denies the literals that make the list of a kind impossible.
fn deny_ruled_out(
    past: &Before,
    form: &TaskForm<'_>,
    noted: Noted,
    reason: &mut Vec<Atom>,
) -> Result<bool, AllocError>
    requires fits { AreLiterals past.now.first form.now.enforcement.now }
    requires live_fits { AreLiterals past.now.first form.now.live.now }
    ensures { result ≡ Ok true → IsRuledOut past.now
        form.now.enforcement.now (body_of form.now.rest form.now.live.now) reason.new.items }
{
    let enforcement = form.enforcement;
    let atoms = form.live;
    match form.rest {
        Kind::Empty => Ok(false),
        Kind::Or => deny_none(past, enforcement, atoms, reason),
        Kind::And => deny_failed(past, enforcement, atoms, noted.place, reason),
        Kind::AtMostOne => deny_two(past, enforcement, atoms, noted, reason),
        Kind::ExactlyOne => deny_one(past, enforcement, atoms, noted, reason),
        Kind::Xor => deny_even(past, enforcement, atoms, reason),
    }
}

/// Denies the literals that make a task's body impossible.
fn deny_body(
    past: &Before,
    form: &TaskForm<'_>,
    noted: Noted,
    reason: &mut Vec<Atom>,
) -> Result<bool, AllocError>
    requires fits { AreLiterals past.now.first form.now.enforcement.now }
    requires sure_fits { AreLiterals past.now.first form.now.sure.now }
    requires live_fits { AreLiterals past.now.first form.now.live.now }
    ensures { result ≡ Ok true → (us : List AtomOf) (b : Body) → AreLiterals past.now.first us
        → IsNormalForm us b form.now.sure.now (body_of form.now.rest form.now.live.now) form.now.live.now
        → IsRuledOut past.now form.now.enforcement.now b reason.new.items }
{
    if deny_failed(past, form.enforcement, form.sure, noted.place, reason)? {
        return Ok(true);
    }
    deny_ruled_out(past, form, noted, reason)
}

/// The reason of the opposite of the one enforcement literal that was open.
fn explain_off(
    past: &Before,
    form: &TaskForm<'_>,
    last: usize,
    noted: Noted,
    reason: &mut Vec<Atom>,
) -> Result<bool, AllocError>
    requires fits { AreLiterals past.now.first form.now.enforcement.now }
    requires sure_fits { AreLiterals past.now.first form.now.sure.now }
    requires live_fits { AreLiterals past.now.first form.now.live.now }
    requires in_force { IsInForce past.now form.now.enforcement.now last }
    requires last { last < length form.now.enforcement.now }
    ensures { result ≡ Ok true → (us : List AtomOf) (b : Body) → AreLiterals past.now.first us
        → IsNormalForm us b form.now.sure.now (body_of form.now.rest form.now.live.now) form.now.live.now
        → IsExplanation past.now (task_of form.now.enforcement.now b) noted.atom reason.new.items }
{
    let opposite = form.enforcement[last].negate();
    if opposite == noted.atom {
        if deny_body(past, form, noted, reason)? {
            reason.push(opposite)?;
            return Ok(true);
        }
    }
    Ok(false)
}

/// The reason of an atom that the task gave where it was in force.
fn explain_on(
    past: &Before,
    form: &TaskForm<'_>,
    noted: Noted,
    reason: &mut Vec<Atom>,
) -> Result<bool, AllocError>
    requires fits { AreLiterals past.now.first form.now.enforcement.now }
    requires sure_fits { AreLiterals past.now.first form.now.sure.now }
    requires live_fits { AreLiterals past.now.first form.now.live.now }
    requires enforced { All (IsTrueNow past.now) form.now.enforcement.now }
    ensures { result ≡ Ok true → (us : List AtomOf) (b : Body) → AreLiterals past.now.first us
        → IsNormalForm us b form.now.sure.now (body_of form.now.rest form.now.live.now) form.now.live.now
        → IsExplanation past.now (task_of form.now.enforcement.now b) noted.atom reason.new.items }
{
    if explain_each(past, form.enforcement, form.sure, noted, reason)? {
        return Ok(true);
    }
    explain_given(past, form, noted, reason)
}

/// The reason of an atom that the task gave.
fn explain_noted(
    past: &Before,
    form: &TaskForm<'_>,
    noted: Noted,
    reason: &mut Vec<Atom>,
) -> Result<bool, AllocError>
    requires fits { AreLiterals past.now.first form.now.enforcement.now }
    requires sure_fits { AreLiterals past.now.first form.now.sure.now }
    requires live_fits { AreLiterals past.now.first form.now.live.now }
    ensures { result ≡ Ok true → (us : List AtomOf) (b : Body) → AreLiterals past.now.first us
        → IsNormalForm us b form.now.sure.now (body_of form.now.rest form.now.live.now) form.now.live.now
        → IsExplanation past.now (task_of form.now.enforcement.now b) noted.atom reason.new.items }
{
    let Some(last) = in_force(past, form.enforcement) else {
        return Ok(false);
    };
    if last < form.enforcement.len() {
        return explain_off(past, form, last, noted, reason);
    }
    explain_on(past, form, noted, reason)
}

/// Replaces `reason` by the reason of an entry, if a rule implies its atom at the places of its note.
pub fn explain_entry(
    store: &Store,
    entry: usize,
    form: &TaskForm<'_>,
    reason: &mut Vec<Atom>,
) -> Result<bool, AllocError>
    requires within { entry < length store.now.entries }
    requires fits { AreLiterals store.now.first form.now.enforcement.now }
    requires sure_fits { AreLiterals store.now.first form.now.sure.now }
    requires live_fits { AreLiterals store.now.first form.now.live.now }
    ensures { result ≡ Ok true → (us : List AtomOf) (b : Body) → AreLiterals store.now.first us
        → IsNormalForm us b form.now.sure.now (body_of form.now.rest form.now.live.now) form.now.live.now
        → IsReasonBy (task_of form.now.enforcement.now b) store.now entry reason.new.items }
{
    let shown = store.entries()[entry];
    let (place, other) = shown.reason.witness();
    let Ok(place) = usize::try_from(place) else {
        return Ok(false);
    };
    let Ok(other) = usize::try_from(other) else {
        return Ok(false);
    };
    let noted = Noted {
        atom: shown.atom,
        place,
        other,
    };
    let past = store.before(entry);
    explain_noted(&past, form, noted, reason)
}
