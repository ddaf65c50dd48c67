//! Which narrowings wake a propagator of literals.
//!
//! A narrowing leaves the subject of a literal one value. Where an enforcement literal is false at it, the task asks
//! nothing any more. Where a literal of a clause is true at it, or one is false of which at most one may be true, each
//! list of values at which the body holds lets it hold with that value too; so no other literal is forced that was not
//! before. For these narrowings the propagator is not woken. A literal of the normal form is looked up by its subject,
//! since there each subject stands once.

ghost use Rattle.std.specs.Prelude.{◌≡◌, ◌≢◌, pos, All, false};
ghost use Rattle.cps_p_bool.specs.Waking.{TurnsTrue, IsFavoured, IsSpared};

use crate::boolean::Kind;
use cps_literal::{Atom, Op};
use cps_propagate::Wake;

/// A task, and what its kind says in normal form: `rest` must hold of `live`.
#[derive(Drop)]
pub struct Literals<'a> {
    pub enforcement: &'a [Atom],
    pub atoms: &'a [Atom],
    pub rest: Kind,
    pub live: &'a [Atom],
}

/// Which narrowing of a subject makes a literal about it true; `Any` for every other atom.
fn where_true(atom: Atom, subject: u32) -> Wake
    ensures rise { result ≡ Wake.Rise → TurnsTrue atom subject (pos 0) (pos 1) }
    ensures fall { result ≡ Wake.Fall → TurnsTrue atom subject (pos 1) (pos 0) }
{
    if atom.subject != subject {
        return Wake::Any;
    }
    match atom.op {
        Op::Ge => {
            if atom.value == 1 {
                return Wake::Rise;
            }
            Wake::Any
        }
        Op::Le => {
            if atom.value == 0 {
                return Wake::Fall;
            }
            Wake::Any
        }
        _ => Wake::Any,
    }
}

/// The narrowing that makes a literal false which this one makes true.
fn opposite(wake: Wake) -> Wake
    ensures rise { result ≡ Wake.Rise → wake ≡ Wake.Fall }
    ensures fall { result ≡ Wake.Fall → wake ≡ Wake.Rise }
{
    match wake {
        Wake::Rise => Wake::Fall,
        Wake::Fall => Wake::Rise,
        Wake::Any => Wake::Any,
    }
}

/// Whether an atom of a list is about a subject.
fn is_named(atoms: &[Atom], subject: u32) -> bool
    ensures { result ≡ false → All (λ u. u.subject ≢ subject) atoms.now }
{
    for atom in atoms {
        if atom.subject == subject {
            return true;
        }
    }
    false
}

/// Which narrowings of a subject may end that a kind holds of literals, which are sorted by subject.
fn where_ended(rest: Kind, live: &[Atom], subject: u32) -> Wake
    ensures rise { result ≡ Wake.Rise → IsFavoured rest live.now subject (pos 0) }
    ensures fall { result ≡ Wake.Fall → IsFavoured rest live.now subject (pos 1) }
{
    let place = live.partition_point(|atom| atom.subject < subject);
    if place >= live.len() {
        return Wake::Any;
    }
    let wake = where_true(live[place], subject);
    match rest {
        Kind::Or | Kind::And => opposite(wake),
        Kind::AtMostOne => wake,
        _ => Wake::Any,
    }
}

/// Which narrowings of a subject wake the propagator. `place` is a place in the list of enforcement atoms, or beyond it
/// in that of the body's, at which an atom may be about the subject.
pub fn wake_of_literals(task: &Literals, subject: u32, place: usize) -> Wake
    ensures rise { result ≡ Wake.Rise
        → IsSpared task.now.enforcement.now task.now.atoms.now task.now.rest task.now.live.now subject (pos 0) }
    ensures fall { result ≡ Wake.Fall
        → IsSpared task.now.enforcement.now task.now.atoms.now task.now.rest task.now.live.now subject (pos 1) }
{
    let count = task.enforcement.len();
    if place < count {
        return where_true(task.enforcement[place], subject);
    }
    let beyond = place - count;
    if beyond >= task.atoms.len() || is_named(task.enforcement, subject) {
        return Wake::Any;
    }
    match where_true(task.atoms[beyond], subject) {
        Wake::Any => Wake::Any,
        _ => where_ended(task.rest, task.live, subject),
    }
}
