//! Trials of the Boolean kinds: one makes a propagator over four literals, decides some, runs it, and shows the conflict
//! or the reason of the last entry.

ghost use Rattle.std.specs.Prelude.{◌≡◌, [], All, IfOk};
ghost use Rattle.cps_domain.specs.Window.{intervals};
ghost use Rattle.cps_instance.specs.Fitting.{IsFitting};
ghost use Rattle.cps_propagation_tests.specs.Bits.{IsBit, IsOverBits, bit, four_bits};

use crate::runs::run;
use crate::stores::{are_bits, decide_all};
use cps_domain::Domain;
use cps_instance::{Body, Task};
use cps_literal::Atom;
use cps_model::Listed;
use cps_p_bool::Boolean;
use cps_trail::Store;
use std::alloc::{AllocError, Global};

/// What a run came to.
#[derive(Clone, Copy)]
pub struct Came {
    /// How many atoms its conflict has.
    pub conflict: Option<usize>,
    /// How many entries there are.
    pub entries: usize,
    /// The last entry's atom.
    pub last: Option<Atom>,
}

/// What a list of atoms is to be.
#[derive(Clone, Copy)]
pub enum Kind {
    Or,
    And,
    AtMostOne,
    ExactlyOne,
    Xor,
}

/// The values 0 and 1.
pub fn zero_or_one(alloc: Global) -> Result<Domain, AllocError>
    ensures { IfOk result (λ domain. intervals domain ≡ bit) }
{
    Domain::of_bounds(alloc, &[0, 1])
}

/// A store of four subjects with the values 0 and 1.
pub fn store_of_bits(alloc: Global) -> Result<Store, AllocError>
    ensures first { IfOk result (λ store. store.first ≡ four_bits) }
    ensures none { IfOk result (λ store. store.entries ≡ []) }
    ensures level { IfOk result (λ store. store.level ≡ 0) }
{
    let first = zero_or_one(alloc)?;
    let second = zero_or_one(alloc)?;
    let third = zero_or_one(alloc)?;
    let fourth = zero_or_one(alloc)?;
    Store::new(alloc, &[first, second, third, fourth])
}

fn body(alloc: Global, kind: Kind, atoms: &[Atom]) -> Result<Body, AllocError>
    requires { All (IsBit 0 4) atoms.now }
    ensures { IfOk result IsOverBits }
{
    let list = Listed::from_vec(Vec::from_slice(alloc, atoms)?);
    match kind {
        Kind::Or => Ok(Body::BoolOr(list)),
        Kind::And => Ok(Body::BoolAnd(list)),
        Kind::AtMostOne => Ok(Body::AtMostOne(list)),
        Kind::ExactlyOne => Ok(Body::ExactlyOne(list)),
        Kind::Xor => Ok(Body::BoolXor(list)),
    }
}

/// The propagator of a task of a kind.
pub fn boolean(
    alloc: Global,
    kind: Kind,
    enforcement: &[Atom],
    atoms: &[Atom],
) -> Result<Boolean, AllocError>
    requires enforcement { All (IsBit 0 4) enforcement.now }
    requires atoms { All (IsBit 0 4) atoms.now }
    ensures { IfOk result (λ propagator. IsFitting four_bits propagator) }
{
    let body = body(alloc, kind, atoms)?;
    let task = Task {
        enforcement: Listed::from_vec(Vec::from_slice(alloc, enforcement)?),
        body,
    };
    let propagator = Boolean::of(alloc, &task)?;
    Ok(propagator)
}

/// What a run came to whose conflict or reason has so many atoms.
fn came_to(store: &Store, is_settled: bool, atoms: usize) -> Came {
    let entries = store.entries();
    let last = match entries.last() {
        Some(entry) => Some(entry.atom),
        None => None,
    };
    Came {
        conflict: if is_settled { None } else { Some(atoms) },
        entries: entries.len(),
        last,
    }
}

/// Runs a propagator after decisions. What the run came to, and the conflict or the reason of the last entry.
fn ran(
    alloc: Global,
    propagator: &mut Boolean,
    decisions: &[Atom],
) -> Result<(Came, Vec<Atom>), AllocError>
    requires { IsFitting four_bits propagator.old }
{
    let mut store = store_of_bits(alloc)?;
    decide_all(&mut store, decisions)?;
    let (is_settled, clause) = run(alloc, propagator, &mut store)?;
    Ok((came_to(&store, is_settled, clause.len()), clause))
}

/// The same of the propagator of a task; `None` also where an atom is over none of the four subjects.
pub fn explained_trial(
    alloc: Global,
    kind: Kind,
    enforcement: &[Atom],
    atoms: &[Atom],
    decisions: &[Atom],
) -> Option<(Came, Vec<Atom>)> {
    if !are_bits(0, 4, enforcement) || !are_bits(0, 4, atoms) {
        return None;
    }
    let mut propagator = boolean(alloc, kind, enforcement, atoms).ok()?;
    ran(alloc, &mut propagator, decisions).ok()
}
