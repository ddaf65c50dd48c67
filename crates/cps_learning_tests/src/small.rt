//! Small stores, and atoms about their subjects.

ghost use Rattle.std.specs.Prelude.{◌≡◌, ◌+◌, [], ◌∷◌, ◌++◌, length, IfOk, OnOk};
ghost use Rattle.cps_trail.specs.Trail.{Decision};
ghost use Rattle.cps_clauses.specs.Falls.{IsAtomValue};

use cps_domain::Domain;
use cps_literal::{Atom, Op, Truth};
use cps_trail::Store;
use std::alloc::{AllocError, Global};

/// That a subject is 1 or more.
pub(crate) fn one(subject: u32) -> Atom
    ensures subject { result.subject ≡ subject }
    ensures value { IsAtomValue result.value }
{
    Atom {
        subject,
        op: Op::Ge,
        value: 1,
    }
}

/// That a subject is 0 or less.
pub(crate) fn zero(subject: u32) -> Atom
    ensures subject { result.subject ≡ subject }
    ensures value { IsAtomValue result.value }
{
    Atom {
        subject,
        op: Op::Le,
        value: 0,
    }
}

/// The values 0 and 1.
pub(crate) fn zero_or_one(alloc: Global) -> Result<Domain, AllocError> {
    Domain::of_bounds(alloc, &[0, 1])
}

/// A store of three subjects with the values 0 and 1.
pub(crate) fn bits(alloc: Global) -> Result<Store, AllocError>
    ensures subjects { IfOk result (λ store. length store.first ≡ 3) }
    ensures level { IfOk result (λ store. store.level ≡ 0) }
    ensures entries { IfOk result (λ store. store.entries ≡ []) }
{
    let first = zero_or_one(alloc)?;
    let second = zero_or_one(alloc)?;
    let third = zero_or_one(alloc)?;
    Store::new(alloc, &[first, second, third])
}

/// Decides an atom; an error where it is true or false already.
pub(crate) fn decide(store: &mut Store, atom: Atom) -> Result<(), AllocError>
    ensures { OnOk result (store.new ≡ record store.old {
      entries = store.old.entries ++ record {
        atom = atom;
        level = store.old.level + 1;
        reason = Decision;
      } ∷ [];
      level = store.old.level + 1;
    }) }
{
    if store.len() <= atom.subject as usize {
        return Err(AllocError);
    }
    match store.truth(atom) {
        Truth::Undecided => store.decide(atom),
        _ => Err(AllocError),
    }
}
