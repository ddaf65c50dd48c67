//! A base of clauses and a store that are settled in turn.

ghost use Rattle.std.specs.Prelude.{ℕ, ◌≡◌, OnOk, Ok, IsTrue};
ghost use Rattle.cps_clauses.specs.Quiet.{Fits};
ghost use Rattle.cps_learning_tests.specs.Resting.{IsBaseReady, IsBaseAtRest};

use cps_clauses::{ClauseBase, Origin};
use cps_literal::{Atom, normal_clause};
use cps_model::Bound;
use cps_trail::{Step, Store};
use std::alloc::{AllocError, Global};

/// Whether the subjects of atoms exist.
fn fits(store: &Store, atoms: &[Atom]) -> bool
    ensures { IsTrue result → Fits store.now.first atoms.now }
{
    for atom in atoms {
        if store.len() <= atom.subject as usize {
            return false;
        }
    }
    true
}

/// Whether a base has a clause with this number and these atoms.
pub(crate) fn has_clause(base: &ClauseBase, number: u32, atoms: &[Atom]) -> bool {
    (number as usize) < base.len() && base.is_clause(number, atoms)
}

/// Adds a clause at level 0; an error where one of its subjects does not exist.
pub(crate) fn add(
    alloc: Global,
    base: &mut ClauseBase,
    store: &Store,
    atoms: &[Atom],
    origin: Origin,
) -> Result<(), AllocError>
    requires { store.now.level ≡ 0 }
    ensures { OnOk result ((from : ℕ) → IsBaseReady base.old store.now from → IsBaseReady base.new store.now from) }
{
    if base.len() >= u32::MAX as usize {
        return Err(AllocError);
    }
    let clause = normal_clause(alloc, atoms)?;
    if !fits(store, clause.as_slice()) {
        return Err(AllocError);
    }
    base.add(clause, Bound::At(7), origin)?;
    Ok(())
}

/// Settles from an entry number on.
pub(crate) fn settle_from(
    base: &mut ClauseBase,
    store: &mut Store,
    from: usize,
) -> Result<Step, AllocError>
    requires { IsBaseReady base.old store.old from }
    ensures rest { result ≡ Ok Step.Settled → IsBaseAtRest base.new store.new }
    ensures level { OnOk result (store.new.level ≡ store.old.level) }
{
    base.settle(store, from)
}

/// The same; an error where a clause is false.
pub(crate) fn settle(
    base: &mut ClauseBase,
    store: &mut Store,
    from: usize,
) -> Result<(), AllocError>
    requires { IsBaseReady base.old store.old from }
    ensures rest { OnOk result (IsBaseAtRest base.new store.new) }
    ensures level { OnOk result (store.new.level ≡ store.old.level) }
{
    match settle_from(base, store, from)? {
        Step::Settled => Ok(()),
        Step::Conflict(_) => Err(AllocError),
    }
}

/// Adds a clause at level 0 and settles; how often clauses were read by then.
pub(crate) fn settle_more(
    alloc: Global,
    base: &mut ClauseBase,
    store: &mut Store,
    atoms: &[Atom],
) -> Result<u64, AllocError>
    requires rest { IsBaseAtRest base.old store.old }
    requires level { store.old.level ≡ 0 }
    ensures rest { OnOk result (IsBaseAtRest base.new store.new) }
    ensures level { OnOk result (store.new.level ≡ 0) }
{
    add(alloc, base, store, atoms, Origin::Learnt)?;
    let from = store.entries().len();
    settle(base, store, from)?;
    Ok(base.visits())
}
