//! What a journal says, read item by item.

use crate::resting::has_clause;
use crate::small::{one, zero};
use cps_clauses::{ClauseBase, Journal, JournalItem, Origin};
use cps_literal::{Atom, normal_clause};
use cps_model::Bound;
use std::alloc::{AllocError, Global};
use std::test::Fail;

/// Learns a clause that holds below a bound.
fn learn(
    alloc: Global,
    base: &mut ClauseBase,
    atoms: &[Atom],
    below: Bound,
) -> Result<(), AllocError> {
    if base.len() >= u32::MAX as usize {
        return Err(AllocError);
    }
    let clause = normal_clause(alloc, atoms)?;
    base.add(clause, below, Origin::Learnt)
}

/// Whether an item of a journal is a learnt clause of these atoms, below this bound.
fn says(
    alloc: Global,
    journal: &Journal,
    place: usize,
    atoms: &[Atom],
    below: Bound,
) -> Result<bool, AllocError> {
    if journal.len() <= place {
        return Ok(false);
    }
    match journal.item(alloc, place)? {
        JournalItem::Learnt(clause, bound) => Ok(clause.as_slice() == atoms && bound == below),
        JournalItem::Drop(_) => Ok(false),
    }
}

/// Learns two clauses that share an atom, the second of which has two atoms that the first has not.
fn learn_two(alloc: Global, base: &mut ClauseBase) -> Result<(), AllocError> {
    learn(alloc, base, &[one(0), one(1)], Bound::Infinite)?;
    learn(alloc, base, &[zero(0), one(1), zero(2)], Bound::At(5))
}

/// What is read of them in the journal.
fn read(alloc: Global, base: &ClauseBase) -> Result<[bool; 4], AllocError> {
    let journal = base.journal();
    Ok([
        says(alloc, journal, 0, &[one(0), one(1)], Bound::Infinite)?,
        says(alloc, journal, 1, &[zero(0), one(1), zero(2)], Bound::At(5))?,
        base.last_learnt() == [zero(0), one(1), zero(2)].as_slice(),
        // Five atoms of four bytes, at least.
        journal.room() >= 20,
    ])
}

/// The same once they are learnt.
fn two_read(alloc: Global) -> Result<[bool; 4], AllocError> {
    let mut base = ClauseBase::new(alloc);
    learn_two(alloc, &mut base)?;
    read(alloc, &base)
}

#[test]
fn clauses_that_share_an_atom_are_read_as_they_were_learnt(rt: HostRuntime) -> Result<(), Fail> {
    assert!(rt; two_read(rt.alloc())? == [true, true, true, true]);
    Ok(())
}

/// Whether each of them is told by its atoms, and by none in another order, by fewer and by others.
fn two_told(alloc: Global) -> Result<[bool; 5], AllocError> {
    let mut base = ClauseBase::new(alloc);
    learn_two(alloc, &mut base)?;
    Ok([
        has_clause(&base, 0, &[one(0), one(1)]),
        has_clause(&base, 1, &[zero(0), one(1), zero(2)]),
        has_clause(&base, 1, &[one(1), zero(0), zero(2)]),
        has_clause(&base, 1, &[zero(0), one(1)]),
        has_clause(&base, 1, &[one(0), one(1), zero(2)]),
    ])
}

#[test]
fn a_clause_is_told_by_its_atoms(rt: HostRuntime) -> Result<(), Fail> {
    assert!(rt; two_told(rt.alloc())? == [true, true, false, false, false]);
    Ok(())
}
