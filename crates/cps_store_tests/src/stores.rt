//! Decisions, implications and jumps back.

use cps_domain::{Cut, Domain};
use cps_literal::{Atom, Clause, Op, Truth};
use cps_trail::Store;
use std::alloc::{AllocError, Global};
use std::test::Fail;

fn at_most(subject: u32, value: i64) -> Atom {
    Atom {
        subject,
        op: Op::Le,
        value,
    }
}

fn at_least(subject: u32, value: i64) -> Atom {
    Atom {
        subject,
        op: Op::Ge,
        value,
    }
}

/// Decides an atom; an error where it is true or false already.
fn decide(store: &mut Store, atom: Atom) -> Result<(), AllocError> {
    if store.len() <= atom.subject as usize {
        return Err(AllocError);
    }
    match store.truth(atom) {
        Truth::Undecided => store.decide(atom),
        _ => Err(AllocError),
    }
}

/// Makes an atom true because another is false; how many entries made the other so. An error where it is not.
fn implied(
    alloc: Global,
    store: &mut Store,
    other: Atom,
    atom: Atom,
) -> Result<(usize, Cut), AllocError> {
    if store.len() <= other.subject as usize {
        return Err(AllocError);
    }
    if store.len() <= atom.subject as usize {
        return Err(AllocError);
    }
    match store.truth(other) {
        Truth::No => {}
        _ => return Err(AllocError),
    }
    let place = store.falsified(other);
    let mut reason = Clause::new(alloc);
    reason.push(other)?;
    reason.push(atom)?;
    let cut = store.imply(atom, reason)?;
    Ok((place, cut))
}

/// The values 0 and 1.
fn zero_or_one(alloc: Global) -> Result<Domain, AllocError> {
    Domain::of_bounds(alloc, &[0, 1])
}

/// A store of three subjects with the values 0 and 1.
fn bits(alloc: Global) -> Result<Store, AllocError> {
    let first = zero_or_one(alloc)?;
    let second = zero_or_one(alloc)?;
    let third = zero_or_one(alloc)?;
    Store::new(alloc, &[first, second, third])
}

/// What two implications after a decision come to.
#[derive(Clone, Copy, PartialEq, Eq)]
struct Came {
    /// How many entries made the first one's reason false.
    falsified: usize,
    /// What the second one does.
    cut: Cut,
    /// How many entries there are.
    entries: usize,
    /// And at level 0.
    at_level_0: usize,
}

fn run(alloc: Global, store: &mut Store) -> Result<Came, AllocError> {
    decide(store, at_most(0, 0))?;
    let (falsified, _) = implied(alloc, store, at_least(0, 1), at_least(1, 1))?;
    let (_, cut) = implied(alloc, store, at_least(0, 1), at_least(2, 1))?;
    let entries = store.entries().len();
    store.backjump(0);
    Ok(Came {
        falsified,
        cut,
        entries,
        at_level_0: store.entries().len(),
    })
}

#[test]
fn decides_implies_and_goes_back(rt: HostRuntime) -> Result<(), Fail> {
    let mut store = bits(rt.alloc())?;
    let wanted = Came {
        falsified: 1,
        cut: Cut::Narrowed,
        entries: 3,
        at_level_0: 0,
    };
    assert!(rt; run(rt.alloc(), &mut store)? == wanted);
    Ok(())
}

/// The number of a subject that a store without any is given, and how many it has then.
fn first_added(alloc: Global) -> Result<(u32, usize), AllocError> {
    let mut store = Store::new(alloc, &[])?;
    let number = store.add(Domain::of_bounds(alloc, &[0, 1])?)?;
    Ok((number, store.len()))
}

#[test]
fn adds_a_subject(rt: HostRuntime) -> Result<(), Fail> {
    assert_eq!(rt; first_added(rt.alloc())?, (0, 1));
    Ok(())
}
