//! What branchers choose one after another, over a store of three subjects, and when they restart.
//!
//! Each run is in helpers that own the model, the instance and the store one inside the other, so that a test holds none
//! of them where a call may fail; the rows that are wanted are written out.

ghost use Rattle.std.specs.Prelude.{◌≡◌, ◌≤◌, length, IfOk};

use crate::models::valid_model;
use cps_branch::{ActivityBrancher, Brancher, FixedBrancher};
use cps_instance::Instance;
use cps_literal::{Atom, Op};
use cps_trail::Store;
use cps_validate::ValidModel;
use std::alloc::{AllocError, Global};
use std::test::Fail;

/// Variables with the values 0 and 1, 2 to 5, and 0 and 1.
const THREE: &str =
    "variables { domain: [0, 1] } variables { domain: [2, 5] } variables { domain: [0, 1] }";

/// Decides what is chosen, where the first `kept` entries are as at the last choice.
fn decide_next<B: Brancher>(
    brancher: &mut B,
    store: &mut Store,
    kept: usize,
) -> Result<Option<Atom>, AllocError>
    requires few { (B.scope brancher.old).subjects ≤ 3 }
    requires no_sums { (B.scope brancher.old).subjects ≤ (B.scope brancher.old).variables }
    requires kept { B.agrees brancher.old store.old kept }
    ensures scope { B.scope brancher.new ≡ B.scope brancher.old }
    ensures agrees { IfOk result (λ _. B.agrees brancher.new store.new (length store.old.entries)) }
{
    if store.len() < 3 {
        return Err(AllocError);
    }
    let choice = brancher.choose_from(store, kept);
    if let Some(atom) = choice {
        store.decide(atom)?;
    }
    Ok(choice)
}

/// Goes back to a level, and answers how many of the first `kept` entries are kept.
fn back<B: Brancher>(brancher: &B, store: &mut Store, level: usize, kept: usize) -> usize
    requires { B.agrees brancher.now store.old kept }
    ensures { B.agrees brancher.now store.new result }
{
    if store.level() < level {
        return kept;
    }
    let end = store.end_of(level);
    store.backjump(level);
    end.min(kept)
}

/// What is chosen at first, after a decision, after another, and after the way back to the first.
fn run<B: Brancher>(brancher: &mut B, store: &mut Store) -> Result<[Option<Atom>; 4], AllocError>
    requires few { (B.scope brancher.old).subjects ≤ 3 }
    requires no_sums { (B.scope brancher.old).subjects ≤ (B.scope brancher.old).variables }
{
    let first = decide_next(brancher, store, 0)?;
    let second = decide_next(brancher, store, 0)?;
    let before_third = store.entries().len();
    let third = decide_next(brancher, store, 0)?;
    let kept = back(brancher, store, 1, before_third);
    let again = decide_next(brancher, store, kept)?;
    Ok([first, second, third, again])
}

/// What is chosen in order, over an instance of three variables and no sum.
fn run_in_order(alloc: Global, instance: &Instance) -> Result<[Option<Atom>; 4], AllocError> {
    if instance.variable_count() != 3 || instance.domains().len() != 3 {
        return Err(AllocError);
    }
    let mut store = Store::new(alloc, instance.domains())?;
    let mut brancher = FixedBrancher::of(alloc, instance)?;
    run(&mut brancher, &mut store)
}

/// The same over a model.
fn choices_in_order(alloc: Global, model: &ValidModel) -> Result<[Option<Atom>; 4], AllocError> {
    let instance = Instance::of(alloc, model)?;
    run_in_order(alloc, &instance)
}

#[test]
fn fixed_goes_in_order(rt: HostRuntime) -> Result<(), Fail> {
    let model = valid_model(&rt, rt.alloc(), THREE, "")?;
    let wanted = [
        Some(atom!(0, Le, 0)),
        Some(atom!(1, Le, 2)),
        Some(atom!(2, Le, 0)),
        Some(atom!(1, Le, 2)),
    ];
    assert!(rt; choices_in_order(rt.alloc(), &model)? == wanted);
    Ok(())
}

/// Whether a brancher wants a restart after each of two clauses.
fn hear_two(brancher: &mut ActivityBrancher) -> [bool; 2]
    ensures { length brancher.new.activities ≡ length brancher.old.activities }
{
    let first = brancher.learnt(&[
        atom!(2, Le, 0),
        atom!(1, Le, 3),
        atom!(2, Le, 1),
        atom!(7, Le, 0),
    ]);
    [first, brancher.learnt(&[atom!(2, Le, 0)])]
}

/// Whether a brancher by activity over an instance of three variables and no sum wants a restart after each of two
/// clauses, and what it chooses then.
fn run_by_activity(
    alloc: Global,
    instance: &Instance,
) -> Result<([bool; 2], [Option<Atom>; 4]), AllocError> {
    if instance.variable_count() != 3 || instance.domains().len() != 3 {
        return Err(AllocError);
    }
    let mut store = Store::new(alloc, instance.domains())?;
    let mut brancher = ActivityBrancher::of(alloc, instance)?;
    let restarts = hear_two(&mut brancher);
    Ok((restarts, run(&mut brancher, &mut store)?))
}

/// The same over a model.
fn choices_after_clauses(
    alloc: Global,
    model: &ValidModel,
) -> Result<([bool; 2], [Option<Atom>; 4]), AllocError> {
    let instance = Instance::of(alloc, model)?;
    run_by_activity(alloc, &instance)
}

#[test]
fn active_follows_learnt_clauses(rt: HostRuntime) -> Result<(), Fail> {
    let model = valid_model(&rt, rt.alloc(), THREE, "")?;
    let choices = [
        Some(atom!(2, Le, 0)),
        Some(atom!(1, Le, 2)),
        Some(atom!(0, Le, 0)),
        Some(atom!(1, Le, 2)),
    ];
    let wanted = ([false, false], choices);
    assert!(rt; choices_after_clauses(rt.alloc(), &model)? == wanted);
    Ok(())
}

/// After which of so many clauses, counted from 1, a brancher wants a restart.
fn hear_many(
    brancher: &mut ActivityBrancher,
    clauses: u32,
    restarts: &mut Vec<u32>,
) -> Result<(), AllocError> {
    for heard in 0..clauses {
        if brancher.learnt(&[]) {
            restarts.push(heard.saturating_add(1))?;
        }
    }
    Ok(())
}

/// The same for a brancher over an instance.
fn restarts_of(alloc: Global, instance: &Instance, clauses: u32) -> Result<Vec<u32>, AllocError> {
    let mut brancher = ActivityBrancher::of(alloc, instance)?;
    let mut restarts = Vec::new(alloc);
    hear_many(&mut brancher, clauses, &mut restarts)?;
    Ok(restarts)
}

/// Whether a brancher over a model wants a restart after these of the first 1200 clauses.
fn restarts_after(alloc: Global, model: &ValidModel, wanted: &[u32]) -> Result<bool, AllocError> {
    let instance = Instance::of(alloc, model)?;
    let restarts = restarts_of(alloc, &instance, 1200)?;
    Ok(restarts.as_slice() == wanted)
}

// Each restart comes 100 times the next member of Luby's sequence 1, 1, 2, 1, 1, 2, 4 after the last.
#[test]
fn restarts_by_luby(rt: HostRuntime) -> Result<(), Fail> {
    let model = valid_model(&rt, rt.alloc(), "", "")?;
    let wanted = [100, 200, 400, 500, 600, 800, 1200];
    assert!(rt; restarts_after(rt.alloc(), &model, &wanted)?);
    Ok(())
}
