//! What a brancher in order goes through: the strategies of an instance, and then its variables.
//!
//! A place of the order stands for the whole state of such a brancher, since all subjects before it are fixed. The
//! order is made once, so that a choice is a walk over one list of numbers. A plan copies the strategies, since the
//! brancher outlives the borrow of the instance, which the search owns.
ghost use Rattle.std.specs.Prelude.{ℕ, ◌≡◌, ◌<◌, ◌≤◌, ◌^◌, ◌++◌, Some, length, slice_index, IfOk};
ghost use Rattle.std.specs.List.{range_with_len};
ghost use Rattle.cps_branch.specs.Fixed.{IsFixed};
ghost use Rattle.cps_branch.specs.Choice.{IsUndecided};
ghost use Rattle.cps_branch.specs.Strategies.{AreWithin, ChoosesSteered, IsOpenPlace, listed, order_in, order_of};

use crate::scan::{first_open_place, take_least};
use crate::strategy::decided_at;
use cps_instance::{Instance, Steering};
use cps_literal::Atom;
use cps_model::Listed;
use cps_trail::Store;
use std::alloc::{AllocError, Global};
use std::marker::Model;

/// Strategies, and then variables, with the order of all places.
pub struct Plan {
    strategies: Vec<Steering>,
    /// The subjects that the strategies list, one after another, and then the variables.
    order: Vec<u32>,
    variables: usize,
    subjects: usize,
}

// Written out, so that crates above do not prove it anew.
impl Drop for Plan {
    fn drop(self) {
        let Plan {
            strategies: _strategies,
            order: _order,
            variables: _variables,
            subjects: _subjects,
        } = self;
    }
}

impl Model for Plan {
    ghost use Rattle.std.specs.Prelude.{◌≡◌, ◌≤◌};
    ghost use Rattle.cps_branch.specs.Strategies.{Planned, AreWithin, order_of};

    ghost Value = { Planned };

    ghost view = { λ p. record { strategies = p.strategies.items; variables = p.variables; subjects = p.subjects } };

    ghost invariant = { λ p. (AreWithin p.subjects p.strategies.items)
        × (p.variables ≤ p.subjects)
        × (p.order.items ≡ order_of p.strategies.items p.variables) };
}

/// A copy of a strategy.
fn copy_of(alloc: Global, steering: &Steering) -> Result<Steering, AllocError>
    ensures { IfOk result (λ copy. copy ≡ steering.now) }
{
    let subjects = Vec::from_slice(alloc, steering.subjects.as_slice())?;
    Ok(Steering {
        subjects: Listed::from_vec(subjects),
        choose: steering.choose,
        select: steering.select,
    })
}

/// A copy of a list of strategies.
fn copies_of(alloc: Global, strategies: &[Steering]) -> Result<Vec<Steering>, AllocError>
    ensures { IfOk result (λ copies. copies.items ≡ strategies.now) }
{
    let mut copies = Vec::with_capacity(alloc, strategies.len())?;
    for steering in strategies {
        copies.push(copy_of(alloc, steering)?)?;
    }
    Ok(copies)
}

/// The subjects that strategies list, one after another.
fn subjects_of(alloc: Global, strategies: &[Steering]) -> Result<Vec<u32>, AllocError>
    ensures { IfOk result (λ order. order.items ≡ listed strategies.now) }
{
    let mut order = Vec::new(alloc);
    for strategy in strategies {
        order.extend_from_slice(strategy.subjects.as_slice())?;
    }
    Ok(order)
}

/// The subjects that strategies list, and then the first `variables` subjects, which are the variables.
fn order_over(
    alloc: Global,
    strategies: &[Steering],
    variables: usize,
) -> Result<Vec<u32>, AllocError>
    requires { variables ≤ 2 ^ 31 }
    ensures { IfOk result (λ order. order.items ≡ order_of strategies.now variables) }
{
    let mut order = subjects_of(alloc, strategies)?;
    for variable in 0..variables {
        order.push(variable as u32)?;
    }
    Ok(order)
}

impl Plan {
    /// The strategies and the variables of an instance.
    pub(crate) fn of(alloc: Global, instance: &Instance) -> Result<Self, AllocError>
        ensures strategies { IfOk result (λ p. p.strategies ≡ instance.now.steering) }
        ensures variables { IfOk result (λ p. p.variables ≡ length instance.now.model.variables) }
        ensures subjects { IfOk result (λ p. p.subjects ≡ length instance.now.domains) }
    {
        let strategies = copies_of(alloc, instance.steering())?;
        let subjects = instance.domains().len();
        Plan::over(alloc, strategies, instance.variable_count(), subjects)
    }

    /// Strategies, and then `variables` variables, over `subjects` subjects in all.
    pub(crate) fn over(
        alloc: Global,
        strategies: Vec<Steering>,
        variables: usize,
        subjects: usize,
    ) -> Result<Self, AllocError>
        requires within { AreWithin subjects strategies.items }
        requires variables { variables ≤ subjects }
        requires few { variables ≤ 2 ^ 31 }
        ensures { IfOk result (λ p. p ≡ record {
          strategies = strategies.items;
          variables = variables;
          subjects = subjects;
        }) }
    {
        let order = order_over(alloc, &strategies, variables)?;
        Ok(Plan {
            strategies,
            order,
            variables,
            subjects,
        })
    }

    /// How many places its order has.
    pub(crate) fn len(&self) -> usize
        ensures { result ≡ length (order_in self.now) }
    {
        self.order.len()
    }

    /// The first place from `from` on whose subject is not fixed; the number of places if there is none.
    pub(crate) fn first_open(&self, store: &Store, from: usize) -> usize
        requires from { from ≤ length (order_in self.now) }
        requires subjects { self.now.subjects ≤ length store.now.first }
        ensures low { from ≤ result }
        ensures high { result ≤ length (order_in self.now) }
        ensures before { (i : ℕ) → from ≤ i → i < result → IsFixed store.now (slice_index (order_in self.now) i) }
        ensures open_there { result < length (order_in self.now)
            → IsFixed store.now (slice_index (order_in self.now) result) → ⊥ }
        ensures within { (i : ℕ) → i < length (order_in self.now)
            → slice_index (order_in self.now) i < self.now.subjects }
    {
        first_open_place(store, &self.order, from)
    }

    /// The decision, if `place` is the first place whose subject is not fixed.
    pub(crate) fn decided(&self, store: &Store, place: usize) -> Atom
        requires subjects { self.now.subjects ≤ length store.now.first }
        requires place { IsOpenPlace store.now (order_in self.now) place }
        ensures choice { ChoosesSteered self.now.strategies self.now.variables store.now (Some result) }
        ensures undecided { IsUndecided store.now result }
    {
        match decided_at(store, &self.strategies, place) {
            Some(atom) => atom,
            None => take_least(store, self.order[place]),
        }
    }
}
