//! The rule of the kinds that compute a target of members.
ghost use Rattle.std.specs.Prelude.{◌≡◌, IfOk, IsTrue};
ghost use Rattle.cps_p_arith.specs.Demands.{body_by, body_of, is_arithmetic, HasKnownSubjects};

use crate::bounds::{Bounds, Demand};
use crate::facts::{LIMIT, justify};
use crate::narrow::narrow;
use crate::relation::Relation;
use crate::relax::{relax, suppose};
use cps_enforce::Enforced;
use cps_instance::{Body, Task};
use cps_literal::Atom;
use cps_rule::{Hint, Look, Narrowing, Rule};
use cps_trail::{Before, Store};
use std::alloc::{AllocError, Global};

/// A target that is computed of members, and room for what is read of a store.
pub struct Arithmetic {
    alloc: Global,
    demand: Demand,
    bounds: Bounds,
    trial: Bounds,
    /// The ends that level 0 left.
    root: Bounds,
}

// Written out, so that crates above do not prove it anew.
impl Drop for Arithmetic {
    fn drop(self) {
        let Arithmetic {
            alloc: _alloc,
            demand: _demand,
            bounds: _bounds,
            trial: _trial,
            root: _root,
        } = self;
    }
}

/// The demand of a relation between subjects.
fn demand_of(
    alloc: Global,
    relation: Relation,
    target: u32,
    exprs: &[u32],
) -> Result<Demand, AllocError>
    ensures { IfOk result (λ d. body_of d ≡ body_by relation target exprs.now) }
{
    Ok(Demand {
        relation,
        target,
        exprs: Vec::from_slice(alloc, exprs)?,
    })
}

/// The demand of a body of one of the kinds.
fn demand_of_body(alloc: Global, body: &Body) -> Result<Demand, AllocError>
    requires { IsTrue (is_arithmetic body.now) }
    ensures { IfOk result (λ d. body_of d ≡ body.now) }
{
    match body {
        Body::IntDiv { target, exprs } => {
            demand_of(alloc, Relation::Quotient, *target, exprs.as_slice())
        }
        Body::IntMod { target, exprs } => {
            demand_of(alloc, Relation::Remainder, *target, exprs.as_slice())
        }
        Body::IntProd { target, exprs } => {
            demand_of(alloc, Relation::Product, *target, exprs.as_slice())
        }
        Body::LinMax { target, exprs } => {
            demand_of(alloc, Relation::Greatest, *target, exprs.as_slice())
        }
        _ => unreachable!(),
    }
}

/// Reads the ends that level 0 left: at each look of that level, and at the first look.
fn measure_root(store: &Store, demand: &Demand, root: &mut Bounds) -> Result<(), AllocError>
    requires { HasKnownSubjects store.now.first demand.now }
{
    if store.level() > 0 && !root.members.is_empty() {
        return Ok(());
    }
    root.measure(&store.before(store.end_of(0)), demand)
}

impl Arithmetic {
    /// The propagator of a task whose body is `IntDiv`, `IntMod`, `IntProd` or `LinMax`.
    pub fn of(alloc: Global, task: &Task) -> Result<Enforced<Arithmetic>, AllocError>
        requires { IsTrue (is_arithmetic task.now.body) }
        ensures { IfOk result (λ propagator. propagator ≡ task.now) }
    {
        let demand = demand_of_body(alloc, &task.body)?;
        let rule = Arithmetic {
            alloc,
            demand,
            bounds: Bounds::new(alloc),
            trial: Bounds::new(alloc),
            root: Bounds::new(alloc),
        };
        let propagator = Enforced::new(alloc, task.enforcement.as_slice(), rule)?;
        Ok(propagator)
    }
}

impl Rule for Arithmetic {
    ghost use Rattle.cps_p_arith.specs.Demands.{body_of};

    ghost body = { λ a. body_of a.demand };

    fn look(&mut self, store: &Store, found: &mut Vec<Narrowing>) -> Result<Look, AllocError> {
        found.clear();
        measure_root(store, &self.demand, &mut self.root)?;
        self.bounds.measure(&store.present(), &self.demand)?;
        if self.bounds.exclude(&self.demand) {
            return Ok(Look::Impossible(Hint { a: 0, b: 0 }));
        }
        narrow(&self.demand, &self.bounds, &mut self.trial, found)?;
        Ok(Look::Possible)
    }

    fn explain(
        &self,
        past: &Before,
        target: Atom,
        hint: Hint,
        facts: &mut Vec<Atom>,
    ) -> Result<bool, AllocError> {
        if target.value <= -LIMIT || LIMIT <= target.value {
            return Ok(false);
        }
        let supposed = target.negate();
        let mut trial = Bounds::new(self.alloc);
        trial.measure(past, &self.demand)?;
        let mut bounds = Bounds::new(self.alloc);
        suppose(&self.demand, &trial, target, &mut bounds)?;
        relax(
            &self.demand,
            &self.root,
            &mut bounds,
            &mut trial,
            Some(supposed),
        )?;
        justify(past, &self.demand, Some(supposed), &bounds, facts)
    }

    fn refute(&self, past: &Before, hint: Hint, facts: &mut Vec<Atom>) -> Result<bool, AllocError> {
        let mut trial = Bounds::new(self.alloc);
        let mut bounds = Bounds::new(self.alloc);
        bounds.measure(past, &self.demand)?;
        relax(&self.demand, &self.root, &mut bounds, &mut trial, None)?;
        justify(past, &self.demand, None, &bounds, facts)
    }

    fn push_subjects(&self, subjects: &mut Vec<u32>) -> Result<(), AllocError> {
        subjects.push(self.demand.target)?;
        subjects.extend_from_slice(self.demand.exprs.as_slice())?;
        Ok(())
    }
}
