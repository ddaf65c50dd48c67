//! The pool of workers in threads.
ghost use Rattle.std.specs.Prelude.{◌≡◌, [], IfOk};
ghost use Rattle.cps_pool.specs.Naming.{names_of};

use crate::pool::Pool;
use boxcar::tag::{Names, Tag};
use boxcar::{Keeps, Pushed};
use cps_model::Ints;
use cps_validate::ValidModel;
use std::alloc::{AllocError, Global};
use std::marker::Model;
use std::sync::Wait;

/// How a model names the pool of its solutions.
struct ByModel;

impl Names<ValidModel> for ByModel {
    ghost use Rattle.cps_pool.specs.Naming.{names_of};

    ghost numbers = { names_of };
}

/// The rule of a pool: each value is a solution of the model that its tag names.
struct Solutions;

impl Keeps<Ints> for Solutions {
    ghost use Rattle.cps_pool.specs.Naming.{IsSolutionOfNamed};

    ghost holds = { λ names _ solution. IsSolutionOfNamed names solution };
}

/// Solutions of a model, to which threads push through a shared reference. One that nobody reads stays empty.
#[derive(Drop)]
pub struct SharedPool<'a> {
    alloc: Global,
    /// The model.
    pub model: &'a ValidModel,
    /// Whether a worker reads it.
    pub is_read: bool,
    found: boxcar::Vec<Ints, Global, Solutions>,
    ghost named: { found.tag ≡ names_of model.now },
}

impl<'a> SharedPool<'a> {
    /// A pool without solutions, and whether a worker reads it.
    pub fn new(alloc: Global, model: &'a ValidModel, is_read: bool) -> Result<Self, AllocError>
        ensures model { IfOk result (λ pool. pool.model.now ≡ model.now) }
        ensures is_read { IfOk result (λ pool. pool.is_read ≡ is_read) }
    {
        let tag = Tag::of::<ValidModel, ByModel>(model);
        Ok(SharedPool {
            alloc,
            model,
            is_read,
            found: boxcar::Vec::with_rule(alloc, tag)?,
        })
    }
    /// One worker's access to the pool, by which it pushed nothing yet.
    pub fn handle<'p, R: Wait>(&'p self, rt: &'p R) -> PoolHandle<'p, 'a, R>
        ensures { result ≡ record { model = self.now.model.now; is_read = self.now.is_read; solutions = [] } }
    {
        PoolHandle {
            rt,
            pool: self,
            pushed: Vec::new(self.alloc),
        }
    }
}

/// One worker's access to a shared pool. Contracts see what was pushed through it. A push may wait for another thread's.
pub struct PoolHandle<'p, 'm, R: Wait> {
    rt: &'p R,
    pool: &'p SharedPool<'m>,
    /// Where each solution stands that was pushed through this handle.
    pushed: Vec<Pushed<Ints, Global, Solutions>>,
}

impl<'p, 'm, R: Wait> Model for PoolHandle<'p, 'm, R> {
    ghost use Rattle.cps_pool.specs.Pools.{Found, pushed_at};

    ghost Value = { Found };

    ghost use Rattle.std.specs.Prelude.{All, map};
    ghost use Rattle.boxcar.specs.Table.{Shows};

    ghost view = { λ h. record {
      model = h.pool.now.model.now;
      is_read = h.pool.now.is_read;
      solutions = map pushed_at h.pushed.items;
    } };

    ghost invariant = { λ h. All (Shows h.pool.now.found) h.pushed.items };
}

impl<R: Wait> Drop for PoolHandle<'_, '_, R> {
    fn drop(self) {
        let PoolHandle {
            rt: _rt,
            pool: _pool,
            pushed: _pushed,
        } = self;
    }
}

impl<R: Wait> Pool for PoolHandle<'_, '_, R> {
    ghost model = { λ h. h.model };

    ghost is_read = { λ h. h.is_read };

    ghost found = { λ h. h.solutions };

    ghost IsAlone = { ⊥ };

    fn count(&self) -> usize {
        self.pool.found.count()
    }

    fn get(&self, index: usize) -> Option<&[i64]> {
        Some(self.pool.found.get(index)?.as_slice())
    }

    fn push(&mut self, solution: &[i64]) -> Result<(), AllocError> {
        if !self.pool.is_read {
            return Ok(());
        }
        let values = Vec::from_slice(self.pool.alloc, solution)?;
        let Ok(pushed) = self.pool.found.push_shown(self.rt, Ints::from_vec(values)) else {
            return Err(AllocError);
        };
        self.pushed.push(pushed)?;
        Ok(())
    }
}
