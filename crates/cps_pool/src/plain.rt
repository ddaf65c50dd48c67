//! The pool of workers that take turns.
ghost use Rattle.std.specs.Prelude.{◌≡◌, []};

use crate::pool::Pool;
use cps_model::Ints;
use cps_validate::ValidModel;
use std::alloc::{AllocError, Global};
use std::marker::Model;

/// A list of solutions of a model. Contracts see both. One that nobody reads stays empty.
#[derive(Drop)]
pub struct PlainPool<'a> {
    alloc: Global,
    model: &'a ValidModel,
    is_read: bool,
    found: Vec<Ints>,
}

impl<'a> Model for PlainPool<'a> {
    ghost use Rattle.cps_pool.specs.Pools.{Found};

    ghost Value = { Found };

    ghost use Rattle.std.specs.Prelude.{All};
    ghost use Rattle.cps_model.specs.Solutions.{IsSolution};

    ghost view = { λ p. record { model = p.model.now; is_read = p.is_read; solutions = p.found.items } };

    ghost invariant = { λ p. All (IsSolution p.model.now) p.found.items };
}

impl<'a> PlainPool<'a> {
    /// A pool without solutions, which takes no memory, and whether a worker reads it.
    pub fn new(alloc: Global, model: &'a ValidModel, is_read: bool) -> Self
        ensures { result ≡ record { model = model.now; is_read = is_read; solutions = [] } }
    {
        PlainPool {
            alloc,
            model,
            is_read,
            found: Vec::new(alloc),
        }
    }
}

impl Pool for PlainPool<'_> {
    ghost use Rattle.std.specs.Prelude.{⊤};

    ghost model = { λ p. p.model };

    ghost is_read = { λ p. p.is_read };

    ghost found = { λ p. p.solutions };

    ghost IsAlone = { ⊤ };

    fn count(&self) -> usize {
        self.found.len()
    }

    fn get(&self, index: usize) -> Option<&[i64]> {
        match self.found.get(index) {
            Some(solution) => Some(solution.as_slice()),
            None => None,
        }
    }

    fn push(&mut self, solution: &[i64]) -> Result<(), AllocError> {
        if !self.is_read {
            return Ok(());
        }
        let values = Vec::from_slice(self.alloc, solution)?;
        self.found.push(Ints::from_vec(values))?;
        Ok(())
    }
}
