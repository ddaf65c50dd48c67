//! What a worker sees of a pool.
ghost use Rattle.std.specs.Prelude.{◌≡◌, ◌<◌, ℤ, Bool, [], List, length, slice_index_or, IfSome, IsSomeAnd, OnOk, OnErr};
ghost use Rattle.cps_model.specs.declared.model.CpModel.{CpModel as CpModelOf};
ghost use Rattle.cps_model.specs.Solutions.{IsSolution};
ghost use Rattle.cps_pool.specs.Pools.{with_pushed};

use std::alloc::AllocError;

/// Solutions of a model, in the order in which they were pushed.
pub trait Pool {
    ghost model: { Self → CpModelOf };

    // whether a worker reads the pool
    ghost is_read: { Self → Bool };

    // the solutions that were pushed through this value, in order
    ghost found: { Self → List (List ℤ) };

    // solutions come into the pool through this value alone, so that it has just these
    ghost IsAlone: { Type 0 };

    /// How many there are.
    fn count(&self) -> usize
        ensures { IsAlone → result ≡ length (found self.now) };

    /// The one at this place. `None` where there is none, or where a push that began earlier has not ended.
    fn get(&self, index: usize) -> Option<&[i64]>
        ensures solution { IfSome result (λ solution. IsSolution (model self.now) solution.now) }
        ensures found { IsAlone → index < length (found self.now)
            → IsSomeAnd result (λ solution. solution.now ≡ slice_index_or (found self.now) index []) };

    /// Adds a solution at the end, unless nobody reads the pool.
    fn push(&mut self, solution: &[i64]) -> Result<(), AllocError>
        requires { IsSolution (model self.old) solution.now }
        ensures model { model self.new ≡ model self.old }
        ensures is_read { is_read self.new ≡ is_read self.old }
        ensures pushed { OnOk result (found self.new ≡ with_pushed (is_read self.old) (found self.old) solution.now) }
        ensures refused { OnErr result (found self.new ≡ found self.old) };
}
