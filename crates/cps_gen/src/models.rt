//! The model of a family, a size and a seed.
ghost use Rattle.std.specs.Prelude.{◌≡◌, [], IfOk, IsTrue, All};
ghost use Rattle.cps_model.specs.Validity.{IsValid};
ghost use Rattle.cps_gen.specs.Families.{is_in_range};
ghost use Rattle.cps_gen.specs.Generated.{generated, is_generated};

use crate::family::Family;
use crate::jobshop::jobshop;
use crate::knapsack::knapsack;
use crate::tour::tour;
use cps_model::CpModel;
use std::alloc::{AllocError, Global};

/// The model of a family with this size and seed. It is valid, has no assumptions, and its constraints are linear,
/// circuits, intervals and lists of intervals that do not overlap.
pub fn generate(alloc: Global, family: Family, size: u32, seed: u64) -> Result<CpModel, AllocError>
    requires range { IsTrue (is_in_range family size) }
    ensures stated { IfOk result (λ m. m ≡ generated family size seed) }
    ensures valid { IfOk result IsValid }
    ensures kinds { IfOk result (λ m. All (λ c. IsTrue (is_generated c.kind)) m.constraints) }
    ensures assumptions { IfOk result (λ m. m.assumptions ≡ []) }
{
    match family {
        Family::Knapsack => knapsack(alloc, size, seed),
        Family::Jobshop => jobshop(alloc, size, seed),
        Family::Tour => tour(alloc, size, seed),
    }
}
