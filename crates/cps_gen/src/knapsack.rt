//! Knapsacks.
ghost use Rattle.std.specs.Prelude.{◌≡◌, ◌≤◌, ◌<◌, ◌^◌, ◌/◌, pos, [], ◌∷◌, IfOk};
ghost use Rattle.cps_model.specs.declared.constraint.Kind.TheVariants as kinds;
ghost use Rattle.cps_gen.specs.Parts.{references, in_force};
ghost use Rattle.cps_gen.specs.Draws.{draws_of};
ghost use Rattle.cps_gen.specs.Knapsack.{weights, losses, total_weight, knapsack};

use crate::draws::{below, draws_of};
use crate::parts::{in_force, least_of, model_of, references, variables};
use cps_model::{Constraint, CpModel, Ints, Kind, Listed};
use std::alloc::{AllocError, Global};

/// The stream from which knapsacks draw.
const STREAM: u64 = 1;

/// The greatest weight, and the greatest value.
const MOST: u32 = 100;

/// What items weigh, each and together, and what each takes from an objective that is minimised.
#[derive(Drop)]
struct Items {
    weights: Vec<i64>,
    losses: Vec<i64>,
    total: u32,
}

/// Draws `size` items, each weight before its value.
fn draw_items(alloc: Global, size: u32, seed: u64) -> Result<Items, AllocError>
    requires { size ≤ 10000 }
    ensures weights { IfOk result (λ items. items.weights.items ≡ weights (draws_of seed 1) size) }
    ensures losses { IfOk result (λ items. items.losses.items ≡ losses (draws_of seed 1) size) }
    ensures total { IfOk result (λ items. items.total ≡ total_weight (draws_of seed 1) size) }
{
    let mut draws = draws_of(seed, STREAM);
    let mut weights = Vec::new(alloc);
    let mut losses = Vec::new(alloc);
    let mut total = 0;
    for _item in 0..size {
        let weight = 1 + below(&mut draws, MOST);
        let value = 1 + below(&mut draws, MOST);
        weights.push(i64::from(weight))?;
        losses.push(-i64::from(value))?;
        total += weight;
    }
    Ok(Items {
        weights,
        losses,
        total,
    })
}

/// The constraint that the items taken weigh at most half of what all weigh.
fn capacity(
    alloc: Global,
    size: u32,
    weights: Ints,
    total: u32,
) -> Result<Listed<Constraint>, AllocError>
    requires { size < 2 ^ 31 }
    ensures { IfOk result (λ cs. cs
        ≡ in_force (kinds.Linear (references size) weights (pos 0 ∷ pos (total / 2) ∷ [])) ∷ []) }
{
    let kind = Kind::Linear {
        vars: references(alloc, size)?,
        coeffs: weights,
        domain: Listed::from_vec(vec![in alloc; 0, i64::from(total / 2)]?),
    };
    Ok(Listed::from_vec(vec![in alloc; in_force(alloc, kind)]?))
}

/// The knapsack of `size` items.
pub(crate) fn knapsack(alloc: Global, size: u32, seed: u64) -> Result<CpModel, AllocError>
    requires { size ≤ 10000 }
    ensures { IfOk result (λ m. m ≡ knapsack (draws_of seed 1) size) }
{
    let Items {
        weights,
        losses,
        total,
    } = draw_items(alloc, size, seed)?;
    let constraints = capacity(alloc, size, Listed::from_vec(weights), total)?;
    let vars = references(alloc, size)?;
    let objective = least_of(alloc, vars, Listed::from_vec(losses), -1);
    Ok(model_of(alloc, variables(alloc, size, 1)?, constraints, objective))
}
