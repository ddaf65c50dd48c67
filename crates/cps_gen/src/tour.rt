//! Tours.
ghost use Rattle.std.specs.Prelude.{◌≡◌, ◌≤◌, length, vec_len, IfOk};
ghost use Rattle.cps_gen.specs.Draws.{draws_of};
ghost use Rattle.cps_gen.specs.Tour.{arcs, tails, heads, costs, tour};

use crate::draws::{below, draws_of};
use crate::parts::{in_force, least_of, model_of, references, square, variables};
use cps_model::{CpModel, Kind, Listed};
use std::alloc::{AllocError, Global};

/// The stream from which tours draw.
const STREAM: u64 = 3;

/// The greatest cost of an arc.
const DEAREST: u32 = 100;

/// Arcs, and what each costs.
#[derive(Drop)]
struct Arcs {
    tails: Vec<i32>,
    heads: Vec<i32>,
    costs: Vec<i64>,
}

/// The arcs between each two of `size` nodes, with drawn costs.
fn arcs_of(alloc: Global, size: u32, seed: u64) -> Result<Arcs, AllocError>
    requires least { 2 ≤ size }
    requires most { size ≤ 60 }
    ensures tails { IfOk result (λ arcs. arcs.tails.items ≡ tails size) }
    ensures heads { IfOk result (λ arcs. arcs.heads.items ≡ heads size) }
    ensures costs { IfOk result (λ each. each.costs.items ≡ costs (draws_of seed 3) (length (arcs size))) }
    ensures count { IfOk result (λ each. vec_len each.costs ≡ length (arcs size)) }
    ensures few { IfOk result (λ each. vec_len each.costs ≤ 3600) }
{
    let mut draws = draws_of(seed, STREAM);
    let mut tails = Vec::new(alloc);
    let mut heads = Vec::new(alloc);
    let mut costs = Vec::new(alloc);
    for pair in 0..square(size) {
        let tail = pair / size;
        let head = pair % size;
        if tail != head {
            tails.push(tail as i32)?;
            heads.push(head as i32)?;
            costs.push(i64::from(1 + below(&mut draws, DEAREST)))?;
        }
    }
    Ok(Arcs {
        tails,
        heads,
        costs,
    })
}

/// The tour through `size` nodes.
pub(crate) fn tour(alloc: Global, size: u32, seed: u64) -> Result<CpModel, AllocError>
    requires least { 2 ≤ size }
    requires most { size ≤ 60 }
    ensures { IfOk result (λ m. m ≡ tour (draws_of seed 3) size) }
{
    let Arcs {
        tails,
        heads,
        costs,
    } = arcs_of(alloc, size, seed)?;
    let count = costs.len() as u32;
    let kind = Kind::Circuit {
        tails: Listed::from_vec(tails),
        heads: Listed::from_vec(heads),
        literals: references(alloc, count)?,
    };
    let constraints = Listed::from_vec(vec![in alloc; in_force(alloc, kind)]?);
    let vars = references(alloc, count)?;
    let objective = least_of(alloc, vars, Listed::from_vec(costs), 1);
    let variables = variables(alloc, count, 1)?;
    Ok(model_of(alloc, variables, constraints, objective))
}
