//! The numbers in small generated models.
//!
//! The draws of each row come from a generator written apart, after the public description of PCG, in the stated order
//! of draws; they are compared with the numbers in the model. How many variables and constraints there are follows from
//! the family.
use cps_gen::{Family, generate};
use cps_model::{Constraint, CpModel, Kind};
use std::alloc::{AllocError, Global};
use std::process::Abort;
use std::test::Fail;

/// A knapsack's size and seed, and what its model is to have.
struct Knapsack {
    size: u32,
    seed: u64,
    weights: &'static [i64],
    /// The coefficients of the objective.
    losses: &'static [i64],
    /// The greatest load.
    most: i64,
}

static KNAPSACK_ROWS: [Knapsack; 4] = [
    Knapsack {
        size: 1,
        seed: 7,
        weights: &[51],
        losses: &[-47],
        most: 25,
    },
    Knapsack {
        size: 3,
        seed: 0,
        weights: &[18, 93, 18],
        losses: &[-82, -26, -8],
        most: 64,
    },
    Knapsack {
        size: 3,
        seed: 7,
        weights: &[51, 13, 38],
        losses: &[-47, -32, -92],
        most: 51,
    },
    Knapsack {
        size: 3,
        seed: u64::MAX,
        weights: &[38, 70, 46],
        losses: &[-51, -88, -90],
        most: 77,
    },
];

/// A job shop's size and seed, and how long each task runs.
struct Jobshop {
    size: u32,
    seed: u64,
    durations: &'static [i64],
}

static JOBSHOP_ROWS: [Jobshop; 3] = [
    Jobshop {
        size: 1,
        seed: 7,
        durations: &[13],
    },
    Jobshop {
        size: 2,
        seed: 1,
        durations: &[18, 20, 16, 2],
    },
    Jobshop {
        size: 2,
        seed: u64::MAX,
        durations: &[10, 7, 20, 12],
    },
];

/// A tour's size and seed, and the tails, heads and costs of its arcs.
struct Tour {
    size: u32,
    seed: u64,
    tails: &'static [i32],
    heads: &'static [i32],
    costs: &'static [i64],
}

static TOUR_ROWS: [Tour; 3] = [
    Tour {
        size: 2,
        seed: 7,
        tails: &[0, 1],
        heads: &[1, 0],
        costs: &[52, 9],
    },
    Tour {
        size: 3,
        seed: 7,
        tails: &[0, 0, 1, 1, 2, 2],
        heads: &[1, 2, 0, 2, 0, 1],
        costs: &[52, 9, 73, 31, 100, 68],
    },
    Tour {
        size: 3,
        seed: u64::MAX,
        tails: &[0, 0, 1, 1, 2, 2],
        heads: &[1, 2, 0, 2, 0, 1],
        costs: &[18, 98, 79, 93, 82, 40],
    },
];

/// Whether the objective of a model has these coefficients and this scaling.
fn has_objective(model: &CpModel, coeffs: &[i64], scaling: i64) -> bool {
    match &model.objective {
        Some(objective) => objective.coeffs.as_slice() == coeffs && objective.scaling == scaling,
        None => false,
    }
}

/// Whether a constraint bounds a sum with these coefficients by 0 and this number.
fn is_load(constraint: &Constraint, weights: &[i64], most: i64) -> bool {
    match &constraint.kind {
        Kind::Linear { coeffs, domain, .. } => {
            coeffs.as_slice() == weights && domain.as_slice() == [0, most].as_slice()
        }
        _ => false,
    }
}

/// Whether a constraint is an interval of this size.
fn is_run(constraint: &Constraint, duration: i64) -> bool {
    match &constraint.kind {
        Kind::Interval { size, .. } => size.offset == duration && size.vars.is_empty(),
        _ => false,
    }
}

/// Whether a constraint is a circuit of these arcs.
fn is_circuit(constraint: &Constraint, from: &[i32], to: &[i32]) -> bool {
    match &constraint.kind {
        Kind::Circuit { tails, heads, .. } => tails.as_slice() == from && heads.as_slice() == to,
        _ => false,
    }
}

/// Whether the first constraints of a model are intervals of these sizes.
fn runs_are(model: &CpModel, durations: &[i64]) -> bool {
    let constraints = model.constraints.as_slice();
    if constraints.len() < durations.len() {
        return false;
    }
    for (task, duration) in durations.iter().enumerate() {
        if !is_run(&constraints[task], *duration) {
            return false;
        }
    }
    true
}

/// The generated model; an error where the family has none of this size.
fn model_of(alloc: Global, family: Family, size: u32, seed: u64) -> Result<CpModel, AllocError> {
    if !family.is_in_range(size) {
        return Err(AllocError);
    }
    generate(alloc, family, size, seed)
}

fn is_knapsack(model: &CpModel, row: &Knapsack) -> bool {
    match model.constraints.as_slice() {
        [load] => has_objective(model, row.losses, -1) && is_load(load, row.weights, row.most),
        _ => false,
    }
}

fn is_jobshop(model: &CpModel, row: &Jobshop) -> bool {
    has_objective(model, &[1], 1) && runs_are(model, row.durations)
}

fn is_tour(model: &CpModel, row: &Tour) -> bool {
    match model.constraints.as_slice() {
        [circuit] => {
            has_objective(model, row.costs, 1) && is_circuit(circuit, row.tails, row.heads)
        }
        _ => false,
    }
}

/// Whether the model of a row has the numbers of the row.
fn draws_knapsack(alloc: Global, row: &Knapsack) -> Result<bool, AllocError> {
    let model = model_of(alloc, Family::Knapsack, row.size, row.seed)?;
    Ok(is_knapsack(&model, row))
}

fn draws_jobshop(alloc: Global, row: &Jobshop) -> Result<bool, AllocError> {
    let model = model_of(alloc, Family::Jobshop, row.size, row.seed)?;
    Ok(is_jobshop(&model, row))
}

fn draws_tour(alloc: Global, row: &Tour) -> Result<bool, AllocError> {
    let model = model_of(alloc, Family::Tour, row.size, row.seed)?;
    Ok(is_tour(&model, row))
}

fn assert_knapsacks(rt: &impl Abort, alloc: Global, rows: &[Knapsack]) -> Result<(), Fail> {
    for row in rows {
        let is_drawn = draws_knapsack(alloc, row)?;
        assert!(rt; is_drawn, "{} {}", row.size, row.seed);
    }
    Ok(())
}

fn assert_jobshops(rt: &impl Abort, alloc: Global, rows: &[Jobshop]) -> Result<(), Fail> {
    for row in rows {
        let is_drawn = draws_jobshop(alloc, row)?;
        assert!(rt; is_drawn, "{} {}", row.size, row.seed);
    }
    Ok(())
}

fn assert_tours(rt: &impl Abort, alloc: Global, rows: &[Tour]) -> Result<(), Fail> {
    for row in rows {
        let is_drawn = draws_tour(alloc, row)?;
        assert!(rt; is_drawn, "{} {}", row.size, row.seed);
    }
    Ok(())
}

/// A family, a size, and how many variables and constraints its models have.
struct Counted {
    family: Family,
    size: u32,
    variables: usize,
    constraints: usize,
}

static COUNT_ROWS: [Counted; 5] = [
    Counted {
        family: Family::Knapsack,
        size: 10_000,
        variables: 10_000,
        constraints: 1,
    },
    Counted {
        family: Family::Jobshop,
        size: 1,
        variables: 2,
        constraints: 3,
    },
    Counted {
        family: Family::Jobshop,
        size: 16,
        variables: 257,
        constraints: 528,
    },
    Counted {
        family: Family::Tour,
        size: 2,
        variables: 2,
        constraints: 1,
    },
    Counted {
        family: Family::Tour,
        size: 60,
        variables: 3540,
        constraints: 1,
    },
];

fn is_counted(alloc: Global, row: &Counted) -> Result<bool, AllocError> {
    let model = model_of(alloc, row.family, row.size, 1)?;
    Ok(model.variables.len() == row.variables && model.constraints.len() == row.constraints)
}

fn assert_counts(rt: &impl Abort, alloc: Global, rows: &[Counted]) -> Result<(), Fail> {
    for row in rows {
        let is_counted = is_counted(alloc, row)?;
        assert!(rt; is_counted, "{} {}", row.family.name(), row.size);
    }
    Ok(())
}

#[test]
fn knapsacks(rt: HostRuntime) -> Result<(), Fail> {
    assert_knapsacks(&rt, rt.alloc(), &KNAPSACK_ROWS)
}

#[test]
fn jobshops(rt: HostRuntime) -> Result<(), Fail> {
    assert_jobshops(&rt, rt.alloc(), &JOBSHOP_ROWS)
}

#[test]
fn tours(rt: HostRuntime) -> Result<(), Fail> {
    assert_tours(&rt, rt.alloc(), &TOUR_ROWS)
}

#[test]
fn counts(rt: HostRuntime) -> Result<(), Fail> {
    assert_counts(&rt, rt.alloc(), &COUNT_ROWS)
}
