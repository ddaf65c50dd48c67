//! Job shops: square ones, in which every job has a task on every machine.
//!
//! Task j * n + k is the k-th of job j; its number is also that of its start variable, and the last variable is the
//! makespan. A function adds each group of constraints, in the order in which the text of the generated model has them.
ghost use Rattle.std.specs.Prelude.{◌≡◌, ◌+◌, ◌-◌, ◌*◌, ◌<◌, ◌≤◌, ◌^◌, ◌++◌, map, filter, pos, IfOk, OnOk};
ghost use Rattle.cps_model.specs.declared.constraint.Kind.TheVariants as kinds;
ghost use Rattle.cps_gen.specs.Draws.{draws_of};
ghost use Rattle.cps_gen.specs.Parts.{first, in_force};
ghost use Rattle.cps_gen.specs.Jobshop.{tasks, machine, duration, run, no_sooner, is_later, last_task, tasks_on, jobshop_constraints, jobshop};
ghost use Rattle.cps_gen.specs.Shops.{draws_in, IsShop};

use crate::draws::{below, draws_of};
use crate::parts::{fixed, in_force, least_of, model_of, moved, square, variables};
use cps_model::{Constraint, CpModel, Kind, Listed, Refs};
use std::alloc::{AllocError, Global};

/// The stream from which job shops draw.
const STREAM: u64 = 2;

/// The greatest duration.
const LONGEST: u32 = 20;

/// What is drawn of a job shop: how long each task runs, and what all take one after another.
#[derive(Drop)]
struct Shop {
    size: u32,
    seed: u64,
    durations: Vec<u32>,
    horizon: u32,
}

impl Shop {
    /// How long a task runs.
    fn duration(&self, task: u32) -> u32
        requires shop { IsShop self.now }
        requires task { task < self.now.size * self.now.size }
        ensures { result ≡ duration (draws_in self.now) task }
    {
        self.durations[task as usize]
    }
}

/// Draws the durations of all tasks.
fn shop_of(alloc: Global, size: u32, seed: u64) -> Result<Shop, AllocError>
    requires least { 1 ≤ size }
    requires most { size ≤ 16 }
    ensures shop { IfOk result IsShop }
    ensures size { IfOk result (λ shop. shop.size ≡ size) }
    ensures seed { IfOk result (λ shop. shop.seed ≡ seed) }
{
    let mut draws = draws_of(seed, STREAM);
    let mut durations = Vec::new(alloc);
    let mut horizon = 0;
    for _task in 0..square(size) {
        let duration = 1 + below(&mut draws, LONGEST);
        durations.push(duration)?;
        horizon += duration;
    }
    Ok(Shop {
        size,
        seed,
        durations,
        horizon,
    })
}

/// The constraint that a task runs from its start for its duration.
fn run(alloc: Global, shop: &Shop, task: u32) -> Result<Constraint, AllocError>
    requires shop { IsShop shop.now }
    requires task { task < shop.now.size * shop.now.size }
    ensures { IfOk result (λ c. c ≡ in_force (run (draws_in shop.now) task)) }
{
    let duration = shop.duration(task);
    let kind = Kind::Interval {
        start: moved(alloc, task, 0)?,
        end: moved(alloc, task, duration)?,
        size: fixed(alloc, duration),
    };
    Ok(in_force(alloc, kind))
}

/// The constraint that a variable is no sooner than the end of a task.
fn no_sooner(alloc: Global, shop: &Shop, later: u32, task: u32) -> Result<Constraint, AllocError>
    requires shop { IsShop shop.now }
    requires later { later < 2 ^ 31 }
    requires task { task < shop.now.size * shop.now.size }
    ensures { IfOk result (λ c. c ≡ in_force (no_sooner (draws_in shop.now) shop.now.size later task)) }
{
    let duration = shop.duration(task);
    let bounds = vec![in alloc; i64::from(duration), i64::from(shop.horizon)]?;
    let kind = Kind::Linear {
        vars: Listed::from_vec(vec![in alloc; later as i32, task as i32]?),
        coeffs: Listed::from_vec(vec![in alloc; 1, -1]?),
        domain: Listed::from_vec(bounds),
    };
    Ok(in_force(alloc, kind))
}

/// Adds that all tasks run.
fn add_runs(alloc: Global, shop: &Shop, constraints: &mut Vec<Constraint>) -> Result<(), AllocError>
    requires { IsShop shop.now }
    ensures { OnOk result (constraints.new.items ≡ constraints.old.items
        ++ map (λ t. in_force (run (draws_in shop.now) t)) (tasks shop.now.size)) }
{
    for task in 0..square(shop.size) {
        constraints.push(run(alloc, shop, task)?)?;
    }
    Ok(())
}

/// Adds that each task but the first of its job starts no sooner than the one before it has ended.
fn add_orders(
    alloc: Global,
    shop: &Shop,
    constraints: &mut Vec<Constraint>,
) -> Result<(), AllocError>
    requires { IsShop shop.now }
    ensures { OnOk result (constraints.new.items ≡ constraints.old.items
        ++ map (λ t. in_force (no_sooner (draws_in shop.now) shop.now.size t (t - 1)))
        (filter (is_later shop.now.size) (tasks shop.now.size))) }
{
    for task in 0..square(shop.size) {
        if task % shop.size != 0 {
            constraints.push(no_sooner(alloc, shop, task, task - 1)?)?;
        }
    }
    Ok(())
}

/// The last task of a job.
fn last_task(size: u32, job: u32) -> u32
    requires most { size ≤ 16 }
    requires job { job < size }
    ensures value { result ≡ last_task size job }
    ensures task { result < size * size }
{
    job * size + (size - 1)
}

/// Adds that all has ended no sooner than the last task of each job.
fn add_ends(alloc: Global, shop: &Shop, constraints: &mut Vec<Constraint>) -> Result<(), AllocError>
    requires { IsShop shop.now }
    ensures { OnOk result (constraints.new.items ≡ constraints.old.items
        ++ map (λ job. in_force
        (no_sooner (draws_in shop.now) shop.now.size (shop.now.size * shop.now.size) (last_task shop.now.size job)))
        (first shop.now.size)) }
{
    let end = square(shop.size);
    for job in 0..shop.size {
        let last = last_task(shop.size, job);
        constraints.push(no_sooner(alloc, shop, end, last)?)?;
    }
    Ok(())
}

/// The tasks of a machine, by rising number.
fn tasks_on(alloc: Global, size: u32, machine: u32) -> Result<Refs, AllocError>
    requires least { 1 ≤ size }
    requires most { size ≤ 16 }
    ensures { IfOk result (λ refs. refs ≡ map pos (tasks_on size machine)) }
{
    let mut refs = Vec::new(alloc);
    for task in 0..square(size) {
        if (task / size + task % size) % size == machine {
            refs.push(task as i32)?;
        }
    }
    Ok(Listed::from_vec(refs))
}

/// Adds that no two tasks of a machine run at once.
fn add_machines(
    alloc: Global,
    shop: &Shop,
    constraints: &mut Vec<Constraint>,
) -> Result<(), AllocError>
    requires { IsShop shop.now }
    ensures { OnOk result (constraints.new.items ≡ constraints.old.items
        ++ map (λ m. in_force (kinds.NoOverlap (map pos (tasks_on shop.now.size m)))) (first shop.now.size)) }
{
    for machine in 0..shop.size {
        let kind = Kind::NoOverlap(tasks_on(alloc, shop.size, machine)?);
        constraints.push(in_force(alloc, kind))?;
    }
    Ok(())
}

/// All constraints of a job shop.
fn constraints_of(alloc: Global, shop: &Shop) -> Result<Listed<Constraint>, AllocError>
    requires { IsShop shop.now }
    ensures { IfOk result (λ cs. cs ≡ jobshop_constraints (draws_in shop.now) shop.now.size) }
{
    let mut constraints = Vec::new(alloc);
    add_runs(alloc, shop, &mut constraints)?;
    add_orders(alloc, shop, &mut constraints)?;
    add_ends(alloc, shop, &mut constraints)?;
    add_machines(alloc, shop, &mut constraints)?;
    Ok(Listed::from_vec(constraints))
}

/// The job shop of `size` jobs and as many machines.
pub(crate) fn jobshop(alloc: Global, size: u32, seed: u64) -> Result<CpModel, AllocError>
    requires least { 1 ≤ size }
    requires most { size ≤ 16 }
    ensures { IfOk result (λ m. m ≡ jobshop (draws_of seed 2) size) }
{
    let shop = shop_of(alloc, size, seed)?;
    let end = square(size);
    let constraints = constraints_of(alloc, &shop)?;
    let vars = Listed::from_vec(vec![in alloc; end as i32]?);
    let coeffs = Listed::from_vec(vec![in alloc; 1]?);
    let objective = least_of(alloc, vars, coeffs, 1);
    let variables = variables(alloc, end + 1, shop.horizon)?;
    Ok(model_of(alloc, variables, constraints, objective))
}
