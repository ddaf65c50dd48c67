//! Cumulative: what the intervals that run at a time demand is at most a capacity. The load changes only as an interval
//! starts or ends, so it is read as a level that these change.
ghost use Rattle.std.specs.Prelude.{◌≡◌, ◌↔◌, ◌<◌, ◌^◌, IfOk, IfSome, IsTrue, length, unsigned_abs};
ghost use Rattle.std.specs.List.{list_all};
ghost use Rattle.cps_model.specs.Values.{expression_value};
ghost use Rattle.cps_model.specs.Scheduling.{run_at, use_of, uses, IsCumulative};
ghost use Rattle.cps_model.specs.Ready.{are_small, is_ready, is_ready_constraint};
ghost use Rattle.cps_eval.specs.Levels.{load_changes, have_small_changes, has_small_demand, have_small_demands};

use crate::intervals::run_at;
use crate::levels::levels_lie_between;
use crate::values::expression_value;
use cps_model::{Constraint, Event, LinearExpr, Use, negated};
use std::alloc::{AllocError, Global};

/// The interval of an index with its demand, where it is present.
fn use_at(
    constraints: &[Constraint],
    index: i32,
    demand: &LinearExpr,
    values: &[i64],
) -> Option<Use>
    requires constraints { IsTrue (list_all (is_ready_constraint values.now) constraints.now) }
    requires demand { IsTrue (is_ready values.now demand.now) }
    requires small { IsTrue (are_small values.now) }
    ensures value { result ≡ use_of (run_at constraints.now values.now index) (expression_value values.now demand.now) }
    ensures near { IfSome result (λ used. IsTrue (has_small_demand used)) }
{
    let run = run_at(constraints, index, values)?;
    Some(Use {
        start: run.start,
        end: run.end,
        demand: expression_value(demand, values),
    })
}

/// The intervals that are present, with their demands.
pub fn uses(
    alloc: Global,
    constraints: &[Constraint],
    intervals: &[i32],
    demands: &[LinearExpr],
    values: &[i64],
) -> Result<Vec<Use>, AllocError>
    requires paired { length intervals.now ≡ length demands.now }
    requires constraints { IsTrue (list_all (is_ready_constraint values.now) constraints.now) }
    requires demands { IsTrue (list_all (is_ready values.now) demands.now) }
    requires small { IsTrue (are_small values.now) }
    ensures value { IfOk result (λ present. present.items ≡ uses constraints.now values.now intervals.now demands.now) }
    ensures near { IfOk result (λ present. IsTrue (have_small_demands present.items)) }
{
    let mut present = Vec::new(alloc);
    for (k, demand) in demands.iter().enumerate() {
        let Some(used) = use_at(constraints, intervals[k], demand, values) else {
            continue;
        };
        present.push(used)?;
    }
    Ok(present)
}

/// The load as a level: a demand comes as its interval starts, and goes as it ends.
fn load_changes(alloc: Global, uses: &[Use]) -> Result<Vec<Event>, AllocError>
    requires { IsTrue (have_small_demands uses.now) }
    ensures value { IfOk result (λ changes. changes.items ≡ load_changes uses.now) }
    ensures near { IfOk result (λ changes. IsTrue (have_small_changes changes.items)) }
{
    let mut changes = Vec::new(alloc);
    for used in uses {
        if used.end <= used.start {
            continue;
        }
        changes.push(Event {
            time: used.start,
            change: used.demand,
        })?;
        changes.push(Event {
            time: used.end,
            change: negated(used.demand),
        })?;
    }
    Ok(changes)
}

/// Whether the load is at most the capacity at each time.
pub fn is_cumulative(alloc: Global, capacity: i64, uses: &[Use]) -> Result<bool, AllocError>
    requires { IsTrue (have_small_demands uses.now) }
    ensures { IfOk result (λ answer. IsTrue answer ↔ IsCumulative capacity uses.now) }
{
    if capacity < 0 {
        return Ok(false);
    }
    let changes = load_changes(alloc, uses)?;
    Ok(levels_lie_between(changes, i128::MIN, i128::from(capacity)))
}
