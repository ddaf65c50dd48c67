//! Worked runs on the two words that hold the bounds.
//!
//! Threads race with offers and raises on a model whose objective is known, and what is left in the words is the best of
//! what they gave, whatever their order. Runs of seats one after the other show what each sees of the others' offers.
ghost use Rattle.std.specs.Prelude.{◌≡◌, ℤ, pos, List, IfOk, IsTrue};
ghost use Rattle.cps_port.specs.Order.{IsSmallBound};
ghost use Rattle.cps_port.specs.Incumbents.{IsAttained, IsLowerBound};
ghost use Rattle.cps_bounds.specs.Seats.{model_of, IsSeatOf};
ghost use Rattle.cps_shared_tests.specs.Worked.{IsAtLeastTwo};

use crate::models::{is_attained, minimised, minimised_from_two};
use cps_bounds::{Bounds, BoundsSeat};
use cps_eval::objective_start;
use cps_model::Bound;
use cps_validate::{ValidModel, validate};
use std::alloc::{AllocError, Global};
use std::test::Fail;
use std::thread::{Threads, join};

/// Whether the search for a better bound starts at a value.
fn starts_at(model: &ValidModel, start: i64) -> bool
    ensures { IsTrue result → IsLowerBound model.now (Bound.At start) }
{
    objective_start(model) == start
}

/// The bound 2 of the model where the variable is at least 2.
fn two(model: &ValidModel) -> Bound
    requires { IsAtLeastTwo model.now }
    ensures is { result ≡ Bound.At (pos 2) }
    ensures low { IsLowerBound model.now result }
{
    let _ = model;
    Bound::At(2)
}

/// Offers two values, and raises.
fn work(bounds: &Bounds, mut seat: BoundsSeat, first: i64, second: i64, low: Bound) -> BoundsSeat
    requires own { IsSeatOf bounds.now seat }
    requires values { IsAttained (model_of bounds.now) first × IsAttained (model_of bounds.now) second }
    requires low { IsLowerBound (model_of bounds.now) low × IsSmallBound low }
    ensures { IsSeatOf bounds.now result }
{
    bounds.offer(&mut seat, first);
    bounds.offer(&mut seat, second);
    bounds.raise(&mut seat, low);
    seat
}

/// Two threads offer and raise, each on its seat.
fn race<R: Threads + Sync>(
    rt: &R,
    bounds: &Bounds,
    first: BoundsSeat,
    second: BoundsSeat,
) -> (BoundsSeat, BoundsSeat)
    requires own { IsSeatOf bounds.now first × IsSeatOf bounds.now second }
    requires first { IsAttained (model_of bounds.now) (pos 7) × IsAttained (model_of bounds.now) (pos 4) }
    requires second { IsAttained (model_of bounds.now) (pos 5) × IsAttained (model_of bounds.now) (pos 6) }
    requires low { IsLowerBound (model_of bounds.now) (Bound.At (pos 0))
        × IsLowerBound (model_of bounds.now) (Bound.At (pos 2)) }
    ensures { IsSeatOf bounds.now result.0 × IsSeatOf bounds.now result.1 }
{
    join(
        rt,
        || -> BoundsSeat
            requires own { IsSeatOf bounds.now first }
            requires values { IsAttained (model_of bounds.now) (pos 7) × IsAttained (model_of bounds.now) (pos 4) }
            requires low { IsLowerBound (model_of bounds.now) (Bound.At (pos 0)) }
            ensures { IsSeatOf bounds.entry.now result }
        { work(bounds, first, 7, 4, Bound::At(0)) },
        || -> BoundsSeat
            requires own { IsSeatOf bounds.now second }
            requires values { IsAttained (model_of bounds.now) (pos 5) × IsAttained (model_of bounds.now) (pos 6) }
            requires low { IsLowerBound (model_of bounds.now) (Bound.At (pos 2)) }
            ensures { IsSeatOf bounds.entry.now result }
        { work(bounds, second, 5, 6, Bound::At(2)) },
    )
}

/// Whether 4 to 7 are objectives of solutions, and the search for a better bound starts at 0.
fn is_ready(alloc: Global, model: &ValidModel) -> Result<bool, AllocError>
    ensures seven { IfOk result (λ ready. IsTrue ready → IsAttained model.now (pos 7) × IsAttained model.now (pos 4)) }
    ensures five { IfOk result (λ ready. IsTrue ready → IsAttained model.now (pos 5) × IsAttained model.now (pos 6)) }
    ensures zero { IfOk result (λ ready. IsTrue ready → IsLowerBound model.now (Bound.At (pos 0))) }
{
    if !is_attained(alloc, model, 7)? || !is_attained(alloc, model, 4)? {
        return Ok(false);
    }
    if !is_attained(alloc, model, 5)? || !is_attained(alloc, model, 6)? {
        return Ok(false);
    }
    Ok(starts_at(model, 0))
}

/// The splits after two threads met, and both words.
fn raced<R: Threads + Sync>(
    rt: &R,
    alloc: Global,
    model: &ValidModel,
) -> Result<(u64, Bound, Bound), AllocError>
    requires seven { IsAttained model.now (pos 7) × IsAttained model.now (pos 4) }
    requires five { IsAttained model.now (pos 5) × IsAttained model.now (pos 6) }
    requires low { IsLowerBound model.now (Bound.At (pos 0)) × IsLowerBound model.now (Bound.At (pos 2)) }
{
    let (bounds, mut first) = Bounds::new(alloc, model)?;
    let second = bounds.split(&mut first);
    let (mut first, second) = race(rt, &bounds, first, second);
    bounds.join(&mut first, second);
    let splits = first.splits();
    let (upper, lower) = bounds.close(first);
    Ok((splits, upper, lower))
}

/// What two seats of one thread are answered.
fn answers(alloc: Global, model: &ValidModel) -> Result<[Bound; 6], AllocError>
    requires seven { IsAttained model.now (pos 7) }
    requires five { IsAttained model.now (pos 5) }
    requires low { IsLowerBound model.now (Bound.At (pos 0)) }
{
    let (bounds, mut a) = Bounds::new(alloc, model)?;
    let mut b = bounds.split(&mut a);
    Ok([
        bounds.upper(&mut b),
        bounds.offer(&mut a, 7),
        bounds.offer(&mut b, 5),
        bounds.upper(&mut a),
        bounds.raise(&mut a, Bound::At(0)),
        bounds.lower(&mut b),
    ])
}

/// The same; an error where the model is not as above.
fn races<R: Threads + Sync>(
    rt: &R,
    alloc: Global,
    model: &ValidModel,
) -> Result<(u64, Bound, Bound), AllocError>
    requires { IsAtLeastTwo model.now }
{
    if !is_ready(alloc, model)? {
        return Err(AllocError);
    }
    let low = two(model);
    if low != Bound::At(2) {
        return Err(AllocError);
    }
    raced(rt, alloc, model)
}

#[test]
fn threads_meet_in_the_words(rt: HostRuntime) -> Result<(), Fail> {
    let alloc = rt.alloc();
    let model = validate(alloc, minimised_from_two(alloc)?)?;
    assert!(rt; races(&rt, alloc, &model)? == (4294967296, Bound::At(4), Bound::At(2)));
    Ok(())
}

/// What two seats are answered; an error where the model is not as above.
fn answers_of(alloc: Global, model: &ValidModel) -> Result<[Bound; 6], AllocError> {
    if !is_ready(alloc, model)? {
        return Err(AllocError);
    }
    answers(alloc, model)
}

#[test]
fn each_seat_sees_the_best_offer(rt: HostRuntime) -> Result<(), Fail> {
    let alloc = rt.alloc();
    let model = validate(alloc, minimised(alloc)?)?;
    let seen = answers_of(alloc, &model)?;
    assert!(rt; seen[..3] == [Bound::Infinite, Bound::At(7), Bound::At(5)]);
    assert!(rt; seen[3..] == [Bound::At(5), Bound::At(0), Bound::At(0)]);
    Ok(())
}
