//! What the rules of a valid model are for. Each function does nothing: its contract is a law of every assignment
//! within the domains.
ghost use Rattle.cps_validate.specs.Laws.{IsBetweenLeastAndGreatest, DividesByNoZero, RefusesOnlyZero, HasPositiveModuli, HasSmallProducts, HasNoNegativeDemand, NamesIntervals};

use crate::valid::ValidModel;

/// Each value of an expression lies between its least and its greatest value by the domains.
pub fn values_lie_between(model: &ValidModel)
    ensures { IsBetweenLeastAndGreatest model.now }
{
    // Reading the model gives the proof its invariant: the model keeps every rule.
    let _ = model.model();
}

/// No quotient is divided by 0.
pub fn divisors_are_not_zero(model: &ValidModel)
    ensures { DividesByNoZero model.now }
{
    // Reading the model gives the proof its invariant: the model keeps every rule.
    let _ = model.model();
}

/// A divisor of one term is refused only where it can be 0.
pub fn only_zero_is_refused(model: &ValidModel)
    ensures { RefusesOnlyZero model.now }
{
    // Reading the model gives the proof its invariant: the model keeps every rule.
    let _ = model.model();
}

/// Each modulus is at least 1.
pub fn moduli_are_positive(model: &ValidModel)
    ensures { HasPositiveModuli model.now }
{
    // Reading the model gives the proof its invariant: the model keeps every rule.
    let _ = model.model();
}

/// The product of the factors, and of each first part of them, has magnitude below 2^62.
pub fn products_are_small(model: &ValidModel)
    ensures { HasSmallProducts model.now }
{
    // Reading the model gives the proof its invariant: the model keeps every rule.
    let _ = model.model();
}

/// No demand is negative.
pub fn demands_are_not_negative(model: &ValidModel)
    ensures { HasNoNegativeDemand model.now }
{
    // Reading the model gives the proof its invariant: the model keeps every rule.
    let _ = model.model();
}

/// Each interval index is that of an interval constraint.
pub fn indices_name_intervals(model: &ValidModel)
    ensures { NamesIntervals model.now }
{
    // Reading the model gives the proof its invariant: the model keeps every rule.
    let _ = model.model();
}
