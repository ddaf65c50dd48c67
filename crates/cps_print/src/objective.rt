//! What is shown of an objective.
ghost use Rattle.std.specs.Prelude.{◌≡◌, ◌<◌, ◌≤◌, ◌+◌, ◌*◌, ◌^◌, ◌+ℤ◌, ◌*ℤ◌, IsTrue, length, unsigned_abs};
ghost use Rattle.std.specs.List.{list_all};
ghost use Rattle.cps_model.specs.Values.{reference_value, sum_of};
ghost use Rattle.cps_model.specs.Reach.{weight_of};
ghost use Rattle.cps_model.specs.Rules.{names};
ghost use Rattle.cps_model.specs.Solutions.{shown_value};
ghost use Rattle.cps_print.specs.Responses.{HasLimits};

use cps_model::{Objective, variable_of};

/// The value of a reference, even if the negation of the value is not an `i64`.
fn reference_value(reference: i32, values: &[i64]) -> i128
    requires { IsTrue (names (length values.now) reference) }
    ensures { result ≡ reference_value values.now reference }
{
    let value = i128::from(values[variable_of(reference)]);
    if reference >= 0 { value } else { -value }
}

/// A sum with one more term.
fn with_term(sum: i128, coeff: i64, value: i128) -> i128
    requires { unsigned_abs coeff * unsigned_abs value + unsigned_abs sum < 2 ^ 62 }
    ensures { result ≡ sum +ℤ coeff *ℤ value }
{
    sum + i128::from(coeff) * value
}

/// The sum of each coefficient times the value of its reference.
pub fn sum_of(vars: &[i32], coeffs: &[i64], values: &[i64]) -> i128
    requires paired { length vars.now ≡ length coeffs.now }
    requires named { IsTrue (list_all (names (length values.now)) vars.now) }
    requires fits { weight_of values.now vars.now coeffs.now < 2 ^ 62 }
    ensures value { result ≡ sum_of values.now vars.now coeffs.now }
    ensures near { unsigned_abs result ≤ weight_of values.now vars.now coeffs.now }
{
    let mut sum = 0;
    for (k, reference) in vars.iter().enumerate() {
        sum = with_term(sum, coeffs[k], reference_value(*reference, values));
    }
    sum
}

/// A sum with its offset.
fn with_offset(sum: i128, offset: i64) -> i128
    requires sum { unsigned_abs sum ≤ 2 ^ 63 }
    requires offset { unsigned_abs offset ≤ 2 ^ 53 }
    ensures value { result ≡ sum +ℤ offset }
    ensures near { unsigned_abs result < 2 ^ 64 }
{
    sum + i128::from(offset)
}

/// A number scaled.
fn scaled(scaling: i64, value: i128) -> i128
    requires scaling { unsigned_abs scaling ≤ 2 ^ 53 }
    requires value { unsigned_abs value < 2 ^ 64 }
    ensures { result ≡ scaling *ℤ value }
{
    i128::from(scaling) * value
}

/// An objective's sum as it is shown.
pub fn shown_value(objective: &Objective, sum: i128) -> i128
    requires limits { HasLimits objective.now }
    requires sum { unsigned_abs sum ≤ 2 ^ 63 }
    ensures { result ≡ shown_value objective.now sum }
{
    scaled(objective.scaling, with_offset(sum, objective.offset))
}
