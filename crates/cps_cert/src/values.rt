//! What sums are worth at an assignment within the domains.
ghost use Rattle.std.specs.Prelude.{◌≡◌, ◌<◌, ◌≤◌, ◌+◌, ◌*◌, ◌^◌, ◌+ℤ◌, ◌*ℤ◌, IsTrue, length, unsigned_abs};
ghost use Rattle.std.specs.List.{list_all};
ghost use Rattle.cps_model.specs.Values.{reference_value, sum_of, expression_value};
ghost use Rattle.cps_model.specs.Reach.{weight_of};
ghost use Rattle.cps_model.specs.Rules.{names};
ghost use Rattle.cps_model.specs.Ready.{are_small, is_ready};

use cps_model::{LinearExpr, negated, variable_of};

/// The value of a reference.
fn reference_value(reference: i32, values: &[i64]) -> i64
    requires named { IsTrue (names (length values.now) reference) }
    requires small { IsTrue (are_small values.now) }
    ensures { result ≡ reference_value values.now reference }
{
    let value = values[variable_of(reference)];
    if reference >= 0 {
        value
    } else {
        negated(value)
    }
}

/// A sum with one more term.
fn with_term(sum: i64, coeff: i64, value: i64) -> i64
    requires { unsigned_abs coeff * unsigned_abs value + unsigned_abs sum < 2 ^ 62 }
    ensures { result ≡ sum +ℤ coeff *ℤ value }
{
    sum + coeff * value
}

/// The sum of each coefficient times the value of its reference.
fn sum_of(vars: &[i32], coeffs: &[i64], values: &[i64]) -> i64
    requires paired { length vars.now ≡ length coeffs.now }
    requires named { IsTrue (list_all (names (length values.now)) vars.now) }
    requires small { IsTrue (are_small values.now) }
    requires fits { weight_of values.now vars.now coeffs.now < 2 ^ 62 }
    ensures value { result ≡ sum_of values.now vars.now coeffs.now }
    ensures near { unsigned_abs result ≤ weight_of values.now vars.now coeffs.now }
{
    let mut sum = 0;
    for (k, reference) in vars.iter().enumerate() {
        sum = with_term(sum, coeffs[k], reference_value(*reference, values));
    }
    sum
}

/// A sum with its offset.
fn with_offset(sum: i64, offset: i64) -> i64
    requires { unsigned_abs sum + unsigned_abs offset < 2 ^ 62 }
    ensures { result ≡ sum +ℤ offset }
{
    sum + offset
}

/// The value of a sum. The rules of a valid model keep it below 2^62, so 64 bits are enough.
pub(crate) fn expression_value(sum: &LinearExpr, values: &[i64]) -> i64
    requires ready { IsTrue (is_ready values.now sum.now) }
    requires small { IsTrue (are_small values.now) }
    ensures { result ≡ expression_value values.now sum.now }
{
    let total = sum_of(sum.vars.as_slice(), sum.coeffs.as_slice(), values);
    with_offset(total, sum.offset)
}
