//! What a response shows of the objective, in 128 bits, since offset and scaling factor may be any 64-bit numbers.
ghost use Rattle.std.specs.Prelude.{◌≡◌, ◌<◌, ◌≤◌, ◌^◌, ◌+ℤ◌, ◌*ℤ◌, unsigned_abs};
ghost use Rattle.cps_model.specs.Solutions.{shown_value};
ghost use Rattle.cps_log.specs.Subjects.{IsNear};

use cps_model::Objective;

/// A sum with its offset.
fn with_offset(sum: i64, offset: i64) -> i128
    requires { IsNear sum }
    ensures value { result ≡ sum +ℤ offset }
    ensures near { unsigned_abs result < 2 ^ 64 }
{
    i128::from(sum) + i128::from(offset)
}

/// A number scaled.
fn scaled(scaling: i64, value: i128) -> i128
    requires { unsigned_abs value < 2 ^ 64 }
    ensures { result ≡ scaling *ℤ value }
{
    i128::from(scaling) * value
}

/// What is shown of an objective's sum: the scaling factor times the sum with its offset.
pub(crate) fn shown_value(objective: &Objective, sum: i64) -> i128
    requires { IsNear sum }
    ensures { result ≡ shown_value objective.now sum }
{
    scaled(objective.scaling, with_offset(sum, objective.offset))
}
