//! When no value is the product of others.
//!
//! A product may be far greater than any value. It is cut off at a limit past all values, after each factor: the
//! product with a number past the limit is past it too, or 0, and so is that with the limit itself.
ghost use Rattle.std.specs.Prelude.{◌≡◌, ◌⊎◌, ◌*ℤ◌, ℤ, false, List, All, IsTrue};
ghost use Rattle.cps_model.specs.Arithmetic.{IsProduct};
ghost use Rattle.cps_p_arith.specs.Ranges.{IsBetween, IsBoth, IsOrdered, IsIn, IsAt, AreIn, AreAt, IsSmall};
ghost use Rattle.cps_p_arith.specs.Products.{clamped, IsCorner, IsProductRange};
ghost use Rattle.cps_propagate.specs.Arithmetic.{MayMultiply};

use crate::ends::Ends;
use crate::range::{Range, is_apart, joined};
use crate::signs::excludes_signs;

/// A number that is greater than each value.
const FAR: i128 = 9_223_372_036_854_775_809;

/// A number, cut off past the values.
fn clamped(number: i128) -> i128
    ensures { result ≡ clamped number }
{
    if number < -FAR {
        return -FAR;
    }
    if FAR < number { FAR } else { number }
}

/// The range of what a number makes of those of a range.
fn scaled(number: i64, range: Range) -> Range
    requires { IsSmall range }
    ensures sound { (y : ℤ) → IsBetween range.low range.high y → IsBetween result.low result.high (number *ℤ y) }
    ensures exact { (y : ℤ) → IsBoth range.low range.high y → IsBoth result.low result.high (number *ℤ y) }
    ensures low { (result.low ≡ number *ℤ range.low) ⊎ (result.low ≡ number *ℤ range.high) }
    ensures high { (result.high ≡ number *ℤ range.low) ⊎ (result.high ≡ number *ℤ range.high) }
{
    let factor = number as i128;
    let one = factor * range.low;
    let other = factor * range.high;
    if number < 0 {
        Range {
            low: other,
            high: one,
        }
    } else {
        Range {
            low: one,
            high: other,
        }
    }
}

/// The range of the products of two numbers, by the products of their ends.
fn times(factor: Ends, range: Range) -> Range
    requires { IsSmall range }
    ensures sound { (x y : ℤ) → IsIn factor x → IsBetween range.low range.high y
        → IsBetween result.low result.high (x *ℤ y) }
    ensures exact { (x y : ℤ) → IsAt factor x → IsBoth range.low range.high y → IsBoth result.low result.high (x *ℤ y) }
    ensures low { IsCorner factor range result.low }
    ensures high { IsCorner factor range result.high }
{
    let one = scaled(factor.low, range);
    let other = scaled(factor.high, range);
    joined(one, other)
}

/// The range of the members' product, cut off past the values.
fn product_range(members: &[Ends]) -> Range
    ensures { IsProductRange members.now result }
{
    let mut range = Range { low: 1, high: 1 };
    let mut k = members.len();
    while k > 0 {
        k -= 1;
        let wide = times(members[k], range);
        range = Range {
            low: clamped(wide.low),
            high: clamped(wide.high),
        };
    }
    range
}

/// Whether no value of the target is the product of values of the members. Where all are fixed it says which.
pub(crate) fn excludes_product(target: Ends, members: &[Ends]) -> bool
    ensures sound { IsTrue result → (v : ℤ) (ns : List ℤ) → IsIn target v → AreIn members.now ns → IsProduct v ns → ⊥ }
    ensures exact { result ≡ false → (v : ℤ) (ns : List ℤ) → IsAt target v → AreAt members.now ns → IsProduct v ns }
    ensures possible { result ≡ false → IsOrdered target → All IsOrdered members.now
        → MayMultiply (AreIn members.now) (IsIn target) }
{
    let range = product_range(members);
    is_apart(target, range) || excludes_signs(target, members)
}
