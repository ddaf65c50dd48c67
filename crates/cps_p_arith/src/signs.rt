//! When no value is the product of two others, by their signs.
//!
//! The range of a factor that may be negative and positive says little as a whole: its products with another range
//! reach far to both sides. Where the target is not 0 neither factor is, and each pair of signs is asked alone.
ghost use Rattle.std.specs.Prelude.{◌≡◌, ◌≢◌, ◌*ℤ◌, ◌≤ℤ◌, ◌<ℤ◌, ℤ, pos, List, IsTrue};
ghost use Rattle.cps_model.specs.Arithmetic.{IsProduct};
ghost use Rattle.cps_p_arith.specs.Ranges.{IsBetween, IsIn, AreIn, IsSmall};

use crate::ends::Ends;
use crate::range::{Range, is_apart, negated, negative_part, positive_part, widened};

/// A range of positive numbers, or one that ends at 0.
fn reach(range: Range) -> Range
    requires { IsSmall range }
    ensures within { (x : ℤ) → IsBetween range.low range.high x → x ≤ℤ result.high }
    ensures from { pos 0 ≤ℤ result.high }
    ensures small { IsSmall result }
{
    Range {
        low: range.low,
        high: if range.high < 0 { 0 } else { range.high },
    }
}

/// Whether each product of positive numbers is below a range.
fn falls_short(target: Range, one: Range, other: Range) -> bool
    requires one { IsSmall one }
    requires other { IsSmall other }
    requires from { pos 0 ≤ℤ other.high }
    ensures { IsTrue result → (x y : ℤ) → pos 0 ≤ℤ x → x ≤ℤ one.high → y ≤ℤ other.high → (x *ℤ y) <ℤ target.low }
{
    one.high * other.high < target.low
}

/// Whether each product of positive numbers is past a range.
fn passes(target: Range, one: Range, other: Range) -> bool
    requires one { IsSmall one }
    requires other { IsSmall other }
    requires from { pos 1 ≤ℤ other.low }
    ensures { IsTrue result → (x y : ℤ) → pos 0 ≤ℤ x → one.low ≤ℤ x → other.low ≤ℤ y → target.high <ℤ (x *ℤ y) }
{
    target.high < one.low * other.low
}

/// Whether no product of positive numbers lies in a range.
fn misses_positive(target: Range, one: Range, other: Range) -> bool
    requires one { IsSmall one }
    requires other { IsSmall other }
    requires from_one { pos 1 ≤ℤ one.low }
    requires from_other { pos 1 ≤ℤ other.low }
    ensures { IsTrue result → (x y : ℤ) → IsBetween one.low one.high x → IsBetween other.low other.high y
        → IsBetween target.low target.high (x *ℤ y) → ⊥ }
{
    let one_reach = reach(one);
    let other_reach = reach(other);
    falls_short(target, one_reach, other_reach) || passes(target, one, other)
}

/// Whether no product of a positive number and one that is not 0 lies in a range.
fn misses_factor(target: Range, one: Range, other: Ends) -> bool
    requires target { IsSmall target }
    requires one { IsSmall one }
    requires from { pos 1 ≤ℤ one.low }
    ensures { IsTrue result → (x y : ℤ) → IsBetween one.low one.high x → IsIn other y → y ≢ pos 0
        → IsBetween target.low target.high (x *ℤ y) → ⊥ }
{
    let turned = negated(target);
    let positive = positive_part(other);
    let negative = negative_part(other);
    misses_positive(target, one, positive) && misses_positive(turned, one, negative)
}

/// Whether no product of two numbers that are not 0 lies in a range.
fn misses_signs(target: Ends, one: Ends, other: Ends) -> bool
    ensures { IsTrue result → (x y : ℤ) → IsIn one x → IsIn other y → x ≢ pos 0 → y ≢ pos 0 → IsIn target (x *ℤ y) → ⊥ }
{
    let wide = widened(target);
    let turned = negated(wide);
    let positive = positive_part(one);
    let negative = negative_part(one);
    misses_factor(wide, positive, other) && misses_factor(turned, negative, other)
}

/// Whether no product of two values lies between ends that 0 does not lie between.
fn excludes_two(target: Ends, one: Ends, other: Ends) -> bool
    ensures { IsTrue result → (x y : ℤ) → IsIn one x → IsIn other y → IsIn target (x *ℤ y) → ⊥ }
{
    let zero = Range { low: 0, high: 0 };
    is_apart(target, zero) && misses_signs(target, one, other)
}

/// Whether no value of the target is the product of values of the members, where these are two.
pub(crate) fn excludes_signs(target: Ends, members: &[Ends]) -> bool
    ensures { IsTrue result → (v : ℤ) (ns : List ℤ) → IsIn target v → AreIn members.now ns → IsProduct v ns → ⊥ }
{
    if members.len() == 2 {
        return excludes_two(target, members[0], members[1]);
    }
    false
}
