//! When no value is the quotient of two others, rounded towards zero.
ghost use Rattle.std.specs.Prelude.{◌≡◌, ◌≢◌, int_div, ◌≤ℤ◌, ◌<ℤ◌, ℤ, pos, false, List, All, IsTrue};
ghost use Rattle.cps_model.specs.Arithmetic.{IsQuotient};
ghost use Rattle.cps_p_arith.specs.Ranges.{IsBetween, IsBoth, IsOrdered, IsIn, IsAt, AreIn, AreAt, IsSmall};
ghost use Rattle.cps_p_arith.specs.Divisions.{IsDivided, ReachesDown, ReachesUp, HasQuotients};
ghost use Rattle.cps_propagate.specs.Arithmetic.{MayDivide};
ghost use Rattle.cps_p_arith.specs.Demands.{MayDivideEach};

use crate::ends::Ends;
use crate::range::{Range, is_apart, negated, negative_part, positive_part, widened};

/// Whether each quotient of a number that is not below a range by a positive divisor is past another range.
pub(crate) fn all_above(quotient: Range, number: Range, divisor: Range) -> bool
    requires positive { pos 1 ≤ℤ divisor.low }
    requires quotient { IsSmall quotient }
    requires divisor { IsSmall divisor }
    ensures sound { IsTrue result → (n d q r : ℤ) → number.low ≤ℤ n → IsBetween divisor.low divisor.high d
        → IsDivided n d q r → quotient.high <ℤ q }
    ensures exact { result ≡ false → divisor.low ≤ℤ divisor.high
        → ReachesDown quotient.high number.low divisor.low divisor.high }
{
    if quotient.high < 0 {
        quotient.high * divisor.low < number.low
    } else {
        (quotient.high + 1) * divisor.high <= number.low
    }
}

/// Whether each quotient of a number that is not past a range by a positive divisor is below another range.
pub(crate) fn all_below(quotient: Range, number: Range, divisor: Range) -> bool
    requires positive { pos 1 ≤ℤ divisor.low }
    requires quotient { IsSmall quotient }
    requires number { IsSmall number }
    requires divisor { IsSmall divisor }
    ensures sound { IsTrue result → (n d q r : ℤ) → n ≤ℤ number.high → IsBetween divisor.low divisor.high d
        → IsDivided n d q r → q <ℤ quotient.low }
    ensures exact { result ≡ false → divisor.low ≤ℤ divisor.high
        → ReachesUp quotient.low number.high divisor.low divisor.high }
{
    all_above(negated(quotient), negated(number), divisor)
}

/// Whether no quotient of a number by a positive divisor lies in a range.
fn misses(quotient: Range, number: Range, divisor: Range) -> bool
    requires positive { pos 1 ≤ℤ divisor.low }
    requires quotient { IsSmall quotient }
    requires number { IsSmall number }
    requires divisor { IsSmall divisor }
    ensures sound { IsTrue result → (n d q r : ℤ) → IsBetween number.low number.high n
        → IsBetween divisor.low divisor.high d → IsDivided n d q r → IsBetween quotient.low quotient.high q → ⊥ }
    ensures exact { result ≡ false → HasQuotients quotient number divisor }
{
    divisor.high < divisor.low
        || all_above(quotient, number, divisor)
        || all_below(quotient, number, divisor)
}

/// Whether no quotient of a number by a divisor lies in a range.
fn misses_all(quotient: Ends, number: Ends, divisor: Ends) -> bool
    ensures sound { IsTrue result → (n d q r : ℤ) → IsIn number n → IsIn divisor d → IsDivided n d q r
        → IsIn quotient q → ⊥ }
    ensures possible { result ≡ false → IsOrdered quotient → IsOrdered number
        → MayDivide (IsIn number) (IsIn divisor) (IsIn quotient) }
{
    let target = widened(quotient);
    let dividend = widened(number);
    misses(target, dividend, positive_part(divisor))
        && misses(target, negated(dividend), negative_part(divisor))
}

/// The quotient of two fixed values.
fn quotient_of(number: Ends, divisor: Ends) -> Range
    requires { divisor.low ≢ pos 0 }
    ensures { IsBoth result.low result.high (int_div number.low divisor.low) }
{
    let quotient = (number.low as i128) / (divisor.low as i128);
    Range {
        low: quotient,
        high: quotient,
    }
}

/// Whether no value of the target is the quotient of values of two. Where all are fixed it says which.
fn excludes_pair(target: Ends, number: Ends, divisor: Ends) -> bool
    ensures sound { IsTrue result → (q n d : ℤ) → IsIn target q → IsIn number n → IsIn divisor d → d ≢ pos 0
        → q ≡ int_div n d → ⊥ }
    ensures exact { result ≡ false → (q n d : ℤ) → IsAt target q → IsAt number n → IsAt divisor d
        → (d ≢ pos 0) × (q ≡ int_div n d) }
    ensures possible { result ≡ false → IsOrdered target → IsOrdered number
        → MayDivide (IsIn number) (IsIn divisor) (IsIn target) }
{
    if number.is_fixed() && divisor.is_fixed() {
        return divisor.low == 0 || is_apart(target, quotient_of(number, divisor));
    }
    misses_all(target, number, divisor)
}

/// Whether no value of the target is the quotient of values of two members. Where all are fixed it says which.
pub(crate) fn excludes_quotient(target: Ends, members: &[Ends]) -> bool
    ensures sound { IsTrue result → (v : ℤ) (ns : List ℤ) → IsIn target v → AreIn members.now ns → IsQuotient v ns → ⊥ }
    ensures exact { result ≡ false → (v : ℤ) (ns : List ℤ) → IsAt target v → AreAt members.now ns → IsQuotient v ns }
    ensures possible { result ≡ false → IsOrdered target → All IsOrdered members.now → MayDivideEach target members.now }
{
    if members.len() == 2 {
        return excludes_pair(target, members[0], members[1]);
    }
    true
}
