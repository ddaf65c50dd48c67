//! When no value is what is left of another after it was divided by a third, rounded towards zero.
//!
//! What is left has the sign of what was divided, or is 0, and the divisor's sign does not matter. So both are taken by
//! their signs, and the question is asked of a number that is not negative and a positive divisor alone. There the
//! least quotient that the number's range admits is `k`, where `k` times the greatest divisor is at most the least
//! number. Nothing fits where neither a quotient of `k` does, which leaves what the number has beyond `k` divisors, nor
//! a greater one, which needs `k + 1` divisors. Where the divisor is fixed, this finds each remainder and each number
//! that is possible; so it does where the number lies within one period of the divisor.
ghost use Rattle.std.specs.Prelude.{◌≡◌, ◌≢◌, int_rem, ◌+ℤ◌, ◌-ℤ◌, ◌*ℤ◌, ◌≤ℤ◌, ◌<ℤ◌, ℤ, pos, false, List, All, IsTrue};
ghost use Rattle.cps_model.specs.Arithmetic.{IsRemainder};
ghost use Rattle.cps_p_arith.specs.Ranges.{IsBetween, IsBoth, IsOrdered, IsIn, IsAt, AreIn, AreAt, IsSmall};
ghost use Rattle.cps_p_arith.specs.Divisions.{IsDivided, LeavesUnsigned, LeavesSome};
ghost use Rattle.cps_propagate.specs.Arithmetic.{MayLeave};
ghost use Rattle.cps_p_arith.specs.Demands.{MayLeaveEach};

use crate::ends::Ends;
use crate::range::{Range, is_apart, negated, negative_part, positive_part, widened};

/// The part of a range that is not negative.
fn not_negative(range: Range) -> Range
    requires { IsSmall range }
    ensures from { pos 0 ≤ℤ result.low }
    ensures within { (x : ℤ) → pos 0 ≤ℤ x → IsBetween range.low range.high x → IsBetween result.low result.high x }
    ensures same { (x : ℤ) → IsBetween result.low result.high x → IsBetween range.low range.high x }
    ensures ordered { range.low ≤ℤ range.high → pos 0 ≤ℤ range.high → result.low ≤ℤ result.high }
    ensures small { IsSmall result }
{
    Range {
        low: if range.low < 0 { 0 } else { range.low },
        high: range.high,
    }
}

/// A quotient that no number of a range falls short of.
fn least_quotient(number: Range, divisor: Range) -> Range
    requires from { pos 0 ≤ℤ number.low }
    requires positive { pos 1 ≤ℤ divisor.high }
    requires number { IsSmall number }
    ensures from { pos 0 ≤ℤ result.low }
    ensures reached { (result.low *ℤ divisor.high) ≤ℤ number.low }
    ensures next { number.low <ℤ ((result.low +ℤ pos 1) *ℤ divisor.high) }
    ensures small { IsSmall result }
{
    let quotient = number.low / divisor.high;
    Range {
        low: quotient,
        high: quotient,
    }
}

/// Whether a greater quotient needs a number past a range.
fn none_beyond(quotient: Range, rest: Range, number: Range, divisor: Range) -> bool
    requires from { pos 0 ≤ℤ quotient.low }
    requires quotient { IsSmall quotient }
    requires rest { IsSmall rest }
    requires number { IsSmall number }
    requires divisor { IsSmall divisor }
    ensures sound { IsTrue result → (n d q r : ℤ) → n ≤ℤ number.high → divisor.low ≤ℤ d → pos 1 ≤ℤ d
        → IsDivided n d q r → rest.low ≤ℤ r → q ≤ℤ quotient.low }
    ensures exact { result ≡ false → ((quotient.low +ℤ pos 1) *ℤ divisor.low) ≤ℤ (number.high -ℤ rest.low) }
{
    number.high - rest.low < (quotient.low + 1) * divisor.low
}

/// Whether a quotient needs a number past a range.
fn needs_more(quotient: Range, rest: Range, number: Range, divisor: Range) -> bool
    requires from { pos 0 ≤ℤ quotient.low }
    requires quotient { IsSmall quotient }
    requires rest { IsSmall rest }
    requires number { IsSmall number }
    requires divisor { IsSmall divisor }
    ensures sound { IsTrue result → (n d r : ℤ) → n ≤ℤ number.high → divisor.low ≤ℤ d
        → IsDivided n d quotient.low r → rest.low ≤ℤ r → ⊥ }
    ensures exact { result ≡ false → (quotient.low *ℤ divisor.low) ≤ℤ (number.high -ℤ rest.low) }
{
    number.high - rest.low < quotient.low * divisor.low
}

/// Whether a quotient leaves more than a range has.
fn leaves_more(quotient: Range, rest: Range, number: Range, divisor: Range) -> bool
    requires from { pos 0 ≤ℤ quotient.low }
    requires quotient { IsSmall quotient }
    requires rest { IsSmall rest }
    requires number { IsSmall number }
    requires divisor { IsSmall divisor }
    ensures sound { IsTrue result → (n d r : ℤ) → number.low ≤ℤ n → d ≤ℤ divisor.high
        → IsDivided n d quotient.low r → r ≤ℤ rest.high → ⊥ }
    ensures exact { result ≡ false → (number.low -ℤ rest.high) ≤ℤ (quotient.low *ℤ divisor.high) }
{
    quotient.low * divisor.high < number.low - rest.high
}

/// Whether a quotient leaves nothing that lies in a range.
fn misses_at(quotient: Range, rest: Range, number: Range, divisor: Range) -> bool
    requires from { pos 0 ≤ℤ quotient.low }
    requires quotient { IsSmall quotient }
    requires rest { IsSmall rest }
    requires number { IsSmall number }
    requires divisor { IsSmall divisor }
    ensures sound { IsTrue result → (n d r : ℤ) → IsBetween number.low number.high n
        → IsBetween divisor.low divisor.high d → IsDivided n d quotient.low r → IsBetween rest.low rest.high r → ⊥ }
    ensures needs { result ≡ false → (quotient.low *ℤ divisor.low) ≤ℤ (number.high -ℤ rest.low) }
    ensures leaves { result ≡ false → (number.low -ℤ rest.high) ≤ℤ (quotient.low *ℤ divisor.high) }
{
    needs_more(quotient, rest, number, divisor) || leaves_more(quotient, rest, number, divisor)
}

/// Whether nothing in a range is left of a number by division, where none of them is negative and the divisor is
/// positive.
fn misses_part(rest: Range, number: Range, divisor: Range) -> bool
    requires from { pos 0 ≤ℤ number.low }
    requires positive { pos 1 ≤ℤ divisor.low }
    requires ordered { divisor.low ≤ℤ divisor.high }
    requires rest { IsSmall rest }
    requires number { IsSmall number }
    requires divisor { IsSmall divisor }
    ensures sound { IsTrue result → (n d q r : ℤ) → IsBetween number.low number.high n
        → IsBetween divisor.low divisor.high d → IsDivided n d q r → IsBetween rest.low rest.high r → ⊥ }
    ensures possible { result ≡ false → number.low ≤ℤ number.high → pos 0 ≤ℤ rest.low → rest.low ≤ℤ rest.high
        → LeavesUnsigned rest number divisor }
{
    if divisor.high <= rest.low {
        return true;
    }
    let quotient = least_quotient(number, divisor);
    misses_at(quotient, rest, number, divisor) && none_beyond(quotient, rest, number, divisor)
}

/// Whether nothing in a range is left of a number that is not negative by division by a positive divisor.
fn misses_up(rest: Range, number: Range, divisor: Range) -> bool
    requires positive { pos 1 ≤ℤ divisor.low }
    requires rest { IsSmall rest }
    requires number { IsSmall number }
    requires divisor { IsSmall divisor }
    ensures sound { IsTrue result → (n d q r : ℤ) → pos 0 ≤ℤ n → IsBetween number.low number.high n
        → IsBetween divisor.low divisor.high d → IsDivided n d q r → IsBetween rest.low rest.high r → ⊥ }
    ensures possible { result ≡ false → number.low ≤ℤ number.high → rest.low ≤ℤ rest.high
        → LeavesUnsigned rest number divisor }
{
    if divisor.high < divisor.low {
        return true;
    }
    if number.high < 0 {
        return true;
    }
    if rest.high < 0 {
        return true;
    }
    let left = not_negative(rest);
    let part = not_negative(number);
    misses_part(left, part, divisor)
}

/// Whether nothing in a range is left of a number by division by a positive divisor.
fn misses(rest: Range, number: Range, divisor: Range) -> bool
    requires positive { pos 1 ≤ℤ divisor.low }
    requires rest { IsSmall rest }
    requires number { IsSmall number }
    requires divisor { IsSmall divisor }
    ensures sound { IsTrue result → (n d q r : ℤ) → IsBetween number.low number.high n
        → IsBetween divisor.low divisor.high d → IsDivided n d q r → IsBetween rest.low rest.high r → ⊥ }
    ensures possible { result ≡ false → number.low ≤ℤ number.high → rest.low ≤ℤ rest.high
        → LeavesSome rest number divisor }
{
    let turned_rest = negated(rest);
    let turned = negated(number);
    misses_up(rest, number, divisor) && misses_up(turned_rest, turned, divisor)
}

/// Whether nothing in a range is left of a number by division.
fn misses_all(rest: Ends, number: Ends, divisor: Ends) -> bool
    ensures sound { IsTrue result → (n d q r : ℤ) → IsIn number n → IsIn divisor d → IsDivided n d q r → IsIn rest r
        → ⊥ }
    ensures possible { result ≡ false → IsOrdered rest → IsOrdered number
        → MayLeave (IsIn number) (IsIn divisor) (IsIn rest) }
{
    let target = widened(rest);
    let dividend = widened(number);
    misses(target, dividend, positive_part(divisor))
        && misses(target, dividend, negative_part(divisor))
}

/// What is left of a fixed value by division by another.
fn rest_of(number: Ends, divisor: Ends) -> Range
    requires { divisor.low ≢ pos 0 }
    ensures { IsBoth result.low result.high (int_rem number.low divisor.low) }
{
    let rest = (number.low as i128) % (divisor.low as i128);
    Range {
        low: rest,
        high: rest,
    }
}

/// Whether no value of the target is what division leaves of values of two. Where all are fixed it says which.
fn excludes_pair(target: Ends, number: Ends, divisor: Ends) -> bool
    ensures sound { IsTrue result → (r n d : ℤ) → IsIn target r → IsIn number n → IsIn divisor d → d ≢ pos 0
        → r ≡ int_rem n d → ⊥ }
    ensures exact { result ≡ false → (r n d : ℤ) → IsAt target r → IsAt number n → IsAt divisor d
        → (d ≢ pos 0) × (r ≡ int_rem n d) }
    ensures possible { result ≡ false → IsOrdered target → IsOrdered number
        → MayLeave (IsIn number) (IsIn divisor) (IsIn target) }
{
    if number.is_fixed() && divisor.is_fixed() {
        return divisor.low == 0 || is_apart(target, rest_of(number, divisor));
    }
    misses_all(target, number, divisor)
}

/// Whether no value of the target is what division leaves of values of two members. Where all are fixed it says which.
pub(crate) fn excludes_remainder(target: Ends, members: &[Ends]) -> bool
    ensures sound { IsTrue result → (v : ℤ) (ns : List ℤ) → IsIn target v → AreIn members.now ns → IsRemainder v ns
        → ⊥ }
    ensures exact { result ≡ false → (v : ℤ) (ns : List ℤ) → IsAt target v → AreAt members.now ns → IsRemainder v ns }
    ensures possible { result ≡ false → IsOrdered target → All IsOrdered members.now → MayLeaveEach target members.now }
{
    if members.len() == 2 {
        return excludes_pair(target, members[0], members[1]);
    }
    true
}
