//! Ranges of numbers that are twice as wide as a subject's values.
ghost use Rattle.std.specs.Prelude.{◌≡◌, ◌≤◌, ◌+◌, ◌^◌, ◌≤ℤ◌, ◌<ℤ◌, ◌⊎◌, ℤ, pos, neg_ℤ, false, IsTrue};
ghost use Rattle.cps_p_arith.specs.Ranges.{IsBetween, IsBoth, IsIn, IsAt, IsSmall};

use crate::ends::Ends;

/// The least and the greatest that a number may be.
#[derive(Clone, Copy)]
pub(crate) struct Range {
    pub(crate) low: i128,
    pub(crate) high: i128,
}

/// The same ends, wider.
pub(crate) fn widened(ends: Ends) -> Range
    ensures low { result.low ≡ ends.low }
    ensures high { result.high ≡ ends.high }
    ensures small { IsSmall result }
{
    Range {
        low: ends.low as i128,
        high: ends.high as i128,
    }
}

/// The opposite numbers.
pub(crate) fn negated(range: Range) -> Range
    requires { IsSmall range }
    ensures low { result.low ≡ neg_ℤ range.high }
    ensures high { result.high ≡ neg_ℤ range.low }
    ensures small { IsSmall result }
{
    Range {
        low: -range.high,
        high: -range.low,
    }
}

/// The range of the numbers of two.
pub(crate) fn joined(one: Range, other: Range) -> Range
    ensures low { result.low ≤ℤ one.low }
    ensures high { one.high ≤ℤ result.high }
    ensures other_low { result.low ≤ℤ other.low }
    ensures other_high { other.high ≤ℤ result.high }
    ensures exact { (x : ℤ) → IsBoth one.low one.high x → IsBoth other.low other.high x
        → IsBoth result.low result.high x }
    ensures one_of_low { (result.low ≡ one.low) ⊎ (result.low ≡ other.low) }
    ensures one_of_high { (result.high ≡ one.high) ⊎ (result.high ≡ other.high) }
{
    Range {
        low: if one.low < other.low {
            one.low
        } else {
            other.low
        },
        high: if one.high < other.high {
            other.high
        } else {
            one.high
        },
    }
}

/// The numbers that are positive.
pub(crate) fn positive_part(ends: Ends) -> Range
    ensures positive { pos 1 ≤ℤ result.low }
    ensures small { IsSmall result }
    ensures within { (x : ℤ) → IsIn ends x → pos 1 ≤ℤ x → IsBetween result.low result.high x }
    ensures same { (x : ℤ) → IsBetween result.low result.high x → IsIn ends x }
{
    Range {
        low: if ends.low < 1 { 1 } else { ends.low as i128 },
        high: ends.high as i128,
    }
}

/// The opposites of the numbers that are negative.
pub(crate) fn negative_part(ends: Ends) -> Range
    ensures positive { pos 1 ≤ℤ result.low }
    ensures small { IsSmall result }
    ensures within { (x : ℤ) → IsIn ends x → pos 1 ≤ℤ neg_ℤ x → IsBetween result.low result.high (neg_ℤ x) }
    ensures same { (x : ℤ) → IsBetween result.low result.high x → IsIn ends (neg_ℤ x) }
{
    Range {
        low: if ends.high > -1 {
            1
        } else {
            -(ends.high as i128)
        },
        high: -(ends.low as i128),
    }
}

/// Whether no number lies in both.
pub(crate) fn is_apart(ends: Ends, range: Range) -> bool
    ensures apart { IsTrue result → (range.high <ℤ ends.low) ⊎ (ends.high <ℤ range.low) }
    ensures from { result ≡ false → ends.low ≤ℤ range.high }
    ensures to { result ≡ false → range.low ≤ℤ ends.high }
{
    range.high < ends.low as i128 || (ends.high as i128) < range.low
}
