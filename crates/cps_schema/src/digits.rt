//! The numbers that digits write, as far as 64 bits go.
ghost use Rattle.std.specs.Prelude.{◌≡◌, ◌≤◌};
ghost use Rattle.cps_schema.specs.Digits.{digit_value, digits_after, decimal_value, capped};

/// What a digit is worth; letters are the digits from 10 on.
#[tactic(auto, unfolding(crate::specs::Digits::digit_value))]
fn digit_value(byte: u8) -> u64
    ensures { result ≡ digit_value byte }
{
    if byte >= b'a' {
        (byte - 87) as u64
    } else if byte >= b'A' {
        (byte - 55) as u64
    } else {
        byte.saturating_sub(b'0') as u64
    }
}

/// The number that digits write in a base behind those of `start`, or the greatest of 64 bits where it is greater.
pub(crate) fn digits_after(base: u64, start: u64, text: &[u8]) -> u64
    requires { 1 ≤ base }
    ensures { result ≡ capped (digits_after base start text.now) }
{
    let mut value = start;
    for byte in text {
        value = value
            .saturating_mul(base)
            .saturating_add(digit_value(*byte));
    }
    value
}

/// The number that a decimal's digits write, cut off in the same way.
#[tactic(auto, unfolding(crate::specs::Digits::decimal_value))]
pub(crate) fn decimal_value(text: &[u8]) -> u64
    ensures { result ≡ capped (decimal_value text.now) }
{
    digits_after(10, 0, text)
}
