//! A bound as a word: its value plus 2^63, and 2^64 - 1 for `Infinite`, so that words keep the order of bounds. The
//! greatest `i64` has the word of `Infinite`; no bound is so great, since objectives stay below 2^62.
ghost use Rattle.std.specs.Prelude.{◌≡◌};
ghost use Rattle.cps_port.specs.Words.{value_of, word_of, bound_of};

use cps_model::Bound;

/// The word that stands for a bound.
pub fn word_of(bound: Bound) -> u64
    ensures { result ≡ word_of bound }
{
    match bound {
        Bound::At(value) => {
            if value >= 0 {
                value as u64 + (1 << 63)
            } else {
                (1 << 63) - 1 - (-(value + 1)) as u64
            }
        }
        Bound::Infinite => u64::MAX,
    }
}

/// The value for which a word stands.
pub fn value_of(word: u64) -> i64
    ensures { result ≡ value_of word }
{
    if word >= 1 << 63 {
        (word - (1 << 63)) as i64
    } else {
        -(((1 << 63) - 1 - word) as i64) - 1
    }
}

/// The bound for which a word stands.
pub fn bound_of(word: u64) -> Bound
    ensures { result ≡ bound_of word }
{
    if word == u64::MAX {
        Bound::Infinite
    } else {
        Bound::At(value_of(word))
    }
}
