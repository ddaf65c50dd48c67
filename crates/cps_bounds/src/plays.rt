//! What each step tells its seat.
ghost use Rattle.cps_bounds.specs.Rule.{upper_seen, lower_seen, value_offered, bound_raised, kept_half, given_half, joined, spent};

use crate::view::View;
use atomic_table::{Join, Play, Split};

/// Loads the upper bound.
pub struct SeeUpper;

impl Play<(), View> for SeeUpper {
    ghost then = { upper_seen };
}

/// Loads the lower bound.
pub struct SeeLower;

impl Play<(), View> for SeeLower {
    ghost then = { lower_seen };
}

/// Lowers the upper bound to a solution's objective.
pub struct Offer;

impl Play<(), View> for Offer {
    ghost then = { value_offered };
}

/// Raises the lower bound.
pub struct Raise;

impl Play<(), View> for Raise {
    ghost then = { bound_raised };
}

/// Shares out the splits of a seat between it and a new one, which has offered and raised nothing.
pub struct Halves;

impl Split<View> for Halves {
    ghost left = { kept_half };

    ghost right = { given_half };
}

/// Makes one seat of two, which knows what both knew.
pub struct Both;

impl Join<View> for Both {
    ghost both = { joined };

    ghost spent = { spent };
}
