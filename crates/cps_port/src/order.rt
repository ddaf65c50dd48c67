//! The order of bounds, and when two bounds have met.
ghost use Rattle.std.specs.Prelude.{◌≡◌};
ghost use Rattle.cps_model.specs.Statuses.{is_closed};
ghost use Rattle.cps_port.specs.Order.{lesser, greater, raised_to};

use cps_model::Bound;

/// The lesser of two bounds.
pub fn lesser(first: Bound, second: Bound) -> Bound
    ensures { result ≡ lesser first second }
{
    match (first, second) {
        (Bound::At(x), Bound::At(y)) => Bound::At(x.min(y)),
        (Bound::At(x), Bound::Infinite) => Bound::At(x),
        (Bound::Infinite, bound) => bound,
    }
}

/// The greater of two bounds.
pub fn greater(first: Bound, second: Bound) -> Bound
    ensures { result ≡ greater first second }
{
    match (first, second) {
        (Bound::At(x), Bound::At(y)) => Bound::At(x.max(y)),
        (Bound::At(_), Bound::Infinite) | (Bound::Infinite, _) => Bound::Infinite,
    }
}

/// The greater of a further bound and of the greatest so far, which is `None` where there was none.
pub fn raised_to(greatest: Option<Bound>, bound: Bound) -> Option<Bound>
    ensures { result ≡ raised_to greatest bound }
{
    match greatest {
        None => Some(bound),
        Some(other) => Some(greater(other, bound)),
    }
}

/// Whether the lower bound has reached the upper one, within the gap.
pub fn is_closed(lower: Bound, upper: Bound, gap: u64) -> bool
    ensures { result ≡ is_closed lower upper gap }
{
    match (lower, upper) {
        (Bound::Infinite, _) => true,
        (Bound::At(_), Bound::Infinite) => false,
        (Bound::At(low), Bound::At(high)) => i128::from(high) <= i128::from(low) + i128::from(gap),
    }
}
