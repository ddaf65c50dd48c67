//! Which numbers lists of bounds have from one number to another.
ghost use Rattle.std.specs.Prelude.{◌↔◌, IsTrue};
ghost use Rattle.cps_model.specs.Within.{is_within};
ghost use Rattle.cps_log.specs.Boxes.{NoneBetween};
ghost use Rattle.cps_cert.specs.Intervals.{AreApart};

/// Whether two intervals have no number in common.
fn are_apart(least: i64, greatest: i64, low: i64, high: i64) -> bool
    ensures { IsTrue result ↔ AreApart least greatest low high }
{
    least.max(low) > greatest.min(high)
}

/// Whether no interval of a list of bounds has a number from `low` to `high`.
pub(crate) fn none_between(bounds: &[i64], low: i64, high: i64) -> bool
    ensures { IsTrue result ↔ NoneBetween low high (is_within bounds.now) }
{
    let mut rest = bounds;
    while let [least, greatest, others @ ..] = rest {
        if !are_apart(*least, *greatest, low, high) {
            return false;
        }
        rest = others;
    }
    true
}
