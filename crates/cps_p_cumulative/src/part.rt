//! Compulsory parts.
ghost use Rattle.std.specs.Prelude.{◌≡◌};
ghost use Rattle.cps_p_cumulative.specs.Profile.{at};

/// The times at which a span surely runs, from its greatest start on and before its least end, and its least demand.
#[derive(Clone, Copy)]
pub(crate) struct Part {
    pub(crate) from: i64,
    pub(crate) to: i128,
    pub(crate) demand: u64,
}

/// What a part demands at a time.
pub(crate) fn demand_at(time: i64, part: &Part) -> u64
    ensures { result ≡ at time part.now }
{
    if part.from <= time && i128::from(time) < part.to {
        part.demand
    } else {
        0
    }
}
