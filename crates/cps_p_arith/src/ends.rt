//! What a value lies between.

/// The least and the greatest that a subject's value may be.
#[derive(Clone, Copy)]
pub(crate) struct Ends {
    pub(crate) low: i64,
    pub(crate) high: i64,
}

impl Ends {
    ghost use Rattle.std.specs.Prelude.{◌≡◌, ◌↔◌, IsTrue};

    /// Whether there is one value alone.
    pub(crate) fn is_fixed(self) -> bool
        ensures { IsTrue result ↔ (self.low ≡ self.high) }
    {
        self.low == self.high
    }
}
