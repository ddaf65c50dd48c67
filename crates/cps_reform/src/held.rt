//! One term of a reformed objective.

/// A weight, a subject and the bound at which the subject is assumed: the term is worth the weight times what the
/// subject's value is above the bound.
#[derive(Clone, Copy, Default, PartialEq, Eq)]
pub struct Held {
    pub weight: u64,
    pub subject: u32,
    pub bound: i64,
    /// Whether the term is in the core that is being lifted.
    pub in_core: bool,
}
