//! What a check says of a response.

/// The verdict on a response with its log.
#[derive(Clone, Copy)]
pub enum Verdict {
    /// Each line is accepted, and the last is `%end`.
    Verified,
    /// This line is the first that is refused, or that is missing.
    Refused { line: u64 },
}
