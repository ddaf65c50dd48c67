//! What a seat knows.
use cps_port::BoundsPart;
use cps_validate::ValidModel;

/// Proofs speak of it, and no value of it is made.
pub struct View {
    /// None in what a join leaves of the other seat.
    pub model: Option<ValidModel>,
    /// How much of the table the seat has, of 2^32.
    pub splits: u64,
    /// What it saw, offered and raised.
    pub part: BoundsPart,
}
