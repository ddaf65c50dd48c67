//! What a seat knows.
use cps_port::BoardPart;
use cps_validate::ValidModel;
use std::collections::LinkedList;

/// Proofs speak of it, and no value of it is made.
pub struct View {
    /// None in what a join leaves of the other seat.
    pub model: Option<ValidModel>,
    /// How much of the table the seat has, of 2^32.
    pub splits: u64,
    /// How often it drew a row, or took over by a join.
    pub draws: u64,
    /// What it wrote into the row that it drew last.
    pub written: LinkedList<u64>,
    /// What it drew, published and took.
    pub part: BoardPart,
}
