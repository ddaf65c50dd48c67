//! The fields that are closed to a user: what no propagator or worker serves. A closed field is read, judged and
//! evaluated by the crates above, but a document that gives it is refused as unsupported. A line that is taken out
//! opens the field. Now every kind has a propagator, and workers make assumptions true: no field is closed.

/// The names of these fields.
pub const CLOSED: [&[u8]; 0] = [];
