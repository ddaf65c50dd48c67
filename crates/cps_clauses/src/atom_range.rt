//! Where clauses stand in one list of atoms.

/// Where a clause's atoms stand.
#[derive(Clone, Copy, Default)]
pub(crate) struct AtomRange {
    pub(crate) from: usize,
    pub(crate) to: usize,
}
