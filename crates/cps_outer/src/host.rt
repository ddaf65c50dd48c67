//! What a run is given from outside, beside its input and output.
use std::alloc::Global;

/// The handle for threads and locks, the allocator, and the gate that each worker passes (`Gate`).
#[derive(Drop)]
pub struct Host<'h, R, G> {
    pub rt: &'h R,
    pub alloc: Global,
    pub gate: &'h G,
}
