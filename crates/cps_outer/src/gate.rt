//! A place where each worker of a run with threads comes by once.

/// A gate may hold a worker, and answers nothing. In a run with threads the worker of number w calls `arrive(w)` once
/// before its first turn. An interleaved run does not call it.
pub trait Gate {
    /// The worker of this number is about to begin.
    fn arrive(&self, worker: u32);
}

/// A gate that holds nobody.
#[derive(Debug, Clone, Copy)]
pub struct OpenGate;

impl Gate for OpenGate {
    fn arrive(&self, _worker: u32) {}
}
