//! What lies outside the solver: a source of bytes, a sink for bytes, and a gate at which a worker
//! may be held. A source says which bytes are left, and a sink which it holds, where they tell.
//! Each counts its faults. Code that is generic over them cannot raise a count by itself, so a call
//! that answers a fault only where the count rose does not give up by itself. `read_all` gives all
//! bytes that were left and `write_all` adds all bytes to the sink, or a first part of them on a fault.
#![tactic(auto)]

mod clean;
mod copy;
mod gate;
mod host;
mod memory;
mod standard;
mod traits;
mod transfer;

pub use clean::{CleanSink, CleanSource};
pub use gate::{Gate, OpenGate};
pub use host::Host;
pub use memory::{MemorySink, MemorySource};
pub use standard::{ReaderSource, StdSink, StdSource, WriterSink};
pub use traits::{Failed, Sink, Source};
pub use transfer::{ReadError, WriteFault, read_all, write_all};
