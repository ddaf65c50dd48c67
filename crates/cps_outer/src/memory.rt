//! A source and a sink in memory: they give and take as little at once as they are told, and fail when they are told.
ghost use Rattle.std.specs.Prelude.{◌≡◌, ◌≤◌, Some, [], drop, vec_len};

use crate::copy::copy_front;
use crate::traits::{Failed, Sink, Source};
use std::alloc::Global;

/// A source over bytes in memory. Its call number k, from 0 on, gives at most `pieces[k]` bytes, where there is such a
/// piece, and at least one; the calls whose numbers are in `failing` fail.
#[derive(Debug, Drop)]
pub struct MemorySource {
    bytes: Vec<u8>,
    at: usize,
    pieces: Vec<usize>,
    failing: Vec<usize>,
    calls: usize,
    faults: u64,
    ghost within: { at ≤ vec_len bytes },
}

impl MemorySource {
    /// A source with these bytes left, that has not failed yet.
    pub fn new(bytes: Vec<u8>, pieces: Vec<usize>, failing: Vec<usize>) -> Self
        ensures left { ⟦<MemorySource as Source>⟧.left result ≡ Some bytes.items }
        ensures faults { ⟦<MemorySource as Source>⟧.faults result ≡ 0 }
    {
        MemorySource {
            bytes,
            at: 0,
            pieces,
            failing,
            calls: 0,
            faults: 0,
        }
    }
}

/// The greatest number of bytes that a call may move.
fn piece_of(pieces: &[usize], call: usize) -> usize
    ensures { 1 ≤ result }
{
    match pieces.get(call) {
        Some(piece) => (*piece).max(1),
        None => usize::MAX,
    }
}

impl Source for MemorySource {
    ghost left = { λ s. Some (drop s.at s.bytes.items) };

    ghost faults = { λ s. s.faults };

    fn read(&mut self, buf: &mut [u8]) -> Result<usize, Failed> {
        let call = self.calls;
        self.calls = self.calls.saturating_add(1);
        if self.failing.contains(&call) {
            self.faults = self.faults.saturating_add(1);
            return Err(Failed);
        }
        let most = piece_of(&self.pieces, call);
        let count = copy_front(&self.bytes[self.at..], buf, most);
        self.at += count;
        Ok(count)
    }
}

/// A sink in memory. It takes at most `at_once` bytes in a call, and at least one; the calls whose numbers, from 0 on,
/// are in `failing` fail, and so does one for whose bytes there is no memory.
#[derive(Debug, Drop)]
pub struct MemorySink {
    bytes: Vec<u8>,
    at_once: usize,
    failing: Vec<usize>,
    calls: usize,
    faults: u64,
}

impl MemorySink {
    /// A sink that holds nothing and has not failed yet.
    pub fn new(alloc: Global, at_once: usize, failing: Vec<usize>) -> Self
        ensures held { ⟦<MemorySink as Sink>⟧.held result ≡ Some [] }
        ensures faults { ⟦<MemorySink as Sink>⟧.faults result ≡ 0 }
    {
        MemorySink {
            bytes: Vec::new(alloc),
            at_once,
            failing,
            calls: 0,
            faults: 0,
        }
    }

    /// The bytes that it holds.
    pub fn bytes(&self) -> &[u8]
        ensures { ⟦<MemorySink as Sink>⟧.held self.now ≡ Some result.now }
    {
        self.bytes.as_slice()
    }
}

impl Sink for MemorySink {
    ghost held = { λ s. Some s.bytes.items };

    ghost faults = { λ s. s.faults };

    fn write(&mut self, piece: &[u8]) -> Result<usize, Failed> {
        let call = self.calls;
        self.calls = self.calls.saturating_add(1);
        let count = piece.len().min(self.at_once.max(1));
        if self.failing.contains(&call) || self.bytes.extend_from_slice(&piece[..count]).is_err() {
            self.faults = self.faults.saturating_add(1);
            return Err(Failed);
        }
        Ok(count)
    }
}
