//! Objects in memory, which tell everything and fail at the calls that they are told to.
ghost use Rattle.std.specs.Prelude.{◌≡◌, ◌≤◌, ◌<◌, [], drop, Some, vec_len};

use crate::{Failed, Sink, Source};
use std::alloc::Global;

/// A source over bytes in memory.
#[derive(Drop)]
pub struct MemSource {
    bytes: Vec<u8>,
    at: usize,
    most: usize,
    failing: Vec<u64>,
    calls: u64,
    faults: u64,
    ghost in_range: { at ≤ vec_len bytes },
    ghost moves: { 0 < most },
}

impl MemSource {
    /// Gives these bytes, at most `most` in one call. The calls numbered in `failing`, from 0, fail.
    pub fn new(bytes: Vec<u8>, most: usize, failing: Vec<u64>) -> MemSource
        requires { 0 < most }
        ensures left { ⟦<MemSource as Source>⟧.left result ≡ Some bytes.items }
        ensures faults { ⟦<MemSource as Source>⟧.faults result ≡ 0 }
    {
        MemSource {
            bytes,
            at: 0,
            most,
            failing,
            calls: 0,
            faults: 0,
        }
    }
}

impl Source for MemSource {
    ghost left = { λ s. Some (drop s.at s.bytes.items) };

    ghost faults = { λ s. s.faults };

    fn read(&mut self, into: &mut [u8]) -> Result<usize, Failed> {
        let call = self.calls;
        self.calls = call.saturating_add(1);
        if self.failing.contains(&call) {
            self.faults = self.faults.saturating_add(1);
            return Err(Failed);
        }
        let rest = &self.bytes[self.at..];
        let room = into.len().min(self.most);
        let count = rest.len().min(room);
        into[..count].copy_from_slice(&rest[..count]);
        self.at += count;
        Ok(count)
    }
}

/// A sink that keeps what is written in memory.
#[derive(Drop)]
pub struct MemSink {
    bytes: Vec<u8>,
    most: usize,
    failing: Vec<u64>,
    calls: u64,
    faults: u64,
}

impl MemSink {
    /// Nothing is written yet. A call takes at most `most` bytes, and the calls numbered in `failing`,
    /// from 0, fail. With a `most` of 0 each call takes nothing, and counts as a failure.
    pub fn new(alloc: Global, most: usize, failing: Vec<u64>) -> MemSink
        ensures wrote { ⟦<MemSink as Sink>⟧.wrote result ≡ Some [] }
        ensures faults { ⟦<MemSink as Sink>⟧.faults result ≡ 0 }
    {
        MemSink {
            bytes: Vec::new(alloc),
            most,
            failing,
            calls: 0,
            faults: 0,
        }
    }

    /// The bytes written so far.
    pub fn written(&self) -> &[u8]
        ensures { ⟦<MemSink as Sink>⟧.wrote self.now ≡ Some result.now }
    {
        self.bytes.as_slice()
    }
}

impl Sink for MemSink {
    ghost wrote = { λ s. Some s.bytes.items };

    ghost faults = { λ s. s.faults };

    fn write(&mut self, piece: &[u8]) -> Result<usize, Failed> {
        let call = self.calls;
        self.calls = call.saturating_add(1);
        let count = piece.len().min(self.most);
        if self.failing.contains(&call) || self.bytes.extend_from_slice(&piece[..count]).is_err() {
            self.faults = self.faults.saturating_add(1);
            return Err(Failed);
        }
        if count == 0 {
            self.faults = self.faults.saturating_add(1);
        }
        Ok(count)
    }
}
