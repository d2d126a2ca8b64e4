//! Adapters that keep what passes through them, for who wants to look at it afterwards.
ghost use Rattle.std.specs.Prelude.{◌≡◌, [], length, take, IfOk, IfSome, IsSome, IsTrue};
ghost use Rattle.std.specs.Io.{ReadsAtMost, WritesAtMost};
ghost use Rattle.std.specs.Io.KnownBytes.{ReadConsumes, WriteAppends};
ghost use Rattle.ur_outside.specs.Causes.{HasCause, StallsWithCause};
ghost use Rattle.ur_outside.specs.Keeping.{KeepsMore};

use crate::{Failed, Sink, Source};
use std::alloc::Global;

/// Bytes that are kept, as long as all of them could be.
#[derive(Drop)]
pub struct Kept {
    bytes: Vec<u8>,
    most: usize,
    whole: bool,
}

impl Kept {
    /// Nothing is kept yet; at most `most` bytes will be.
    pub fn new(alloc: Global, most: usize) -> Kept
        ensures { (result.bytes.items ≡ []) × IsTrue result.whole }
    {
        Kept {
            bytes: Vec::new(alloc),
            most,
            whole: true,
        }
    }

    /// Keeps these bytes behind the others. Where they are too many, or memory runs out, nothing counts as kept from
    /// then on.
    fn keep(&mut self, piece: &[u8])
        ensures { KeepsMore self.old.whole self.old.bytes.items self.new.whole self.new.bytes.items piece.now }
    {
        if !self.whole {
            return;
        }
        self.whole = piece.len() <= self.most - self.bytes.len().min(self.most)
            && self.bytes.extend_from_slice(piece).is_ok();
    }

    /// All bytes that passed, where they could be kept.
    pub fn bytes(&self) -> Option<&[u8]>
        ensures kept { IfSome result (λ bytes. IsTrue self.now.whole × (bytes.now ≡ self.now.bytes.items)) }
        ensures whole { IsTrue self.now.whole → IsSome result }
    {
        if self.whole {
            Some(self.bytes.as_slice())
        } else {
            None
        }
    }
}

/// A source, and what was read from it.
#[derive(Drop)]
pub struct KeptSource<I: Source> {
    pub inner: I,
    pub kept: Kept,
}

impl<I: Source> Source for KeptSource<I> {
    ghost left = { λ s. I.left s.inner };

    ghost faults = { λ s. I.faults s.inner };

    fn read(&mut self, into: &mut [u8]) -> Result<usize, Failed>
        ensures bound { ReadsAtMost result into.new }
        ensures bytes { ReadConsumes (I.left self.old.inner) (I.left self.new.inner) result into.new }
        ensures cause { HasCause (I.faults self.old.inner) (I.faults self.new.inner) result }
        ensures kept { IfOk result (λ n. KeepsMore self.old.kept.whole self.old.kept.bytes.items
            self.new.kept.whole self.new.kept.bytes.items (take n into.new)) }
    {
        let count = self.inner.read(into)?;
        self.kept.keep(&into[..count]);
        Ok(count)
    }
}

/// A sink, and what was written to it.
#[derive(Drop)]
pub struct KeptSink<O: Sink> {
    pub inner: O,
    pub kept: Kept,
}

impl<O: Sink> Sink for KeptSink<O> {
    ghost wrote = { λ s. O.wrote s.inner };

    ghost faults = { λ s. O.faults s.inner };

    fn write(&mut self, piece: &[u8]) -> Result<usize, Failed>
        ensures bound { WritesAtMost result piece.now }
        ensures bytes { WriteAppends (O.wrote self.old.inner) (O.wrote self.new.inner) result piece.now }
        ensures cause { HasCause (O.faults self.old.inner) (O.faults self.new.inner) result }
        ensures stall { StallsWithCause (O.faults self.old.inner) (O.faults self.new.inner) result (length piece.now) }
        ensures kept { IfOk result (λ n. KeepsMore self.old.kept.whole self.old.kept.bytes.items
            self.new.kept.whole self.new.kept.bytes.items (take n piece.now)) }
    {
        let count = self.inner.write(piece)?;
        self.kept.keep(&piece[..count]);
        Ok(count)
    }
}
