//! The outside of the program: where bytes come from, where they go, and how often that failed.
#![tactic(auto)]

pub mod files;
pub mod kept;
pub mod mem_files;
pub mod memory;
pub mod standard;
pub mod std_files;
pub mod whole;

ghost use Rattle.std.specs.Prelude.{ℕ, List, length};
ghost use Rattle.std.specs.declared.option.Option.{Option};
ghost use Rattle.std.specs.Io.{ReadsAtMost, WritesAtMost};
ghost use Rattle.std.specs.Io.KnownBytes.{ReadConsumes, WriteAppends};
ghost use Rattle.ur_outside.specs.Causes.{HasCause, StallsWithCause};

pub use files::{FileFault, Files, Held};
pub use kept::{Kept, KeptSink, KeptSource};
pub use mem_files::{MemFile, MemFiles};
pub use memory::{MemSink, MemSource};
pub use standard::{StdSink, StdSource};
pub use std_files::StdFiles;
pub use whole::{ReadFault, read_up_to, write_all};

/// A call on an object of the outside failed, and the object counted it.
#[derive(Clone, Copy, Debug, PartialEq, Eq)]
pub struct Failed;

/// Where bytes come from. What an object holds is optional: clauses on bytes hold where it tells them.
pub trait Source {
    // the bytes not read yet, where the object tells them
    ghost left: { Self → Option (List ℕ) };

    // how many calls failed; the count never falls
    ghost faults: { Self → ℕ };

    /// Reads into the front of `into`, and answers how many bytes. 0 bytes into a piece that isn't
    /// empty is the end. A failed call reads nothing.
    fn read(&mut self, into: &mut [u8]) -> Result<usize, Failed>
        ensures bound { ReadsAtMost result into.new }
        ensures bytes { ReadConsumes (left self.old) (left self.new) result into.new }
        ensures cause { HasCause (faults self.old) (faults self.new) result };
}

/// Where bytes go. What was written is optional: clauses on bytes hold where the object tells them.
pub trait Sink {
    // the bytes written so far, where the object tells them
    ghost wrote: { Self → Option (List ℕ) };

    // how many calls failed; the count never falls
    ghost faults: { Self → ℕ };

    /// Writes some of the front of `piece`, and answers how many bytes. A failed call writes nothing,
    /// and a call that takes nothing of a piece that isn't empty counts as a failure too.
    fn write(&mut self, piece: &[u8]) -> Result<usize, Failed>
        ensures bound { WritesAtMost result piece.now }
        ensures bytes { WriteAppends (wrote self.old) (wrote self.new) result piece.now }
        ensures cause { HasCause (faults self.old) (faults self.new) result }
        ensures stall { StallsWithCause (faults self.old) (faults self.new) result (length piece.now) };
}

/// An input and an output as one line.
#[derive(Drop)]
pub struct Joined<I, O> {
    pub input: I,
    pub output: O,
}
