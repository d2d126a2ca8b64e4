//! Reading an input up to a length, and writing whole pieces.
ghost use Rattle.std.specs.Prelude.{◌≡◌, ◌≤◌, ◌<◌, IfOk, OnOk, OnErr, IsErrOf, vec_len};
ghost use Rattle.std.specs.Io.KnownBytes.{Consumes, Appends, IsAtEnd};
ghost use Rattle.ur_outside.specs.Causes.{Rose};
ghost use Rattle.ur_outside.specs.Whole.{AppendsFront};

use crate::{Failed, Sink, Source};
use std::alloc::Global;

/// Why an input isn't read.
#[derive(Clone, Copy, Debug, PartialEq, Eq)]
pub enum ReadFault {
    /// A call of the source failed.
    Failed,
    /// There was no memory for the bytes.
    Memory,
}

/// The bytes of the input up to its end, or the first `most` of them.
pub fn read_up_to<I: Source>(
    alloc: Global,
    input: &mut I,
    most: usize,
) -> Result<Vec<u8>, ReadFault>
    ensures bytes { IfOk result (λ v. Consumes (I.left input.old) (I.left input.new) v.items) }
    ensures few { IfOk result (λ v. vec_len v ≤ most) }
    ensures end { IfOk result (λ v. vec_len v < most → IsAtEnd (I.left input.new)) }
    ensures later { I.faults input.old ≤ I.faults input.new }
    ensures failed { IsErrOf result ReadFault.Failed → Rose (I.faults input.old) (I.faults input.new) }
{
    let mut all = Vec::new(alloc);
    let mut piece = [0u8; 16384];
    while all.len() < most {
        let room = (most - all.len()).min(16384);
        match input.read(&mut piece[..room]) {
            Ok(0) => return Ok(all),
            Ok(count) => {
                if all.extend_from_slice(&piece[..count]).is_err() {
                    return Err(ReadFault::Memory);
                }
            }
            Err(Failed) => return Err(ReadFault::Failed),
        }
    }
    Ok(all)
}

/// Writes all of a piece. After a failure a front of it is written.
pub fn write_all<O: Sink>(output: &mut O, piece: &[u8]) -> Result<(), Failed>
    ensures bytes { OnOk result (Appends (O.wrote output.old) (O.wrote output.new) piece.now) }
    ensures front { OnErr result (AppendsFront (O.wrote output.old) (O.wrote output.new) piece.now) }
    ensures later { O.faults output.old ≤ O.faults output.new }
    ensures failed { OnErr result (Rose (O.faults output.old) (O.faults output.new)) }
{
    let mut at = 0;
    while at < piece.len() {
        let count = output.write(&piece[at..])?;
        if count == 0 {
            return Err(Failed);
        }
        at += count;
    }
    Ok(())
}
