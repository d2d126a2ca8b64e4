//! Bytes on their way to a sink, gathered so that few calls of the sink are made.
ghost use Rattle.std.specs.Prelude.{◌≡◌, [], OnOk};
ghost use Rattle.page_bytes.specs.Puts.{Puts};

use crate::PageFault;
use arrayvec::ArrayVec;
use ur_outside::{Failed, Sink, write_all};

/// How many bytes are gathered at most.
pub const MOST_HELD: usize = 8192;

/// The bytes that are gathered.
pub type Held = ArrayVec<u8, MOST_HELD>;

/// Hands bytes to the sink while nothing is held.
fn send<K: Sink>(sink: &mut K, bytes: &[u8]) -> Result<(), PageFault>
    ensures { Puts result (K.wrote sink.old) (K.wrote sink.new) [] [] (K.faults sink.old)
        (K.faults sink.new) bytes.now }
{
    match write_all(sink, bytes) {
        Ok(()) => Ok(()),
        Err(Failed) => Err(PageFault::WriteFault),
    }
}

/// Hands all that is held to the sink.
pub fn flush<K: Sink>(held: &mut Held, sink: &mut K) -> Result<(), PageFault>
    ensures puts { Puts result (K.wrote sink.old) (K.wrote sink.new) held.old.items held.new.items
        (K.faults sink.old) (K.faults sink.new) [] }
    ensures empty { OnOk result (held.new.items ≡ []) }
{
    send(sink, held.as_slice())?;
    held.clear();
    Ok(())
}

/// Puts bytes behind those that are held.
pub fn put<K: Sink>(held: &mut Held, sink: &mut K, bytes: &[u8]) -> Result<(), PageFault>
    ensures { Puts result (K.wrote sink.old) (K.wrote sink.new) held.old.items held.new.items
        (K.faults sink.old) (K.faults sink.new) bytes.now }
{
    match held.try_extend_from_slice(bytes) {
        Ok(()) => Ok(()),
        Err(_) => put_behind_full(held, sink, bytes),
    }
}

/// Puts bytes for which there is no room behind those that are held.
fn put_behind_full<K: Sink>(held: &mut Held, sink: &mut K, bytes: &[u8]) -> Result<(), PageFault>
    ensures { Puts result (K.wrote sink.old) (K.wrote sink.new) held.old.items held.new.items
        (K.faults sink.old) (K.faults sink.new) bytes.now }
{
    flush(held, sink)?;
    match held.try_extend_from_slice(bytes) {
        Ok(()) => Ok(()),
        Err(_) => send(sink, bytes),
    }
}
