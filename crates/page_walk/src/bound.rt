//! How much text a page may be built of.
ghost use Rattle.std.specs.Prelude.{◌≡◌, ◌+◌, ◌<◌, length, OnOk, OnErr};

use std::alloc::AllocError;

/// The most bytes of text that a page is built of: four times as many as a page may be written with. What goes beyond
/// counts as want of memory.
const MOST: u64 = 67_108_864;

/// Counts the bytes of a text. Where they become too many nothing changes.
pub fn count(text: &str, bytes: &mut u64) -> Result<(), AllocError>
    ensures counted { OnOk result (bytes.new ≡ bytes.old + length text.now) }
    ensures many { OnErr result (67108864 < bytes.old + length text.now) }
    ensures kept { OnErr result (bytes.new ≡ bytes.old) }
{
    let length = text.len() as u64;
    if length > MOST || *bytes > MOST - length {
        return Err(AllocError);
    }
    *bytes += length;
    Ok(())
}
