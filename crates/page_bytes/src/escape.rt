//! Texts with their escapes.
ghost use Rattle.std.specs.Prelude.{◌≡◌, [], ◌∷◌, ◌++◌, MatchOption};
ghost use Rattle.std.specs.List.{flat_map};
ghost use Rattle.page_bytes.specs.Escapes.{escape_in};
ghost use Rattle.page_bytes.specs.Puts.{Puts};

use crate::PageFault;
use crate::gather::{Held, put};
use ur_outside::Sink;

/// The escape for a byte, where it has one. `value` tells that the byte is one of an attribute's text.
pub fn escape_of(byte: u8, value: bool) -> Option<&'static str>
    ensures { MatchOption result (escape_in value byte ≡ byte ∷ []) (λ escape. escape_in value byte ≡ escape.now) }
{
    match byte {
        b'&' => Some("&amp;"),
        b'<' => Some("&lt;"),
        b'>' => Some("&gt;"),
        b'"' if value => Some("&quot;"),
        _ => None,
    }
}

/// Puts a text with its escapes: the runs of bytes that have none as they are, and each escape.
pub fn put_escaped<K: Sink>(
    held: &mut Held,
    sink: &mut K,
    text: &[u8],
    value: bool,
) -> Result<(), PageFault>
    ensures { Puts result (K.wrote sink.old) (K.wrote sink.new) held.old.items held.new.items
        (K.faults sink.old) (K.faults sink.new) (flat_map (escape_in value) text.now) }
{
    let mut from = 0;
    for (at, byte) in text.iter().enumerate() {
        match escape_of(*byte, value) {
            Some(escape) => {
                put_both(held, sink, &text[from..at], escape.as_bytes())?;
                from = at + 1;
            }
            None => {}
        }
    }
    put(held, sink, &text[from..])
}

/// Puts bytes, and then other bytes.
fn put_both<K: Sink>(
    held: &mut Held,
    sink: &mut K,
    first: &[u8],
    second: &[u8],
) -> Result<(), PageFault>
    ensures { Puts result (K.wrote sink.old) (K.wrote sink.new) held.old.items held.new.items
        (K.faults sink.old) (K.faults sink.new) (first.now ++ second.now) }
{
    put(held, sink, first)?;
    put(held, sink, second)
}
