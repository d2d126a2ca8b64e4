//! Writing a page.
ghost use Rattle.std.specs.Prelude.{◌≡◌, [], ◌≤◌, OnOk, OnErr};
ghost use Rattle.std.specs.List.{flat_map};
ghost use Rattle.ur_outside.specs.Causes.{Rose};
ghost use Rattle.xml_trees.specs.Trees.{built, trees_of, IsWhole};
ghost use Rattle.xml_trees.specs.Written.{attribute_of, written};
ghost use Rattle.xml_trees.specs.PieceText.{attribute_bytes, begin_bytes, piece_bytes, pieces_bytes, page_bytes};
ghost use Rattle.page_bytes.specs.Chunks.{chunk_bytes};
ghost use Rattle.page_bytes.specs.Puts.{Puts};
ghost use Rattle.page_bytes.specs.Pages.{WritesPage, WritesFront};

use crate::PageFault;
use crate::chunk::{Chunk, attribute, closing_tag, tag_front};
use crate::escape::put_escaped;
use crate::gather::{Held, flush, put};
use crate::hidden::hidden_behind;
use itoa::Buffer;
use ur_outside::Sink;
use xml_trees::{Attr, Page, Piece, Tag, pieces_are_pages};

/// Puts out a chunk.
fn put_chunk<K: Sink>(held: &mut Held, sink: &mut K, chunk: Chunk) -> Result<(), PageFault>
    ensures { Puts result (K.wrote sink.old) (K.wrote sink.new) held.old.items held.new.items
        (K.faults sink.old) (K.faults sink.new) (chunk_bytes chunk.entry) }
{
    match chunk {
        Chunk::Fixed(words) => put(held, sink, words.as_bytes()),
        Chunk::Words(text) => put_escaped(held, sink, text.as_bytes(), false),
        Chunk::Value(text) => put_escaped(held, sink, text.as_bytes(), true),
        Chunk::Number(number) => {
            let mut digits = Buffer::new();
            put_escaped(held, sink, digits.format(number).as_bytes(), true)
        }
    }
}

/// Puts out chunks one after another.
fn put_chunks<K: Sink>(held: &mut Held, sink: &mut K, chunks: &[Chunk]) -> Result<(), PageFault>
    ensures { Puts result (K.wrote sink.old) (K.wrote sink.new) held.old.items held.new.items
        (K.faults sink.old) (K.faults sink.new) (flat_map chunk_bytes chunks.now) }
{
    for chunk in chunks {
        put_chunk(held, sink, *chunk)?;
    }
    Ok(())
}

/// Puts out a tag's attributes.
fn put_attributes<K: Sink>(held: &mut Held, sink: &mut K, attrs: &[Attr]) -> Result<(), PageFault>
    ensures { Puts result (K.wrote sink.old) (K.wrote sink.new) held.old.items held.new.items
        (K.faults sink.old) (K.faults sink.new) (flat_map (λ attr. attribute_bytes (attribute_of attr)) attrs.now) }
{
    for attr in attrs {
        put_chunks(held, sink, &attribute(attr))?;
    }
    Ok(())
}

/// Puts out an opening tag.
fn put_tag<K: Sink>(
    held: &mut Held,
    sink: &mut K,
    tag: &Tag,
    attrs: &[Attr],
) -> Result<(), PageFault>
    ensures { Puts result (K.wrote sink.old) (K.wrote sink.new) held.old.items held.new.items
        (K.faults sink.old) (K.faults sink.new) (begin_bytes tag.now attrs.now) }
{
    put_chunks(held, sink, &tag_front(tag))?;
    put_attributes(held, sink, attrs)?;
    put(held, sink, b">")
}

/// Puts a piece, unless it stands in a void element.
fn put_piece<K: Sink>(
    held: &mut Held,
    sink: &mut K,
    hidden: usize,
    piece: &Piece,
) -> Result<(), PageFault>
    ensures { Puts result (K.wrote sink.old) (K.wrote sink.new) held.old.items held.new.items
        (K.faults sink.old) (K.faults sink.new) (piece_bytes hidden piece.now) }
{
    match piece {
        _ if hidden > 0 => Ok(()),
        Piece::Begin(tag, attrs) => put_tag(held, sink, tag, attrs.as_slice()),
        Piece::Words(text) => put_chunk(held, sink, Chunk::Words(text)),
        Piece::End(name) => put_chunks(held, sink, &closing_tag(*name)),
    }
}

/// Puts out pieces one after another.
fn put_pieces<K: Sink>(held: &mut Held, sink: &mut K, pieces: &[Piece]) -> Result<(), PageFault>
    ensures { Puts result (K.wrote sink.old) (K.wrote sink.new) held.old.items held.new.items
        (K.faults sink.old) (K.faults sink.new) (pieces_bytes 0 pieces.now) }
{
    let mut hidden = 0;
    for piece in pieces {
        put_piece(held, sink, hidden, piece)?;
        hidden = hidden_behind(hidden, piece);
    }
    Ok(())
}

/// Puts out a page: its frame, and its pieces in it.
fn put_page<K: Sink>(held: &mut Held, sink: &mut K, pieces: &[Piece]) -> Result<(), PageFault>
    ensures puts { Puts result (K.wrote sink.old) (K.wrote sink.new) held.old.items held.new.items
        (K.faults sink.old) (K.faults sink.new) (page_bytes pieces.now) }
    ensures empty { OnOk result (held.new.items ≡ []) }
{
    put(held, sink, b"<!DOCTYPE html><html>")?;
    put_pieces(held, sink, pieces)?;
    put(held, sink, b"</html>")?;
    flush(held, sink)
}

/// Writes the text of a page without unfinished elements. It takes no memory. After a fault a front of
/// the text is written.
pub fn write_page<K: Sink>(page: &Page, sink: &mut K) -> Result<(), PageFault>
    requires { IsWhole (built page.now) }
    ensures page { OnOk result
        (WritesPage (K.wrote sink.old) (K.wrote sink.new) (written (trees_of (built page.now)))) }
    ensures front { OnErr result
        (WritesFront (K.wrote sink.old) (K.wrote sink.new) (written (trees_of (built page.now)))) }
    ensures later { K.faults sink.old ≤ K.faults sink.new }
    ensures failed { OnErr result (Rose (K.faults sink.old) (K.faults sink.new)) }
{
    pieces_are_pages();
    let mut held = Held::new();
    put_page(&mut held, sink, page.pieces())
}
