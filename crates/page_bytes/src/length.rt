//! The length of a page's text.
ghost use Rattle.std.specs.Prelude.{◌≡◌, ◌≤◌, ◌+◌, length, min};
ghost use Rattle.std.specs.List.{flat_map};
ghost use Rattle.xml_trees.specs.Trees.{built, trees_of, IsWhole};
ghost use Rattle.xml_trees.specs.Written.{attribute_of, written};
ghost use Rattle.xml_trees.specs.PieceText.{attribute_bytes, begin_bytes, piece_bytes, pieces_bytes};
ghost use Rattle.page_bytes.specs.Chunks.{chunk_bytes};
ghost use Rattle.page_bytes.specs.Escapes.{escape_in};
ghost use Rattle.page_bytes.specs.Lengths.{length_told};
ghost use Rattle.page_bytes.specs.Pages.{IsLengthOf};

use crate::chunk::{Chunk, attribute, closing_tag, tag_front};
use crate::escape::escape_of;
use crate::hidden::hidden_behind;
use itoa::Buffer;
use xml_trees::{Attr, Page, Piece, Tag, pieces_are_pages};

/// One more than the length of the longest page, which stands for every greater length.
pub const TOO_LONG: u64 = 16_777_217;

/// The length of what stands around a page's trees: `<!DOCTYPE html><html>` and `</html>`.
const FRAME: u64 = 28;

/// The sum of two lengths.
fn sum(first: u64, second: u64) -> u64
    requires { (first ≤ TOO_LONG) × (second ≤ TOO_LONG) }
    ensures { result ≡ min (first + second) TOO_LONG }
{
    (first + second).min(TOO_LONG)
}

/// The length of a byte as it is written, in a text or in a value.
fn byte_length(byte: u8, value: bool) -> u64
    ensures exact { result ≡ length (escape_in value byte) }
    ensures short { result ≤ TOO_LONG }
{
    match escape_of(byte, value) {
        Some(escape) => (escape.len() as u64).min(TOO_LONG),
        None => 1,
    }
}

/// The length of a text as it is written.
fn escaped_length(text: &[u8], value: bool) -> u64
    ensures { result ≡ length_told (flat_map (escape_in value) text.now) }
{
    let mut total = 0;
    for byte in text {
        total = sum(total, byte_length(*byte, value));
    }
    total
}

/// The length of a chunk.
fn chunk_length(chunk: Chunk) -> u64
    ensures { result ≡ length_told (chunk_bytes chunk.entry) }
{
    match chunk {
        Chunk::Fixed(words) => (words.len() as u64).min(TOO_LONG),
        Chunk::Words(text) => escaped_length(text.as_bytes(), false),
        Chunk::Value(text) => escaped_length(text.as_bytes(), true),
        Chunk::Number(number) => {
            let mut digits = Buffer::new();
            escaped_length(digits.format(number).as_bytes(), true)
        }
    }
}

/// The length of chunks one after another.
fn chunks_length(chunks: &[Chunk]) -> u64
    ensures { result ≡ length_told (flat_map chunk_bytes chunks.now) }
{
    let mut total = 0;
    for chunk in chunks {
        total = sum(total, chunk_length(*chunk));
    }
    total
}

/// The length of a tag's attributes.
fn attributes_length(attrs: &[Attr]) -> u64
    ensures { result ≡ length_told (flat_map (λ attr. attribute_bytes (attribute_of attr)) attrs.now) }
{
    let mut total = 0;
    for attr in attrs {
        total = sum(total, chunks_length(&attribute(attr)));
    }
    total
}

/// The length of an opening tag.
fn tag_length(tag: &Tag, attrs: &[Attr]) -> u64
    ensures { result ≡ length_told (begin_bytes tag.now attrs.now) }
{
    let front = chunks_length(&tag_front(tag));
    let given = attributes_length(attrs);
    sum(sum(front, given), 1)
}

/// The length of a piece, where so many elements around it are hidden.
fn piece_length(hidden: usize, piece: &Piece) -> u64
    ensures { result ≡ length_told (piece_bytes hidden piece.now) }
{
    match piece {
        _ if hidden > 0 => 0,
        Piece::Begin(tag, attrs) => tag_length(tag, attrs.as_slice()),
        Piece::Words(text) => chunk_length(Chunk::Words(text)),
        Piece::End(name) => chunks_length(&closing_tag(*name)),
    }
}

/// The length of pieces one after another.
fn pieces_length(pieces: &[Piece]) -> u64
    ensures { result ≡ length_told (pieces_bytes 0 pieces.now) }
{
    let mut total = 0;
    let mut hidden = 0;
    for piece in pieces {
        total = sum(total, piece_length(hidden, piece));
        hidden = hidden_behind(hidden, piece);
    }
    total
}

/// The length of the text of a page without unfinished elements, or 16,777,217 where it is longer than
/// 16 MiB. It takes no memory.
pub fn page_length(page: &Page) -> u64
    requires { IsWhole (built page.now) }
    ensures { IsLengthOf result (written (trees_of (built page.now))) }
{
    pieces_are_pages();
    sum(pieces_length(page.pieces()), FRAME)
}
