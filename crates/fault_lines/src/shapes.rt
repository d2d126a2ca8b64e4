//! Shapes of values, as patterns of these.
ghost use Rattle.std.specs.Prelude.{◌≡◌, ◌++◌, true, false, codes, string_bytes, IfOk, OnOk};
ghost use Rattle.fault_lines.specs.Shapes.{escaped as escaped_text, escaped_byte, put_number as with_number, put_shape as with_shape, put_shape_field as with_field, put_shape_fields as with_fields, quoted, shape_words};
ghost use Rattle.shown_types.specs.Names.{builder_words};
ghost use Rattle.shown_types.specs.View.{known_view};
ghost use Rattle.shown_types.specs.Words.{put_wanted, put_word, put_words, spaced};
ghost use Rattle.type_faults.specs.View.{shape_field_tree, shape_tree, shapes_tree};

use con_terms::Sym;
use shown_types::cons::put_name;
use shown_types::told::LEVELS;
use shown_types::{Known, Line, put_builder};
use std::alloc::{AllocError, Global};
use table_rows::Texts;
use type_faults::{Shape, ShapeField, ShapeFields};

/// Adds a byte of a string, as sources write it.
fn push_escaped(byte: u8, made: &mut Vec<u8>) -> Result<(), AllocError>
    ensures { OnOk result (made.new.items ≡ made.old.items ++ escaped_byte byte) }
{
    match byte {
        34 => made.extend_from_slice(b"\\\""),
        92 => made.extend_from_slice(b"\\\\"),
        10 => made.extend_from_slice(b"\\n"),
        13 => made.extend_from_slice(b"\\r"),
        9 => made.extend_from_slice(b"\\t"),
        other => Ok(made.push(other)?),
    }
}

/// The bytes of a string, as sources write it.
fn escaped(alloc: Global, text: &str) -> Result<Vec<u8>, AllocError>
    ensures { IfOk result (λ made. made.items ≡ escaped_text text.now) }
{
    let mut made = Vec::new(alloc);
    let bytes = text.as_bytes();
    for i in 0..bytes.len() {
        push_escaped(bytes[i], &mut made)?;
    }
    Ok(made)
}

/// Puts a string behind a text, between quotes.
fn put_quoted(alloc: Global, line: &mut Line, text: &str) -> Result<(), AllocError>
    ensures { OnOk result (line.new ≡ put_word (quoted text.now) line.old) }
{
    let bytes = escaped(alloc, text)?;
    match str::from_utf8(bytes.as_slice()) {
        Ok(inner) => {
            line.word("\"")?;
            line.more(inner)?;
            line.more("\"")
        }
        Err(_) => Err(AllocError),
    }
}

/// Puts a number behind a text, the sign of a negative one apart.
fn put_number(alloc: Global, line: &mut Line, number: i64) -> Result<(), AllocError>
    ensures { OnOk result (line.new ≡ with_number number line.old) }
{
    line.wanted(number < 0, "-")?;
    line.number(alloc, number.unsigned_abs())
}

/// Puts a shape behind a text, so many levels of it at most. `bare` is false where a constructor with what it holds
/// needs brackets.
#[cycle(shape)]
fn put_shape(
    known: &Known<'_>,
    called: &Texts,
    line: &mut Line,
    shape: &Shape,
    bare: bool,
    room: u32,
) -> Result<(), AllocError>
    ensures { OnOk result (line.new
        ≡ with_shape (known_view known.now) called.now bare (shape_tree shape.now) line.old) }
{
    if room == 0 {
        return Err(AllocError);
    }
    let room = room - 1;
    match shape {
        Shape::Leaf => line.word("_"),
        Shape::Number(number) => put_number(known.alloc, line, *number),
        Shape::Words(text) => put_quoted(known.alloc, line, text.as_str()),
        Shape::Bare(symbol, place) => put_builder(known, line, *symbol, *place),
        Shape::Holding(symbol, place, held) => {
            put_holding(known, called, line, *symbol, *place, held, !bare, room)
        }
        Shape::Record(fields) => put_record(known, called, line, fields, room),
    }
}

/// `C s`
#[cycle(shape)]
fn put_holding(
    known: &Known<'_>,
    called: &Texts,
    line: &mut Line,
    symbol: Sym,
    place: u32,
    held: &Shape,
    tight: bool,
    room: u32,
) -> Result<(), AllocError>
    ensures { OnOk result (line.new ≡ put_wanted tight (codes ")")
        (with_shape (known_view known.now) called.now false (shape_tree held.now)
        (put_words (builder_words (known_view known.now) symbol.number place)
        (put_wanted tight (codes "(") line.old)))) }
{
    line.wanted(tight, "(")?;
    put_builder(known, line, symbol, place)?;
    put_shape(known, called, line, held, false, room)?;
    line.wanted(tight, ")")
}

/// `{A = s, ..}`
#[cycle(shape)]
fn put_record(
    known: &Known<'_>,
    called: &Texts,
    line: &mut Line,
    fields: &ShapeFields,
    room: u32,
) -> Result<(), AllocError>
    ensures { OnOk result (line.new ≡ put_word (codes "}")
        (with_fields (known_view known.now) called.now true (shapes_tree fields.now) (put_word (codes "{") line.old))) }
{
    line.word("{")?;
    put_fields(known, called, line, fields, room)?;
    line.word("}")
}

/// Puts the fields of a shape behind a text.
#[cycle(shape)]
fn put_fields(
    known: &Known<'_>,
    called: &Texts,
    line: &mut Line,
    fields: &ShapeFields,
    room: u32,
) -> Result<(), AllocError>
    ensures { OnOk result (line.new
        ≡ with_fields (known_view known.now) called.now true (shapes_tree fields.now) line.old) }
{
    let mut first = true;
    for i in 0..fields.items.len() {
        line.wanted(!first, ",")?;
        put_field(known, called, line, &fields.items[i], room)?;
        first = false;
    }
    Ok(())
}

/// `A = s`
#[cycle(shape)]
fn put_field(
    known: &Known<'_>,
    called: &Texts,
    line: &mut Line,
    field: &ShapeField,
    room: u32,
) -> Result<(), AllocError>
    ensures { OnOk result (line.new
        ≡ with_field (known_view known.now) called.now (shape_field_tree field.now).0
        (with_shape (known_view known.now) called.now true (shape_field_tree field.now).1) line.old) }
{
    put_name(known, called, line, &field.name, LEVELS)?;
    line.word("=")?;
    put_shape(known, called, line, &field.shape, true, room)
}

/// How many levels of a shape are printed. What nests deeper counts as want of memory.
const SHAPES: u32 = 1200;

#[tactic(auto, using(crate::proofs::ShapeWords::shape_shown))]
/// A text with a shape behind it. `called` is what the variables in scope are called, the innermost first.
pub fn with_shape_behind(
    known: &Known<'_>,
    called: &Texts,
    beginning: &str,
    shape: &Shape,
) -> Result<String, AllocError>
    ensures { IfOk result (λ text. string_bytes text ≡ beginning.now
        ++ spaced (shape_words (known_view known.now) called.now true (shape_tree shape.now))) }
{
    let mut line = Line::of(known.alloc, beginning)?;
    put_shape(known, called, &mut line, shape, true, SHAPES)?;
    Ok(line.into_text())
}
