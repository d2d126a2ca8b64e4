//! The lines that tell a place.
ghost use Rattle.std.specs.Prelude.{◌≡◌, ◌++◌, ℕ, IfOk, string_bytes, IsCharBoundary};
ghost use Rattle.told_places.specs.Telling.{IsToldAt, blank_if, dots_if, head_line, mark_line, shown, shown_character, source_line, told_whole};

use crate::place::characters;
use crate::{Place, piece_of, place_of};
use std::alloc::{AllocError, Global};

/// What a character is shown as: a control character as a space.
fn shown_as(character: char) -> char
    ensures { result ≡ shown_character character }
{
    if character.is_control() {
        ' '
    } else {
        character
    }
}

/// A piece of the text as it is shown.
fn shown_piece(alloc: Global, piece: &str) -> Result<String, AllocError>
    ensures { IfOk result (λ made. string_bytes made ≡ shown piece.now) }
{
    piece.chars().map(shown_as).collect(alloc)
}

/// What stands for the rest of a line that is cut.
fn dots(cut: bool) -> &'static str
    ensures { result.now ≡ dots_if cut }
{
    if cut { "..." } else { "" }
}

/// As wide as what stands for the rest of a line.
fn blank(cut: bool) -> &'static str
    ensures { result.now ≡ blank_if cut }
{
    if cut { "   " } else { "" }
}

/// The file, the place and the sentence.
fn head_line(alloc: Global, file: &str, place: Place, sentence: &str) -> Result<String, AllocError>
    ensures { IfOk result (λ made. string_bytes made ≡ head_line file.now place.line place.column sentence.now) }
{
    let mut made = file.to_string(alloc)?;
    made.push_str(":")?;
    made.push_str(place.line.to_string(alloc)?.as_str())?;
    made.push_str(":")?;
    made.push_str(place.column.to_string(alloc)?.as_str())?;
    made.push_str(": ")?;
    made.push_str(sentence)?;
    made.push_str("\n")?;
    Ok(made)
}

/// A piece of a line, and whether more of the line stands before and behind it.
fn source_line(alloc: Global, piece: &str, before: bool, behind: bool) -> Result<String, AllocError>
    ensures { IfOk result (λ made. string_bytes made ≡ source_line piece.now before behind) }
{
    let mut made = "  ".to_string(alloc)?;
    made.push_str(dots(before))?;
    made.push_str(shown_piece(alloc, piece)?.as_str())?;
    made.push_str(dots(behind))?;
    made.push_str("\n")?;
    Ok(made)
}

/// A mark behind so many characters of the piece above.
fn mark_line(alloc: Global, width: usize, before: bool) -> Result<String, AllocError>
    ensures { IfOk result (λ made. string_bytes made ≡ mark_line width before) }
{
    let mut made = "  ".to_string(alloc)?;
    made.push_str(blank(before))?;
    made.push_str(" ".repeat(alloc, width)?.as_str())?;
    made.push_str("^\n")?;
    Ok(made)
}

/// Tells a sentence about the byte `at` of a text: its line and column, the line around it, and a mark below it.
pub fn tell_at(
    alloc: Global,
    file: &str,
    text: &str,
    at: usize,
    sentence: &str,
) -> Result<String, AllocError>
    requires { IsCharBoundary text.now at }
    ensures { IfOk result (λ told. IsToldAt file.now text.now at sentence.now (string_bytes told)) }
{
    let place = place_of(text, at);
    let piece = piece_of(text, at);
    let width = characters(&text[piece.from..at]);
    let mut told = head_line(alloc, file, place, sentence)?;
    let source = source_line(
        alloc,
        &text[piece.from..piece.to],
        piece.cut_before,
        piece.cut_behind,
    )?;
    told.push_str(source.as_str())?;
    told.push_str(mark_line(alloc, width, piece.cut_before)?.as_str())?;
    Ok(told)
}

/// Tells a sentence about a whole file.
pub fn tell_whole(alloc: Global, file: &str, sentence: &str) -> Result<String, AllocError>
    ensures { IfOk result (λ told. string_bytes told ≡ told_whole file.now sentence.now) }
{
    let mut told = file.to_string(alloc)?;
    told.push_str(": ")?;
    told.push_str(sentence)?;
    told.push_str("\n")?;
    Ok(told)
}
