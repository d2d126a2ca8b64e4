//! A refusal as its line tells it, and what a person is told of it beside that line.
ghost use Rattle.std.specs.Prelude.{◌≡◌, ◌++◌, codes, IfSome, option_map};
ghost use Rattle.told_places.specs.Refusals.{IsRead, at_words};

use crate::project::{SENTENCE_OF_LINE, start_of, told_of_line};
use crate::sentence::{SENTENCE_OF_BYTES, sentence_of, sentence_of_project};
use crate::spot::Spot;
use crate::{tell_at, tell_whole};
use std::alloc::{AllocError, Global};
use std::str;

/// A refusal's line, read: `FILE:AT: NAME ..`, or `FILE: NAME ..` where it has no place.
#[derive(Clone, Copy, Debug, PartialEq, Eq)]
pub struct Refusal<'a> {
    pub file: &'a str,
    pub at: Option<&'a str>,
    /// The name of the refusal, with the words that follow it.
    pub name: &'a str,
}

/// Whether a refusal of this name may be one of a project file or a folder, whose own name may have colons. Nothing
/// stands behind these names.
fn is_of_project(name: &str) -> bool {
    name == "BadProject" || name == "FileTooLong"
}

/// What stands before the name of a refusal, and the name with the words that follow it, which may have colons too.
fn split_name(line: &str) -> Option<(&str, &str)>
    ensures { IfSome result (λ parts. line.now ≡ parts.0.now ++ codes ": " ++ parts.1.now) }
{
    match line.rsplit_once(": ") {
        Some((place, name)) => {
            if is_of_project(name) {
                Some((place, name))
            } else {
                line.split_once(": ")
            }
        }
        None => None,
    }
}

/// Whether a text has digits alone.
fn is_decimal(text: &str) -> bool {
    !text.is_empty() && text.chars().all(|c| c.is_ascii_digit())
}

/// The file of a place, and the number behind its last colon, where one stands there.
fn split_place(place: &str) -> (&str, Option<&str>)
    ensures { place.now ≡ result.0.now ++ at_words (option_map (λ at. at.now) result.1) }
{
    match place.rsplit_once(':') {
        Some((file, at)) => {
            if is_decimal(at) {
                (file, Some(at))
            } else {
                (place, None)
            }
        }
        None => (place, None),
    }
}

/// Reads a refusal's line, which ends with a line feed.
pub fn read_refusal(line: &str) -> Option<Refusal<'_>>
    ensures { IfSome result
        (λ refusal. IsRead line.now refusal.file.now (option_map (λ at. at.now) refusal.at) refusal.name.now) }
{
    let line = line.strip_suffix('\n')?;
    let (place, name) = split_name(line)?;
    let (file, at) = split_place(place);
    Some(Refusal { file, at, name })
}

/// The text that these bytes begin with: all of them, or those up to the first that aren't UTF-8.
fn text_of(bytes: &[u8]) -> &str {
    match str::from_utf8(bytes) {
        Ok(text) => text,
        Err(fault) => str::from_utf8(&bytes[..fault.valid_up_to()]).unwrap_or(""),
    }
}

/// What a person is told of a refusal at a byte of its file.
fn tell_text(alloc: Global, refusal: &Refusal<'_>, bytes: &[u8]) -> Result<String, AllocError> {
    let text = text_of(bytes);
    let at = match refusal.at {
        Some(at) => at.parse::<usize>().ok(),
        None if refusal.name == "NotUtf8" => Some(text.len()),
        None => None,
    };
    match at {
        Some(at) if text.is_char_boundary(at) => {
            let spot = Spot {
                file: refusal.file,
                before: &text[..at],
                rest: &text[at..],
            };
            let sentence = sentence_of(alloc, refusal.name, &spot)?;
            tell_at(alloc, refusal.file, text, at, sentence.as_str())
        }
        _ => {
            let spot = Spot {
                file: refusal.file,
                before: "",
                rest: "",
            };
            let sentence = sentence_of(alloc, refusal.name, &spot)?;
            tell_whole(alloc, refusal.file, sentence.as_str())
        }
    }
}

/// What a person is told of a line of a project file, counted from 1; 0 is the folder itself.
fn tell_project(
    alloc: Global,
    refusal: &Refusal<'_>,
    line: &str,
    bytes: &[u8],
) -> Result<String, AllocError> {
    match line.parse::<usize>().ok() {
        Some(0) => tell_whole(alloc, refusal.file, sentence_of_project(refusal.file)),
        Some(number) if number == 1 || !bytes.is_empty() => tell_line(
            alloc,
            refusal.file,
            number,
            bytes,
        ),
        _ => tell_whole(alloc, refusal.file, SENTENCE_OF_LINE),
    }
}

/// What a person is told of a line of a project file, counted from 1.
fn tell_line(alloc: Global, file: &str, number: usize, bytes: &[u8]) -> Result<String, AllocError> {
    let text = text_of(bytes);
    let from = start_of(text, number);
    let before = text.get(..from).unwrap_or("");
    let rest = text.get(from..).unwrap_or("");
    if text.len() < bytes.len() && !rest.contains('\n') {
        return tell_byte(alloc, file, text, text.len(), SENTENCE_OF_BYTES);
    }
    let told = told_of_line(before, rest);
    tell_byte(
        alloc,
        file,
        text,
        from.saturating_add(told.at),
        told.sentence,
    )
}

/// Tells a sentence about a byte, or about the whole file where no character begins with it.
fn tell_byte(
    alloc: Global,
    file: &str,
    text: &str,
    at: usize,
    sentence: &str,
) -> Result<String, AllocError> {
    if text.is_char_boundary(at) {
        tell_at(alloc, file, text, at, sentence)
    } else {
        tell_whole(alloc, file, sentence)
    }
}

/// What a person is told of a refusal, over the bytes of its file.
pub fn tell_refusal(
    alloc: Global,
    refusal: &Refusal<'_>,
    bytes: &[u8],
) -> Result<String, AllocError> {
    match refusal.at {
        Some(line) if refusal.name == "BadProject" => tell_project(alloc, refusal, line, bytes),
        _ => tell_text(alloc, refusal, bytes),
    }
}
