//! The text on both sides of a place.
use std::alloc::{AllocError, Global};

/// The text before a place, and from it on.
#[derive(Clone, Copy, Debug, PartialEq, Eq)]
pub(crate) struct Spot<'a> {
    /// The name of the file.
    pub file: &'a str,
    pub before: &'a str,
    pub rest: &'a str,
}

/// A sentence, which is put together where it names something.
pub(crate) fn said(alloc: Global, parts: &[&str]) -> Result<String, AllocError> {
    let mut sentence = String::new(alloc);
    for part in parts {
        sentence.push_str(part)?;
    }
    Ok(sentence)
}

/// Whether a word may have this character.
pub(crate) fn is_word_part(character: char) -> bool {
    character.is_ascii_alphanumeric() || character == '_'
}

/// The word with which a text begins.
pub(crate) fn word_of(text: &str) -> &str {
    for (at, character) in text.char_indices() {
        if !is_word_part(character) {
            return text.get(..at).unwrap_or("");
        }
    }
    text
}

/// The name of the tag with which a text begins, or nothing.
pub(crate) fn tag_of(text: &str) -> &str {
    match text.strip_prefix('<') {
        Some(inner) => word_of(inner),
        None => "",
    }
}

/// What stands behind the word with which a text begins, and behind the blanks that follow it.
pub(crate) fn behind_word(text: &str) -> &str {
    text.strip_prefix(word_of(text))
        .unwrap_or(text)
        .trim_start()
}

/// The word with which a text ends.
pub(crate) fn last_word(text: &str) -> &str {
    let front = text.trim_end_matches(|c: char| is_word_part(c));
    text.strip_prefix(front).unwrap_or("")
}

/// The last line of a text, as far as it goes.
pub(crate) fn last_line(text: &str) -> &str {
    match text.rsplit_once('\n') {
        Some((_, line)) => line,
        None => text,
    }
}

/// Whether a text begins with a capital letter.
pub(crate) fn begins_with_capital(text: &str) -> bool {
    text.starts_with(|c: char| c.is_ascii_uppercase())
}

/// Whether a text begins with a small letter.
pub(crate) fn begins_with_small(text: &str) -> bool {
    text.starts_with(|c: char| c.is_ascii_lowercase())
}

/// A text up to the next line that begins without a blank.
pub(crate) fn declaration_of(rest: &str) -> &str {
    let mut last = ' ';
    for (at, character) in rest.char_indices() {
        if last == '\n' && !character.is_whitespace() {
            return rest.get(..at).unwrap_or("");
        }
        last = character;
    }
    rest
}

/// Whether a text ends in the declaration of a datatype.
pub(crate) fn in_datatype(before: &str) -> bool {
    match before.rsplit_once("datatype ") {
        Some((_, tail)) => declaration_of(tail).len() == tail.len(),
        None => false,
    }
}

/// Whether a place stands at the start of a line.
pub(crate) fn begins_line(before: &str) -> bool {
    before.is_empty() || before.ends_with('\n')
}

/// Whether a word begins a declaration.
pub(crate) fn is_declaration_word(word: &str) -> bool {
    match word {
        "fun" | "val" | "type" | "con" | "datatype" | "table" | "sequence" | "cookie" => true,
        _ => false,
    }
}
