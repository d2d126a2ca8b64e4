//! The sentences that tell a refusal in plain words.
use crate::instances::instance_sentence;
use crate::missing::{inexhaustive, unsolved};
use crate::names::unbound;
use crate::scan::{Form, innermost};
use crate::spot::{Spot, begins_with_capital, behind_word, said, tag_of, word_of};
use crate::syntax::{lacking, syntax_sentence};
use crate::types::{kind_mismatch, mismatch};
use crate::written::SENTENCE_OF_COMMENT;
use std::alloc::{AllocError, Global};

/// A refusal in plain words. `told` is its name with the words that follow it, and `spot` its place.
pub(crate) fn sentence_of(
    alloc: Global,
    told: &str,
    spot: &Spot<'_>,
) -> Result<String, AllocError> {
    let (name, words) = told.split_once(' ').unwrap_or((told, ""));
    match name {
        "Syntax" => syntax_sentence(alloc, spot),
        "BadChar" => bad_character(alloc, spot),
        "Mismatch" => mismatch(alloc, words, spot),
        "KindMismatch" => kind_mismatch(alloc, words),
        "Unbound" => unbound(alloc, words, spot),
        "Inexhaustive" => inexhaustive(alloc, words, spot),
        "Unsolved" => unsolved(alloc, spot),
        "NoInstance" => instance_sentence(alloc, spot),
        "Redeclared" => redeclared(alloc, words, spot),
        _ => sentence_with_name(alloc, name, words, spot),
    }
}

/// A refusal that may name something, and needs no more of the text.
fn sentence_with_name(
    alloc: Global,
    name: &str,
    words: &str,
    spot: &Spot<'_>,
) -> Result<String, AllocError> {
    match name {
        "NotDisjoint" => not_disjoint(alloc, words, spot.rest),
        _ => said(alloc, &[plain_sentence(name, spot)]),
    }
}

/// Two fields that may be one, or are.
fn not_disjoint(alloc: Global, words: &str, rest: &str) -> Result<String, AllocError> {
    match words.split_once(' ') {
        Some((one, other)) if one == other && one.starts_with('#') => doubled(
            alloc,
            one.strip_prefix('#').unwrap_or(one),
            rest.lines().next().unwrap_or(""),
        ),
        _ => said(
            alloc,
            &[
                "these may be one field: ",
                words,
                ": rows that are put together may share none",
            ],
        ),
    }
}

/// A field that stands twice, where this line begins.
fn doubled(alloc: Global, field: &str, line: &str) -> Result<String, AllocError> {
    let remedy = if line.contains("++") {
        ": r -- #A ++ {A = 1} replaces the field A of r"
    } else {
        ": rows that are put together may share none"
    };
    said(alloc, &["the field ", field, " stands twice here", remedy])
}

/// A refusal that names nothing.
fn plain_sentence(name: &str, spot: &Spot<'_>) -> &'static str {
    match name {
        "FileTooLong" | "NotUtf8" | "OpenText" | "OpenComment" | "IntTooLarge" => of_text(name),
        "NotBuilt" => "this can be read, but isn't built yet (README.md says what is)",
        "MissingFile" => "the project names this module, but there is no such file",
        "TooDeep" => too_deep(spot),
        "LinkNotCall" => no_call(spot.rest),
        "NotSerialisable" => not_serialisable(spot.rest),
        _ => of_types(name),
    }
}

/// Refusals of a text.
fn of_text(name: &str) -> &'static str {
    match name {
        "FileTooLong" => "this is longer than 4194304 bytes, the most that a file may have",
        "NotUtf8" => SENTENCE_OF_BYTES,
        "OpenText" => "the string that begins here has no closing quote",
        "OpenComment" => "the comment that begins here isn't closed by a *)",
        _ => "this number is larger than 9223372036854775807, the largest one",
    }
}

/// A name that stands for the second time.
fn redeclared(alloc: Global, name: &str, spot: &Spot<'_>) -> Result<String, AllocError> {
    let open = innermost(alloc, spot.before)?;
    if open.form == Form::Tag {
        return said(
            alloc,
            &["the attribute ", name, " stands twice in this tag"],
        );
    }
    said(
        alloc,
        &["this is the second ", name, ": give it another name"],
    )
}

/// What lies too deep, by what stands where it does.
fn too_deep(spot: &Spot<'_>) -> &'static str {
    if spot.rest.starts_with("::") || spot.before.trim_end().ends_with("::") {
        "a list has at most 199 items in one term, and one less for each level around it: make functions of its parts"
    } else {
        "this lies more than 200 levels deep (each ; and :: is one): make functions of its parts"
    }
}

/// A link or an action that isn't a call.
fn no_call(rest: &str) -> &'static str {
    if tag_of(rest) == "submit" {
        "a submit has an action, as in action={save}, where save is a top-level function that takes the form's fields"
    } else if word_of(rest) == "action" {
        "an action is a call of a top-level function, with its arguments but for the last, the form's record"
    } else {
        "a link is a call of a top-level function, with its arguments"
    }
}

/// What can't travel, by what stands at its place: the attribute.
fn not_serialisable(rest: &str) -> &'static str {
    if word_of(rest) == "action" {
        "an action takes just the form's fields, and values that travel: int, string, bool, datatypes .."
    } else {
        "this can't travel in an address: int, string, bool, unit, lists, options, records and datatypes can"
    }
}

/// What is told where a file isn't UTF-8.
pub(crate) const SENTENCE_OF_BYTES: &str =
    "from here on the bytes aren't UTF-8: save the file as UTF-8";

/// What is told of a project without a project file, or of a module alone that stands for one.
pub(crate) fn sentence_of_project(file: &str) -> &'static str {
    if file.ends_with(".ur") {
        "this is no project's folder (a module alone is read so: urweb page < FILE), or has over 1000 tables"
    } else {
        "this is no project: a folder with exactly one .urp file (README.md shows one)"
    }
}

/// Refusals of types.
fn of_types(name: &str) -> &'static str {
    match name {
        "TooLarge" => "comparing the types here takes too many steps: make them smaller",
        "NoFolder" => "the fields of this row aren't known here: take a folder as a parameter",
        _ => "this is refused",
    }
}

/// Why nothing that can be read begins here.
fn bad_character(alloc: Global, spot: &Spot<'_>) -> Result<String, AllocError> {
    let open = innermost(alloc, spot.before)?;
    if open.form != Form::Tag {
        return said(alloc, &[plain_character(spot, open.form)]);
    }
    if spot.rest.starts_with('<') {
        return lacking(alloc, spot, open);
    }
    if begins_with_capital(spot.rest) && !behind_word(spot.rest).starts_with('=') {
        return lacking(alloc, spot, open);
    }
    said(alloc, &[character_of_tag(spot.rest)])
}

/// Why nothing that can be read begins in a tag.
fn character_of_tag(rest: &str) -> &'static str {
    if rest.starts_with('\'') {
        "the value of an attribute stands in double quotes, as in title=\"a\""
    } else if rest.starts_with(',') || rest.starts_with(';') {
        "attributes have blanks between them, and no comma or ;"
    } else if begins_with_capital(rest) {
        "the name of an attribute begins with a small letter, as in title=\"a\""
    } else {
        "no attribute and no value of one begins like this: is the > of the tag missing before?"
    }
}

/// Why nothing that can be read begins here, by the character and by what is open.
fn plain_character(spot: &Spot<'_>, form: Form) -> &'static str {
    if spot.before.is_empty() && spot.rest.starts_with('\u{feff}') {
        "the file begins with a byte order mark: save it as UTF-8 without one"
    } else if spot.rest.starts_with('&') && form != Form::Element {
        "a & alone is no sign: texts are joined by ^, and conditions by &&"
    } else if spot.rest.starts_with('&') {
        "no character has this name (a plain & is &amp;): there are &lt; &gt; &amp; &quot; &nbsp; \
         and numbers, as &#169;"
    } else if spot.rest.starts_with("<!--") {
        SENTENCE_OF_COMMENT
    } else if spot.rest.starts_with('<') {
        "no tag begins like this: write &lt; where a plain < is meant"
    } else if spot.rest.starts_with('\\') {
        backslash(form)
    } else if spot.rest.starts_with('\'') {
        quote(spot.before.trim_end())
    } else {
        unread(spot.rest)
    }
}

/// A quote that nothing begins with, behind this text.
fn quote(before: &str) -> &'static str {
    if before.ends_with(':') && !before.ends_with("::") || before.ends_with("->") {
        "a type that a function takes has no quote: it is written [a ::: Type] behind the function's name"
    } else {
        "nothing begins with this quote: a string stands in double quotes"
    }
}

/// A character that nothing begins with.
fn unread(rest: &str) -> &'static str {
    if rest.starts_with('\u{a0}') {
        "U+00A0, a no-break space, stands here: write a plain space"
    } else if rest.starts_with(|c: char| is_unseen(c)) {
        "a character that can't be seen stands here: take it away"
    } else {
        "no word, number, string or sign begins like this"
    }
}

/// Whether a character can't be seen and takes no room.
fn is_unseen(character: char) -> bool {
    match character {
        '\u{ad}' | '\u{200b}' | '\u{200c}' | '\u{200d}' => true,
        '\u{200e}' | '\u{200f}' | '\u{2060}' | '\u{feff}' => true,
        _ => character.is_control(),
    }
}

/// A backslash that nothing begins with.
fn backslash(form: Form) -> &'static str {
    if form == Form::Text {
        "a string has no escape that begins like this: write \\\\ where a plain \\ is meant"
    } else {
        "a \\ stands in strings alone: a function is written fn x => e"
    }
}
