//! The sentences on what nothing tells: a type, a branch.
use crate::actions::is_return_unfinished;
use crate::scan::{Form, innermost};
use crate::spot::{
    Spot, begins_with_small, behind_word, declaration_of, is_declaration_word, is_word_part, said,
    tag_of, word_of,
};
use std::alloc::{AllocError, Global};

/// What is told of a shape that no branch takes.
pub(crate) fn inexhaustive(
    alloc: Global,
    shape: &str,
    spot: &Spot<'_>,
) -> Result<String, AllocError> {
    let shown = shown_shape(alloc, shape)?;
    missed(alloc, shown.as_str(), remedy_of(shape, spot.rest))
}

/// A shape that no branch takes, and what is to be done.
fn missed(alloc: Global, shape: &str, remedy: &str) -> Result<String, AllocError> {
    said(alloc, &["no branch takes ", shape, remedy])
}

/// A shape as it is told, with words for characters that can't be seen.
fn shown_shape(alloc: Global, shape: &str) -> Result<String, AllocError> {
    let mut shown = String::new(alloc);
    for character in shape.chars() {
        show_character(alloc, &mut shown, character)?;
    }
    Ok(shown)
}

/// Shows a character of a shape: as its escape, or by its number, where it can't be seen.
fn show_character(alloc: Global, shown: &mut String, character: char) -> Result<(), AllocError> {
    match character {
        '\0' => shown.push_str("<NUL>"),
        '\n' => shown.push_str("\\n"),
        '\r' => shown.push_str("\\r"),
        '\t' => shown.push_str("\\t"),
        _ if character.is_control() => {
            shown.push_str("<character ")?;
            shown.push_str((character as u32).to_string(alloc)?.as_str())?;
            shown.push_str(">")
        }
        _ => shown.push(character),
    }
}

/// What is to be done for a shape that no branch takes, by the shape and the text from the match on.
fn remedy_of(shape: &str, rest: &str) -> &'static str {
    if is_literal(shape) {
        ", and there are more like it: add a last branch _ => .."
    } else if shape.contains('"') {
        ", and there are more like it: write _ for the text, or add a last branch _ => .."
    } else if has_number(shape) {
        ", and there are more like it: write _ for the number, or add a last branch _ => .."
    } else if declaration_of(rest).contains("=> case ") {
        ": add one, or does an inner case without ( ) have it?"
    } else {
        ": add one for it"
    }
}

/// Whether a shape is a number or a string.
fn is_literal(shape: &str) -> bool {
    shape.starts_with('"') || is_number(shape)
}

/// Whether a text begins as a number does.
fn is_number(text: &str) -> bool {
    text.starts_with('-') || text.starts_with(|c: char| c.is_ascii_digit())
}

/// Whether a number stands in a shape, other than as the name of a field.
fn has_number(shape: &str) -> bool {
    let mut behind_number = false;
    for word in shape.split(' ') {
        if behind_number && word != "=" {
            return true;
        }
        behind_number = is_number(word);
    }
    behind_number
}

/// What is told of a type that is left open.
pub(crate) fn unsolved(alloc: Global, spot: &Spot<'_>) -> Result<String, AllocError> {
    let name = word_of(spot.rest);
    if is_input(tag_of(spot.rest)) {
        return said(
            alloc,
            &["nothing here tells the field of this input: write it, as in <textbox{#Name}/>"],
        );
    }
    if spot.rest.starts_with("[]") {
        return said(
            alloc,
            &["nothing here tells the type of the items: write it, as in ([] : list int)"],
        );
    }
    if name == "None" {
        return said(
            alloc,
            &["nothing here tells of what type it could be: write it, as in (None : option int)"],
        );
    }
    if is_return_unfinished(spot.rest) {
        return said(
            alloc,
            &[
                "nothing here tells the type: is a ; missing behind this line, so that the next counts as an argument?",
            ],
        );
    }
    if is_parameter(alloc, spot)? {
        return said(
            alloc,
            &["nothing here tells the type of this parameter: write it, as in (x : int)"],
        );
    }
    if name == "return" {
        return said(
            alloc,
            &[
                "nothing here tells the type: has this return more than one value behind it, or none?",
            ],
        );
    }
    if begins_with_small(name) && is_declared(spot, name) {
        return said(
            alloc,
            &[
                "nothing here tells the type: write it, as in (e : t), or what ",
                name,
                " gives where it is declared",
            ],
        );
    }
    said(
        alloc,
        &["nothing here tells the type: write it, as in (e : t)"],
    )
}

/// Whether a line of the module declares something of this name.
fn is_declared(spot: &Spot<'_>, name: &str) -> bool {
    spot.before
        .lines()
        .any(|line| declares(line.trim_start(), name))
        || spot
            .rest
            .lines()
            .any(|line| declares(line.trim_start(), name))
}

/// Whether a line begins with a word that declares this name.
fn declares(line: &str, name: &str) -> bool {
    let word = word_of(line);
    (word == "and" || is_declaration_word(word)) && word_of(behind_word(line)) == name
}

/// Whether an element is an input, which names its field in braces.
fn is_input(name: &str) -> bool {
    match name {
        "textbox" | "textarea" | "password" | "hidden" | "checkbox" => true,
        _ => false,
    }
}

/// Whether a parameter stands at a place.
fn is_parameter(alloc: Global, spot: &Spot<'_>) -> Result<bool, AllocError> {
    if spot.rest.starts_with('_') {
        return Ok(false);
    }
    if is_behind_fn(spot.before) {
        return Ok(true);
    }
    let open = innermost(alloc, spot.before)?;
    Ok(open.form == Form::Head)
}

/// Whether a parameter may follow where a text ends, behind a `fn` and other parameters of it.
fn is_behind_fn(before: &str) -> bool {
    match before.rsplit_once("fn") {
        Some((front, heads)) => !front.ends_with(|c: char| is_word_part(c))
            && heads.starts_with(|c: char| c.is_whitespace())
            && !heads.contains("=>")
            && !heads.contains("*)")
            && !heads.contains('"'),
        None => false,
    }
}
