//! The sentences on places at which no module goes on as this one does.
use crate::actions::of_actions;
use crate::place::place_of;
use crate::reserved::no_name;
use crate::scan::{Form, Open, innermost};
use crate::spot::{Spot, begins_line, is_declaration_word, said, tag_of, word_of};
use crate::written::{
    is_colon, is_typed, is_unclosed, of_head, of_type_parameter, other_code, other_sign,
};
use std::alloc::{AllocError, Global};

/// What is told of a place that no module has.
pub(crate) fn syntax_sentence(alloc: Global, spot: &Spot<'_>) -> Result<String, AllocError> {
    if spot.file.ends_with(".urs") {
        return said(
            alloc,
            &["no interface has this at this place: its lines are val NAME : TYPE"],
        );
    }
    let open = innermost(alloc, spot.before)?;
    if open.form == Form::Element
        && let Some(inner) = spot.rest.strip_prefix("</")
    {
        return closing_name(alloc, spot.before, open, word_of(inner));
    }
    match no_name(alloc, spot, open.form)? {
        Some(sentence) => Ok(sentence),
        None => of_form(alloc, spot, open),
    }
}

/// What is told of a place in an open form.
fn of_form(alloc: Global, spot: &Spot<'_>, open: Open) -> Result<String, AllocError> {
    let text = spot.before.get(open.from..).unwrap_or("");
    let outer = innermost(alloc, spot.before.get(..open.from).unwrap_or(""))?;
    let around = of_outer(spot, open.form, outer.form, text);
    if !around.is_empty() {
        return said(alloc, &[around]);
    }
    if outer.form == Form::Head && is_unclosed(spot.rest, open.form, text) {
        return lacking(alloc, spot, open);
    }
    if open.form == Form::Round && is_in_unclosed(spot, outer) {
        return lacking(alloc, spot, outer);
    }
    match plain_syntax(spot, open.form, text) {
        Some(sentence) => said(alloc, &[sentence]),
        None => lacking(alloc, spot, open),
    }
}

/// What is told of a place in a form that has this text and stands in another one, or nothing.
fn of_outer(spot: &Spot<'_>, form: Form, outer: Form, text: &str) -> &'static str {
    if form == Form::Head && outer == Form::Module && is_surplus(spot) {
        SENTENCE_OF_CLOSER
    } else if form == Form::Square && outer == Form::Head {
        of_type_parameter(spot.rest, text)
    } else {
        ""
    }
}

/// Whether what closes a form stands here for the second time.
fn is_surplus(spot: &Spot<'_>) -> bool {
    let closer = closer(spot);
    !closer.is_empty() && spot.before.trim_end().ends_with(closer)
}

/// Whether a name and its type stand in a form around a bracket, where a `:` shows that it lacks its own end.
fn is_in_unclosed(spot: &Spot<'_>, outer: Open) -> bool {
    is_colon(spot.rest) && is_typed(outer.form, spot.before.get(outer.from..).unwrap_or(""))
}

/// The line of a byte of a text.
fn line_of(text: &str, at: usize) -> usize {
    if text.is_char_boundary(at) {
        place_of(text, at).line
    } else {
        1
    }
}

/// A closing tag with another name than that of the element.
fn closing_name(alloc: Global, before: &str, open: Open, name: &str) -> Result<String, AllocError> {
    let line = line_of(before, open.from).to_string(alloc)?;
    let element = tag_of(before.get(open.from..).unwrap_or(""));
    said(
        alloc,
        &[
            "</",
            name,
            "> stands here, but the element ",
            element,
            " of line ",
            line.as_str(),
            " isn't closed before",
        ],
    )
}

/// What a form that is open lacks at a place.
pub(crate) fn lacking(alloc: Global, spot: &Spot<'_>, open: Open) -> Result<String, AllocError> {
    let line = line_of(spot.before, open.from).to_string(alloc)?;
    let text = spot.before.get(open.from..).unwrap_or("");
    lack(
        alloc,
        sort_of(open.form),
        opening_of(open.form, text),
        line.as_str(),
        lack_of(open.form),
        bound_of(spot.rest),
    )
}

/// A form of a line, and what it lacks before some bound.
fn lack(
    alloc: Global,
    sort: &str,
    opening: &str,
    line: &str,
    lack: &str,
    bound: &str,
) -> Result<String, AllocError> {
    said(alloc, &[sort, opening, " of line ", line, " ", lack, bound])
}

/// Before what a form lacks something, by the text from its place on.
fn bound_of(rest: &str) -> &'static str {
    if rest.is_empty() {
        " before the module's end"
    } else {
        " before this"
    }
}

/// What sort of form is open.
fn sort_of(form: Form) -> &'static str {
    match form {
        Form::Tag => "the tag <",
        Form::Element => "the element ",
        _ => "the ",
    }
}

/// How a form begins that is open, and with which the text begins.
fn opening_of(form: Form, text: &str) -> &str {
    match form {
        Form::Round => "(",
        Form::Square => "[",
        Form::Curly => "{",
        Form::Tag | Form::Element => tag_of(text),
        _ => word_of(text),
    }
}

/// What a form that is open has to have.
fn lack_of(form: Form) -> &'static str {
    match form {
        Form::Head => "has no =",
        Form::Let => "has no in",
        Form::LetIn => "has no end",
        Form::If => "has no then",
        Form::IfThen => "has no else",
        Form::Case => "has no of",
        Form::Tag => "has no >",
        _ => "isn't closed",
    }
}

/// What a form that is open goes on or ends with.
fn awaited(form: Form) -> &'static str {
    match form {
        Form::Round => ")",
        Form::Square => "]",
        Form::Curly => "}",
        Form::Let => "in",
        Form::LetIn => "end",
        Form::If => "then",
        Form::IfThen => "else",
        Form::Case => "of",
        _ => "",
    }
}

/// The sign or word at a place, where some form goes on or ends with it.
fn closer<'a>(spot: &Spot<'a>) -> &'a str {
    if spot.rest.starts_with(')') || spot.rest.starts_with(']') || spot.rest.starts_with('}') {
        return spot.rest.get(..1).unwrap_or("");
    }
    if spot.rest.starts_with("</") || spot.before.ends_with('<') && spot.rest.starts_with('/') {
        return "</";
    }
    let word = word_of(spot.rest);
    match word {
        "in" | "end" | "then" | "else" | "of" => word,
        _ => "",
    }
}

/// A sentence on what stands at a place; none, where the innermost open form, of this text, lacks something.
fn plain_syntax(spot: &Spot<'_>, form: Form, text: &str) -> Option<&'static str> {
    let written = other_sign(spot, form, text);
    if !written.is_empty() {
        return Some(written);
    }
    let between = of_actions(spot, form, text);
    if !between.is_empty() {
        return Some(between);
    }
    if spot.rest.is_empty() || is_declaration_word(word_of(spot.rest)) {
        return of_end(spot.rest, form);
    }
    let closer = closer(spot);
    if !closer.is_empty() {
        return of_closer(closer, form);
    }
    of_sign(spot, form, text)
}

/// The module, or a declaration, ends too early.
fn of_end(rest: &str, form: Form) -> Option<&'static str> {
    if form != Form::Module {
        None
    } else if rest.is_empty() {
        Some("the module ends here, but something has to follow")
    } else {
        Some("a declaration begins here, but the one before it isn't at its end")
    }
}

/// A form ends or goes on too early.
fn of_closer(closer: &str, form: Form) -> Option<&'static str> {
    if form == Form::Module {
        Some(SENTENCE_OF_CLOSER)
    } else if closer == awaited(form) {
        Some("something has to stand before this, and is missing or isn't at its end")
    } else {
        None
    }
}

/// What is told of a sign or word that closes a form, where none is open.
const SENTENCE_OF_CLOSER: &str =
    "no bracket, let, if, case or element is open here that goes on or ends with this";

/// Another sign at a place.
fn of_sign(spot: &Spot<'_>, form: Form, text: &str) -> Option<&'static str> {
    if is_list(spot, form) {
        return Some("is this a list? It is written with ::, as in 1 :: 2 :: 3 :: []");
    }
    match form {
        Form::Case if spot.rest.starts_with("=>") || spot.rest.starts_with('|') => None,
        Form::Tag => Some(
            "a tag has attributes with values, as in title=\"a\", and ends with > or />",
        ),
        Form::Head => Some(of_sign_in_head(spot.rest, text)),
        Form::Element => Some(SENTENCE_OF_SIGN),
        _ => Some(of_sign_in_code(spot, form, text)),
    }
}

/// What is told of a sign of which nothing else is known.
const SENTENCE_OF_SIGN: &str = "no module has this at this place: docs/LANGUAGE.md shows each form";

/// Another sign in the head of a declaration, which has this text.
fn of_sign_in_head(rest: &str, text: &str) -> &'static str {
    let known = of_head(text, rest);
    if !known.is_empty() {
        known
    } else if rest.starts_with('=') {
        SENTENCE_OF_SIGN
    } else {
        "the head of a declaration doesn't go on like this: is its = missing before?"
    }
}

/// Another sign outside of heads and of markup.
fn of_sign_in_code(spot: &Spot<'_>, form: Form, text: &str) -> &'static str {
    let known = other_code(spot, form, text);
    if !known.is_empty() {
        known
    } else if spot.rest.starts_with("->") {
        "-> stands in types alone: a branch is written p => e, and a function fn x => e"
    } else if form == Form::Module && is_no_declaration(spot) {
        "a declaration begins with fun, val, type, con, datatype, table, sequence or cookie"
    } else {
        SENTENCE_OF_SIGN
    }
}

/// Whether a line begins here, with a word that begins no declaration, or the module.
fn is_no_declaration(spot: &Spot<'_>) -> bool {
    spot.before.trim_end().is_empty() || begins_line(spot.before) && !word_of(spot.rest).is_empty()
}

/// Whether this may be meant as a list.
fn is_list(spot: &Spot<'_>, form: Form) -> bool {
    let before = spot.before.trim_end();
    form == Form::Square
        && !before.ends_with("{[")
        && (spot.rest.starts_with(',') || before.ends_with('[') && begins_item(spot.rest))
}

/// Whether an item of a list may begin here.
fn begins_item(rest: &str) -> bool {
    rest.starts_with('"') || rest.starts_with('(') || !word_of(rest).is_empty()
}
