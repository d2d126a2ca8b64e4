//! The sentences on what other languages write otherwise.
use crate::actions::ends_operand;
use crate::scan::Form;
use crate::spot::{
    Spot, begins_line, begins_with_capital, begins_with_small, behind_word, in_datatype,
    is_declaration_word, is_word_part, last_line, last_word, tag_of, word_of,
};

/// What is told of a comment as other languages have them.
pub(crate) const SENTENCE_OF_COMMENT: &str = "a comment stands between (* and *)";

/// What is written otherwise than it is at a place, or nothing. `text` is that of the innermost open form.
pub(crate) fn other_sign(spot: &Spot<'_>, form: Form, text: &str) -> &'static str {
    let sign = of_equals(spot);
    if !sign.is_empty() {
        sign
    } else if is_comment(spot, form) {
        SENTENCE_OF_COMMENT
    } else if form != Form::Element && spot.before.trim_end().ends_with(';') {
        behind_semicolon(spot, form)
    } else if form == Form::IfThen && has_short_else(text) {
        "else if is written as two words"
    } else {
        of_word(spot, form)
    }
}

/// What begins no action, behind a `;`.
fn behind_semicolon(spot: &Spot<'_>, form: Form) -> &'static str {
    if is_declaration_word(word_of(spot.rest)) && !begins_line(spot.before) && form != Form::Let {
        "no declaration stands among actions: write x <- return e; or let val x = e in .. end around those that follow"
    } else {
        "a ; stands between two actions, and none begins here: take away the ; before this"
    }
}

/// A `=` or a `!` that is written otherwise, or nothing.
fn of_equals(spot: &Spot<'_>) -> &'static str {
    if spot.rest.starts_with('!') {
        "no term begins with a !: the opposite of b is written not b, and unequal is a <> b"
    } else if !spot.rest.starts_with('=') {
        ""
    } else if spot.before.ends_with('=') {
        "equality is written with one =, as in a = b"
    } else if spot.before.ends_with('/') {
        "unequal is written <>, as in a <> b"
    } else if spot.before.ends_with(':') {
        "a name and its value have a = between them, and no :="
    } else {
        ""
    }
}

/// Whether a comment of another language begins at a place, or one character before it.
fn is_comment(spot: &Spot<'_>, form: Form) -> bool {
    if is_within_markup(form) {
        return false;
    }
    if spot.before.ends_with('/') {
        return spot.rest.starts_with('/') || spot.rest.starts_with('*');
    }
    form == Form::Module && begins_line(spot.before) && begins_comment(spot.rest)
}

/// Whether a form is one of markup.
fn is_within_markup(form: Form) -> bool {
    form == Form::Tag || form == Form::Element
}

/// Whether a text begins as a comment does in other languages.
fn begins_comment(rest: &str) -> bool {
    rest.starts_with("//")
        || rest.starts_with("/*")
        || rest.starts_with("--")
        || rest.starts_with("{-")
        || rest.starts_with('#')
}

/// Whether a text has a word that other languages have for `else if`.
fn has_short_else(text: &str) -> bool {
    text.split_whitespace().any(|word| word == "elseif" || word == "elsif" || word == "elif")
}

/// A word that stands for another one, or nothing.
fn of_word(spot: &Spot<'_>, form: Form) -> &'static str {
    if word_of(spot.rest) == "and" && in_datatype(spot.before) {
        return "no datatypes are joined by and: the end of docs/LANGUAGE.md says what is left out";
    }
    if begins_line(spot.before) {
        return "";
    }
    match word_of(spot.rest) {
        "and" => "two conditions are joined by && (in SQL by AND): and begins a declaration",
        "fun" if !ends_operand(spot.before) =>
            "fun begins a declaration: a function as a value is written fn x => e",
        _ if !is_within_markup(form) && begins_comparison(spot.rest) && has_or(spot.before) =>
            "two conditions are joined by ||, and or is a name like others",
        _ => "",
    }
}

/// Whether a text begins with a sign that compares.
fn begins_comparison(rest: &str) -> bool {
    rest.starts_with('<') && !rest.starts_with("<-")
        || rest.starts_with('>')
        || rest.starts_with('=') && !rest.starts_with("=>")
}

/// Whether the last line of a text has the name `or`, and no string behind it.
fn has_or(before: &str) -> bool {
    match last_line(before).rsplit_once(" or ") {
        Some((_, behind)) => !behind.contains('"'),
        None => false,
    }
}

/// What is told of a sign or a word in code, but for heads, that is written otherwise; or nothing.
pub(crate) fn other_code(spot: &Spot<'_>, form: Form, text: &str) -> &'static str {
    if is_markup(spot) {
        "is this markup? It begins with <xml>, as in <xml><body>..</body></xml>"
    } else if is_colon(spot.rest) {
        of_colon(spot.before, form)
    } else if form == Form::Round && begins_next(spot.rest) && has_type(text) {
        "what has a type behind a : stands in brackets of its own, as in (x : int) (y : int)"
    } else if form == Form::Let && text.trim_end() == "let" {
        "behind let stands val or fun, as in let val x = 1 in x end"
    } else {
        ""
    }
}

/// Whether a tag is likely to begin at a place, or to be what was read as a comparison before it.
fn is_markup(spot: &Spot<'_>) -> bool {
    if !tag_of(spot.rest).is_empty() {
        return !ends_operand(spot.before);
    }
    match last_line(spot.before).rsplit_once('<') {
        Some((_, tag)) => begins_with_small(tag)
            && (spot.rest.starts_with('>') || spot.rest.starts_with('=') && tag.contains(' ')),
        None => false,
    }
}

/// A `:` where none may stand.
fn of_colon(before: &str, form: Form) -> &'static str {
    if form == Form::Module && in_datatype(before) {
        "what a constructor holds stands behind of, as in A of int"
    } else if form == Form::Curly && begins_with_capital(last_word(before.trim_end())) {
        "the value of a field stands behind a =, as in {Cents = 450}"
    } else {
        "a term and its type stand in brackets, as in (e : t), and between an item and its list stands ::"
    }
}

/// Whether a text begins with a `:` alone.
pub(crate) fn is_colon(rest: &str) -> bool {
    rest.starts_with(':') && !rest.starts_with("::")
}

/// Whether a bracket in the head of a declaration, which has this text, is likely to lack its end before a place.
pub(crate) fn is_unclosed(rest: &str, form: Form, text: &str) -> bool {
    match form {
        Form::Round => begins_behind_head(rest) && is_typed(form, text),
        Form::Square => text.contains("::") && (begins_behind_head(rest) || rest.starts_with('(')),
        Form::Curly => begins_behind_head(rest) && last_field(text).contains(':'),
        _ => false,
    }
}

/// What is told in a square bracket that has this text and stands in the head of a declaration, or nothing.
pub(crate) fn of_type_parameter(rest: &str, text: &str) -> &'static str {
    if rest.starts_with(',') {
        "each type that a function takes stands in brackets of its own, as in [a] [b]"
    } else if is_colon(rest) && !text.contains(':') {
        "a type and its kind have a :: between them, or a ::: where each call finds the type"
    } else {
        ""
    }
}

/// Whether a text begins with a sign that stands behind the parameters of a declaration.
fn begins_behind_head(rest: &str) -> bool {
    is_colon(rest) || rest.starts_with('=') && !rest.starts_with("=>")
}

/// Whether a text begins with a bracket in which a name and its type stand.
pub(crate) fn is_typed(form: Form, text: &str) -> bool {
    match text.split_once(':') {
        Some((front, behind)) => form == Form::Round
            && front
                .trim_start_matches('(')
                .trim()
                .chars()
                .all(|c| is_word_part(c))
            && !behind.starts_with(':'),
        None => false,
    }
}

/// The last field of a record, or all of it where it has no comma.
fn last_field(text: &str) -> &str {
    match text.rsplit_once(',') {
        Some((_, field)) => field,
        None => text,
    }
}

/// Whether a text begins with a sign between two of something.
fn begins_next(rest: &str) -> bool {
    rest.starts_with(',') || rest.starts_with(';')
}

/// Whether a type stands in the bracket with which a text begins, and no bracket behind it.
fn has_type(text: &str) -> bool {
    match text.rsplit_once('(') {
        Some((_, inner)) => inner.contains(':') && !inner.contains("::") && !inner.contains(')'),
        None => false,
    }
}

/// What is told of the head of a declaration that has this text, or nothing.
pub(crate) fn of_head(text: &str, rest: &str) -> &'static str {
    let name = behind_word(text).trim_end();
    match word_of(text) {
        "val" if name.is_empty() || rest.starts_with(',') =>
            "behind val stands one name, and no pattern: case takes a pair or a record apart",
        "val" if is_plain_name(name) && begins_parameter(rest) =>
            "val has no parameters, and fun has: is fun meant, or is a = missing before this?",
        "type" | "con" if is_plain_name(name) && begins_parameter(rest) =>
            "is a = missing before this? A type's parameters stand behind it, as in con pair = fn t :: Type => t * t",
        "fun" if is_plain_name(name) && (rest.starts_with(':') || rest.starts_with('=')) =>
            "a function has parameters before this, as in fun twice (n : int), or () where it needs none",
        _ => "",
    }
}

/// Whether a text is a name alone.
fn is_plain_name(text: &str) -> bool {
    begins_with_small(text) && text != "rec" && word_of(text).len() == text.len()
}

/// Whether a parameter may begin as a text does.
fn begins_parameter(rest: &str) -> bool {
    begins_with_small(rest)
        || rest.starts_with('(')
        || rest.starts_with('[')
        || rest.starts_with('_')
}
